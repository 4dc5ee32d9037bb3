//! A reader and writers that fail.

use std::alloc::AllocError;
use std::io;
use std::io::{Read, Write};

/// Takes at most `most` bytes a write, so many writes. The write after them fails or takes nothing, and only that one;
/// so does a flush in its place.
#[derive(Drop)]
pub struct Meagre {
    pub taken: Vec<u8>,
    pub writes: usize,
    pub most: usize,
    pub fails: bool,
}

impl Write for Meagre {
    fn write(&mut self, buf: &[u8]) -> io::Result<usize> {
        if self.writes == 0 {
            self.writes = usize::MAX;
            return if self.fails {
                Err(io::ErrorKind::Other.into())
            } else {
                Ok(0)
            };
        }
        let n = buf.len().min(self.most);
        let (front, _) = buf.split_at(n);
        self.taken
            .extend_from_slice(front)
            .map_err(AllocError::from)?;
        self.writes -= 1;
        Ok(n)
    }

    fn flush(&mut self) -> io::Result<()> {
        if self.writes == 0 && self.fails {
            self.writes = usize::MAX;
            return Err(io::ErrorKind::Other.into());
        }
        Ok(())
    }
}

/// Takes at most five bytes a write. The write after so many good ones fails, and only that one.
#[derive(Drop)]
pub struct Failing {
    pub taken: Vec<u8>,
    pub good: usize,
    pub writes: usize,
}

impl Write for Failing {
    fn write(&mut self, buf: &[u8]) -> io::Result<usize> {
        let before = self.writes;
        self.writes = before.saturating_add(1);
        if before == self.good {
            return Err(io::ErrorKind::StorageFull.into());
        }
        let (front, _) = buf.split_at(buf.len().min(5));
        self.taken
            .extend_from_slice(front)
            .map_err(AllocError::from)?;
        Ok(front.len())
    }

    fn flush(&mut self) -> io::Result<()> {
        Ok(())
    }
}

/// Gives a text, some bytes a read, so many reads. The read after them fails, and only that one.
#[derive(Drop)]
pub struct Halting<'a> {
    pub left: &'a [u8],
    pub reads: usize,
}

impl<'a> Read for Halting<'a> {
    fn read(&mut self, buf: &mut [u8]) -> io::Result<usize> {
        if self.reads == 0 {
            self.reads = usize::MAX;
            return Err(io::ErrorKind::Other.into());
        }
        let n = buf.len().min(self.left.len()).min(7);
        let (part, _) = buf.split_at_mut(n);
        let (front, rest) = self.left.split_at(n);
        part.copy_from_slice(front);
        self.left = rest;
        self.reads -= 1;
        Ok(n)
    }
}
