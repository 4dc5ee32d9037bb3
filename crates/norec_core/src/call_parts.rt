//! What a call in progress is about: a begin, a read, a write, or what the clock is taken for.

ghost use Rattle.std.specs.Prelude.{◌≡◌, ◌+◌, ◌<◌, ◌≤◌, IfSome, slice_get};
ghost use Rattle.word_pieces.specs.Pieces.{IsNextPiece};
ghost use Rattle.norec_core.specs.Accesses.{parts};
ghost use Rattle.norec_core.specs.OwnAccesses.{word_of};

use itm_types::{Copying, MAX_BYTES, Props, ReadHint, Width, WriteHint};
use word_pieces::{Piece, piece_at};

/// A begin of an outermost block.
#[derive(Clone, Copy, Debug, PartialEq, Eq)]
pub struct Opening {
    pub props: Props,
    pub room: u32,
    /// An earlier try of this block got past its begin.
    pub again: bool,
}

/// What shared bytes are read for.
#[derive(Clone, Copy, Debug, PartialEq, Eq)]
pub enum Purpose {
    /// The value that a read answers.
    Value { hint: ReadHint, width: Width },
    /// A chunk of a copy's source, by its number in the order in which they are taken.
    Chunk { copying: Copying, number: u32 },
}

/// An access that reads, at one of the pieces in which its bytes lie.
#[derive(Clone, Copy, Debug, PartialEq, Eq)]
pub struct Reading {
    pub purpose: Purpose,
    pub at: u64,
    /// How many bytes are read, at most as many as the widest access has.
    pub size: u8,
    /// The number of the piece, counted upwards from 0.
    pub number: u8,
}

impl Reading {
    /// The piece, if there are as many.
    pub fn piece(self) -> Option<Piece>
        requires place { self.at ≤ MAX_BYTES }
        requires small { self.size ≤ 32 }
        ensures value { result ≡ slice_get (parts self) self.number }
        ensures next { IfSome result (IsNextPiece self.at self.size self.number) }
    {
        piece_at(self.at, self.size, self.number)
    }

    /// The access at its next piece.
    pub fn next(self) -> Reading
        requires { self.number ≤ 5 }
        ensures { result ≡ record self { number = self.number + 1 } }
    {
        Reading {
            number: self.number + 1,
            ..self
        }
    }

    /// The word of the piece.
    pub fn word(self) -> u32
        requires place { self.at ≤ MAX_BYTES }
        requires few { self.number < 5 }
        ensures { result ≡ word_of self }
    {
        (self.at / 8) as u32 + u32::from(self.number)
    }
}

/// What an open transaction takes the clock for.
#[derive(Clone, Copy, Debug, PartialEq, Eq)]
pub enum Taking {
    Commit,
    /// The transaction becomes irrevocable.
    Mode { room: u32 },
    /// And a block begins within it.
    Begin { props: Props, room: u32 },
}

/// What shared bytes are written for, in an irrevocable transaction.
#[derive(Clone, Copy, Debug, PartialEq, Eq)]
pub enum Target {
    /// The value of a write.
    Value {
        hint: WriteHint,
        width: Width,
    },
    /// A chunk of a fill, by its number.
    Fill {
        hint: WriteHint,
        to: u64,
        byte: u64,
        size: u64,
        number: u32,
    },
    /// A chunk of a copy, by its number in the order in which they are taken.
    Chunk {
        copying: Copying,
        number: u32,
    },
}

/// An access that writes, at one of the pieces in which its bytes lie, in an irrevocable transaction.
#[derive(Clone, Copy, Debug, PartialEq, Eq)]
pub struct Writing {
    pub target: Target,
    pub at: u64,
    /// How many bytes are written, at most as many as the widest access has.
    pub size: u8,
    /// The number of the piece, counted upwards from 0.
    pub number: u8,
}
