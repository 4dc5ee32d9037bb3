//! Words that no thread shares any more.

ghost use Rattle.std.specs.Prelude.{◌≡◌, ◌<◌, length, slice_index};

use std::alloc::{Allocator, Global};

/// What the words were when they were closed, where they were.
#[derive(Drop)]
pub struct ClosedWords<A: Allocator = Global> {
    pub(crate) cells: Vec<u64, A>,
    ghost clocked: { 0 < length cells.items },
}

impl<A: Allocator> ClosedWords<A> {
    ghost use Rattle.std.specs.Prelude.{◌∷◌};
    ghost use Rattle.shared_words.specs.ClosedWords.{clock_in, words_in, place_in};

    /// Twice the number of commits, and one more where the clock is held.
    pub fn clock(&self) -> u64
        ensures { result ≡ clock_in self.now }
    {
        self.cells[0]
    }

    /// How many words there are.
    pub fn count(&self) -> usize
        ensures { result ≡ length (words_in self.now) }
    {
        self.cells.len() - 1
    }

    /// A word.
    pub fn word(&self, place: usize) -> u64
        requires { place < length (words_in self.now) }
        ensures { result ≡ slice_index (words_in self.now) place }
    {
        self.cells[place + 1]
    }

    /// The cells themselves, the clock first, where they were.
    pub fn into_cells(self) -> Vec<u64, A>
        ensures cells { result.items ≡ clock_in self ∷ words_in self }
        ensures place { result.ptr ≡ place_in self }
    {
        let ClosedWords { cells } = self;
        cells
    }
}
