//! Cells side by side.

ghost use Rattle.std.specs.Prelude.{◌≡◌, ◌+◌, ◌*◌, ◌^◌, ◌<◌, ◌↔◌, IsSome, IfSome};

use crate::cell::Cell;
use crate::word::Word;
use std::marker::PhantomData;

/// So many cells of one type, one right after the other.
#[derive(Debug, Drop)]
pub struct Row<T> {
    pub(crate) first: u64,
    pub(crate) count: u64,
    pub(crate) of: PhantomData<T>,
    ghost within: { first + 8 * count < 2 ^ 64 },
}

impl<T: Word> Row<T> {
    /// How many cells there are.
    pub fn count(&self) -> u64
        ensures { result ≡ self.now.count }
    {
        self.count
    }

    /// A cell by its number, from 0.
    pub fn at(&self, number: u64) -> Cell<T>
        requires { number < self.now.count }
        ensures { result.place ≡ self.now.first + 8 * number }
    {
        let place = self.first + 8 * number;
        Cell {
            place,
            of: PhantomData,
        }
    }

    /// The same, where there is such a cell.
    pub fn get(&self, number: u64) -> Option<Cell<T>>
        ensures there { IsSome result ↔ (number < self.now.count) }
        ensures place { IfSome result (λ cell. cell.place ≡ self.now.first + 8 * number) }
    {
        if number < self.count {
            Some(self.at(number))
        } else {
            None
        }
    }
}
