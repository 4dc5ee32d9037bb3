//! Who has which place of a memory.

ghost use Rattle.std.specs.Prelude.{◌≡◌, ◌+◌, ◌*◌, ◌%◌, ◌<◌, ◌≤◌, IfSome, IfNone};
ghost use Rattle.itm_types.specs.declared.limits.TheConstants.{MAX_MEMORY};

use crate::cell::Cell;
use crate::row::Row;
use crate::word::Word;
use itm_types::MAX_MEMORY;
use std::marker::PhantomData;

/// Gives out the places of a memory one after the other, so no two cells have a byte in common.
#[derive(Debug, Drop)]
pub struct Places {
    size: u64,
    ghost whole: { size % 8 ≡ 0 },
    ghost few: { size ≤ MAX_MEMORY },
}

impl Places {
    /// Nobody has a place yet.
    pub fn new() -> Places
        ensures { result.size ≡ 0 }
    {
        Places { size: 0 }
    }

    /// How many bytes the memory has to have for all that was given out.
    pub fn size(&self) -> usize
        ensures size { result ≡ self.now.size }
        ensures whole { result % 8 ≡ 0 }
        ensures few { result ≤ MAX_MEMORY }
    {
        self.size as usize
    }

    /// A cell behind all that were given out, or none where no memory has room for it.
    pub fn cell<T: Word>(&mut self) -> Option<Cell<T>>
        ensures place { IfSome result (λ cell. cell.place ≡ self.old.size) }
        ensures taken { IfSome result (λ cell. self.new.size ≡ self.old.size + 8) }
        ensures none { IfNone result ((MAX_MEMORY < self.old.size + 8) × (self.new.size ≡ self.old.size)) }
    {
        let place = self.take(1)?;
        Some(Cell {
            place,
            of: PhantomData,
        })
    }

    /// So many cells behind all that were given out, or none where no memory has room for them.
    pub fn row<T: Word>(&mut self, count: u64) -> Option<Row<T>>
        ensures place { IfSome result (λ row. (row.first ≡ self.old.size) × (row.count ≡ count)) }
        ensures taken { IfSome result (λ row. self.new.size ≡ self.old.size + 8 * count) }
        ensures none { IfNone result ((MAX_MEMORY < self.old.size + 8 * count) × (self.new.size ≡ self.old.size)) }
    {
        let first = self.take(count)?;
        Some(Row {
            first,
            count,
            of: PhantomData,
        })
    }

    /// The place of so many words.
    fn take(&mut self, words: u64) -> Option<u64>
        ensures place { IfSome result (λ place. place ≡ self.old.size) }
        ensures taken { IfSome result (λ place. (self.new.size ≡ self.old.size + 8 * words) × (self.new.size ≤ MAX_MEMORY)) }
        ensures none { IfNone result ((MAX_MEMORY < self.old.size + 8 * words) × (self.new.size ≡ self.old.size)) }
    {
        let left = MAX_MEMORY as u64 - self.size;
        if words > left / 8 {
            return None;
        }
        let place = self.size;
        self.size = place + 8 * words;
        Some(place)
    }
}
