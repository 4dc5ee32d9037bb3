//! The value log.

ghost use Rattle.std.specs.Prelude.{◌≡◌, ◌+◌, ◌-◌, ◌^◌, ◌<◌, ◌≤◌, ℕ, List, [], ◌∷◌, ◌++◌, IfSome, IsOk, None, OnOk, OnErr, Some, length, slice_get, take, IsTrue, ◌↔◌};
ghost use Rattle.itm_types.specs.LogRows.{value_of, AreSingle};
ghost use Rattle.itm_types.specs.Memory.{Agrees};
ghost use Rattle.value_log.specs.Log.{HasRoomBehind};

use crate::index::Index;
use crate::rows::Rows;
use itm_types::LogRow;
use std::alloc::{AllocError, Global};
use std::marker::Model;

/// So many rows stand in the log itself, and are looked through; a log with more has an index, and room for whole blocks of as
/// many.
pub const INLINE_ROWS: usize = 8;

/// The words that a transaction has read from the memory, each with the value that it found, in the order of first
/// reading. No word has two rows.
#[derive(Debug, Drop)]
pub struct ValueLog {
    rows: Rows,
    index: Index,
}

impl Model for ValueLog {
    ghost use Rattle.std.specs.Prelude.{◌-◌, length};
    ghost use Rattle.value_log.specs.Log.{Log};
    ghost use Rattle.value_log.specs.Index.{IsKept};

    ghost Value = { Log };

    ghost view = { λ l. record { rows = l.rows.items; room = l.rows.capacity - length l.rows.items } };

    ghost invariant = { λ l. IsKept l.rows.items l.rows.capacity l.index.last.items l.index.before.items };
}

impl ValueLog {
    /// The value log of a transaction that has read nothing. Takes no memory.
    pub fn new(alloc: Global) -> ValueLog
        ensures { result ≡ record { rows = []; room = 8 } }
    {
        ValueLog {
            rows: Rows::new(alloc),
            index: Index::none(alloc),
        }
    }

    /// How many rows there are.
    pub fn len(&self) -> usize
        ensures len { result ≡ length self.now.rows }

        // Of every log: no two rows have one word.
        ensures single { AreSingle self.now.rows }
        ensures few { length self.now.rows < 2 ^ 32 }
    {
        self.rows.len()
    }

    /// The row at a place, counted upwards from 0.
    pub fn row(&self, place: usize) -> LogRow
        requires { place < length self.now.rows }
        ensures { slice_get self.now.rows place ≡ Some result }
    {
        self.rows.row(place)
    }

    /// The value of the word's row, if it has one.
    #[inline(always)]
    pub fn find(&self, word: u32) -> Option<u64>
        ensures value { result ≡ value_of word self.now.rows }

        // In every memory that agrees with the log, the word has that value.
        ensures word { IfSome result (λ value. (m : List ℕ) → Agrees m self.now.rows → slice_get m word ≡ Some value) }
    {
        if self.index.is_made() {
            self.index.find(self.rows.as_slice(), word)
        } else {
            scan(self.rows.as_slice(), word)
        }
    }

    /// Whether there is room for one more row.
    #[inline(always)]
    pub fn has_room(&self) -> bool
        ensures { IsTrue result ↔ (0 < self.now.room) }
    {
        self.rows.len() < self.rows.capacity()
    }

    /// Whether there is room for one more row by the number of rows alone. (So who knows that number knows it still where the log
    /// is out of sight.)
    #[inline(always)]
    pub fn has_room_behind(&self) -> bool
        ensures behind { IsTrue result ↔ HasRoomBehind (length self.now.rows) }
        ensures room { IsTrue result → 0 < self.now.room }
    {
        self.rows.have_room_behind()
    }

    /// Makes room for so many more rows.
    #[inline(always)]
    pub fn reserve(&mut self, more: usize) -> Result<(), AllocError>
        ensures rows { self.new.rows ≡ self.old.rows }
        ensures ok { OnOk result (more ≤ self.new.room) }
        ensures err { OnErr result (self.new ≡ self.old) }

        // No room is lost, and where there is enough, it is not refused.
        ensures kept { self.old.room ≤ self.new.room }
        ensures has_room { more ≤ self.old.room → IsOk result }
    {
        if more <= self.rows.capacity() - self.rows.len() {
            return Ok(());
        }
        self.grow(more)
    }

    /// The same, where there is not enough room.
    #[cold]
    #[inline(never)]
    fn grow(&mut self, more: usize) -> Result<(), AllocError>
        requires { self.old.room < more }
        ensures rows { self.new.rows ≡ self.old.rows }
        ensures ok { OnOk result (more ≤ self.new.room) }
        ensures err { OnErr result (self.new ≡ self.old) }
        ensures kept { self.old.room ≤ self.new.room }
    {
        let len = self.rows.len();
        let wanted = len.checked_add(more).ok_or(AllocError)?;
        let rows = wanted.checked_next_power_of_two().ok_or(AllocError)?;
        self.index.reserve(self.rows.as_slice(), rows)?;
        self.rows.reserve_exact(rows - len)
    }

    /// Adds the row of a word that has none at the end, where there is room. Takes no memory.
    pub fn add(&mut self, row: LogRow)
        requires room { 0 < self.old.room }
        requires word { row.word < 2 ^ 32 - 1 }
        requires first { value_of row.word self.old.rows ≡ None }
        ensures rows { self.new.rows ≡ self.old.rows ++ row ∷ [] }
        ensures room { self.new.room + 1 ≡ self.old.room }
        ensures single { AreSingle self.new.rows }
    {
        self.index.note(row.word, self.rows.len());
        self.rows.push_reserved(row);
    }

    /// Keeps the first rows, so many of them, and all room. Takes no memory.
    #[inline(always)]
    pub fn cut(&mut self, len: usize)
        ensures rows { self.new.rows ≡ take len self.old.rows }
        ensures room { self.new.room + length self.new.rows ≡ self.old.room + length self.old.rows }
    {
        if len < self.rows.len() {
            self.rows.truncate(len);
            self.index.keep(self.rows.as_slice());
        }
    }

    /// Forgets all that was read, and keeps its room. Takes no memory.
    #[inline(always)]
    pub fn clear(&mut self)
        ensures rows { self.new.rows ≡ [] }
        ensures room { self.new.room ≡ self.old.room + length self.old.rows }
    {
        self.cut(0);
    }
}

/// The value of the word's row among these.
fn scan(rows: &[LogRow], word: u32) -> Option<u64>
    ensures { result ≡ value_of word rows.now }
{
    let row = rows.iter().find(|row| row.word == word)?;
    Some(row.value)
}
