//! Rows that join, each behind the last one.

ghost use Rattle.std.specs.Prelude.{◌≡◌, ◌+◌, ◌<◌, ◌≤◌, ◌++◌, [], ◌∷◌, true, false, None, OnOk, OnErr, Some, length, slice_get, take};
ghost use Rattle.write_set.specs.Rows.{lookup, AreRows};

use super::{FEW_ROWS, Rows};
use crate::row::Row;
use std::alloc::AllocError;

impl Rows {
    /// Gives a word that has no row this one, the last.
    pub(crate) fn add(&mut self, row: Row) -> Result<(), AllocError>
        requires { lookup row.word self.old.rows ≡ None }
        ensures ok { OnOk result (self.new.rows ≡ self.old.rows ++ row ∷ []) }
        ensures err { OnErr result (self.new.rows ≡ self.old.rows) }
    {
        if self.add_again(row) {
            return Ok(());
        }
        self.add_afar(row)
    }

    /// The same, where the row behind the last one was the word's; else nothing is done.
    #[inline(always)]
    pub(crate) fn add_again(&mut self, row: Row) -> bool
        ensures none { result ≡ false → self.new ≡ self.old }
        ensures added { result ≡ true → (lookup row.word self.old.rows ≡ None) × (self.new.rows ≡ self.old.rows ++ row ∷ []) }
        ensures rows { AreRows self.old.rows }
    {
        let place = self.len;
        if place >= self.list.len() || (place >= FEW_ROWS && place >= self.indexed) {
            return false;
        }
        if self.list[place].word != row.word {
            return false;
        }
        self.list[place] = row;
        self.len = place + 1;
        true
    }

    /// The same, where there are few rows and this one has room; else nothing is done.
    #[inline(always)]
    pub(crate) fn add_few(&mut self, row: Row) -> bool
        requires { lookup row.word self.old.rows ≡ None }
        ensures none { result ≡ false → self.new.rows ≡ self.old.rows }
        ensures added { result ≡ true → self.new.rows ≡ self.old.rows ++ row ∷ [] }
    {
        if self.len >= FEW_ROWS || self.len == self.list.capacity() {
            return false;
        }
        self.push_few(row).is_ok()
    }

    /// The same, where there are few rows.
    #[inline(always)]
    fn push_few(&mut self, row: Row) -> Result<(), AllocError>
        requires none { lookup row.word self.old.rows ≡ None }
        requires few { length self.old.rows < 8 }
        ensures ok { OnOk result (self.new.rows ≡ self.old.rows ++ row ∷ []) }
        ensures err { OnErr result (self.new.rows ≡ self.old.rows) }
    {
        let place = self.len;
        put_behind(&mut self.list, place, row)?;
        self.indexed = self.indexed.min(place);
        self.len = place + 1;
        Ok(())
    }

    /// The same, where there are more rows than few, the index has the word here, and the row has room; else nothing is done.
    #[inline(always)]
    pub(crate) fn add_at(&mut self, at: usize, row: Row) -> bool
        requires here { slice_get self.old.words at ≡ Some row.word }
        requires none { lookup row.word self.old.rows ≡ None }
        requires many { 8 < length self.old.rows }
        ensures none { result ≡ false → self.new.rows ≡ self.old.rows }
        ensures added { result ≡ true → self.new.rows ≡ self.old.rows ++ row ∷ [] }
    {
        if self.len == self.list.capacity() {
            return false;
        }
        self.push_at(at, row).is_ok()
    }

    /// The same, with memory where it has no room.
    #[inline(always)]
    fn push_at(&mut self, at: usize, row: Row) -> Result<(), AllocError>
        requires here { slice_get self.old.words at ≡ Some row.word }
        requires none { lookup row.word self.old.rows ≡ None }
        requires many { 8 < length self.old.rows }
        ensures ok { OnOk result (self.new.rows ≡ self.old.rows ++ row ∷ []) }
        ensures err { OnErr result (self.new.rows ≡ self.old.rows) }
    {
        let place = self.len;
        put_behind(&mut self.list, place, row)?;
        self.index[at] = place;
        self.indexed = place + 1;
        self.len = place + 1;
        Ok(())
    }

    /// The same, where the row behind the last one is not known to be the word's.
    #[inline(never)]
    pub(crate) fn add_afar(&mut self, row: Row) -> Result<(), AllocError>
        requires { lookup row.word self.old.rows ≡ None }
        ensures ok { OnOk result (self.new.rows ≡ self.old.rows ++ row ∷ []) }
        ensures err { OnErr result (self.new.rows ≡ self.old.rows) }
    {
        if self.len < FEW_ROWS {
            return self.push_few(row);
        }
        self.index_rows()?;
        self.push_indexed(row)
    }

    /// The same, where the index tells the places of all rows.
    fn push_indexed(&mut self, row: Row) -> Result<(), AllocError>
        requires none { lookup row.word self.old.rows ≡ None }
        requires all { length self.old.rows ≤ self.old.indexed }
        ensures ok { OnOk result (self.new.rows ≡ self.old.rows ++ row ∷ []) }
        ensures err { OnErr result (self.new.rows ≡ self.old.rows) }
    {
        let place = self.len;
        put_behind(&mut self.list, place, row)?;
        self.indexed = place;
        self.index.insert(row.word, place)?;
        self.indexed = place + 1;
        self.len = place + 1;
        Ok(())
    }

    /// Lets the index tell the places of all rows.
    fn index_rows(&mut self) -> Result<(), AllocError>
        ensures rows { self.new.rows ≡ self.old.rows }
        ensures all { OnOk result (length self.new.rows ≤ self.new.indexed) }
    {
        for _ in self.indexed..self.len {
            self.index_next()?;
        }
        Ok(())
    }

    /// Lets the index tell the place of the first row of which it does not.
    fn index_next(&mut self) -> Result<(), AllocError>
        requires { self.old.indexed < length self.old.rows }
        ensures rows { self.new.rows ≡ self.old.rows }
        ensures one { OnOk result (self.new.indexed ≡ self.old.indexed + 1) }
    {
        let place = self.indexed;
        self.index.insert(self.list[place].word, place)?;
        self.indexed = place + 1;
        Ok(())
    }
}

/// Keeps so many first rows of the list, and puts one more behind them.
#[inline(always)]
fn put_behind(list: &mut Vec<Row>, len: usize, last: Row) -> Result<(), AllocError>
    requires { len ≤ length list.old.items }
    ensures ok { OnOk result (list.new.items ≡ take len list.old.items ++ last ∷ []) }
    ensures err { OnErr result (list.new.items ≡ list.old.items) }
{
    if len == list.capacity() {
        list.reserve(1)?;
    }
    list.truncate(len);
    list.push_reserved(last);
    Ok(())
}
