//! Where the rows of words stand, once they are many.

ghost use Rattle.std.specs.Prelude.{◌≡◌, ℕ, List, ◌∷◌, ◌++◌, ◌↔◌, ◌≤◌, ◌<◌, ◌^◌, [], IsTrue, OnErr, OnOk, length};
ghost use Rattle.itm_types.specs.declared.row.LogRow.{LogRow};
ghost use Rattle.itm_types.specs.LogRows.{value_of, AreSingle};
ghost use Rattle.value_log.specs.Index.{slot_of, HavePlaces, IsIndex, IsRight};

use itm_types::LogRow;
use std::alloc::{AllocError, Global};

/// 2^32 divided by the golden ratio: words that follow one another are spread evenly (multiplicative hashing, "The Art of
/// Computer Programming", volume 3, section 6.4).
const SPREAD: u32 = 2_654_435_769;

/// So many slots are enough for all words.
const MOST_SLOTS: usize = 4_294_967_296;

/// A hash table of rows by their words. Each word falls to a slot. The rows that fall to one slot are a chain: the slot has
/// the place of the last one, and each row that of the one before it.
///
/// A place counts only where the row that stands there falls to the slot; else the chain has ended ("An Efficient
/// Representation for Sparse Sets", Briggs and Torczon, 1993). So all rows are taken away without a look at the table.
#[derive(Debug, Drop)]
pub(crate) struct Index {
    /// By slots.
    last: Vec<u32>,
    /// By places.
    before: Vec<u32>,
}

impl Index {
    /// An index that is not made. Takes no memory.
    pub(crate) fn none(alloc: Global) -> Index
        ensures { result.last.items ≡ [] }
    {
        Index {
            last: Vec::new(alloc),
            before: Vec::new(alloc),
        }
    }

    /// Whether it tells of rows.
    #[inline(always)]
    pub(crate) fn is_made(&self) -> bool
        ensures { IsTrue result ↔ (0 < length self.now.last.items) }
    {
        !self.last.is_empty()
    }

    /// Makes it, with room for so many rows.
    pub(crate) fn reserve(&mut self, rows: &[LogRow], room: usize) -> Result<(), AllocError>
        requires some { 0 < room }
        requires places { HavePlaces rows.now room }
        requires right { IsRight self.old.last.items self.old.before.items rows.now }
        ensures right { IsRight self.new.last.items self.new.before.items rows.now }
        ensures made { OnOk result (0 < length self.new.last.items) }
        ensures room { OnOk result (room ≤ length self.new.before.items) }
        ensures last { OnErr result (length self.new.last.items ≡ length self.old.last.items) }
        ensures before { length self.old.before.items ≤ length self.new.before.items }
    {
        self.reserve_places(rows, room)?;
        self.reserve_slots(rows, room.min(MOST_SLOTS))
    }

    /// Makes room for so many rows.
    fn reserve_places(&mut self, rows: &[LogRow], room: usize) -> Result<(), AllocError>
        requires right { IsRight self.old.last.items self.old.before.items rows.now }
        ensures right { IsRight self.new.last.items self.new.before.items rows.now }
        ensures room { OnOk result (room ≤ length self.new.before.items) }
        ensures last { self.new.last ≡ self.old.last }
        ensures before { length self.old.before.items ≤ length self.new.before.items }
    {
        if room <= self.before.len() {
            return Ok(());
        }
        self.before.resize(room, 0)
    }

    /// Has so many slots.
    fn reserve_slots(&mut self, rows: &[LogRow], slots: usize) -> Result<(), AllocError>
        requires some { 0 < slots }
        requires most { slots ≤ 2 ^ 32 }
        requires places { HavePlaces rows.now (length self.old.before.items) }
        requires right { IsRight self.old.last.items self.old.before.items rows.now }
        ensures right { IsRight self.new.last.items self.new.before.items rows.now }
        ensures made { OnOk result (0 < length self.new.last.items) }
        ensures last { OnErr result (length self.new.last.items ≡ length self.old.last.items) }
        ensures before { length self.new.before.items ≡ length self.old.before.items }
    {
        if slots <= self.last.len() {
            return Ok(());
        }
        self.last.resize(slots, 0)?;
        self.cover(rows);
        Ok(())
    }

    /// Tells of these rows alone, where it is made.
    #[inline(always)]
    pub(crate) fn keep(&mut self, rows: &[LogRow])
        requires few { length rows.now < 2 ^ 32 }
        requires room { 0 < length self.old.last.items → length rows.now ≤ length self.old.before.items }
        requires slots { length self.old.last.items ≤ 2 ^ 32 }
        ensures right { IsRight self.new.last.items self.new.before.items rows.now }
        ensures last { length self.new.last.items ≡ length self.old.last.items }
        ensures before { length self.new.before.items ≡ length self.old.before.items }
    {
        if !rows.is_empty() && self.is_made() {
            self.cover(rows);
        }
    }

    /// Tells of these rows alone.
    #[inline(never)]
    fn cover(&mut self, rows: &[LogRow])
        requires places { HavePlaces rows.now (length self.old.before.items) }
        requires made { 0 < length self.old.last.items }
        requires slots { length self.old.last.items ≤ 2 ^ 32 }
        ensures index { IsIndex self.new.last.items self.new.before.items rows.now }
        ensures last { length self.new.last.items ≡ length self.old.last.items }
        ensures before { length self.new.before.items ≡ length self.old.before.items }
    {
        for (place, row) in rows.iter().enumerate() {
            self.put(row.word, place);
        }
    }

    /// Notes the word's row behind all others, where it is made.
    #[inline(always)]
    pub(crate) fn note(&mut self, word: u32, place: usize)
        requires few { place < 2 ^ 32 }
        requires room { 0 < length self.old.last.items → place < length self.old.before.items }
        requires slots { length self.old.last.items ≤ 2 ^ 32 }
        ensures right { (rows : List LogRow) → length rows ≡ place → IsRight self.old.last.items self.old.before.items rows →
            (value : ℕ) → IsRight self.new.last.items self.new.before.items (rows ++ record { word = word; value = value } ∷ []) }
        ensures last { length self.new.last.items ≡ length self.old.last.items }
        ensures before { length self.new.before.items ≡ length self.old.before.items }
    {
        if self.is_made() {
            self.put(word, place);
        }
    }

    /// Notes the word's row behind all others.
    #[inline(always)]
    fn put(&mut self, word: u32, place: usize)
        requires few { place < 2 ^ 32 }
        requires room { place < length self.old.before.items }
        requires made { 0 < length self.old.last.items }
        requires slots { length self.old.last.items ≤ 2 ^ 32 }
        ensures index { (rows : List LogRow) → length rows ≡ place → IsIndex self.old.last.items self.old.before.items rows →
            (value : ℕ) → IsIndex self.new.last.items self.new.before.items (rows ++ record { word = word; value = value } ∷ []) }
        ensures last { length self.new.last.items ≡ length self.old.last.items }
        ensures before { length self.new.before.items ≡ length self.old.before.items }
    {
        let slot = self.slot(word);
        let before = self.last[slot];
        self.last[slot] = place as u32;
        self.before[place] = before;
    }

    /// The value of the word's row, if it has one.
    #[inline(always)]
    pub(crate) fn find(&self, rows: &[LogRow], word: u32) -> Option<u64>
        requires made { 0 < length self.now.last.items }
        requires slots { length self.now.last.items ≤ 2 ^ 32 }
        requires single { AreSingle rows.now }
        requires index { IsIndex self.now.last.items self.now.before.items rows.now }
        ensures { result ≡ value_of word rows.now }
    {
        let slot = self.slot(word);
        let mut end = rows.len();
        let mut place = self.last[slot] as usize;
        while place < end {
            let row = rows[place];
            if row.word == word {
                return Some(row.value);
            }
            if self.slot(row.word) != slot {
                return None;
            }
            end = place;
            place = self.before[place] as usize;
        }
        None
    }

    /// The slot of a word.
    #[inline(always)]
    fn slot(&self, word: u32) -> usize
        requires made { 0 < length self.now.last.items }
        requires slots { length self.now.last.items ≤ 2 ^ 32 }
        ensures slot { result ≡ slot_of (length self.now.last.items) word }
        ensures within { result < length self.now.last.items }
    {
        ((word.wrapping_mul(SPREAD) as u64 * self.last.len() as u64) >> 32) as usize
    }
}
