//! The rows of a value log, in places that are all filled.

ghost use Rattle.std.specs.Prelude.{◌≡◌, ◌+◌, ◌%◌, ◌<◌, ◌≤◌, ◌↔◌, [], ◌∷◌, ◌++◌, IsTrue, OnErr, OnOk, Some, length, max, slice_get, slice_set, take};
ghost use Rattle.value_log.specs.Log.{HasRoomBehind};

use crate::log::INLINE_ROWS;
use itm_types::LogRow;
use smallvec::SmallVec;
use std::alloc::{AllocError, Global};
use std::marker::Model;

/// What stands in a place that no row has had.
const BLANK: LogRow = LogRow { word: 0, value: 0 };

/// A list of rows. Behind them stand those that were there before, up to the end of the room: so how many there are and for
/// how many there is room are numbers of their own, wherever the places stand, and rows are taken away without a look at them.
#[derive(Debug, Drop)]
pub(crate) struct Rows {
    places: SmallVec<LogRow, INLINE_ROWS>,
    len: usize,
    capacity: usize,
}

impl Model for Rows {
    ghost use Rattle.std.specs.Prelude.{take};
    ghost use Rattle.value_log.specs.Filled.{Filled, IsFilled};

    ghost Value = { Filled };

    ghost view = { λ r. record { items = take r.len r.places.items; capacity = r.capacity } };

    ghost invariant = { λ r. IsFilled r.places.items r.len r.capacity };
}

impl Rows {
    /// No rows. Takes no memory.
    pub(crate) fn new(alloc: Global) -> Rows
        ensures items { result.items ≡ [] }
        ensures capacity { result.capacity ≡ INLINE_ROWS }
    {
        let blank = [BLANK; INLINE_ROWS];
        Rows {
            places: SmallVec::from_slice(alloc, &blank).unwrap(),
            len: 0,
            capacity: INLINE_ROWS,
        }
    }

    /// How many rows there are.
    #[inline(always)]
    pub(crate) fn len(&self) -> usize
        ensures value { result ≡ length self.now.items }
        ensures fits { result ≤ self.now.capacity }
        ensures some { INLINE_ROWS ≤ self.now.capacity }
    {
        self.len
    }

    /// How many there may be with no memory taken.
    #[inline(always)]
    pub(crate) fn capacity(&self) -> usize
        ensures { result ≡ self.now.capacity }
    {
        self.capacity
    }

    /// Whether there is room for one more by their number alone: they do not fill whole blocks of `INLINE_ROWS`.
    #[inline(always)]
    pub(crate) fn have_room_behind(&self) -> bool
        ensures behind { IsTrue result ↔ HasRoomBehind (length self.now.items) }
        ensures room { IsTrue result → length self.now.items < self.now.capacity }
    {
        self.len % INLINE_ROWS != 0 || self.len == 0
    }

    /// The rows.
    #[inline(always)]
    pub(crate) fn as_slice(&self) -> &[LogRow]
        ensures { result.now ≡ self.now.items }
    {
        &self.places.as_slice()[..self.len]
    }

    /// The row at a place.
    #[inline(always)]
    pub(crate) fn row(&self, place: usize) -> LogRow
        requires { place < length self.now.items }
        ensures { slice_get self.now.items place ≡ Some result }
    {
        self.as_slice()[place]
    }

    /// Adds a row at the end, where there is room.
    #[inline(always)]
    pub(crate) fn push_reserved(&mut self, row: LogRow)
        requires { length self.old.items < self.old.capacity }
        ensures items { self.new.items ≡ self.old.items ++ row ∷ [] }
        ensures capacity { self.new.capacity ≡ self.old.capacity }
    {
        set(&mut self.places, self.len, row);
        self.len += 1;
    }

    /// Keeps the first rows, so many of them.
    #[inline(always)]
    pub(crate) fn truncate(&mut self, len: usize)
        ensures items { self.new.items ≡ take len self.old.items }
        ensures capacity { self.new.capacity ≡ self.old.capacity }
    {
        if len < self.len {
            self.len = len;
        }
    }

    /// Makes room for so many more rows, up to the end of a block.
    pub(crate) fn reserve_exact(&mut self, additional: usize) -> Result<(), AllocError>
        requires blocks { (length self.old.items + additional) % INLINE_ROWS ≡ 0 }
        ensures items { self.new.items ≡ self.old.items }
        ensures ok { OnOk result (self.new.capacity ≡ max self.old.capacity (length self.old.items + additional)) }
        ensures err { OnErr result (self.new ≡ self.old) }
    {
        let capacity = self.len.checked_add(additional).ok_or(AllocError)?;
        if capacity <= self.capacity {
            return Ok(());
        }
        self.places.resize(capacity, BLANK)?;
        self.capacity = capacity;
        Ok(())
    }
}

/// Puts a row at a place.
#[inline(always)]
fn set(places: &mut SmallVec<LogRow, INLINE_ROWS>, place: usize, row: LogRow)
    requires { place < length places.old.items }
    ensures { places.new.items ≡ slice_set places.old.items place row }
{
    places.as_mut_slice()[place] = row;
}
