//! Lists that contracts compare by what stands in them.

ghost use Rattle.std.specs.Prelude.{◌≡◌, ◌<◌, ◌≤◌, ◌+◌, ◌∷◌, [], ◌++◌, length, take, vec_capacity, OnErr, OnOk};

use crate::attempt::{Attempt, CallRecord};
use itm_types::Ran;
use std::alloc::{AllocError, Global};
use std::marker::Model;
use std::mem;

/// Bytes, in order.
#[derive(Debug, Drop)]
pub struct Bytes {
    items: Vec<u8>,
}

impl Model for Bytes {
    ghost use Rattle.std.specs.Prelude.{List, ℕ};

    ghost Value = { List ℕ };

    ghost view = { λ b. b.items.items };
}

impl Bytes {
    /// These bytes. Takes no memory.
    pub fn new(items: Vec<u8>) -> Self
        ensures { result ≡ items.items }
    {
        Bytes { items }
    }

    pub fn as_slice(&self) -> &[u8]
        ensures { result.now ≡ self.now }
    {
        &self.items
    }

    /// The bytes, given back. Takes no memory.
    pub fn into_vec(self) -> Vec<u8>
        ensures { result.items ≡ self }
    {
        self.items
    }
}

/// Calls with their replies, in order, with a promised room: for so many more there is a place, whatever comes.
#[derive(Debug, Drop)]
pub struct Calls {
    items: Vec<CallRecord>,
    room: usize,
}

impl Model for Calls {
    ghost use Rattle.std.specs.Prelude.{◌+◌, ◌≤◌, length, vec_capacity};
    ghost use Rattle.tx_attempts.specs.Kept.{Kept};

    ghost Value = { Kept };

    ghost view = { λ c. record { list = c.items.items; room = c.room } };

    ghost invariant = { λ c. length c.items.items + c.room ≤ vec_capacity c.items };
}

impl Calls {
    ghost use Rattle.tx_attempts.specs.Kept.{grown, reserved, spent};

    /// No calls, and no room. Takes no memory.
    pub fn new(alloc: Global) -> Self
        ensures { result ≡ record { list = []; room = 0 } }
    {
        Calls {
            items: Vec::new(alloc),
            room: 0,
        }
    }

    /// These calls, with no room. Takes no memory.
    pub fn from_vec(items: Vec<CallRecord>) -> Self
        ensures { result ≡ record { list = items.items; room = 0 } }
    {
        Calls { items, room: 0 }
    }

    pub fn as_slice(&self) -> &[CallRecord]
        ensures { result.now ≡ self.now.list }
    {
        &self.items
    }

    /// For how many more there is room.
    pub fn room(&self) -> usize
        ensures { result ≡ self.now.room }
    {
        self.room
    }

    /// No calls any more, and room for so many; for none where memory is refused.
    #[inline(always)]
    pub fn start_anew(&mut self, room: usize) -> Result<(), AllocError>
        ensures none { OnOk result (self.new ≡ record { list = []; room = room }) }
        ensures err { OnErr result (self.new ≡ record { list = []; room = 0 }) }
        ensures short { OnErr result (0 < room) }
    {
        self.cut(0);
        self.give_up_room();
        self.reserve(room)
    }

    /// Makes room for so many more. What is promised already counts.
    #[inline(always)]
    pub fn reserve(&mut self, more: usize) -> Result<(), AllocError>
        ensures room { OnOk result (self.new ≡ reserved self.old more) }
        ensures err { OnErr result (self.new ≡ self.old) }
        ensures short { OnErr result (self.old.room < more) }
    {
        if self.room < more {
            self.items.reserve(more)?;
            self.room = more;
        }
        Ok(())
    }

    /// One more, in a place of the room.
    #[inline(always)]
    pub fn push(&mut self, entry: CallRecord)
        requires { 0 < self.old.room }
        ensures { self.new ≡ grown self.old entry }
    {
        self.items.push_reserved(entry);
        self.room -= 1;
    }

    /// The first ones alone, so many. What is promised still is.
    pub fn cut(&mut self, kept: usize)
        ensures { self.new ≡ record self.old { list = take kept self.old.list } }
    {
        self.items.truncate(kept);
    }

    /// No place is promised any more.
    pub fn give_up_room(&mut self)
        ensures { self.new ≡ spent self.old }
    {
        self.room = 0;
    }
}

/// Attempts, in order.
#[derive(Debug, Drop)]
pub struct Attempts {
    items: Vec<Attempt>,
}

impl Model for Attempts {
    ghost use Rattle.std.specs.Prelude.{List};
    ghost use Rattle.tx_attempts.specs.declared.attempt.Attempt.{Attempt};

    ghost Value = { List Attempt };

    ghost view = { λ a. a.items.items };
}

impl Attempts {
    /// These attempts. Takes no memory.
    pub fn new(items: Vec<Attempt>) -> Self
        ensures { result ≡ items.items }
    {
        Attempts { items }
    }

    pub fn as_slice(&self) -> &[Attempt]
        ensures { result.now ≡ self.now }
    {
        &self.items
    }

    /// The attempts, given back. Takes no memory.
    pub fn into_vec(self) -> Vec<Attempt>
        ensures { result.items ≡ self }
    {
        self.items
    }
}

/// Actions that have run, in order.
#[derive(Debug, Drop)]
pub struct RanActions {
    items: Vec<Ran>,
}

impl Model for RanActions {
    ghost use Rattle.std.specs.Prelude.{List};
    ghost use Rattle.itm_types.specs.declared.call.Ran.{Ran};

    ghost Value = { List Ran };

    ghost view = { λ r. r.items.items };
}

impl RanActions {
    /// No actions. Takes no memory.
    pub fn new(alloc: Global) -> Self
        ensures { result ≡ [] }
    {
        RanActions {
            items: Vec::new(alloc),
        }
    }

    /// These actions. Takes no memory.
    pub fn from_vec(items: Vec<Ran>) -> Self
        ensures { result ≡ items.items }
    {
        RanActions { items }
    }

    pub fn as_slice(&self) -> &[Ran]
        ensures { result.now ≡ self.now }
    {
        &self.items
    }

    /// One more.
    pub fn push(&mut self, ran: Ran) -> Result<(), AllocError>
        ensures added { OnOk result (self.new ≡ self.old ++ ran ∷ []) }
        ensures err { OnErr result (self.new ≡ self.old) }
    {
        self.items.push(ran)?;
        Ok(())
    }

    /// These come behind it. There is room for all in `spare`, to which they move.
    pub fn grow(&mut self, spare: &mut Vec<Ran>, more: &[Ran])
        requires empty { spare.old.items ≡ [] }
        requires room { 0 < length more.now → length self.old + length more.now ≤ vec_capacity spare.old }
        ensures all { self.new ≡ self.old ++ more.now }
        ensures empty { spare.new.items ≡ [] }
    {
        if !more.is_empty() {
            copy_all(spare, &self.items);
            copy_all(spare, more);
            mem::swap(spare, &mut self.items);
            spare.clear();
        }
    }

    /// The first ones alone, so many.
    pub fn cut(&mut self, kept: usize)
        ensures { self.new ≡ take kept self.old }
    {
        self.items.truncate(kept);
    }
}

/// Puts copies of these behind what is there.
pub(crate) fn copy_all<T: Copy>(list: &mut Vec<T>, more: &[T])
    requires room { length list.old.items + length more.now ≤ vec_capacity list.old }
    ensures items { list.new.items ≡ list.old.items ++ more.now }
    ensures room { vec_capacity list.new ≡ vec_capacity list.old }
{
    for item in more {
        list.push_reserved(*item);
    }
}
