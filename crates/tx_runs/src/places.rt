//! What an open attempt has besides its calls: where its inner blocks began, and the room that is made ahead.

ghost use Rattle.std.specs.Prelude.{◌≡◌, ◌+◌, ◌^◌, ◌<◌, ◌≤◌, ◌++◌, [], true, false, length, slice_get, None, IfOk, OnOk, OnErr};
ghost use Rattle.itm_types.specs.Calls.{is_begin};
ghost use Rattle.tx_attempts.specs.declared.attempt.Attempt.{Attempt};
ghost use Rattle.tx_attempts.specs.Restarts.{open_after};
ghost use Rattle.tx_runs.specs.OpenAttempts.{HasPlacesFor, IsBacked, LacksPlaces, Open, no_rooms, open_of};

use crate::savepoint::{Savepoint, nest};
use itm_types::{Call, Ran, Reply};
use std::alloc::{AllocError, Global};
use std::marker::Model;
use tx_attempts::{AgainRoom, RanActions};

/// Where the open inner blocks of an attempt began, and the room that is made ahead for its actions and its blocks.
#[derive(Drop)]
pub(crate) struct Places {
    /// The innermost first.
    points: Vec<Savepoint>,
    /// Room for the actions that have run once it ends.
    end_room: Vec<Ran>,
    /// Room for those that have run once a cancel is done, where it stays open.
    cancel_room: Vec<Ran>,
    /// Room for a block that runs again.
    again: Option<AgainRoom>,
}

impl Model for Places {
    ghost use Rattle.std.specs.Prelude.{◌≡◌, [], vec_capacity};
    ghost use Rattle.tx_runs.specs.OpenAttempts.{Rooms};

    ghost Value = { Rooms };

    ghost view = { λ p. record { points = p.points.items; deep = vec_capacity p.points; ends = vec_capacity p.end_room; cancels = vec_capacity p.cancel_room; again = p.again } };

    ghost invariant = { λ p. (p.end_room.items ≡ []) × (p.cancel_room.items ≡ []) };
}

/// Whether there has to be room for what the call leaves, where there are so many actions and it asks for so many more.
#[inline(always)]
pub(crate) fn takes_places(call: &Call, actions: usize, ahead: usize) -> bool
    ensures idle { result ≡ false → (o : Open) → HasPlacesFor call.now actions ahead None o }
    ensures takes { result ≡ true → (row : Attempt) → (arena : _) → LacksPlaces call.now actions ahead arena (open_of row no_rooms) }
{
    let leaves = match call {
        Call::Begin { .. } | Call::CommitAction(_) | Call::UndoAction(_) => true,
        Call::Abort { .. } => actions > 0,
        _ => false,
    };
    leaves || ahead > 0
}

impl Places {
    /// No room for anything.
    pub(crate) fn new(alloc: Global) -> Self
        ensures { result ≡ no_rooms }
    {
        Places {
            points: Vec::new(alloc),
            end_room: Vec::new(alloc),
            cancel_room: Vec::new(alloc),
            again: None,
        }
    }

    /// Room for so many inner blocks, and as many actions.
    pub(crate) fn with_room(alloc: Global, ahead: usize) -> Result<Self, AllocError>
        ensures points { IfOk result (λ p. p.points ≡ []) }
        ensures room { IfOk result (λ p. (ahead ≤ p.ends) × (ahead ≤ p.cancels) × (ahead ≤ p.deep)) }
    {
        let mut points = Vec::new(alloc);
        points.reserve(ahead)?;
        let mut end_room = Vec::new(alloc);
        end_room.reserve(ahead)?;
        let mut cancel_room = Vec::new(alloc);
        cancel_room.reserve(ahead)?;
        Ok(Places {
            points,
            end_room,
            cancel_room,
            again: None,
        })
    }

    /// No block is open.
    pub(crate) fn clear(&mut self)
        ensures { self.new ≡ record self.old { points = [] } }
    {
        self.points.clear();
    }

    /// Room for the block that the call begins, for the actions that it may leave, and for so many more. A read, a write and a
    /// commit leave none.
    pub(crate) fn prepare(
        &mut self,
        call: &Call,
        actions: usize,
        ahead: usize,
    ) -> Result<(), AllocError>
        requires few { (actions < 2 ^ 63) × (ahead < 2 ^ 32) }
        ensures places { OnOk result ((row : Attempt) → HasPlacesFor call.now actions ahead None (open_of row self.new)) }
        ensures short { OnErr result ((row : Attempt) (arena : _) → LacksPlaces call.now actions ahead arena (open_of row self.old)) }
        ensures same { (self.new.points ≡ self.old.points) × (self.new.again ≡ self.old.again) }
        ensures kept { (self.old.ends ≤ self.new.ends) × (self.old.cancels ≤ self.new.cancels) × (self.old.deep ≤ self.new.deep) }
    {
        match call {
            Call::Begin { .. } => self.points.reserve(1)?,
            Call::CommitAction(_) | Call::UndoAction(_) => self.end_room.reserve(actions + 1)?,
            Call::Abort { .. } => self.cancel_room.reserve(actions)?,
            _ => {}
        }
        if ahead > 0 {
            self.points.reserve(ahead + 1)?;
            self.end_room.reserve(actions + ahead)?;
            self.cancel_room.reserve(actions + ahead)?;
        }
        Ok(())
    }

    /// Room for a block that runs again: for so many records in all, from an arena of so many bytes, where so many actions may
    /// have run.
    pub(crate) fn prepare_again(
        &mut self,
        alloc: Global,
        records: usize,
        arena: usize,
        actions: usize,
    ) -> Result<(), AllocError>
        ensures backed { OnOk result ((row : Attempt) → length row.restarts < records → IsBacked arena actions (open_of row self.new)) }
        ensures same { OnOk result (self.new ≡ record self.old { again = self.new.again }) }
        ensures short { OnErr result ((row : Attempt) → records ≤ length row.restarts + 1 → IsBacked arena actions (open_of row self.old) → ⊥) }
        ensures err { OnErr result (self.new ≡ self.old) }
    {
        if let Some(room) = &self.again {
            if room.has(records, arena, actions) {
                return Ok(());
            }
        }
        self.again = Some(AgainRoom::new(alloc, records, arena, actions)?);
        Ok(())
    }

    /// The call has this reply. Of a block that it opens this is kept.
    pub(crate) fn nest(&mut self, point: Savepoint, call: &Call, reply: &Reply)
        requires { is_begin call.now ≡ true → length self.old.points < self.old.deep }
        ensures { self.new ≡ record self.old { points = open_after point self.old.points (record { call = call.now; reply = reply.now }) } }
    {
        nest(&mut self.points, point, call, reply);
    }

    /// Where the innermost block began, if one is open within the outermost.
    pub(crate) fn innermost(&self) -> Option<Savepoint>
        ensures { result ≡ slice_get self.now.points 0 }
    {
        self.points.first().copied()
    }

    /// The room for a block that runs again is given away.
    pub(crate) fn take_again(&mut self) -> Option<AgainRoom>
        ensures room { result ≡ self.old.again }
        ensures left { self.new ≡ record self.old { again = None } }
    {
        self.again.take()
    }

    /// These have come to run behind the others, where the attempt stays open.
    pub(crate) fn run(&mut self, ran: &mut RanActions, more: &[Ran])
        requires room { 0 < length more.now → length ran.old + length more.now ≤ self.old.cancels }
        ensures ran { ran.new ≡ ran.old ++ more.now }
        ensures same { (self.new.points ≡ self.old.points) × (self.new.ends ≡ self.old.ends) × (self.new.deep ≡ self.old.deep) × (self.new.again ≡ self.old.again) }
    {
        ran.grow(&mut self.cancel_room, more);
    }

    /// And where it ends.
    pub(crate) fn run_last(&mut self, ran: &mut RanActions, more: &[Ran])
        requires room { 0 < length more.now → length ran.old + length more.now ≤ self.old.ends }
        ensures ran { ran.new ≡ ran.old ++ more.now }
    {
        ran.grow(&mut self.end_room, more);
    }
}
