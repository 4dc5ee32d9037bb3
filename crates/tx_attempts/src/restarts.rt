//! The inner blocks of an attempt that ran again, and the room that is made ahead for one more.

ghost use Rattle.std.specs.Prelude.{◌≡◌, ◌↔◌, ◌<◌, ◌≤◌, [], length, vec_capacity, IfOk, IsTrue, OnErr};
ghost use Rattle.tx_attempts.specs.Kept.{blocks_again};
ghost use Rattle.tx_attempts.specs.Restarts.{before};

use crate::attempt::Again;
use crate::lists::{Bytes, RanActions, copy_all};
use itm_types::Ran;
use std::alloc::{AllocError, Global};
use std::marker::Model;

/// Room for one more block that runs again.
#[derive(Drop)]
pub struct AgainRoom {
    items: Box<Vec<Again>>,
    arena: Vec<u8>,
    undone: Vec<Ran>,
}

impl Model for AgainRoom {
    ghost use Rattle.std.specs.Prelude.{◌≡◌, [], vec_capacity};
    ghost use Rattle.tx_attempts.specs.Kept.{Backing};

    ghost Value = { Backing };

    ghost view = { λ r. record { records = vec_capacity r.items.value; arena = vec_capacity r.arena; undone = vec_capacity r.undone } };

    ghost invariant = { λ r. (r.items.value.items ≡ []) × (r.arena.items ≡ []) × (r.undone.items ≡ []) };
}

impl AgainRoom {
    /// Room for so many records in all, and in the new one for so many bytes of the arena and so many actions.
    pub fn new(
        alloc: Global,
        records: usize,
        arena: usize,
        undone: usize,
    ) -> Result<Self, AllocError>
        ensures { IfOk result (λ r. (records ≤ r.records) × (arena ≤ r.arena) × (undone ≤ r.undone)) }
    {
        let mut items = Vec::new(alloc);
        items.reserve(records)?;
        let mut bytes = Vec::new(alloc);
        bytes.reserve(arena)?;
        let mut ran = Vec::new(alloc);
        ran.reserve(undone)?;
        Ok(AgainRoom {
            items: Box::new(alloc, items)?,
            arena: bytes,
            undone: ran,
        })
    }

    /// Whether it has as much.
    pub fn has(&self, records: usize, arena: usize, undone: usize) -> bool
        ensures { IsTrue result ↔ ((records ≤ self.now.records) × (arena ≤ self.now.arena) × (undone ≤ self.now.undone)) }
    {
        records <= self.items.capacity()
            && arena <= self.arena.capacity()
            && undone <= self.undone.capacity()
    }
}

/// Inner blocks that ran again, by the calls up to their begins. Nearly always there are none, so they are kept apart, and
/// an attempt has one word for them.
#[derive(Debug, Drop)]
pub struct Restarts {
    items: Option<Box<Vec<Again>>>,
}

impl Model for Restarts {
    ghost use Rattle.std.specs.Prelude.{List};
    ghost use Rattle.tx_attempts.specs.declared.attempt.Again.{Again};
    ghost use Rattle.tx_attempts.specs.Kept.{blocks_again};

    ghost Value = { List Again };

    ghost view = { λ r. blocks_again r.items };
}

impl Restarts {
    ghost use Rattle.itm_model.specs.Runs.{unbroken};
    ghost use Rattle.tx_attempts.specs.Restarts.{breaks_of, with_again};

    /// None: a run with these is one that is never broken off. Takes no memory.
    pub fn none() -> Self
        ensures none { result ≡ [] }
        ensures whole { breaks_of result ≡ unbroken }
    {
        Restarts { items: None }
    }

    /// These. Takes memory only where there are any.
    pub fn from_vec(alloc: Global, items: Vec<Again>) -> Result<Self, AllocError>
        ensures all { IfOk result (λ restarts. restarts ≡ items.items) }
        ensures short { OnErr result (0 < length items.items) }
    {
        if items.is_empty() {
            return Ok(Restarts::none());
        }
        Ok(Restarts {
            items: Some(Box::new(alloc, items)?),
        })
    }

    pub fn as_slice(&self) -> &[Again]
        ensures { result.now ≡ self.now }
    {
        match &self.items {
            Some(items) => items.as_slice(),
            None => &[],
        }
    }

    /// A block ran again after so many calls, from this arena, and these actions had run since its begin. What is told of
    /// blocks that began then or later is taken out. Takes no memory.
    pub fn add(&mut self, room: AgainRoom, kept: usize, arena: &[u8], undone: &[Ran])
        requires records { length self.old < room.records }
        requires arena { length arena.now ≤ room.arena }
        requires undone { length undone.now ≤ room.undone }
        ensures { self.new ≡ with_again (record { kept = kept; arena = arena.now; undone = undone.now }) self.old }
    {
        let AgainRoom {
            mut items,
            arena: mut bytes,
            undone: mut ran,
        } = room;
        keep_before(&mut items, self.items.take(), kept);
        copy_all(&mut bytes, arena);
        copy_all(&mut ran, undone);
        items.push_reserved(Again {
            kept,
            arena: Bytes::new(bytes),
            undone: RanActions::from_vec(ran),
        });
        self.items = Some(items);
    }
}

/// Those of before so many calls go over to the list.
fn keep_before(list: &mut Vec<Again>, told: Option<Box<Vec<Again>>>, kept: usize)
    requires none { list.old.items ≡ [] }
    requires room { length (blocks_again told) ≤ vec_capacity list.old }
    ensures kept { list.new.items ≡ before kept (blocks_again told) }
    ensures few { length list.new.items ≤ length (blocks_again told) }
    ensures room { vec_capacity list.new ≡ vec_capacity list.old }
{
    if let Some(told) = told {
        move_before(list, Box::into_inner(told), kept);
    }
}

#[tactic(auto, using(crate::proofs::KeptRecords::before_early, crate::proofs::KeptRecords::before_late, crate::proofs::KeptRecords::before_short))]
fn move_before(list: &mut Vec<Again>, told: Vec<Again>, kept: usize)
    requires none { list.old.items ≡ [] }
    requires room { length told.items ≤ vec_capacity list.old }
    ensures kept { list.new.items ≡ before kept told.items }
    ensures few { length list.new.items ≤ length told.items }
    ensures room { vec_capacity list.new ≡ vec_capacity list.old }
{
    for again in told {
        if again.kept < kept {
            list.push_reserved(again);
        }
    }
}
