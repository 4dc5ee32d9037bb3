//! The actions of the open blocks, and those that have come to run.

ghost use Rattle.std.specs.Prelude.{◌≡◌, ◌^◌, ◌<◌, [], IsOk, OnOk, OnErr, length};
ghost use Rattle.user_actions.specs.Actions.{registered, room_after, total};

use crate::frames::Frames;
use itm_types::{Action, ActionKind, Ran};
use std::alloc::AllocError;

impl Frames {
    /// Makes room for so many more commit actions, and no other room is kept.
    pub fn reserve_actions(&mut self, more: usize) -> Result<(), AllocError>
        ensures ok { OnOk result (self.new ≡ record self.old { room = more }) }
        ensures err { OnErr result (self.new ≡ self.old) }
        ensures none { more ≡ 0 → IsOk result }
    {
        self.actions.reserve(more)?;
        Ok(())
    }

    /// Registers an action. A commit action for which there is room takes no memory.
    pub fn register(&mut self, kind: ActionKind, action: Action) -> Result<(), AllocError>
        requires { 0 < length self.old.blocks }
        ensures ok { OnOk result (self.new ≡ record self.old {
          actions = registered kind action self.old.actions;
          room = room_after kind self.old.room;
        }) }
        ensures err { OnErr result (self.new ≡ self.old) }
        ensures has_room { kind ≡ ActionKind.Commit → 0 < self.old.room → IsOk result }
    {
        self.actions.register(kind, action)?;
        Ok(())
    }

    /// How many actions there are in all: those that are registered, and those that have come to run. Takes no memory.
    pub fn actions(&self) -> usize
        ensures total { result ≡ total self.now.actions }

        // There are fewer than a count can tell.
        ensures few { total self.now.actions < 2 ^ 63 }
    {
        self.actions.total()
    }

    /// The actions that have come to run, in order, since they were last cleared.
    pub fn due(&self) -> &[Ran]
        ensures { result.now ≡ self.now.actions.ran }
    {
        self.actions.ran()
    }

    /// Forgets those that have come to run. Takes no memory.
    pub fn clear_due(&mut self)
        ensures { self.new ≡ record self.old { actions = record self.old.actions { ran = [] } } }
    {
        self.actions.forget_ran();
    }
}
