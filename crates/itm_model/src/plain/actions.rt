//! Actions that run at a transaction's end.

ghost use Rattle.std.specs.Prelude.{◌≡◌, IsOk, OnOk, OnErr, true};
ghost use Rattle.itm_model.specs.Machine.{with_action, with_undo};

use super::Plain;
use itm_types::{Action, ActionKind, Ran};
use std::alloc::AllocError;

impl Plain {
    /// The actions that have come to run since the last outermost begin, in order.
    pub fn ran(&self) -> &[Ran]
        ensures { result.now ≡ self.now.state.actions.ran }
    {
        self.actions.ran()
    }

    /// The undo actions that are registered, in order.
    pub fn undo(&self) -> &[Action]
        ensures { result.now ≡ self.now.state.actions.undos }
    {
        self.actions.undos()
    }

    /// An action is registered.
    pub(super) fn register(&mut self, kind: ActionKind, action: Action) -> Result<(), AllocError>
        ensures ok { OnOk result (self.new.state ≡ with_action self.old.state kind action) }
        ensures before { OnOk result (self.new.before ≡ self.old.before) }
        ensures deepest { self.new.deepest ≡ self.old.deepest }
        ensures err { OnErr result (self.new ≡ self.old) }
    {
        self.actions.register(kind, action)?;
        Ok(())
    }

    /// An undo action is registered, unless nothing goes back any more.
    pub(super) fn register_undo(&mut self, action: Action) -> Result<(), AllocError>
        ensures ok { OnOk result (self.new.state ≡ with_undo self.old.state action) }
        ensures before { OnOk result (self.new.before ≡ self.old.before) }
        ensures deepest { self.new.deepest ≡ self.old.deepest }
        ensures held { self.old.state.irrevocable ≡ true → IsOk result }
        ensures err { OnErr result (self.new ≡ self.old) }
    {
        if self.irrevocable {
            return Ok(());
        }
        self.register(ActionKind::Undo, action)
    }
}
