//! Irrevocable transactions.

ghost use Rattle.std.specs.Prelude.{◌≡◌};
ghost use Rattle.itm_model.specs.Machine.{irrevocable_from, mode_code};

use super::Plain;
use itm_types::{IRREVOCABLE, NO_TRANSACTION, RETRYABLE};

impl Plain {
    /// Whether an irrevocable transaction is open.
    pub fn is_irrevocable(&self) -> bool
        ensures { result ≡ self.now.state.irrevocable }
    {
        self.irrevocable
    }

    /// Whether a transaction is open, and whether it is irrevocable, as a code.
    pub fn mode(&self) -> u32
        ensures { result ≡ mode_code self.now.state }
    {
        if self.depth() == 0 {
            NO_TRANSACTION
        } else if self.irrevocable {
            IRREVOCABLE
        } else {
            RETRYABLE
        }
    }

    /// The transaction becomes irrevocable, unless it is: nothing of it goes back any more.
    pub(super) fn go_irrevocable(&mut self)
        ensures state { self.new.state ≡ irrevocable_from self.old.state }
        ensures before { self.new.before ≡ self.old.before }
        ensures deepest { self.new.deepest ≡ self.old.deepest }
    {
        if self.irrevocable {
            return;
        }
        self.actions.forget_undos();
        self.wrote = true;
        self.irrevocable = true;
    }
}
