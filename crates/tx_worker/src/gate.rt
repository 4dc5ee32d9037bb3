//! Who is asked before each call.

use thiserror::Error;

/// The call is not to be made, and the thread stops where it stands.
#[derive(Clone, Copy, Debug, PartialEq, Eq, Error)]
#[error("the gate is shut")]
pub struct GateShut;

/// Asked before, and told after, each call of a thread, but for those of a transaction that is irrevocable as they come.
/// Calls are numbered from 0 over the whole run of a thread.
pub trait Gate {
    ghost use Rattle.std.specs.Prelude.{◌≡◌, true, OnErr, OnOk};
    ghost use Rattle.worker_rules.specs.Gates.{Gating};

    /// Which calls it may shut out, and which it may let through.
    ghost answers: { Gating };

    /// Whether the call may be made.
    fn at(&self, thread: u8, call: u64) -> Result<(), GateShut>
        ensures shuts { OnErr result (answers.shuts thread call ≡ true) }
        ensures lets { OnOk result (answers.lets thread call ≡ true) };

    /// The call was made, or memory was refused to it.
    fn done(&self, thread: u8, call: u64);
}

/// Lets every call through.
#[derive(Clone, Copy, Debug, PartialEq, Eq)]
pub struct Open;

impl Gate for Open {
    ghost use Rattle.worker_rules.specs.Gates.{all_let};

    ghost answers = { all_let };

    fn at(&self, _thread: u8, _call: u64) -> Result<(), GateShut> {
        Ok(())
    }

    fn done(&self, _thread: u8, _call: u64) {}
}
