//! What an event leads to.

use crate::end::CallEnd;
use crate::pending::Pending;

/// What comes of an event: another step, or the end of the call.
#[derive(Clone, Copy, Debug, PartialEq, Eq)]
pub enum Turn {
    /// What the call waits for next.
    Wait(Pending),
    /// The end of a call after which no transaction is irrevocable.
    End(CallEnd),
    /// The end of a call after which the transaction is irrevocable, also where it was before.
    EndIrrevocable(CallEnd),
}
