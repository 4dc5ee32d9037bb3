//! Who runs the actions.

use itm_types::Ran;

/// Is handed each action that a thread's transactions have come to run, once the call that brought it is answered, in
/// order: commit actions in the order in which they were registered, undo actions the last one first.
pub trait ActionSink {
    fn run(&self, thread: u8, ran: &Ran);
}

/// Does nothing.
#[derive(Clone, Copy, Debug, PartialEq, Eq)]
pub struct Quiet;

impl ActionSink for Quiet {
    fn run(&self, _thread: u8, _ran: &Ran) {}
}
