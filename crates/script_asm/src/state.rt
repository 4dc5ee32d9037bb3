//! What has been read of a script.

use crate::groups::Groups;
use script_program::{Opening, Plan, SaidLimits, Threads};

/// What the lines so far say.
#[derive(Drop)]
pub struct State {
    /// Shared memory, once its size is said.
    pub memory: Option<Opening>,
    pub limits: SaidLimits,
    pub schedule: Plan,
    pub threads: Threads,
    /// The blocks and groups that are open.
    pub levels: Groups,
}
