//! Programs: what scripts say.
//!
//! A program has the size of shared memory and the bytes that stand in it as the threads begin, the size of each
//! thread's arena, the limits of the run, which thread takes the next events, and sections of code, each for one thread
//! or for several. A section's instructions stand as often as they are to be done: a group that is repeated is not part
//! of a program.
//!
//! The parts are put together here too, line by line (`Opening`, `SaidLimits`, `Plan`, `Threads`), each within its
//! limits: at most 65,536 items, 65,536 instructions and 64 threads.
#![tactic(auto)]

mod equality;
mod instruction;
mod limits;
mod opening;
mod program;
mod schedule;
mod threads;

pub use instruction::{ArenaWidth, Instruction, Operation};
pub use limits::{
    MAX_EVENTS, MAX_INSTRUCTIONS, MAX_ITEMS, MAX_LEVELS, MAX_REPEATS, MAX_TEXT, SaidLimits, largest,
};
pub use opening::{Init, Opening, Size};
pub use program::Program;
pub use schedule::{Item, Plan};
pub use threads::Threads;
