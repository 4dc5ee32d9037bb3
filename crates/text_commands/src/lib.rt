//! The commands that work on texts alone: a script is printed, a history is judged. Each reads its text, writes what it
//! has to, says on the errors what went wrong, and answers the program's status.
#![tactic(auto)]

mod failure;
mod fault;
mod input;
mod judging;
mod output;
mod printing;
mod programs;

pub use failure::{Failure, status_after};
pub use fault::Fault;
pub use judging::{MAX_HISTORY, check, largest_history, read_history};
pub use printing::asm;
pub use programs::read_program;
