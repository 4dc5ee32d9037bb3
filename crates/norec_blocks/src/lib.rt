//! Begins, commits, aborts and validation rounds of a transaction that may be tried again: a commit takes the clock, and then
//! stores what was written (NOrec, PPoPP 2010).
#![tactic(auto)]

mod aborts;
mod begins;
mod commits;
mod modes;
mod restarts;
mod rounds;

pub use aborts::abort;
pub use begins::{begin, begin_at_once, begin_outer, begin_seen, begin_taken};
pub use commits::{
    ask_free, back_loaded, commit, commit_reads, commit_writes, exchanged, freed, stored,
};
pub use modes::{irrevocable_room, mode};
pub use restarts::round_decided;
pub use rounds::{round_ended, round_started, row_seen};
