//! What is said of players and the plain machine alone, for all who let a player make its calls: what its calls between two
//! transactions lead to, what becomes of its try, and how they end.
#![tactic(auto)]

mod current;
mod ending;
mod equality;
mod open_attempt;
mod outcome;
mod places;
mod player_run;
mod savepoint;

pub use current::Current;
pub use ending::End;
pub use open_attempt::{OpenAttempt, told_of};
pub use outcome::{ahead_of, outcome_of};
pub use player_run::PlayerRun;
pub use savepoint::Savepoint;
