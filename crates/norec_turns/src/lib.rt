//! What a turn of a transaction that may be tried again comes to: the phases it may be in, what each move keeps of it, and
//! what calls of all kinds share.
#![tactic(auto)]

mod refused;
mod tries;

pub use refused::refuse;
pub use tries::try_round;
