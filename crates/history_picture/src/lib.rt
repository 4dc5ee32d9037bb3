//! The picture of a history: a lane for each thread, and its attempts from the left to the right, behind those that saw fewer
//! commits. So an attempt saw the committed ones that stand to its left.
#![tactic(auto)]

mod bars;
mod bodies;
mod columns;
mod drawing;
mod note;
mod seats;
mod sentences;

pub use columns::columns_of;
pub use drawing::put_history;
pub use note::{Judgement, Note};
pub use seats::{Seat, seats_of};
