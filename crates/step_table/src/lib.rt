//! The table of a run: a line for each event of a world, as it is taken.
#![tactic(auto)]

mod came;
mod columns;
mod event;
mod lines;
mod operations;
mod padding;
mod parts;
mod showing;
mod view;

pub use came::{Words, end_words};
pub use event::Event;
pub use operations::operation_pieces;
pub use parts::put_three;
pub use showing::{calls_of, next_of, show};
pub use view::{Columns, View, shows};
