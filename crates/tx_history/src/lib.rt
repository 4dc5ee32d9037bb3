//! The text of a history: its one spelling, which histories are legal, and its writer.
#![tactic(auto)]

mod attempts;
mod bodies;
mod digits;
mod equality;
mod history;
mod page;
mod parts;
mod pieces;
mod rows;
mod stream;

pub use history::{EARLY_ACTORS, EARLY_MEMORY, History, Version, largest_early, write_history};
pub use page::Page as Stream;
pub use parts::{Row, rows_in_order, write_row};
pub use pieces::{Piece, put_pieces};
