//! Cells with types: a place and what lies there, so that a program names `accounts.at(3)` and no number.
#![tactic(auto)]

mod cell;
mod in_transaction;
mod places;
mod row;
mod word;

pub use cell::Cell;
pub use places::Places;
pub use row::Row;
pub use word::Word;
