//! The entry points that a compiled program calls, and their names.
#![tactic(auto)]

mod entries;
mod entry;
mod equality;
mod names;
mod places;

pub use entries::all_entries;
pub use entry::{Control, Entry};
pub use names::{entry_of, name_of};
