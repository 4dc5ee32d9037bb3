//! Reads the text of a history: of the texts that histories are written as, each gives its history, and every other
//! text has a first line that is at fault.
#![tactic(auto)]

mod body;
mod digits;
mod equality;
mod fault;
mod fields;
mod item_list;
mod keywords;
mod line_parts;
mod lines;
mod numbers;
mod operands;
mod reply;
mod state;
mod verb;
mod whole;

pub use fault::{ReadFault, ReadKind};
pub use whole::{first_version, legal_texts, read, second_version};
