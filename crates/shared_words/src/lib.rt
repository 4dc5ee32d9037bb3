//! The sequence clock and the shared memory as atomic cells, which threads step through one operation at a time. Each
//! thread has a pass, whose view says in contracts what the thread knows of the commits.
#![tactic(auto)]

mod bytes;
mod closed_words;
mod equality;
mod fault;
mod in_place;
mod initial;
mod pass;
mod rule;
mod view;
mod words;

pub use closed_words::ClosedWords;
pub use fault::WordsFault;
pub use initial::InitialWords;
pub use pass::Pass;
pub use rule::CellRule;
pub use view::View;
pub use words::{Closed, Words};
