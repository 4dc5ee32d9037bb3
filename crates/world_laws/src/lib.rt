//! Laws of the definitions that the contracts speak with: of worlds, and of their histories.
#![tactic(auto)]

mod histories;
mod runs;

pub use histories::{disturbed, legal, limited, none_open, outrun};
pub use runs::{decided, isolation, one_player};
