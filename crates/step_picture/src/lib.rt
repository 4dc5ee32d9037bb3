//! The picture of a run: a lane for each thread, with the events of a world from the left to the right.
#![tactic(auto)]

mod bars;
mod drawing;
mod events;
mod gathering;
mod mark;
mod marks;
mod restarts;
mod shapes;
mod styles;
mod walks;

pub use drawing::put_picture;
pub use gathering::gather;
pub use mark::{Came, Mark};
