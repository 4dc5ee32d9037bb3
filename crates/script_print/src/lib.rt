//! Programs as texts: the canonical script of a program.
//!
//! Sizes and limits come first, also those that a script need not say, but for the depth where it is 16, then the bytes
//! of shared memory, the schedule, and each section with its code. Between fields stands one space, and each line ends in a line feed. A line of
//! `.schedule` has one item. What stood under `.rept` stands as often as it was to; digits of bytes are small, and
//! properties come in one order.
#![tactic(auto)]

mod field;
mod instruction;
mod line;
mod section;
mod whole;

pub use whole::print;
