//! Each helper says of a thread only that its pass is still one of the words.

mod by_hand;
mod faults;
mod gates;
mod helpers;
mod interleavings;
mod runs;
mod sinks;
mod texts;
mod told;
mod turns;
