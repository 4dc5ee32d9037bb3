//! The commands and histories, whose reads and writes fail in turn; and what of a run is done as its history is written.

mod asm;
mod faults;
mod play;
mod reads;
mod sched;
mod stream;
mod texts;
