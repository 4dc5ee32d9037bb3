//! A thread's transactions over shared words.
#![tactic(auto)]

mod blocks;
mod drive;
mod equality;
mod numbers;
mod refused;
mod rounds;
mod slow_path;
mod stop;
mod thread;
mod values;
mod whole_words;

pub use refused::ThreadRefused;
pub use stop::Stop;
pub use thread::Thread;
