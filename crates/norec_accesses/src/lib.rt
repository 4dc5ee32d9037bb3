//! Reads, writes, fills and copies of a transaction that may be tried again. It logs what it reads and keeps what it writes to
//! itself: NOrec, from "NOrec: Streamlining STM by Abolishing Ownership Records" (Dalessandro, Spear, Scott, PPoPP 2010).
#![tactic(auto)]

mod copies;
mod fills;
mod known;
mod new_words;
mod range;
mod reads;
mod writes;

pub use copies::copy;
pub use fills::fill;
pub use known::known_number;
pub use new_words::{ask_word, begin_word, read_at_once, word_to_read};
pub use reads::{confirmed, confirmed_new, loaded, read};
pub use writes::{write, write_found, write_next, write_served};
