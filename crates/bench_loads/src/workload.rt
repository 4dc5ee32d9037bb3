//! What one transaction does.

ghost use Rattle.std.specs.Prelude.{◌≡◌};
ghost use Rattle.shared_words.specs.Passes.{Owns};

use itm_runtime::{Stop, Thread};
use shared_words::Words;
use std::alloc::AllocError;

/// How many words the shared memory has.
pub const WORDS: usize = 8_192;

/// What each transaction does.
#[derive(Clone, Copy, Debug, PartialEq, Eq)]
pub enum Workload {
    /// Adds 1 to word 0.
    Counter,
    /// Moves 1 between two random words of so many.
    Transfer,
    /// Reads so many words from a random one on.
    ReadOnly,
    /// Writes so many words, from word 0 on.
    Writes,
    /// Reads so many words, from word 0 on, and then the next ones, a tenth as many, in an inner block. One of several threads
    /// does not read: it adds 1 to the first word of that tenth, again and again.
    Nested,
}

/// Each of them.
pub const WORKLOADS: [Workload; 5] = [
    Workload::Counter,
    Workload::Transfer,
    Workload::ReadOnly,
    Workload::Writes,
    Workload::Nested,
];

/// The word by which it is called.
pub fn name_of(workload: Workload) -> &'static str {
    match workload {
        Workload::Counter => "counter",
        Workload::Transfer => "transfer",
        Workload::ReadOnly => "readonly",
        Workload::Writes => "writes",
        Workload::Nested => "nested",
    }
}

/// The workload of this name.
pub fn named(name: &str) -> Option<Workload> {
    match name {
        "counter" => Some(Workload::Counter),
        "transfer" => Some(Workload::Transfer),
        "readonly" => Some(Workload::ReadOnly),
        "writes" => Some(Workload::Writes),
        "nested" => Some(Workload::Nested),
        _ => None,
    }
}

/// One transaction: tried again, it does the same.
#[derive(Clone, Copy)]
pub enum Block {
    /// Adds 1 to word 0.
    Counter,
    /// Takes 1 from a word, and then adds 1 to another, or to the same one.
    Transfer { from: u64, to: u64 },
    /// Reads so many words from this one on.
    ReadOnly { first: u64, size: u64 },
    /// Writes this value to so many words, from word 0 on.
    Writes { size: u64, value: u64 },
}

/// The place of a word.
pub fn place_of(word: u64) -> u64 {
    8 * (word % WORDS as u64)
}

/// The word of these bytes, the low one first.
pub fn word_of(bytes: &[u8]) -> u64 {
    match bytes {
        [a, b, c, d, e, f, g, h] => u64::from_le_bytes([*a, *b, *c, *d, *e, *f, *g, *h]),
        _ => 0,
    }
}

/// The value of a word, where the transaction is still open.
#[inline(always)]
pub fn get(words: &Words, thread: &mut Thread, word: u64) -> Result<Option<u64>, AllocError>
    requires own { Owns words.now thread.old.pass }
    ensures own { Owns words.now thread.new.pass }
{
    match thread.read_u64(words, place_of(word)) {
        Ok(value) => Ok(Some(value)),
        Err(Stop::Memory) => Err(AllocError),
        Err(_) => Ok(None),
    }
}

/// Writes a word; whether the transaction is still open.
#[inline(always)]
pub fn put(words: &Words, thread: &mut Thread, word: u64, value: u64) -> Result<bool, AllocError>
    requires own { Owns words.now thread.old.pass }
    ensures own { Owns words.now thread.new.pass }
{
    match thread.write_u64(words, place_of(word), value) {
        Ok(()) => Ok(true),
        Err(Stop::Memory) => Err(AllocError),
        Err(_) => Ok(false),
    }
}
