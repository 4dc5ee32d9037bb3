//! What a run leaves to be told, and how all of it is written.

ghost use Rattle.std.specs.Prelude.{◌≡◌};
ghost use Rattle.tx_history.specs.Bounds.{HistoryFits};
ghost use Rattle.tx_history.specs.Histories.{history_text};
ghost use Rattle.tx_history.specs.Pages.{Spells};
ghost use Rattle.tx_history.specs.Spelling.{Puts};

use crate::attempts::put_attempts;
use crate::page::Page;
use crate::rows::{put_first, put_last};
use itm_types::{Depth, MAX_ACTORS, MAX_MEMORY, USUAL_DEPTH};
use std::io;
use std::io::Write;
use tx_attempts::{Attempt, Attempts, Bytes};

/// How many bytes the largest memory has that the first two versions tell of.
pub const EARLY_MEMORY: usize = 65_536;

/// How many threads there are at most in a history of the first two versions.
pub const EARLY_ACTORS: usize = 32;

/// What the limits of the first two versions are, as numbers. Does nothing.
pub fn largest_early()
    ensures memory { EARLY_MEMORY ≡ 65536 }
    ensures actors { EARLY_ACTORS ≡ 32 }
{}

/// Which lines the text of a history may have, and how much of everything it may tell of.
#[derive(Clone, Copy, Debug, PartialEq, Eq)]
pub enum Version {
    /// At most 16 blocks are open at once.
    One,
    /// Inner blocks that ran again are told too.
    Two,
    /// So is how many blocks may be open at once, and there may be more threads and a larger memory.
    Three(Depth),
}

impl Version {
    ghost use Rattle.std.specs.Prelude.{◌≤◌};
    ghost use Rattle.itm_types.specs.declared.limits.TheConstants.{MAX_MEMORY};
    ghost use Rattle.tx_history.specs.Versions.{depth_of, memory_limit, thread_limit};

    /// How many blocks may be open at once.
    pub fn depth(self) -> Depth
        ensures { result.blocks ≡ depth_of self }
    {
        match self {
            Version::One | Version::Two => Depth::new(USUAL_DEPTH).unwrap(),
            Version::Three(depth) => depth,
        }
    }

    /// How many bytes the largest memory has.
    pub fn memory_limit(self) -> usize
        ensures value { result ≡ memory_limit self }
        ensures few { result ≤ MAX_MEMORY }
    {
        match self {
            Version::One | Version::Two => EARLY_MEMORY,
            Version::Three(_) => MAX_MEMORY,
        }
    }

    /// The last thread.
    pub fn thread_limit(self) -> u8
        ensures { result ≡ thread_limit self }
    {
        match self {
            Version::One | Version::Two => (EARLY_ACTORS - 1) as u8,
            Version::Three(_) => (MAX_ACTORS - 1) as u8,
        }
    }
}

/// The memory before a run, its attempts, and the clock and the memory after it.
#[derive(Debug, Drop)]
pub struct History {
    pub version: Version,
    /// The shared memory before the run.
    pub memory: Bytes,
    /// The tries of blocks: those that ended, in the order in which they ended, and then those that have not.
    pub attempts: Attempts,
    /// The sequence clock after the run: twice the number of commits, and one more where a thread holds it.
    pub clock: u64,
    /// The shared memory after the run.
    pub bytes: Bytes,
}

/// The lines of a whole history.
fn put_history<W: Write>(
    page: &mut Page<'_, W>,
    version: Version,
    memory: &[u8],
    attempts: &[Attempt],
    clock: u64,
    bytes: &[u8],
)
    ensures { Spells W.contents page.old page.new
        (history_text (record { version = version; memory = memory.now; attempts = attempts.now; clock = clock; bytes = bytes.now }))
        (HistoryFits (record { version = version; memory = memory.now; attempts = attempts.now; clock = clock; bytes = bytes.now })) }
{
    put_first(page, version, memory);
    put_attempts(page, attempts);
    put_last(page, clock, bytes);
}

/// Writes a whole history that is there, as its version tells it: the memory before the run, the attempts, and the clock and
/// the memory after it.
/// Where a write fails, what the writer took is a beginning of it, and the writer is not asked again.
///
/// All of it is put in words, also what a failed write keeps from the writer. So whatever comes of the writes, each number
/// and byte of the history is one of its type.
pub fn write_history<W: Write>(
    writer: &mut W,
    version: Version,
    memory: &[u8],
    attempts: &[Attempt],
    clock: u64,
    bytes: &[u8],
) -> io::Result<()>
    ensures written { Puts (W.contents writer.old) (W.contents writer.new) result
        (history_text (record { version = version; memory = memory.now; attempts = attempts.now; clock = clock; bytes = bytes.now })) }
    ensures fits { HistoryFits (record { version = version; memory = memory.now; attempts = attempts.now; clock = clock; bytes = bytes.now }) }
{
    let mut page = Page::empty(writer);
    put_history(&mut page, version, memory, attempts, clock, bytes);
    page.close()
}
