//! What was overwritten, so that it can be put back.

ghost use Rattle.std.specs.Prelude.{◌≡◌, ◌≤◌, ◌<◌, ◌+◌, ◌↔◌, IsTrue, IsOk, OnOk, OnErr, length, drop, take, vec_len, vec_capacity};
ghost use Rattle.itm_model.specs.Undoing.{put_back, AreWithin, Restores, Logged};

use crate::bytes::{WIDEST, part_at, range_at, replace};
use itm_types::{Props, Value};
use std::alloc::AllocError;
use user_actions::ActionMark;

/// What stood at a place.
#[derive(Debug, Drop)]
pub(crate) struct Old {
    pub(crate) place: u64,
    pub(crate) bytes: Value,
    /// Of an old piece of the memory: how many entries the journal had up to the one before it of this piece, or 0.
    pub(crate) earlier: usize,
}

/// An open block.
#[derive(Clone, Copy, Debug)]
pub(crate) struct Mark {
    pub(crate) props: Props,
    /// How many entries the journal had at the block's begin.
    pub(crate) at: usize,
    /// How many entries the log had by then.
    pub(crate) logs: usize,
    /// How many actions were registered by then.
    pub(crate) actions: ActionMark,
    /// Whether a byte had been written by then.
    pub(crate) wrote: bool,
}

/// Puts back what was overwritten since the journal had so many entries.
pub(crate) fn unwind(memory: &mut Vec<u8>, journal: &mut Vec<Old>, at: usize)
    requires at { at ≤ length journal.old.items }
    requires within { AreWithin (length memory.old.items) journal.old.items }
    ensures memory { memory.new.items ≡ put_back (drop at journal.old.items) memory.old.items }
    ensures restores { Restores at journal.old.items memory.old.items journal.new.items memory.new.items }
    ensures rest { journal.new.items ≡ take at journal.old.items }
    ensures within { AreWithin (length memory.new.items) journal.new.items }
{
    while journal.len() > at {
        let old = journal.pop().unwrap();
        replace(memory, old.place, &old.bytes);
    }
}

/// Keeps so many bytes from a place on, in entries of a value's size. To keep none takes no memory.
pub(crate) fn keep(
    bytes: &[u8],
    logs: &mut Vec<Old>,
    place: u64,
    size: u64,
) -> Result<(), AllocError>
    requires range { place + size ≤ length bytes.now }
    requires within { AreWithin (length bytes.now) logs.old.items }
    ensures ok { OnOk result (Logged bytes.now place size logs.old.items logs.new.items) }
    ensures longer { OnOk result (length logs.old.items ≤ length logs.new.items) }
    ensures within { OnOk result (AreWithin (length bytes.now) logs.new.items) }
    ensures none { size ≡ 0 → IsOk result }
    ensures err { OnErr result (logs.new.items ≡ logs.old.items) }
{
    let start = place as usize;
    let size = size as usize;
    logs.reserve(size.div_ceil(WIDEST))?;
    let mut done = 0;
    while done < size {
        let part = usize::min(size - done, WIDEST);
        keep_part(bytes, logs, start + done, part);
        done += part;
    }
    Ok(())
}

/// Keeps no more bytes than a value has.
fn keep_part(bytes: &[u8], logs: &mut Vec<Old>, start: usize, size: usize)
    requires range { start + size ≤ length bytes.now }
    requires size { size ≤ WIDEST }
    requires room { vec_len logs.old < vec_capacity logs.old }
    requires within { AreWithin (length bytes.now) logs.old.items }
    ensures logged { Logged bytes.now start size logs.old.items logs.new.items }
    ensures one { vec_len logs.new ≡ vec_len logs.old + 1 }
    ensures capacity { vec_capacity logs.new ≡ vec_capacity logs.old }
    ensures within { AreWithin (length bytes.now) logs.new.items }
{
    let kept = part_at(bytes, start, size);
    logs.push_reserved(Old {
        place: start as u64,
        bytes: kept,
        earlier: 0,
    });
}

/// Copies to `base`, where it is what stands once the journal is put back, what stands at each place of the journal.
pub(crate) fn lay(memory: &[u8], journal: &[Old], base: &mut Vec<u8>)
    requires within { AreWithin (length memory.now) journal.now }
    requires base { base.old.items ≡ put_back journal.now memory.now }
    ensures { base.new.items ≡ memory.now }
{
    for old in journal {
        let size = old.bytes.len() as u64;
        replace(base, old.place, range_at(memory, old.place, size));
    }
}

/// Whether `base`, which is what stands once the journal is put back, is the memory.
pub(crate) fn is_laid(memory: &[u8], journal: &[Old], base: &[u8]) -> bool
    requires within { AreWithin (length memory.now) journal.now }
    requires base { base.now ≡ put_back journal.now memory.now }
    ensures { IsTrue result ↔ (memory.now ≡ base.now) }
{
    for old in journal {
        let size = old.bytes.len() as u64;
        if range_at(memory, old.place, size) != range_at(base, old.place, size) {
            return false;
        }
    }
    true
}
