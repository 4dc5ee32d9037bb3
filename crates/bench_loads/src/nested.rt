//! A transaction with an inner block, and a thread that disturbs it there.

ghost use Rattle.std.specs.Prelude.{◌≡◌};
ghost use Rattle.shared_words.specs.Passes.{Owns};

use crate::sites::TryEnd;
use crate::workload::{get, place_of, put};
use itm_runtime::Thread;
use itm_types::{Props, ReadHint, Reply, Width};
use norec_core::Answer;
use shared_words::Words;
use std::alloc::AllocError;

/// What came of the reads of an inner block.
#[derive(Clone, Copy, PartialEq, Eq)]
enum Reads {
    Done,
    /// The block went back to its begin, and is still open.
    BlockRestarted,
    /// The transaction is over.
    Over,
}

/// Adds 1 to a word; whether the transaction is still open.
fn add_one(words: &Words, thread: &mut Thread, word: u64) -> Result<bool, AllocError>
    requires own { Owns words.now thread.old.pass }
    ensures own { Owns words.now thread.new.pass }
{
    match get(words, thread, word)? {
        Some(value) => put(words, thread, word, value.wrapping_add(1)),
        None => Ok(false),
    }
}

/// Reads so many words, from word 0 on; whether the transaction is still open.
fn get_all(words: &Words, thread: &mut Thread, size: u64) -> Result<bool, AllocError>
    requires own { Owns words.now thread.old.pass }
    ensures own { Owns words.now thread.new.pass }
{
    for word in 0..size {
        if get(words, thread, word)?.is_none() {
            return Ok(false);
        }
    }
    Ok(true)
}

/// How many words the inner block reads.
fn inner_size(size: u64) -> u64 {
    size / 10
}

/// Reads so many words in an inner block.
fn read_inner(words: &Words, thread: &mut Thread, from: u64, size: u64) -> Result<Reads, AllocError>
    requires own { Owns words.now thread.old.pass }
    ensures own { Owns words.now thread.new.pass }
{
    for number in 0..size {
        let place = place_of(from.wrapping_add(number));
        match thread.read(words, ReadHint::R, Width::U8, place)? {
            Answer::Reply(Reply::Bytes(_)) => {}
            Answer::Restarted { .. } => return Ok(Reads::BlockRestarted),
            _ => return Ok(Reads::Over),
        }
    }
    Ok(Reads::Done)
}

/// Reads them until none was changed in between; whether the transaction is still open.
fn read_again(words: &Words, thread: &mut Thread, from: u64, size: u64) -> Result<bool, AllocError>
    requires own { Owns words.now thread.old.pass }
    ensures own { Owns words.now thread.new.pass }
{
    for _ in 0..u64::MAX {
        match read_inner(words, thread, from, size)? {
            Reads::Done => return Ok(true),
            Reads::BlockRestarted => {}
            Reads::Over => return Ok(false),
        }
    }
    Ok(false)
}

/// Reads so many words, and then a tenth as many in an inner block; whether the transaction is still open.
fn read_nested(words: &Words, thread: &mut Thread, size: u64) -> Result<bool, AllocError>
    requires own { Owns words.now thread.old.pass }
    ensures own { Owns words.now thread.new.pass }
{
    if !get_all(words, thread, size)? {
        return Ok(false);
    }
    let Answer::Reply(_) = thread.begin(words, Props::default(), 0, false)? else {
        return Ok(false);
    };
    if !read_again(words, thread, size, inner_size(size))? {
        return Ok(false);
    }
    Ok(matches!(thread.commit(words), Answer::Reply(_)))
}

/// Tries such a transaction once, `again` where an earlier try of it began.
pub fn try_nested(
    words: &Words,
    thread: &mut Thread,
    size: u64,
    again: bool,
) -> Result<TryEnd, AllocError>
    requires own { Owns words.now thread.old.pass }
    ensures own { Owns words.now thread.new.pass }
{
    let Answer::Reply(_) = thread.begin(words, Props::default(), 0, again)? else {
        return Ok(TryEnd::Outside);
    };
    if !read_nested(words, thread, size)? {
        return Ok(TryEnd::RolledBack);
    }
    match thread.commit(words) {
        Answer::Committed { .. } => Ok(TryEnd::Committed),
        _ => Ok(TryEnd::RolledBack),
    }
}

/// One turn of who disturbs those that read: 1 more in the first word of the inner block, and then as long a pause as it takes
/// to read half the words of the outer one.
pub fn disturb(words: &Words, thread: &mut Thread, size: u64) -> Result<(), AllocError>
    requires own { Owns words.now thread.old.pass }
    ensures own { Owns words.now thread.new.pass }
{
    if let Answer::Reply(_) = thread.begin(words, Props::default(), 0, false)? {
        if add_one(words, thread, size)? {
            let _answer = thread.commit(words);
        }
    }
    if let Answer::Reply(_) = thread.begin(words, Props::default(), 0, false)? {
        if get_all(words, thread, size / 2)? {
            let _answer = thread.commit(words);
        }
    }
    Ok(())
}
