//! What the transactions that are measured do, as a user would write it. All of it is put in line, so that its reads and
//! writes are calls of the place at which a transaction stands.

ghost use Rattle.std.specs.Prelude.{◌≡◌};
ghost use Rattle.shared_words.specs.Passes.{Owns};

use crate::workload::{Block, get, put};
use itm_runtime::Thread;
use shared_words::Words;
use std::alloc::AllocError;

/// Adds so much to a word; whether the transaction is still open.
#[inline(always)]
fn add(words: &Words, thread: &mut Thread, word: u64, more: u64) -> Result<bool, AllocError>
    requires own { Owns words.now thread.old.pass }
    ensures own { Owns words.now thread.new.pass }
{
    match get(words, thread, word)? {
        Some(value) => put(words, thread, word, value.wrapping_add(more)),
        None => Ok(false),
    }
}

/// Moves 1 between two words; whether the transaction is still open.
#[inline(always)]
fn transfer(words: &Words, thread: &mut Thread, from: u64, to: u64) -> Result<bool, AllocError>
    requires own { Owns words.now thread.old.pass }
    ensures own { Owns words.now thread.new.pass }
{
    if !add(words, thread, from, u64::MAX)? {
        return Ok(false);
    }
    add(words, thread, to, 1)
}

/// Reads so many words; whether the transaction is still open.
#[inline(always)]
fn read_all(words: &Words, thread: &mut Thread, first: u64, size: u64) -> Result<bool, AllocError>
    requires own { Owns words.now thread.old.pass }
    ensures own { Owns words.now thread.new.pass }
{
    for number in 0..size {
        if get(words, thread, first.wrapping_add(number))?.is_none() {
            return Ok(false);
        }
    }
    Ok(true)
}

/// Writes a value to so many words, from word 0 on; whether the transaction is still open.
#[inline(always)]
fn write_all(words: &Words, thread: &mut Thread, size: u64, value: u64) -> Result<bool, AllocError>
    requires own { Owns words.now thread.old.pass }
    ensures own { Owns words.now thread.new.pass }
{
    for word in 0..size {
        if !put(words, thread, word, value)? {
            return Ok(false);
        }
    }
    Ok(true)
}

/// What stands between a begin and its commit; whether the transaction is still open.
#[inline(always)]
pub fn body(words: &Words, thread: &mut Thread, block: &Block) -> Result<bool, AllocError>
    requires own { Owns words.now thread.old.pass }
    ensures own { Owns words.now thread.new.pass }
{
    match *block {
        Block::Counter => add(words, thread, 0, 1),
        Block::Transfer { from, to } => transfer(words, thread, from, to),
        Block::ReadOnly { first, size } => read_all(words, thread, first, size),
        Block::Writes { size, value } => write_all(words, thread, size, value),
    }
}
