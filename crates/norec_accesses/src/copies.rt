//! Copies. The whole source is read first, chunk by chunk, so that a conflict has changed nothing; then the destination
//! is written at once, in the write set or in the arena. All memory is taken before the first step.

ghost use Rattle.norec_core.specs.Phases as phases;
ghost use Rattle.std.specs.Prelude.{◌≡◌, ◌<◌, ◌≤◌, ◌+◌, false, OnOk, OnErr, List, None, length, drop, replicate};
ghost use Rattle.itm_types.specs.Slices.{slice, with_slice, AreBytes};
ghost use Rattle.itm_types.specs.declared.row.LogRow.{LogRow};
ghost use Rattle.norec_core.specs.Copies.{copy_refusal, chunks_in, is_out, source_words, WritesShared};
ghost use Rattle.norec_core.specs.Accesses.{count};
ghost use Rattle.norec_data.specs.View.{in_block, rows_before};
ghost use Rattle.norec_turns.specs.InPhases.{IsSound, MayPutFor, Copied, IsServed, IsReading, reserved_for};
ghost use Rattle.norec_turns.specs.Between.{in_copy, logged, MayCopy, MayFinish};
ghost use Rattle.norec_accesses.specs.KeptFrames.{KeepsAllButWrites};
ghost use Rattle.norec_data.specs.Turns.{Turns};
ghost use Rattle.norec_core.specs.Order.{chunk_reading, load_chunks};
ghost use Rattle.norec_core.specs.Effects.{arena_copied, writes_copied};
ghost use Rattle.norec_turns.specs.Moves.{GoesTo, CallComes};

mod refusals;

use crate::copies::refusals::refuse_copy;
use crate::fills::set_all;
use crate::range::{put_range, reserve_range};
use crate::reads::{MOST_PIECES, take_known};
use itm_types::{Call, CopyPair, Copying, MAX_BYTES, MAX_WORDS, Value};
use nest_frames::Frames;
use norec_core::{Purpose, Reading};
use norec_data::{CallEnd, Data, Pending, Turn, chunk_reading, chunks, copy_refusal, direction};
use std::alloc::AllocError;
use value_log::ValueLog;

/// A copy comes. One of no bytes takes no memory.
pub fn copy(state: &mut Data, copying: Copying) -> Result<Turn, AllocError>
    requires sound { IsSound state.old phases.Idle }
    ensures { CallComes state.old (Call.Copy copying) false result state.new }
{
    if let Some(why) = copy_refusal(state, copying) {
        return Ok(refuse_copy(state, copying, why));
    }
    let written = state.frames.len();
    reserve(state, copying)?;
    state.start_call();
    state.tries = 0;
    state.written = written;
    match copying.pair {
        CopyPair::Out(_) => {
            take_source(state, copying);
            Ok(copied(state, copying))
        }
        CopyPair::In(_) | CopyPair::Within(_, _) => Ok(next_chunk(state, copying, 0)),
    }
}

/// Makes room for the source's bytes, the rows that reading it may log, and those of the destination.
fn reserve(state: &mut Data, copying: Copying) -> Result<(), AllocError>
    requires sound { IsSound state.old phases.Idle }
    requires served { copy_refusal (in_block state.old) state.old.words (length state.old.arena) copying ≡ None }
    ensures frame { state.new ≡ record state.old {
      buffer = state.new.buffer;
      log = state.new.log;
      frames = state.new.frames;
    } }
    ensures log { state.new.log.rows ≡ state.old.log.rows }
    ensures kept { KeepsAllButWrites state.old.frames state.new.frames }
    ensures buffer { OnOk result (state.new.buffer.items ≡ replicate copying.size 0) }
    ensures room { OnOk result (is_out copying.pair ≡ false → source_words copying ≤ state.new.log.room) }
    ensures rows { OnOk result (state.new.frames.writes.rows ≡ reserved_for copying copying.pair state.old.frames.writes.rows) }
    ensures may_put { OnOk result (MayPutFor copying copying.pair state.new.frames.writes) }
    ensures err { OnErr result (state.new.frames.writes.rows ≡ state.old.frames.writes.rows) }
    ensures some { OnErr result (0 < copying.size) }
{
    state.buffer.clear();
    if copying.size == 0 {
        return Ok(());
    }
    set_all(&mut state.buffer, copying.size as usize, 0)?;
    reserve_source(&mut state.log, copying)?;
    reserve_target(&mut state.frames, copying)
}

/// Makes room for the rows that reading the source may log.
fn reserve_source(log: &mut ValueLog, copying: Copying) -> Result<(), AllocError>
    requires { copying.size ≤ MAX_BYTES }
    ensures rows { log.new.rows ≡ log.old.rows }
    ensures room { OnOk result (is_out copying.pair ≡ false → source_words copying ≤ log.new.room) }
{
    match copying.pair {
        CopyPair::Out(_) => Ok(()),
        CopyPair::In(_) | CopyPair::Within(_, _) => {
            log.reserve(MOST_PIECES * chunks(copying).len() as usize)
        }
    }
}

/// Makes each word of a shared destination ready to be written.
fn reserve_target(frames: &mut Frames, copying: Copying) -> Result<(), AllocError>
    requires open { 0 < length frames.old.blocks }
    requires range { WritesShared copying.pair → copying.to + copying.size ≤ MAX_BYTES }
    ensures rows { OnOk result
        (frames.new.writes.rows ≡ reserved_for copying copying.pair frames.old.writes.rows) }
    ensures may_put { OnOk result (MayPutFor copying copying.pair frames.new.writes) }
    ensures err { OnErr result (frames.new.writes.rows ≡ frames.old.writes.rows) }
    ensures kept { KeepsAllButWrites frames.old frames.new }
{
    match copying.pair {
        CopyPair::In(_) => Ok(()),
        CopyPair::Out(_) | CopyPair::Within(_, _) => {
            reserve_range(frames, copying.to, chunks(copying))
        }
    }
}

/// The chunks of the source from this one on are read: up to a piece that is loaded, or to the end.
pub(crate) fn next_chunk(state: &mut Data, copying: Copying, number: u32) -> Turn
    requires may { MayCopy state.old copying number }
    ensures goes { GoesTo (in_copy state.old copying) (load_chunks (rows_before state.old) state.old.log.rows copying number (drop number (chunks_in copying)))
        None state.old result state.new }
    // whatever the log was before a row joined it
    ensures proceeds { (log : List LogRow) → Turns (logged (in_copy state.old copying) log) result state.new }
{
    let mut number = number;
    while let Some(reading) = chunk_reading(copying, number) {
        state.gathered = Value::new();
        if let Some(number) = take_known(state, reading) {
            state.reading = Reading { number, ..reading };
            return Turn::Wait(Pending::Load);
        }
        keep_chunk(state, copying, number, reading);
        number += 1;
    }
    copied(state, copying)
}

/// The bytes of a chunk that is read whole go to their place in the buffer.
pub(crate) fn keep_chunk(state: &mut Data, copying: Copying, number: u32, reading: Reading)
    requires chunk { reading.purpose ≡ Purpose.Chunk copying number }
    requires whole { IsReading state.old (record reading { number = count reading }) }
    ensures frame { state.new ≡ record state.old { buffer = state.new.buffer } }
    ensures copied { Copied state.new copying (number + 1) }
{
    let start = (reading.at - copying.from) as usize;
    put_bytes(&mut state.buffer, start, &state.gathered);
}

/// Puts bytes at a place of the buffer.
fn put_bytes(buffer: &mut Vec<u8>, start: usize, bytes: &[u8])
    requires { start + length bytes.now ≤ length buffer.old.items }
    ensures { buffer.new.items ≡ with_slice buffer.old.items start bytes.now }
{
    buffer[start..start + bytes.len()].copy_from_slice(bytes);
}

/// The source is read whole: its bytes go to the destination.
fn copied(state: &mut Data, copying: Copying) -> Turn
    requires may { MayFinish state.old copying }
    ensures goes { GoesTo (in_copy state.old copying) phases.Idle None state.old result state.new }
    // whatever the log was before a row joined it
    ensures proceeds { (log : List LogRow) → Turns (logged (in_copy state.old copying) log) result state.new }
{
    deliver(state, copying);
    Turn::End(CallEnd::Done)
}

/// The buffer goes to the destination, which has room for it.
fn deliver(state: &mut Data, copying: Copying)
    requires words { state.old.words ≤ MAX_WORDS }
    requires served { IsServed state.old.words (length state.old.arena) (rows_before state.old) state.old.frames.writes state.old.buffer.items copying }
    ensures frame { state.new ≡ record state.old {
      arena = state.new.arena;
      frames = state.new.frames;
    } }
    ensures rows { state.new.frames.writes.rows
        ≡ writes_copied (rows_before state.old) copying copying.pair state.old.buffer.items }
    ensures arena { state.new.arena ≡ arena_copied state.old.arena copying copying.pair state.old.buffer.items }
    ensures kept { KeepsAllButWrites state.old.frames state.new.frames }
    ensures bytes { AreBytes state.old.buffer.items }
{
    match copying.pair {
        CopyPair::In(_) => state.arena.put(copying.to as usize, &state.buffer),
        CopyPair::Out(_) | CopyPair::Within(_, _) => put_range(
            &mut state.frames,
            copying.to,
            direction(copying),
            &state.buffer,
        ),
    }
}

/// The source's bytes are taken from the arena.
fn take_source(state: &mut Data, copying: Copying)
    requires range { copying.from + copying.size ≤ length state.old.arena }
    requires sized { length state.old.buffer.items ≡ copying.size }
    ensures frame { state.new ≡ record state.old { buffer = state.new.buffer } }
    ensures bytes { state.new.buffer.items ≡ slice state.old.arena copying.from copying.size }
{
    // (what holds of every arena: it is small)
    let _bytes = state.arena.size();
    let start = copying.from as usize;
    let end = start + copying.size as usize;
    state
        .buffer
        .copy_from_slice(&state.arena.bytes()[start..end]);
}
