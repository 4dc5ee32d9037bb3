//! Reads, and copies of shared bytes: piece by piece upwards a word is loaded, and logged once the clock confirms that its value stood at the
//! snapshot. A piece that the write set has, or whose word is logged, takes no step.

ghost use Rattle.norec_core.specs.Phases as phases;
ghost use Rattle.norec_core.specs.Aims as aims;
ghost use Rattle.norec_core.specs.Phases.{Phase};
ghost use Rattle.std.specs.Prelude.{◌≡◌, ◌<◌, ◌≤◌, ◌+◌, ◌*◌, ℕ, false, true, IfSome, List, IfNone, None, Some, drop, is_some, length, slice_get, slice_index};
ghost use Rattle.itm_types.specs.Memory.{AllFit, Agrees};
ghost use Rattle.word_pieces.specs.Pieces.{IsPiece, part_of};
ghost use Rattle.write_set.specs.Rows.{lookup, overlay, AreRows};
ghost use Rattle.norec_core.specs.Rows.{is_covered, is_had, is_logged};
ghost use Rattle.itm_types.specs.Access.{size_of};
ghost use Rattle.norec_core.specs.Accesses.{part, parts, count};
ghost use Rattle.norec_data.specs.View.{rows_before};
ghost use Rattle.norec_turns.specs.InPhases.{IsSound, IsMissing, IsOpen, IsReading, next_load};
ghost use Rattle.norec_turns.specs.Between.{between, logged, IsValue, IsWord, MayGather, MayAnswerRead};
ghost use Rattle.norec_data.specs.Turns.{Turns};
ghost use Rattle.norec_core.specs.Order.{load_among, load_stage};
ghost use Rattle.norec_turns.specs.Moves.{GoesTo, StepGoesTo, StepTurns, CallComes};

use crate::copies::{keep_chunk, next_chunk};
use itm_types::{Call, LogRow, MAX_BYTES, MAX_WORDS, ReadHint, Value, Width};
use norec_core::{Purpose, Reading};
use norec_data::{CallEnd, Cause, Data, Pending, Turn, access_refusal};
use norec_turns::{refuse, try_round};
use std::alloc::AllocError;
use word_pieces::{Piece, merge};

/// The words that one access touches at most.
pub(crate) const MOST_PIECES: usize = 5;

/// A read comes.
#[inline(always)]
pub fn read(state: &mut Data, hint: ReadHint, width: Width, at: u64) -> Result<Turn, AllocError>
    requires sound { IsSound state.old phases.Idle }
    ensures { CallComes state.old (Call.Read hint width at) false result state.new }
{
    if let Some(why) = access_refusal(state, at, u64::from(width.size())) {
        return Ok(refuse(state, why));
    }
    state.gathered = Value::new();
    state.written = state.frames.len();
    let reading = Reading {
        purpose: Purpose::Value { hint, width },
        at,
        size: width.size(),
        number: 0,
    };
    match take_known(state, reading) {
        Some(number) => {
            state.log.reserve(MOST_PIECES)?;
            start(state);
            set_value(&mut state.reading, hint, width, at, number);
            Ok(Turn::Wait(Pending::Load))
        }
        None => {
            start(state);
            Ok(reply_gathered(state, reading))
        }
    }
}

/// The reading is one of this value, at a piece of it. Where it was one of a value before, no more than the parts of it
/// are written.
#[inline(always)]
pub(crate) fn set_value(reading: &mut Reading, hint: ReadHint, width: Width, at: u64, number: u8)
    requires wide { size_of width ≤ 32 }
    ensures { reading.new ≡ record { purpose = Purpose.Value hint width; at = at; size = size_of width; number = number } }
{
    match &mut reading.purpose {
        Purpose::Value {
            hint: old_hint,
            width: old_width,
        } => {
            *old_hint = hint;
            *old_width = width;
        }
        Purpose::Chunk { .. } => reading.purpose = Purpose::Value { hint, width },
    }
    reading.at = at;
    reading.size = width.size();
    reading.number = number;
}

/// A read comes, and has started no round.
#[inline(always)]
pub(crate) fn start(state: &mut Data)
    ensures { state.new ≡ record state.old { spent = 0; entry = length state.old.log.rows; tries = 0 } }
{
    state.start_call();
    state.tries = 0;
}

/// A read has all its pieces, and is answered.
#[inline(always)]
fn reply_gathered(state: &mut Data, reading: Reading) -> Turn
    requires may { MayAnswerRead state.old reading }
    ensures goes { GoesTo (between state.old (aims.Read reading)) phases.Idle None state.old result state.new }
    // whatever the log was before a row joined it
    ensures proceeds { (log : List LogRow) → Turns (logged (between state.old (aims.Read reading)) log) result state.new }
{
    Turn::End(CallEnd::Gathered)
}

/// The access goes on past the piece that was loaded. A value that has no further one is answered with no copy made of
/// the reading.
#[inline(always)]
fn go_past(state: &mut Data, piece: Piece) -> Turn
    requires part { piece ≡ part state.old.reading }
    requires in_value { piece.at + piece.count ≤ 32 }
    requires may { MayGather state.old (record state.old.reading { number = state.old.reading.number + 1 }) }
    requires few { state.old.reading.number < 5 }
    ensures goes { GoesTo (between state.old (aims.Read (record state.old.reading { number = state.old.reading.number + 1 })))
        (load_stage (rows_before state.old) state.old.log.rows (record state.old.reading { number = state.old.reading.number + 1 })) None state.old result state.new }
    // whatever the log was before a row joined it
    ensures proceeds { (log : List LogRow) → Turns
        (logged (between state.old (aims.Read (record state.old.reading { number = state.old.reading.number + 1 }))) log) result state.new }
{
    if is_whole(&state.reading, piece) {
        reply_gathered(state, state.reading.next())
    } else {
        go_on(state, state.reading.next())
    }
}

/// The read is one of a value, and has no piece past this one.
#[inline(always)]
fn is_whole(reading: &Reading, piece: Piece) -> bool
    requires part { piece ≡ part reading.now }
    requires in_value { piece.at + piece.count ≤ 32 }
    ensures whole { result ≡ true → IsValue reading.now.purpose × (count reading.now ≤ reading.now.number + 1) }
{
    match reading.purpose {
        Purpose::Value { .. } => piece.at + piece.count == reading.size,
        Purpose::Chunk { .. } => false,
    }
}

/// The word that is the value of the read, if it is one of a whole word.
#[inline(always)]
pub(crate) fn whole_word(reading: &Reading) -> Option<u32>
    requires place { reading.now.at ≤ MAX_BYTES }
    ensures word { IfSome result (λ word. IsWord reading.now word) }
{
    match reading.purpose {
        Purpose::Value { .. } if reading.size == 8 && reading.at % 8 == 0 => {
            Some((reading.at / 8) as u32)
        }
        _ => None,
    }
}

/// The access goes on from this piece: with the next one that is loaded, or with what it was made for.
pub(crate) fn go_on(state: &mut Data, reading: Reading) -> Turn
    requires may { MayGather state.old reading }
    ensures goes { GoesTo (between state.old (aims.Read reading)) (load_stage (rows_before state.old) state.old.log.rows reading) None state.old result state.new }
    // whatever the log was before a row joined it
    ensures proceeds { (log : List LogRow) → Turns (logged (between state.old (aims.Read reading)) log) result state.new }
{
    if let Some(number) = take_known(state, reading) {
        state.reading = Reading { number, ..reading };
        return Turn::Wait(Pending::Load);
    }
    match reading.purpose {
        Purpose::Value { .. } => reply_gathered(state, reading),
        Purpose::Chunk { copying, number } => {
            keep_chunk(state, copying, number, reading);
            next_chunk(state, copying, number + 1)
        }
    }
}

/// The pieces from this one on are taken from the write set and the log, up to one that is not to be had, whose
/// number is given.
#[cycle(take_known)]
#[inline(always)]
pub(crate) fn take_known(state: &mut Data, reading: Reading) -> Option<u8>
    requires may { (state.old.words ≤ MAX_WORDS) × IsOpen state.old × IsReading state.old reading }
    ensures frame { state.new ≡ record state.old { gathered = state.new.gathered } }
    ensures next { IfSome result (λ number. (reading.number ≤ number) × IsReading state.new (record reading { number = number }) × IsMissing state.new (record reading { number = number })) }
    ensures whole { IfNone result (IsReading state.new (record reading { number = count reading })) }
    ensures order { (past : Phase) → next_load reading result past
        ≡ load_among (rows_before state.old) state.old.log.rows past reading (drop reading.number (parts reading)) }
{
    let Some(piece) = reading.piece() else {
        return None;
    };
    match known_word(state, piece) {
        Some(value) => {
            piece.gather(value, &mut state.gathered);
            take_more(state, reading.next())
        }
        None => Some(reading.number),
    }
}

/// The same past the first piece.
#[cycle(take_known)]
#[inline(never)]
fn take_more(state: &mut Data, reading: Reading) -> Option<u8>
    requires may { (state.old.words ≤ MAX_WORDS) × IsOpen state.old × IsReading state.old reading }
    ensures frame { state.new ≡ record state.old { gathered = state.new.gathered } }
    ensures next { IfSome result (λ number. (reading.number ≤ number) × IsReading state.new (record reading { number = number }) × IsMissing state.new (record reading { number = number })) }
    ensures whole { IfNone result (IsReading state.new (record reading { number = count reading })) }
    ensures order { (past : Phase) → next_load reading result past
        ≡ load_among (rows_before state.old) state.old.log.rows past reading (drop reading.number (parts reading)) }
{
    take_known(state, reading)
}

/// A piece's word, where the piece is to be had with no step: the write set has all of it, or the word is logged.
#[inline(always)]
pub(crate) fn known_word(state: &Data, piece: Piece) -> Option<u64>
    requires piece { IsPiece piece }
    requires rows { AreRows state.now.frames.writes.rows }
    ensures had { is_some result ≡ is_had state.now.frames.writes.rows state.now.log.rows piece }
    ensures part { IfSome result (λ value. (m : List ℕ) → AllFit m → Agrees m state.now.log.rows → piece.word < length m
        → part_of piece (slice_index (overlay m state.now.frames.writes.rows) piece.word) ≡ part_of piece value) }
{
    match covered(state, piece) {
        Some(value) => Some(value),
        None => logged_word(state, piece.word),
    }
}

/// The word that the write set has of a piece, where it has all of the piece.
fn covered(state: &Data, piece: Piece) -> Option<u64>
    requires piece { IsPiece piece }
    requires rows { AreRows state.now.frames.writes.rows }
    ensures covered { is_some result ≡ is_covered state.now.frames.writes.rows piece }
    ensures part { IfSome result (λ value. (m : List ℕ) → AllFit m → piece.word < length m
        → part_of piece (slice_index (overlay m state.now.frames.writes.rows) piece.word) ≡ part_of piece value) }
{
    match state.frames.get(piece.word) {
        Some(row) if piece.is_within(row.mask) => Some(row.value),
        _ => None,
    }
}

/// A logged word with what the write set has of it.
fn logged_word(state: &Data, word: u32) -> Option<u64>
    ensures logged { is_some result ≡ is_logged state.now.log.rows word }
    ensures word { IfSome result (λ value. (m : List ℕ) → Agrees m state.now.log.rows → slice_get (overlay m state.now.frames.writes.rows) word ≡ Some value) }
{
    let value = state.log.find(word)?;
    Some(overlaid(state, word, value))
}

/// The loaded word with what the write set has of it.
fn overlaid(state: &Data, word: u32, value: u64) -> u64
    ensures { (m : List ℕ) → slice_get m word ≡ Some value → slice_get (overlay m state.now.frames.writes.rows) word ≡ Some result }
{
    match state.frames.get(word) {
        Some(row) => merge(value, row.mask, row.value),
        None => value,
    }
}

/// A word was loaded, to be confirmed.
#[inline(always)]
pub fn loaded(state: &mut Data, seen: u64) -> Turn
    requires sound { IsSound state.old (phases.Load state.old.reading) }
    ensures turn { result ≡ Turn.Wait (Pending.Confirm seen) }
    ensures state { state.new ≡ state.old }
    ensures goes { StepGoesTo state.old (phases.Load state.old.reading) seen result state.new }
{
    Turn::Wait(Pending::Confirm(seen))
}

/// The clock was loaded to confirm a word.
#[inline(always)]
pub fn confirmed(state: &mut Data, value: u64, seen: u64) -> Turn
    requires sound { IsSound state.old (phases.Confirm state.old.reading value) }
    requires fits { state.old.clock ≤ seen }
    ensures { StepTurns state.old (phases.Confirm state.old.reading value) seen result state.new }
{
    if seen == state.snapshot {
        if let Some(word) = whole_word(&state.reading) {
            return Turn::End(CallEnd::Word(confirmed_word(state, word, value, seen)));
        }
        state.clock = seen;
        let Some(piece) = state.reading.piece() else {
            unreachable!();
        };
        let row = LogRow {
            word: piece.word,
            value,
        };
        state.log.add(row);
        let word = overlaid(state, piece.word, value);
        piece.gather(word, &mut state.gathered);
        go_past(state, piece)
    } else {
        state.clock = seen;
        try_round(state, Cause::Read)
    }
}

/// The clock was loaded to confirm a whole word, and is still the snapshot: what the word is under the write set.
#[inline(always)]
fn confirmed_word(state: &mut Data, word: u32, value: u64, seen: u64) -> u64
    requires sound { IsSound state.old (phases.Confirm state.old.reading value) }
    requires word { IsWord state.old.reading word }
    requires same { seen ≡ state.old.snapshot }
    ensures { StepTurns state.old (phases.Confirm state.old.reading value) seen (Turn.End (CallEnd.Word result)) state.new }
{
    state.clock = seen;
    state.log.add(LogRow { word, value });
    overlaid(state, word, value)
}

/// The same, where the word is not written: it is what was loaded, with no look at the write set.
#[inline(always)]
pub fn confirmed_new(state: &mut Data, word: u32, value: u64, seen: u64)
    requires sound { IsSound state.old (phases.Confirm state.old.reading value) }
    requires word { IsWord state.old.reading word }
    requires same { seen ≡ state.old.snapshot }
    requires unwritten { lookup word (rows_before state.old) ≡ None }
    ensures { StepTurns state.old (phases.Confirm state.old.reading value) seen (Turn.End (CallEnd.Word value)) state.new }
{
    state.clock = seen;
    let row = LogRow { word, value };
    state.log.add(row);
}
