//! Reads of one whole word that is neither written nor logged: the call asks for this word, with no look at its pieces. Where the log
//! has room by the number of its rows alone, the whole read can be done at once, by who does its steps himself.

ghost use Rattle.norec_core.specs.Phases as phases;
ghost use Rattle.std.specs.Prelude.{◌≡◌, ◌<◌, ◌≤◌, ℕ, IfSome, IfNone, OnSome, None, false, length};
ghost use Rattle.value_log.specs.Log.{HasRoomBehind};
ghost use Rattle.write_set.specs.Rows.{lookup};
ghost use Rattle.norec_data.specs.View.{core, rows_before};
ghost use Rattle.norec_turns.specs.InPhases.{IsSound};
ghost use Rattle.norec_turns.specs.Between.{IsWord};
ghost use Rattle.norec_accesses.specs.WholeReads.{IsNewWord, ReadTurns, asking_word};
ghost use Rattle.norec_turns.specs.Moves.{CallTurns};

use crate::reads::{set_value, start};
use itm_types::{Call, LogRow, MAX_WORDS, ReadHint, Value, Width};
use norec_data::{Data, Pending, Turn};

/// A read comes. Where it is one of a whole word that is neither written nor logged, and there is room to log it, it may
/// wait for this word; where it does not, nothing is done.
#[inline(always)]
pub fn begin_word(state: &mut Data, hint: ReadHint, width: Width, at: u64) -> Option<u32>
    requires sound { IsSound state.old phases.Idle }
    ensures none { IfNone result (state.new ≡ state.old) }
    ensures called { OnSome result (CallTurns state.old (Call.Read hint width at) false (Turn.Wait Pending.Load) state.new) }
    ensures word { IfSome result (IsWord state.new.reading) }
    ensures within { IfSome result (λ word. word < state.new.words) }
    ensures unwritten { IfSome result (λ word. lookup word (rows_before state.new) ≡ None) }
    ensures first { OnSome result (state.new.reading.number ≡ 0) }
    ensures spent { OnSome result (state.new.spent ≡ 0) }
    ensures tries { OnSome result (state.new.tries ≡ 0) }
{
    let word = new_word(state, width, at)?;
    if !state.log.has_room() {
        return None;
    }
    ask_word(state, hint, width, at);
    Some(word)
}

/// Such a read comes, and there is room to log it: it waits for its word.
#[inline(always)]
pub fn ask_word(state: &mut Data, hint: ReadHint, width: Width, at: u64)
    requires sound { IsSound state.old phases.Idle }
    requires new { (word : ℕ) × IsNewWord (core state.old phases.Idle) width at word }
    requires room { 0 < state.old.log.room }
    ensures called { CallTurns state.old (Call.Read hint width at) false (Turn.Wait Pending.Load) state.new }
    ensures state { state.new ≡ asking_word state.old hint width at }
{
    state.gathered = Value::new();
    state.written = state.frames.len();
    start(state);
    set_value(&mut state.reading, hint, width, at, 0);
}

/// The word of such a read, where the log has room by the number of its rows alone: it can be done at once.
#[inline(always)]
pub fn word_to_read(state: &Data, width: Width, at: u64) -> Option<u32>
    requires { state.now.words ≤ MAX_WORDS }
    ensures new { IfSome result (IsNewWord (core state.now phases.Idle) width at) }
    ensures behind { OnSome result (HasRoomBehind (length state.now.log.rows)) }
{
    if !state.log.has_room_behind() {
        return None;
    }
    new_word(state, width, at)
}

/// The read of this word is done: it comes, the word is loaded with this value, then the clock, which is still the snapshot, and
/// it is answered. What is true of the fields only while a step is waited for is not stored.
#[inline(always)]
pub fn read_at_once(state: &mut Data, word: u32, value: u64)
    requires sound { IsSound state.old phases.Idle }
    requires new { (width : Width) × (at : ℕ) × IsNewWord (core state.old phases.Idle) width at word }
    requires behind { HasRoomBehind (length state.old.log.rows) }
    ensures { (hint : ReadHint) (width : Width) (at : ℕ) → IsNewWord (core state.old phases.Idle) width at word → ReadTurns state.old hint width at word value state.new }
{
    prove!(state.log.has_room_behind());
    state.entry = state.log.len();
    state.spent = 2;
    let row = LogRow { word, value };
    state.log.add(row);
}

/// The word of a read, if it is such a one.
#[inline(always)]
fn new_word(state: &Data, width: Width, at: u64) -> Option<u32>
    requires { state.now.words ≤ MAX_WORDS }
    ensures { IfSome result (IsNewWord (core state.now phases.Idle) width at) }
{
    if width.size() != 8 || at % 8 != 0 || !state.is_open() || at / 8 >= u64::from(state.words) {
        return None;
    }
    let word = (at / 8) as u32;
    // (who knows that nothing is written has no look at the write set compiled)
    if state.frames.len() > 0 && state.frames.get(word).is_some() {
        return None;
    }
    if state.log.find(word).is_some() {
        return None;
    }
    Some(word)
}
