//! Lines by where they stand.

ghost use Rattle.std.specs.Prelude.{◌≡◌, length};
ghost use Rattle.history_reader.specs.Faults.{told};
ghost use Rattle.history_reader.specs.Fields.{rest_fields};
ghost use Rattle.history_reader.specs.Lines.{depth_line, memory_line, head_line, final_line, between_line, arena_line, is_entered, behind_call, call_line, restart_line, undone_line, ran_line, end_line, later_line, again_or_later, call_or_later, header_line, meaning};
ghost use Rattle.history_reader.specs.Reading.{Steps, recorded, taken};

use crate::body::call_of;
use crate::digits::bytes_of;
use crate::fault::ReadKind;
use crate::fields::{first_field, no_field};
use crate::line_parts::{
    arena_of, depth_of, final_of, head_of, memory_of, ran_of, restart_of, undone_of,
};
use crate::state::{Behind, Head, Place, State};
use itm_types::{Call, Reply};
use script_fields::exactly;
use std::alloc::Global;
use std::mem;
use tx_attempts::{Again, Attempt, Bytes, CallRecord, Calls, RanActions, Restarts};
use tx_history::Version;

/// How many blocks may be open at once.
#[tactic(auto, unfolding(crate::specs::Lines::depth_line), using(crate::proofs::Faults::stops))]
fn depth_line(state: &mut State, word: &[u8], rest: Option<&[u8]>) -> Result<(), ReadKind>
    ensures { Steps (λ t. 0) result state.new (told (depth_line state.old word.now (rest_fields rest.entry))) }
{
    exactly(b"depth", word)?;
    let depth = depth_of(rest)?;
    state.version = Version::Three(depth);
    state.place = Place::AtMemory;
    Ok(())
}

/// The memory before the run.
#[tactic(auto, unfolding(crate::specs::Lines::memory_line), using(crate::proofs::Faults::stops, crate::proofs::Faults::adds, crate::proofs::Values::some_said))]
fn memory_line(
    alloc: Global,
    state: &mut State,
    word: &[u8],
    rest: Option<&[u8]>,
) -> Result<(), ReadKind>
    ensures { Steps (λ t. length t.memory) result state.new (told (memory_line state.old word.now (rest_fields rest.entry))) }
{
    exactly(b"memory", word)?;
    let digits = memory_of(state.version.memory_limit(), rest)?;
    state.memory = Bytes::new(bytes_of(alloc, digits)?);
    state.place = Place::Between;
    Ok(())
}

/// An attempt begins.
#[tactic(auto, unfolding(crate::specs::Lines::head_line), using(crate::proofs::Faults::stops))]
fn head_line(state: &mut State, rest: Option<&[u8]>) -> Result<(), ReadKind>
    ensures { Steps (λ t. length t.bytes) result state.new (told (head_line state.old (rest_fields rest.entry))) }
{
    let head = head_of(state.version.thread_limit(), rest)?;
    state.place = Place::AtArena(head);
    Ok(())
}

/// The last line: the clock and the memory after the run.
#[tactic(auto, unfolding(crate::specs::Lines::final_line), using(crate::proofs::Faults::stops, crate::proofs::Faults::adds, crate::proofs::Values::some_said))]
fn final_line(alloc: Global, state: &mut State, rest: Option<&[u8]>) -> Result<(), ReadKind>
    ensures { Steps (λ t. length t.bytes) result state.new (told (final_line state.old (rest_fields rest.entry))) }
{
    let (clock, digits) = final_of(state.memory.as_slice().len(), rest)?;
    state.bytes = Bytes::new(bytes_of(alloc, digits)?);
    state.place = Place::AtEnd(clock);
    Ok(())
}

/// An attempt begins, or the last line.
#[tactic(auto, unfolding(crate::specs::Lines::between_line), using(crate::proofs::Faults::stops))]
fn between_line(
    alloc: Global,
    state: &mut State,
    word: &[u8],
    rest: Option<&[u8]>,
) -> Result<(), ReadKind>
    ensures { Steps (λ t. length t.bytes) result state.new (told (between_line state.old word.now (rest_fields rest.entry))) }
{
    if word == b"attempt".as_slice() {
        head_line(state, rest)
    } else if word == b"final".as_slice() {
        final_line(alloc, state, rest)
    } else {
        Err(ReadKind::Line)
    }
}

/// The arena of an attempt.
#[tactic(auto, unfolding(crate::specs::Lines::arena_line), using(crate::proofs::Faults::stops, crate::proofs::Faults::adds, crate::proofs::Values::some_said))]
fn arena_line(
    alloc: Global,
    state: &mut State,
    head: Head,
    word: &[u8],
    rest: Option<&[u8]>,
) -> Result<(), ReadKind>
    ensures { Steps (λ t. length t.arena) result state.new (told (arena_line state.old head word.now (rest_fields rest.entry))) }
{
    exactly(b"arena", word)?;
    state.arena = Bytes::new(match arena_of(rest)? {
        Some(digits) => bytes_of(alloc, digits)?,
        None => Vec::new(alloc),
    });
    state.place = Place::InCalls(head, Behind::Call);
    Ok(())
}

/// Whether a call is the begin of a block that was entered.
fn is_entered(entry: &CallRecord) -> bool
    ensures { result ≡ is_entered entry.now }
{
    match &entry.call {
        Call::Begin { .. } => match &entry.reply {
            Reply::Code(n) => *n == 5,
            _ => false,
        },
        _ => false,
    }
}

/// What a call decides of the line behind it: that a block ran again may stand right behind its begin.
fn behind_call(version: Version, entry: &CallRecord) -> Behind
    ensures { result ≡ behind_call version entry.now }
{
    match version {
        Version::One => Behind::Call,
        Version::Two | Version::Three(_) => {
            if is_entered(entry) {
                Behind::Begin
            } else {
                Behind::Call
            }
        }
    }
}

/// One more call.
#[tactic(auto, unfolding(crate::specs::Lines::call_line), using(crate::proofs::Faults::stops, crate::proofs::Faults::adds))]
fn call_line(state: &mut State, head: Head, rest: Option<&[u8]>) -> Result<(), ReadKind>
    ensures { Steps recorded result state.new (told (call_line state.old head (rest_fields rest.entry))) }
{
    let entry = call_of(rest)?;
    let behind = behind_call(state.version, &entry);
    state.calls.push(entry)?;
    state.place = Place::InCalls(head, behind);
    Ok(())
}

/// The block ran again whose begin is the last call.
#[tactic(auto, unfolding(crate::specs::Lines::restart_line), using(crate::proofs::Faults::stops, crate::proofs::Faults::adds))]
fn restart_line(
    alloc: Global,
    state: &mut State,
    head: Head,
    rest: Option<&[u8]>,
) -> Result<(), ReadKind>
    ensures { Steps recorded result state.new (told (restart_line state.old head (rest_fields rest.entry))) }
{
    let arena = Bytes::new(match restart_of(state.arena.as_slice().len(), rest)? {
        Some(digits) => bytes_of(alloc, digits)?,
        None => Vec::new(alloc),
    });
    state.restarts.push(Again {
        kept: state.calls.len(),
        arena,
        undone: RanActions::new(alloc),
    })?;
    state.place = Place::InCalls(head, Behind::Restart);
    Ok(())
}

/// An action that had run in that block before.
#[tactic(auto, unfolding(crate::specs::Lines::undone_line), using(crate::proofs::Faults::stops, crate::proofs::Faults::adds))]
fn undone_line(state: &mut State, rest: Option<&[u8]>) -> Result<(), ReadKind>
    ensures { Steps recorded result state.new (told (undone_line state.old (rest_fields rest.entry))) }
{
    let ran = undone_of(rest)?;
    state.restarts.undo(ran)?;
    Ok(())
}

/// One more action that ran.
#[tactic(auto, unfolding(crate::specs::Lines::ran_line), using(crate::proofs::Faults::stops, crate::proofs::Faults::adds))]
fn ran_line(state: &mut State, head: Head, rest: Option<&[u8]>) -> Result<(), ReadKind>
    ensures { Steps recorded result state.new (told (ran_line state.old head (rest_fields rest.entry))) }
{
    let ran = ran_of(rest)?;
    state.ran.push(ran)?;
    state.place = Place::InRan(head);
    Ok(())
}

/// An attempt ends.
#[tactic(auto, unfolding(crate::specs::Lines::end_line), using(crate::proofs::Faults::stops, crate::proofs::Faults::adds))]
fn end_line(
    alloc: Global,
    state: &mut State,
    head: Head,
    rest: Option<&[u8]>,
) -> Result<(), ReadKind>
    ensures { Steps recorded result state.new (told (end_line state.old head (rest_fields rest.entry))) }
{
    no_field(rest)?;
    let arena = mem::replace(&mut state.arena, Bytes::new(Vec::new(alloc)));
    let calls = state.calls.take(alloc);
    let restarts = Restarts::from_vec(alloc, state.restarts.take(alloc))?;
    let ran = state.ran.take(alloc);
    state.attempts.push(Attempt {
        thread: head.thread,
        nth: head.nth,
        began: 0,
        at: head.at,
        props: head.props,
        arena,
        calls: Calls::from_vec(calls),
        restarts,
        ran: RanActions::from_vec(ran),
        outcome: head.outcome,
    })?;
    state.place = Place::Between;
    Ok(())
}

/// An action that ran, or an attempt's end.
#[tactic(auto, unfolding(crate::specs::Lines::later_line), using(crate::proofs::Faults::stops))]
fn later_line(
    alloc: Global,
    state: &mut State,
    head: Head,
    word: &[u8],
    rest: Option<&[u8]>,
) -> Result<(), ReadKind>
    ensures { Steps recorded result state.new (told (later_line state.old head word.now (rest_fields rest.entry))) }
{
    if word == b"ran".as_slice() {
        ran_line(state, head, rest)
    } else if word == b"end".as_slice() {
        end_line(alloc, state, head, rest)
    } else {
        Err(ReadKind::Line)
    }
}

/// That a block ran again, or an action that had run in it, where one may stand; else an action that ran, or an attempt's end.
#[tactic(auto, unfolding(crate::specs::Lines::again_or_later))]
fn again_or_later(
    alloc: Global,
    behind: Behind,
    state: &mut State,
    head: Head,
    word: &[u8],
    rest: Option<&[u8]>,
) -> Result<(), ReadKind>
    ensures { Steps recorded result state.new (told (again_or_later behind state.old head word.now (rest_fields rest.entry))) }
{
    match behind {
        Behind::Call => later_line(alloc, state, head, word, rest),
        Behind::Begin => {
            if word == b"restart".as_slice() {
                restart_line(alloc, state, head, rest)
            } else {
                later_line(alloc, state, head, word, rest)
            }
        }
        Behind::Restart => {
            if word == b"undone".as_slice() {
                undone_line(state, rest)
            } else {
                later_line(alloc, state, head, word, rest)
            }
        }
    }
}

/// A call, or another line within an attempt.
#[tactic(auto, unfolding(crate::specs::Lines::call_or_later))]
fn call_or_later(
    alloc: Global,
    behind: Behind,
    state: &mut State,
    head: Head,
    word: &[u8],
    rest: Option<&[u8]>,
) -> Result<(), ReadKind>
    ensures { Steps recorded result state.new (told (call_or_later behind state.old head word.now (rest_fields rest.entry))) }
{
    if word == b"call".as_slice() {
        call_line(state, head, rest)
    } else {
        again_or_later(alloc, behind, state, head, word, rest)
    }
}

/// The name of the format, with its version.
fn header_line(state: &mut State, line: &[u8]) -> Result<(), ReadKind>
    ensures { Steps (λ t. 0) result state.new (header_line state.old line.now) }
{
    if line == b"itm-history 1".as_slice() {
        state.place = Place::AtMemory;
        Ok(())
    } else if line == b"itm-history 2".as_slice() {
        state.version = Version::Two;
        state.place = Place::AtMemory;
        Ok(())
    } else if line == b"itm-history 3".as_slice() {
        state.place = Place::AtDepth;
        Ok(())
    } else {
        Err(ReadKind::Header)
    }
}

/// Reads one more line.
#[tactic(auto, unfolding(crate::specs::Lines::meaning, crate::specs::Lines::placed, crate::specs::Fields::next))]
pub fn read_line(alloc: Global, state: &mut State, line: &[u8]) -> Result<(), ReadKind>
    ensures { Steps (taken state.old.place) result state.new (meaning state.old line.now) }
{
    let (word, rest) = first_field(line);
    match state.place {
        Place::AtHeader => header_line(state, line),
        Place::AtDepth => depth_line(state, word, rest),
        Place::AtMemory => memory_line(alloc, state, word, rest),
        Place::Between => between_line(alloc, state, word, rest),
        Place::AtArena(head) => arena_line(alloc, state, head, word, rest),
        Place::InCalls(head, behind) => call_or_later(alloc, behind, state, head, word, rest),
        Place::InRan(head) => later_line(alloc, state, head, word, rest),
        Place::AtEnd(_) => Err(ReadKind::Line),
    }
}
