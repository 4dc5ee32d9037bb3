//! Begins of blocks.

ghost use Rattle.norec_core.specs.Phases as phases;
ghost use Rattle.std.specs.Prelude.{◌≡◌, ◌%◌, ◌<◌, ◌≤◌, ◌∷◌, [], true, false, if◌then◌else◌, ℕ, OnOk, OnErr, length};
ghost use Rattle.user_actions.specs.Actions.{no_actions};
ghost use Rattle.nest_frames.specs.Nest.{begun};
ghost use Rattle.norec_turns.specs.InPhases.{IsSound};
ghost use Rattle.norec_data.specs.Bounds.{IsOutside};
ghost use Rattle.norec_data.specs.Ends.{answer_of};
ghost use Rattle.norec_data.specs.declared.data.Data.{Data};
ghost use Rattle.norec_turns.specs.Moves.{StepTurns, CallComes, CallTurns};
ghost use Rattle.norec_blocks.specs.OuterBegins.{BeginTurns};
ghost use Rattle.norec_core.specs.Core.{may_go};
ghost use Rattle.norec_data.specs.View.{in_block};

use crate::commits::exchange;
use itm_types::{Call, Props, Reply};
use nest_frames::Frames;
use norec_core::{Answer, Opening, Taking};
use norec_data::{CallEnd, Data, Pending, Turn, begin_refusal};
use std::alloc::AllocError;

/// A begin comes.
#[inline(always)]
pub fn begin(state: &mut Data, props: Props, room: u32, again: bool) -> Result<Turn, AllocError>
    requires sound { IsSound state.old phases.Idle }
    ensures { CallComes state.old (Call.Begin props room) again result state.new }
{
    if let Some(why) = begin_refusal(state, props) {
        state.start_call();
        state.why = why;
        return Ok(Turn::End(CallEnd::Refused));
    }
    reserve_room(&mut state.frames, props, room)?;
    state.start_call();
    if !state.is_open() {
        state.tries = 1;
        state.restarted = 0;
        state.opening = Opening { props, room, again };
        Ok(Turn::Wait(Pending::Begin))
    } else if props.goes_irrevocable {
        state.tries = 0;
        Ok(exchange(state, Taking::Begin { props, room }))
    } else {
        state.frames.enter(props, state.log.len() as u32);
        Ok(Turn::End(CallEnd::Entered))
    }
}

/// An outermost block begins that stays revocable, and is not refused: the clock is loaded next.
#[inline(always)]
pub fn begin_outer(state: &mut Data, props: Props, room: u32, again: bool)
    requires sound { IsSound state.old phases.Idle }
    requires outside { in_block state.old ≡ false }
    requires stays { props.goes_irrevocable ≡ false }
    requires served { (may_go state.old.frames.blocks props ≡ true) × (length state.old.frames.blocks < state.old.frames.depth) }
    ensures { CallTurns state.old (Call.Begin props room) again (Turn.Wait Pending.Begin) state.new }
{
    state.start_call();
    state.tries = 1;
    state.restarted = 0;
    state.opening = Opening { props, room, again };
}

/// The same where the clock is known already, and even: the block begins. What is true of the fields only while the clock is
/// waited for is not stored.
#[inline(always)]
pub fn begin_at_once(state: &mut Data, props: Props, again: bool, seen: u64) -> CallEnd
    requires sound { IsSound state.old phases.Idle }
    requires outside { in_block state.old ≡ false }
    requires stays { props.goes_irrevocable ≡ false }
    requires served { (may_go state.old.frames.blocks props ≡ true) × (length state.old.frames.blocks < state.old.frames.depth) }
    requires fits { state.old.clock ≤ seen }
    requires even { seen % 2 ≡ 0 }
    ensures turns { (room : ℕ) → BeginTurns state.old props room again seen result state.new }
    ensures end { result ≡ if again then CallEnd.EnteredAgain else CallEnd.Entered }
{
    // (without proofs, this leaves out what begins a block within others)
    if state.is_open() {
        unreachable!();
    }
    state.entry = 0;
    state.spent = 1;
    state.restarted = 0;
    state.clock = seen;
    state.snapshot = seen;
    open(state, props, again)
}

/// Makes room for the actions of a begin, where it goes irrevocable.
fn reserve_room(frames: &mut Frames, props: Props, room: u32) -> Result<(), AllocError>
    ensures ok { OnOk result
        (frames.new ≡ record frames.old { room = if props.goes_irrevocable then room else frames.old.room }) }
    ensures err { OnErr result (frames.new ≡ frames.old) }
    ensures starves { OnErr result ((props.goes_irrevocable ≡ true) × (0 < room)) }
{
    if props.goes_irrevocable {
        frames.reserve_actions(room as usize)?;
    }
    Ok(())
}

/// The clock was loaded for a begin that stays revocable, and is even: the block begins. It is one of these properties, begun
/// before or not, as the call that is in progress has them.
#[inline(always)]
fn begin_even(state: &mut Data, props: Props, again: bool, seen: u64) -> CallEnd
    requires sound { IsSound state.old (phases.Begin state.old.opening) }
    requires props { props ≡ state.old.opening.props }
    requires again { again ≡ state.old.opening.again }
    requires stays { props.goes_irrevocable ≡ false }
    requires fits { state.old.clock ≤ seen }
    requires even { seen % 2 ≡ 0 }
    ensures turns { StepTurns state.old (phases.Begin state.old.opening) seen (Turn.End result) state.new }
    ensures end { result ≡ if again then CallEnd.EnteredAgain else CallEnd.Entered }
{
    state.clock = seen;
    state.snapshot = seen;
    open(state, props, again)
}

/// The clock was loaded for a begin.
#[inline(always)]
pub fn begin_seen(state: &mut Data, seen: u64) -> Turn
    requires sound { IsSound state.old (phases.Begin state.old.opening) }
    requires fits { state.old.clock ≤ seen }
    ensures { StepTurns state.old (phases.Begin state.old.opening) seen result state.new }
{
    let opening = state.opening;
    if seen % 2 == 0 && !opening.props.goes_irrevocable {
        return Turn::End(begin_even(state, opening.props, opening.again, seen));
    }
    state.clock = seen;
    if seen % 2 == 0 {
        state.snapshot = seen;
        let at = seen / 2;
        if at < state.limits.max_commits {
            Turn::Wait(Pending::Take)
        } else {
            Turn::End(CallEnd::Full)
        }
    } else if state.tries < state.limits.patience {
        state.tries += 1;
        Turn::Wait(Pending::Begin)
    } else {
        Turn::End(CallEnd::Busy)
    }
}

/// The clock was taken for a begin that goes irrevocable, or another value was found in it.
pub fn begin_taken(state: &mut Data, seen: u64) -> Turn
    requires sound { IsSound state.old (phases.Take state.old.opening) }
    requires fits { state.old.clock ≤ seen }
    ensures { StepTurns state.old (phases.Take state.old.opening) seen result state.new }
{
    let opening = state.opening;
    state.clock = seen;
    if seen == state.snapshot {
        Turn::EndIrrevocable(open(state, opening.props, opening.again))
    } else if state.tries < state.limits.patience {
        state.tries += 1;
        Turn::Wait(Pending::Begin)
    } else {
        state.changed = None;
        Turn::End(CallEnd::Conflict)
    }
}

/// The outermost block begins.
#[inline(always)]
fn open(state: &mut Data, props: Props, again: bool) -> CallEnd
    requires outside { IsOutside state.old }
    requires deep { 0 < state.old.frames.depth }
    ensures reply { (d : Data) → answer_of d result ≡ Answer.Reply (Reply.Code (if again then 9 else 5)) }
    ensures end { result ≡ if again then CallEnd.EnteredAgain else CallEnd.Entered }
    ensures blocks { state.new.frames.blocks ≡ begun props [] no_actions 0 ∷ [] }
    ensures actions { state.new.frames.actions ≡ no_actions }
    ensures rows { state.new.frames.writes.rows ≡ [] }
    ensures frames { (state.new.frames.size ≡ state.old.frames.size) × (state.new.frames.room ≡ state.old.frames.room) }
    ensures depth { state.new.frames.depth ≡ state.old.frames.depth }
    ensures others { state.new ≡ record state.old { frames = state.new.frames } }
{
    state.frames.clear_due();
    state.frames.enter(props, 0);
    if again {
        CallEnd::EnteredAgain
    } else {
        CallEnd::Entered
    }
}
