//! Turns that are taken.

ghost use Rattle.std.specs.Prelude.{◌≡◌, ◌+◌, ◌^◌, ◌<◌, IsSome, false};
ghost use Rattle.norec_data.specs.View.{phase_of, step_of as asked_step};
ghost use Rattle.norec_data.specs.Turns.{counted, Asked, IsWaiting};
ghost use Rattle.norec_engine.specs.NextSteps.{next_in};
ghost use Rattle.norec_core.specs.Phases as phases;
ghost use Rattle.norec_core.specs.Proceeds.{Fits};
ghost use Rattle.norec_engine.specs.Modes.{CallComesIn, engine_in, IsHandedIn, IsSoundIn, IsSoundWith, IsTaken, StepTurnsIn};

use itm_types::{Call, Props, Step};
use norec_accesses::{confirmed, loaded};
use norec_blocks::{begin_seen, exchanged, freed, stored};
use norec_core::Answer;
use norec_data::{Data, Pending, Turn};
use std::alloc::AllocError;

/// A call comes, to a transaction of either kind.
#[inline(always)]
pub(crate) fn call(state: &mut Data, irrevocable: bool, call: &Call) -> Result<Turn, AllocError>
    requires sound { IsSoundIn irrevocable state.old phases.Idle }
    ensures { CallComesIn irrevocable state.old call.now false result state.new }
{
    if irrevocable {
        norec_irrevocable::called(state, call)
    } else {
        norec_revocable::called(state, call)
    }
}

/// A block begins; an outermost one `again` where an earlier try of it got past its begin.
#[inline(always)]
pub(crate) fn begin(
    state: &mut Data,
    irrevocable: bool,
    props: Props,
    room: u32,
    again: bool,
) -> Result<Turn, AllocError>
    requires sound { IsSoundIn irrevocable state.old phases.Idle }
    ensures { CallComesIn irrevocable state.old (Call.Begin props room) again result state.new }
{
    if irrevocable {
        norec_irrevocable::called(state, &Call::Begin { props, room })
    } else {
        norec_blocks::begin(state, props, room, again)
    }
}

/// The value of the step that is waited for is handed in.
#[inline(always)]
pub(crate) fn resume(state: &mut Data, irrevocable: bool, pending: Pending, seen: u64) -> Turn
    requires sound { IsSoundIn irrevocable state.old (phase_of state.old pending) }
    requires waits { IsSome (engine_in irrevocable state.old (phase_of state.old pending)).waits }
    requires fits { Fits (engine_in irrevocable state.old (phase_of state.old pending)) seen }
    ensures { StepTurnsIn irrevocable state.old (phase_of state.old pending) seen result state.new }
{
    if irrevocable {
        norec_irrevocable::resumed(state, pending, seen)
    } else {
        norec_revocable::resumed(state, pending, seen)
    }
}

/// Takes a turn: the call goes on, by this step, which is counted, or is over, and `answer` tells how. The mode `was` so: who
/// knows it says it, so that it is not loaded and tested again.
#[inline(always)]
pub(crate) fn take(
    state: &mut Data,
    pending: &mut Pending,
    irrevocable: &mut bool,
    was: bool,
    turn: Turn,
    answer: &mut Answer,
) -> Option<Step>
    requires mode { was ≡ irrevocable.old }
    requires sound { IsSoundWith irrevocable.old turn state.old }
    requires asked { Asked turn }
    ensures { IsTaken irrevocable.old turn state.old (next_in result answer.new) state.new pending.new irrevocable.new }
{
    let (end, stays) = match turn {
        Turn::Wait(next) => return Some(wait(state, pending, was, next)),
        Turn::End(end) => (end, false),
        Turn::EndIrrevocable(end) => (end, true),
    };
    *pending = Pending::Idle;
    *irrevocable = stays;
    end.tell(state, answer);
    None
}

/// The value of the step that is waited for is handed in, and the turn that comes of it is taken. The phases that most
/// transactions have go by functions of their own. After a load another step is always waited for; the turns of the others are
/// taken at one place: with one place for each, this function grew so large that the compiler no longer put it where it is
/// called.
#[inline(always)]
pub(crate) fn hand_in(
    state: &mut Data,
    pending: &mut Pending,
    irrevocable: &mut bool,
    seen: u64,
    answer: &mut Answer,
) -> Option<Step>
    requires sound { IsSoundIn irrevocable.old state.old (phase_of state.old pending.old) }
    requires waits { IsSome (engine_in irrevocable.old state.old (phase_of state.old pending.old)).waits }
    requires fits { Fits (engine_in irrevocable.old state.old (phase_of state.old pending.old)) seen }
    ensures { IsHandedIn irrevocable.old state.old pending.old seen (next_in result answer.new) state.new pending.new irrevocable.new }
{
    if *irrevocable {
        return hand_in_any(state, pending, irrevocable, seen, answer);
    }
    let turn = match *pending {
        Pending::Load => {
            let Turn::Wait(next) = loaded(state, seen) else {
                unreachable!();
            };
            return Some(wait(state, pending, false, next));
        }
        Pending::Begin => begin_seen(state, seen),
        Pending::Confirm(value) => confirmed(state, value, seen),
        Pending::Exchange => exchanged(state, seen),
        Pending::Store(row) => stored(state, row),
        Pending::Free => freed(state),
        _ => return hand_in_any(state, pending, irrevocable, seen, answer),
    };
    take(state, pending, irrevocable, false, turn, answer)
}

/// The same in any phase.
#[inline(never)]
fn hand_in_any(
    state: &mut Data,
    pending: &mut Pending,
    irrevocable: &mut bool,
    seen: u64,
    answer: &mut Answer,
) -> Option<Step>
    requires sound { IsSoundIn irrevocable.old state.old (phase_of state.old pending.old) }
    requires waits { IsSome (engine_in irrevocable.old state.old (phase_of state.old pending.old)).waits }
    requires fits { Fits (engine_in irrevocable.old state.old (phase_of state.old pending.old)) seen }
    ensures { IsHandedIn irrevocable.old state.old pending.old seen (next_in result answer.new) state.new pending.new irrevocable.new }
{
    let was = *irrevocable;
    let turn = resume(state, was, *pending, seen);
    take(state, pending, irrevocable, was, turn, answer)
}

/// The call goes on by this step, which is counted.
#[inline(always)]
pub(crate) fn wait(
    state: &mut Data,
    pending: &mut Pending,
    irrevocable: bool,
    next: Pending,
) -> Step
    requires sound { IsSoundIn irrevocable (counted state.old) (phase_of state.old next) }
    requires waits { IsWaiting next }
    ensures step { result ≡ asked_step state.old (phase_of state.old next) }
    ensures state { state.new ≡ counted state.old }
    ensures pending { pending.new ≡ next }
{
    let step = next_step(state, irrevocable, next);
    state.spent += 1;
    *pending = next;
    step
}

/// The step that is waited for. There are fewer in all than a count can tell.
#[inline(always)]
pub(crate) fn next_step(state: &Data, irrevocable: bool, pending: Pending) -> Step
    requires sound { IsSoundIn irrevocable (counted state.now) (phase_of state.now pending) }
    requires waits { IsWaiting pending }
    ensures step { result ≡ asked_step state.now (phase_of state.now pending) }
    ensures few { state.now.spent + 1 < 2 ^ 128 }
{
    // (what holds of all frames, and the bound of a number: the clause `few` says what comes of them)
    let _writes = state.frames.len();
    let _entry = state.entry;
    if irrevocable {
        norec_irrevocable::step_of(state, pending)
    } else {
        norec_revocable::step_of(state, pending)
    }
}
