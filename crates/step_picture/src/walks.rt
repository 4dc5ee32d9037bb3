//! What the events before one say of it.

ghost use Rattle.std.specs.Prelude.{◌≡◌, slice_get};
ghost use Rattle.std.specs.Option.{option_copied};
ghost use Rattle.step_picture.specs.Walks.{back_in, begins, begun_in, calls_of, is_look, known_in, look_of, opens};

use crate::mark::{Came, Mark};
use itm_types::Step;

/// A begin that opened an attempt.
#[tactic(auto, unfolding(crate::specs::Walks::begins))]
fn begins(came: Came) -> bool
    ensures { result ≡ begins came }
{
    match came {
        Came::Begun => true,
        Came::GoesOn => false,
        Came::NotBegun => false,
        Came::Replied => false,
        Came::Restarted(_) => false,
        Came::Ended(..) => false,
    }
}

/// The thread's begin that opened an attempt.
fn opens(mark: Option<&Mark>, thread: u8) -> bool
    ensures { result ≡ opens thread (option_copied mark.entry) }
{
    match mark {
        Some(mark) => mark.event.thread == thread && begins(mark.came),
        None => false,
    }
}

/// Whether it told its thread the clock.
#[tactic(auto, unfolding(crate::specs::Walks::is_look))]
fn is_look(step: Step) -> bool
    ensures { result ≡ is_look step }
{
    match step {
        Step::Load(cell) => cell == 0,
        Step::Store(cell, _) => cell == 0,
        Step::Cas(..) => true,
    }
}

/// The clock that the thread knew after the event at this place, where it is one that told it.
fn look_at(marks: &[Mark], at: usize, thread: u8) -> Option<u64>
    ensures { result ≡ look_of thread (slice_get marks.now at) }
{
    let mark = marks.get(at)?;
    if mark.event.thread == thread && is_look(mark.event.operation.step) {
        Some(mark.event.clock)
    } else {
        None
    }
}

/// How many calls have a reply after the event at this place, where it is the thread's.
fn calls_at(marks: &[Mark], at: usize, thread: u8) -> Option<usize>
    ensures { result ≡ calls_of thread (slice_get marks.now at) }
{
    let mark = marks.get(at)?;
    if mark.event.thread == thread {
        Some(mark.calls)
    } else {
        None
    }
}

/// The place of the last begin of the thread before this place that opened an attempt; the first one, where there is none.
pub(crate) fn begun_in(marks: &[Mark], thread: u8, end: usize) -> usize
    ensures { result ≡ begun_in marks.now thread end }
{
    let mut at = end;
    while at > 0 {
        at -= 1;
        if opens(marks.get(at), thread) {
            return at;
        }
    }
    0
}

/// The clock as the thread saw it last before this place.
pub(crate) fn known_in(marks: &[Mark], thread: u8, end: usize) -> Option<u64>
    ensures { result ≡ known_in marks.now thread end }
{
    let mut at = end;
    while at > 0 {
        at -= 1;
        if let Some(clock) = look_at(marks, at, thread) {
            return Some(clock);
        }
    }
    None
}

/// The place of the event after which so many calls of the thread's attempt had a reply, as they have had since, up to this place.
pub(crate) fn back_in(marks: &[Mark], thread: u8, calls: usize, end: usize) -> usize
    ensures { result ≡ back_in marks.now thread calls end end }
{
    let mut best = end;
    let mut at = end;
    while at > 0 {
        at -= 1;
        if let Some(had) = calls_at(marks, at, thread) {
            if had < calls {
                return best;
            }
            best = at;
        }
    }
    best
}
