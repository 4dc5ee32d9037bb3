//! Inner blocks that ran again, beside the calls of their attempt.

ghost use Rattle.std.specs.Prelude.{◌≡◌, ◌&&◌, ◌<◌, IsTrue, length, slice_get};
ghost use Rattle.itm_types.specs.Calls.{is_begin};
ghost use Rattle.history_checker.specs.Replays.{are_again, is_again, is_due, is_entry, is_inner_begin};

use crate::matches::same_reply;
use itm_types::{Call, ENTERED, Reply};
use tx_attempts::{Again, CallRecord};

/// Each block that ran again is one that began, in order, with an arena of so many bytes.
pub(crate) fn are_again(size: usize, calls: &[CallRecord], restarts: &[Again]) -> bool
    ensures { result ≡ are_again size 0 calls.now restarts.now }
{
    let mut from = 0;
    for again in restarts {
        if !is_again(size, from, calls, again) {
            return false;
        }
        from = again.kept;
    }
    true
}

/// Behind so many calls, the calls up to an accepted begin are so many, and the arena has so many bytes.
fn is_again(size: usize, from: usize, calls: &[CallRecord], again: &Again) -> bool
    ensures { result ≡ is_again size from calls.now again.now }
{
    from < again.kept
        && is_inner_begin(calls, again.kept - 1)
        && again.arena.as_slice().len() == size
}

/// The call at a place is the begin of an inner block, which was accepted.
fn is_inner_begin(calls: &[CallRecord], place: usize) -> bool
    ensures { result ≡ is_inner_begin (slice_get calls.now place) }
{
    place < calls.len() && is_entry(&calls[place])
}

/// The call is the begin of an inner block, which was accepted.
fn is_entry(entry: &CallRecord) -> bool
    ensures { result ≡ is_entry entry.now }
{
    is_begin(&entry.call) && same_reply(&entry.reply, &Reply::Code(ENTERED))
}

fn is_begin(call: &Call) -> bool
    ensures { result ≡ is_begin call.now }
{
    matches!(call, Call::Begin { .. })
}

/// Whether the block that ran again next did so after so many calls.
pub(crate) fn is_due(restarts: &[Again], next: usize, made: usize) -> bool
    ensures due { result ≡ is_due (slice_get restarts.now next) made }
    ensures there { IsTrue result → next < length restarts.now }
{
    next < restarts.len() && restarts[next].kept == made
}
