//! What came of an event, in words.

ghost use Rattle.std.specs.Prelude.{◌≡◌, ◌≤◌, drop, flat_map, length};
ghost use Rattle.std.specs.Option.{option_copied};
ghost use Rattle.world_rules.specs.World.{attempt_at, ending_at};
ghost use Rattle.tx_history.specs.Histories.{reply_text};
ghost use Rattle.tx_history.specs.Spelling.{spelled};
ghost use Rattle.step_table.specs.Said.{said};
ghost use Rattle.step_table.specs.Came.{answer_text, call_text, came_text, conflict_text, end_text, ended_text, ending_text, open_text};

use crate::operations::{NOTHING, place_of};
use itm_types::{Reply, Step};
use norec_world::{Attempt, End, Outcome, Told, World};
use tx_history::Piece;
use tx_player::Player;

/// What is told in three pieces.
pub type Words<'a> = [Piece<'a>; 3];

/// A conflict that was found by this operation: at the word that it loaded.
#[tactic(auto, unfolding(crate::specs::Came::conflict_text))]
fn conflict_words<'a>(step: Step) -> Words<'a>
    ensures { flat_map spelled result ≡ conflict_text step }
{
    match step {
        Step::Load(cell) => {
            if cell == 0 {
                [Piece::Text(b"conflict"), NOTHING, NOTHING]
            } else {
                [
                    Piece::Text(b"conflict at ["),
                    Piece::Number(place_of(cell)),
                    Piece::Text(b"]"),
                ]
            }
        }
        Step::Store(..) => [Piece::Text(b"conflict"), NOTHING, NOTHING],
        Step::Cas(..) => [Piece::Text(b"conflict"), NOTHING, NOTHING],
    }
}

/// How an attempt ended by an event with this operation, and at which position one that wrote has committed.
#[tactic(auto, unfolding(crate::specs::Came::end_text))]
pub fn end_words<'a>(step: Step, at: u64, outcome: Outcome) -> Words<'a>
    ensures { flat_map spelled result ≡ end_text step at outcome }
{
    match outcome {
        Outcome::Committed => [Piece::Text(b"committed at "), Piece::Number(at), NOTHING],
        Outcome::ReadOnly => [Piece::Text(b"readonly"), NOTHING, NOTHING],
        Outcome::Cancelled => [Piece::Text(b"cancelled"), NOTHING, NOTHING],
        Outcome::Conflict => conflict_words(step),
        Outcome::Full => [Piece::Text(b"full"), NOTHING, NOTHING],
        Outcome::NoMemory => [Piece::Text(b"no memory"), NOTHING, NOTHING],
        Outcome::Unfinished => [Piece::Text(b"unfinished"), NOTHING, NOTHING],
    }
}

/// How the attempt ended.
fn ended_words(step: Step, attempt: &Attempt) -> Words<'_>
    ensures { flat_map spelled result ≡ ended_text step attempt.now }
{
    end_words(step, attempt.at, attempt.outcome)
}

/// A reply.
#[tactic(auto, unfolding(tx_history::specs::Histories::reply_text))]
fn reply_words(reply: &Reply) -> Words<'_>
    ensures { flat_map spelled result ≡ reply_text reply.now }
{
    match reply {
        Reply::Done => [Piece::Text(b"ok"), NOTHING, NOTHING],
        Reply::Bytes(bytes) => [Piece::Hex(bytes.as_slice()), NOTHING, NOTHING],
        Reply::Code(n) => [Piece::Text(b"code "), Piece::Number(u64::from(*n)), NOTHING],
        Reply::Refused(refusal) => [
            Piece::Text(b"refused "),
            Piece::Number(u64::from(refusal.number())),
            NOTHING,
        ],
    }
}

/// The reply of the call in progress to an attempt that goes on, where a call more has one than before; else its block has gone
/// back to its begin.
#[tactic(auto, unfolding(crate::specs::Came::answer_text))]
fn answer_words(had: usize, calls: usize, attempt: &Attempt) -> Words<'_>
    ensures { flat_map spelled result ≡ answer_text had calls attempt.now }
{
    if calls <= had {
        return [Piece::Text(b"restarted"), NOTHING, NOTHING];
    }
    match attempt.calls.as_slice().get(had) {
        Some(call) => reply_words(&call.reply),
        None => [NOTHING, NOTHING, NOTHING],
    }
}

/// What came of a call that ended no attempt.
#[tactic(auto, unfolding(crate::specs::Came::open_text))]
fn open_words(had: Option<usize>, calls: usize, active: Option<&Attempt>) -> Words<'_>
    ensures { flat_map spelled result ≡ open_text had calls (option_copied active.entry) }
{
    let Some(attempt) = active else {
        return [Piece::Text(b"not begun"), NOTHING, NOTHING];
    };
    match had {
        None => [
            Piece::Text(b"begun at "),
            Piece::Number(attempt.at),
            NOTHING,
        ],
        Some(had) => answer_words(had, calls, attempt),
    }
}

/// What came of a call that is over.
fn call_words<'a>(
    step: Step,
    had: Option<usize>,
    calls: usize,
    ended: &'a [Attempt],
    active: Option<&'a Attempt>,
) -> Words<'a>
    ensures { flat_map spelled result ≡ call_text step had calls ended.now (option_copied active.entry) }
{
    match ended.first() {
        Some(attempt) => ended_words(step, attempt),
        None => open_words(had, calls, active),
    }
}

/// What is told of a thread that has given up or found no memory.
#[tactic(auto, unfolding(crate::specs::Came::ending_text))]
fn ending_text(ending: Option<End>) -> &'static [u8]
    ensures { result.now ≡ ending_text ending }
{
    match ending {
        None | Some(End::Finished) => b"",
        Some(End::GaveUp) => b", gave up",
        Some(End::NoMemory) => b", found no memory",
    }
}

/// What came of an event: nothing, or a bar, the words, and what is told of the thread's end.
#[derive(Drop)]
pub(crate) struct Came<'a> {
    pub(crate) bar: Piece<'a>,
    pub(crate) words: Words<'a>,
    pub(crate) ending: Piece<'a>,
}

/// What came of the thread's event with this operation: nothing, where its call goes on. Before it so many calls of its open
/// attempt had a reply, where it had one, and so many attempts had ended.
pub(crate) fn came_of<P: Player>(
    world: &World<P>,
    thread: u8,
    step: Step,
    told: Told,
    had: Option<usize>,
    first: usize,
) -> Came<'_>
    requires { first ≤ length world.now.attempts.ended }
    ensures { said result ≡ came_text step told.goes_on had told.calls (drop first world.now.attempts.ended)
        (attempt_at world.now thread) (ending_at world.now thread) }
{
    if told.goes_on {
        return Came {
            bar: NOTHING,
            words: [NOTHING; 3],
            ending: NOTHING,
        };
    }
    let ended = world.ended_from(first);
    let active = world.open_attempt(thread);
    Came {
        bar: Piece::Text(b" | "),
        words: call_words(step, had, told.calls, ended, active),
        ending: Piece::Text(ending_text(world.ending(thread))),
    }
}
