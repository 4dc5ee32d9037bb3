//! How a call ends.

ghost use Rattle.std.specs.Prelude.{◌≡◌, ◌/◌, []};
ghost use Rattle.std.specs.Int.{w64, to_le_bytes};
ghost use Rattle.norec_data.specs.Ends.{answer_of, told};

use crate::data::Data;
use itm_types::{
    CANCELLED, ENTERED, ENTERED_AGAIN, IRREVOCABLE, NO_TRANSACTION, RETRYABLE, Reply, Value,
};
use norec_core::Answer;
use std::mem;

/// How a call ended. With what is kept beside the phase it says the answer.
#[derive(Clone, Copy, Debug, PartialEq, Eq)]
pub enum CallEnd {
    Done,
    /// The bytes that are gathered.
    Gathered,
    /// The bytes of this word.
    Word(u64),
    /// A block began, for the first time.
    Entered,
    /// A block began again.
    EnteredAgain,
    /// Blocks were cancelled.
    Cancelled,
    /// No transaction is open.
    NoTransaction,
    /// A transaction is open that can be tried again.
    Retryable,
    /// A transaction is open that is irrevocable.
    Irrevocable,
    /// The call is refused, for the reason that is kept.
    Refused,
    /// The transaction committed at the snapshot, and wrote.
    Committed,
    /// It committed at the snapshot, and wrote nothing.
    ReadOnly,
    /// The transaction saw what is no longer so.
    Conflict,
    /// The innermost block saw that this word had changed, and has gone back to its begin.
    Restarted(u32),
    /// The clock was odd as often as it may.
    Busy,
    /// As many writers have committed as may.
    Full,
}

impl CallEnd {
    /// Tells the answer. The bytes that it gives are no longer kept.
    #[inline(always)]
    pub fn tell(self, state: &mut Data, answer: &mut Answer)
        ensures answer { answer.new ≡ answer_of state.old self }
        ensures told { state.new ≡ told self state.old }
    {
        match self {
            CallEnd::Done => *answer = Answer::Reply(Reply::Done),
            CallEnd::Gathered => {
                let bytes = mem::replace(&mut state.gathered, Value::new());
                *answer = Answer::Reply(Reply::Bytes(bytes));
            }
            CallEnd::Word(word) => tell_word(answer, word),
            CallEnd::Entered => *answer = Answer::Reply(Reply::Code(ENTERED)),
            CallEnd::EnteredAgain => *answer = Answer::Reply(Reply::Code(ENTERED_AGAIN)),
            CallEnd::Cancelled => *answer = Answer::Reply(Reply::Code(CANCELLED)),
            CallEnd::NoTransaction => *answer = Answer::Reply(Reply::Code(NO_TRANSACTION)),
            CallEnd::Retryable => *answer = Answer::Reply(Reply::Code(RETRYABLE)),
            CallEnd::Irrevocable => *answer = Answer::Reply(Reply::Code(IRREVOCABLE)),
            CallEnd::Refused => *answer = Answer::Reply(Reply::Refused(state.why)),
            CallEnd::Committed => *answer = committed(state, true),
            CallEnd::ReadOnly => *answer = committed(state, false),
            CallEnd::Conflict => {
                *answer = Answer::Conflict {
                    clock: state.clock,
                    word: state.changed,
                }
            }
            CallEnd::Restarted(word) => {
                *answer = Answer::Restarted {
                    clock: state.clock,
                    word,
                }
            }
            CallEnd::Busy => *answer = Answer::Busy { clock: state.clock },
            CallEnd::Full => {
                *answer = Answer::Full {
                    at: state.snapshot / 2,
                }
            }
        }
    }
}

/// The answer is the bytes of a word. They are written where they stay, since a value that is moved is read in other
/// parts than these bytes are written in, and has to wait for them.
#[inline(always)]
fn tell_word(answer: &mut Answer, word: u64)
    ensures { answer.new ≡ Answer.Reply (Reply.Bytes (record { items = to_le_bytes w64 word })) }
{
    *answer = Answer::Reply(Reply::Bytes(Value::new()));
    match answer {
        Answer::Reply(Reply::Bytes(bytes)) => put_word(bytes, word),
        _ => unreachable!(),
    }
}

/// An empty value has the bytes of a word.
#[inline(always)]
fn put_word(bytes: &mut Value, word: u64)
    requires empty { bytes.old.items ≡ [] }
    ensures { bytes.new ≡ record { items = to_le_bytes w64 word } }
{
    match bytes.try_extend_from_slice(&word.to_le_bytes()) {
        Ok(()) => {}
        Err(_) => unreachable!(),
    }
}

/// The transaction committed at its snapshot.
#[inline(always)]
fn committed(state: &Data, wrote: bool) -> Answer
    ensures { result ≡ Answer.Committed (state.now.snapshot / 2) wrote }
{
    Answer::Committed {
        at: state.snapshot / 2,
        wrote,
    }
}
