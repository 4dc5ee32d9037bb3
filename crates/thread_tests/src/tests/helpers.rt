//! What the tests have in common.

ghost use Rattle.std.specs.Prelude.{◌≡◌, ◌+◌, ◌*◌, ◌<◌, ◌≤◌, false, length, IfOk};
ghost use Rattle.shared_words.specs.Passes.{Owns, view_of, cells_of};

use itm_runtime::Thread;
use itm_types::{
    Call, Datum, ENTERED, Limits, MAX_COMMITS, MAX_WORDS, Props, ReadHint, Reply, USUAL_DEPTH,
    Value, Width, WriteHint,
};
use norec_core::Answer;
use norec_engine::Engine;
use shared_words::{Pass, Words, WordsFault};
use std::alloc::{AllocError, Global};
use std::process::Abort;
use undo_log::Arena;

/// A block with no property begins.
pub(super) const BEGIN: Call = Call::Begin {
    props: Props {
        no_abort: false,
        no_irrevocable: false,
        goes_irrevocable: false,
    },
    room: 4,
};

/// A block begins whose transaction is irrevocable from the first.
pub(super) const BEGIN_IRREVOCABLE: Call = Call::Begin {
    props: Props {
        no_abort: false,
        no_irrevocable: false,
        goes_irrevocable: true,
    },
    room: 4,
};

pub(super) const DONE: Answer = Answer::Reply(Reply::Done);

/// A block was entered.
pub(super) const IN: Answer = Answer::Reply(Reply::Code(ENTERED));

/// A call, its answer, and the number of its steps.
pub(super) type Row = (Call, Answer, u128);

/// The words of these bytes, and their one pass.
pub(super) fn opened(alloc: Global, bytes: &[u8]) -> Result<(Words, Pass), WordsFault>
    ensures own { IfOk result (λ r. Owns r.0 r.1) }
    ensures size { IfOk result (λ r. 8 * cells_of r.0 ≡ length bytes.now + 8) }
    ensures share { IfOk result (λ r. 1 < (view_of r.1).share) }
    ensures idle { IfOk result (λ r. (view_of r.1).holds ≡ false) }
{
    Words::new(alloc, bytes)
}

/// Two passes of one.
pub(super) fn cut(words: &Words, pass: Pass) -> (Pass, Pass)
    requires own { Owns words.now pass }
    requires share { 1 < (view_of pass).share }
    requires idle { (view_of pass).holds ≡ false }
    ensures own { Owns words.now result.0 × Owns words.now result.1 }
    ensures idle { ((view_of result.0).holds ≡ false) × ((view_of result.1).holds ≡ false) }
{
    let mut first = pass;
    let second = words.split(&mut first);
    (first, second)
}

/// A thread of so much patience, with an arena of so many bytes.
pub(super) fn thread(
    alloc: Global,
    words: &Words,
    pass: Pass,
    patience: u32,
    arena: usize,
) -> Result<Thread, AllocError>
    requires own { Owns words.now pass }
    requires idle { (view_of pass).holds ≡ false }
    requires patience { (0 < patience) × (patience ≤ 8) }
    requires arena { arena ≤ 64 }
    ensures own { IfOk result (λ t. Owns words.now t.pass) }
{
    let limits = Limits {
        patience,
        retries: 0,
        max_commits: MAX_COMMITS,
        depth: USUAL_DEPTH,
        restarts: 0,
    };
    let arena = Arena::new(alloc, arena)?;
    Ok(Thread::new(alloc, words, pass, arena, limits)?)
}

/// An engine over so many words, with an arena of so many bytes, of so much patience, that restarts inner blocks so often.
pub(super) fn engine(
    alloc: Global,
    words: u32,
    arena: usize,
    patience: u32,
    restarts: u32,
) -> Result<Engine, AllocError>
    requires words { (0 < words) × (words ≤ MAX_WORDS) }
    requires arena { arena ≤ 80 }
    requires patience { (0 < patience) × (patience ≤ 8) }
{
    let limits = Limits {
        patience,
        retries: 0,
        max_commits: MAX_COMMITS,
        depth: USUAL_DEPTH,
        restarts,
    };
    Ok(Engine::new(alloc, words, Arena::new(alloc, arena)?, limits)?)
}

pub(super) fn read(at: u64) -> Call {
    Call::Read {
        hint: ReadHint::R,
        width: Width::U8,
        at,
    }
}

pub(super) fn write(at: u64, value: u64) -> Call {
    Call::Write {
        hint: WriteHint::W,
        at,
        value: Datum::new(Width::U8, &value.to_le_bytes()),
    }
}

pub(super) fn code(code: u32) -> Answer {
    Answer::Reply(Reply::Code(code))
}

/// The reply of a word.
pub(super) fn word(value: u64) -> Answer {
    let mut bytes = Value::new();
    let _ = bytes.try_extend_from_slice(&value.to_le_bytes());
    Answer::Reply(Reply::Bytes(bytes))
}

/// The answer of the call, by the method that is there for it.
fn serve(words: &Words, thread: &mut Thread, call: &Call) -> Result<Answer, AllocError>
    requires own { Owns words.now thread.old.pass }
    ensures own { Owns words.now thread.new.pass }
{
    match call {
        Call::Begin { props, room } => thread.begin(words, *props, *room, false),
        Call::Commit => Ok(thread.commit(words)),
        Call::Abort { outer } => Ok(thread.cancel(words, *outer)),
        Call::Mode { room } => thread.irrevocable(words, *room),
        _ => thread.call(words, call),
    }
}

/// The call is answered so, after as many steps.
fn ask(rt: &impl Abort, words: &Words, thread: &mut Thread, row: &Row) -> Result<(), AllocError>
    requires own { Owns words.now thread.old.pass }
    ensures own { Owns words.now thread.new.pass }
{
    let (call, answer, spent) = row;
    let given = serve(words, thread, call)?;
    assert_eq!(rt; given, *answer, "{call:?}");
    assert_eq!(rt; thread.spent(), *spent, "{call:?}");
    Ok(())
}

/// The calls are answered so, one after the other.
pub(super) fn walk(
    rt: &impl Abort,
    words: &Words,
    thread: &mut Thread,
    rows: &[Row],
) -> Result<(), AllocError>
    requires own { Owns words.now thread.old.pass }
    ensures own { Owns words.now thread.new.pass }
{
    for row in rows {
        ask(rt, words, thread, row)?;
    }
    Ok(())
}

/// The pass of a thread that does not hold the clock.
pub(super) fn part(rt: &impl Abort, words: &Words, thread: Thread) -> Pass
    requires own { Owns words.now thread.pass }
    ensures own { Owns words.now result }
    ensures idle { (view_of result).holds ≡ false }
{
    match thread.into_parts() {
        Ok((pass, _)) => pass,
        Err(_) => panic!(rt; "the clock is held"),
    }
}

/// The thread as it was, since it holds the clock.
pub(super) fn keep(rt: &impl Abort, words: &Words, thread: Thread) -> Thread
    requires own { Owns words.now thread.pass }
    ensures own { Owns words.now result.pass }
{
    match thread.into_parts() {
        Ok(_) => panic!(rt; "the clock is not held"),
        Err(thread) => thread,
    }
}
