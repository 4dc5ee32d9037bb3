//! What a test asks of an engine: calls that are served, also where memory was refused at first, and what it shows.

ghost use Rattle.std.specs.Prelude.{◌≡◌, ◌<◌, ◌≤◌, IfOk, IsSome, None};
ghost use Rattle.norec_core.specs.Proceeds.{Fits};

use itm_types::{Call, Datum, Limits, Props, ReadHint, Reply, Step, USUAL_DEPTH, Value, Width};
use norec_engine::{Answer, Engine, Next, Undone};
use std::alloc::{AllocError, Global};
use std::process::Abort;
use undo_log::Arena;

pub(super) const BEGIN: Call = Call::Begin {
    props: Props {
        no_abort: false,
        no_irrevocable: false,
        goes_irrevocable: false,
    },
    room: 3,
};

pub(super) const CANCEL: Call = Call::Abort { outer: false };

pub(super) const DONE: Next = Next::Answer(Answer::Reply(Reply::Done));

/// What wrote nothing has committed, with no other commit before it.
pub(super) const READ_ONLY: Next = Next::Answer(Answer::Committed {
    at: 0,
    wrote: false,
});

pub(super) fn code(code: u32) -> Next {
    Next::Answer(Answer::Reply(Reply::Code(code)))
}

/// A reply of at most 32 bytes.
pub(super) fn bytes(bytes: &[u8]) -> Next {
    let mut value = Value::new();
    let _ = value.try_extend_from_slice(bytes);
    Next::Answer(Answer::Reply(Reply::Bytes(value)))
}

/// An engine over so many words, with an arena of 4 bytes.
fn over(alloc: Global, words: u32) -> Result<Engine, AllocError>
    requires { (0 < words) × (words ≤ 8) }
    ensures { IfOk result (λ engine. engine.waits ≡ None) }
{
    let limits = Limits {
        patience: 8,
        retries: 0,
        max_commits: 4,
        depth: USUAL_DEPTH,
        restarts: 0,
    };
    Ok(Engine::new(alloc, words, Arena::new(alloc, 4)?, limits)?)
}

/// The same, for which memory is found at the second time at the latest.
pub(super) fn engine(alloc: Global, words: u32) -> Result<Engine, AllocError>
    requires { (0 < words) × (words ≤ 8) }
    ensures { IfOk result (λ engine. engine.waits ≡ None) }
{
    match over(alloc, words) {
        Ok(engine) => Ok(engine),
        Err(_) => over(alloc, words),
    }
}

/// What an engine shows of what it did.
#[derive(Clone, Copy, PartialEq, Eq)]
struct State {
    open: bool,
    snapshot: u64,
    spent: u128,
    actions: usize,
    due: usize,
}

fn shown(engine: &Engine) -> State {
    State {
        open: engine.is_open(),
        snapshot: engine.snapshot(),
        spent: engine.spent(),
        actions: engine.actions(),
        due: engine.due().len(),
    }
}

/// What a call gives.
fn given(engine: &mut Engine, call: &Call) -> Result<Next, AllocError>
    requires idle { engine.old.waits ≡ None }
{
    engine.call(call)
}

/// A call comes, to which this is given; whether memory was found for it. Where it was not, the engine shows what it did.
pub(super) fn asked(rt: &impl Abort, engine: &mut Engine, call: &Call, gives: &Next) -> bool {
    assert!(rt; !engine.waits());
    let before = shown(engine);
    match given(engine, call) {
        Ok(next) => {
            assert_eq!(rt; next, *gives, "{call:?}");
            true
        }
        Err(_) => {
            assert!(rt; !engine.waits());
            assert!(rt; shown(engine) == before);
            false
        }
    }
}

/// The call is served, at the second time where memory was refused.
pub(super) fn served(rt: &impl Abort, engine: &mut Engine, call: &Call, gives: &Next) -> bool {
    let found = asked(rt, engine, call, gives);
    if !found {
        must(rt, engine, call, gives);
    }
    found
}

/// The call is served at once.
pub(super) fn must(rt: &impl Abort, engine: &mut Engine, call: &Call, gives: &Next) {
    assert!(rt; asked(rt, engine, call, gives), "{call:?}");
}

/// What comes of the step that it waits for.
fn stepped(engine: &mut Engine, seen: u64) -> Next
    requires waits { IsSome engine.old.waits }
    requires fits { Fits engine.old seen }
{
    engine.resume(seen)
}

/// The step that it waits for was done.
pub(super) fn handed(rt: &impl Abort, engine: &mut Engine, seen: u64, gives: &Next) {
    assert!(rt; engine.waits());
    assert!(rt; engine.fits(seen));
    assert_eq!(rt; stepped(engine, seen), *gives);
}

/// An outermost block begins at clock 0.
pub(super) fn begin(rt: &impl Abort, engine: &mut Engine) {
    must(rt, engine, &BEGIN, &Next::Step(Step::Load(0)));
    handed(rt, engine, 0, &code(5));
}

pub(super) fn read(width: Width, at: u64) -> Call {
    let hint = ReadHint::R;
    Call::Read { hint, width, at }
}

/// The first bytes of the arena become these.
pub(super) fn save(bytes: [u8; 4]) -> Call {
    Call::Save {
        at: 0,
        value: Datum::new(Width::U4, bytes.as_slice()),
    }
}

/// The block is cancelled within another one.
pub(super) fn cancelled(rt: &impl Abort, engine: &mut Engine) {
    must(rt, engine, &CANCEL, &code(24));
}

/// The arena has these bytes.
pub(super) fn holds(rt: &impl Abort, engine: &Engine, bytes: [u8; 4]) {
    assert_eq!(rt; engine.arena().bytes(), bytes.as_slice());
}

/// The transaction is given up.
pub(super) fn given_up(rt: &impl Abort, engine: &mut Engine, undone: Undone) {
    assert_eq!(rt; engine.abort(), undone);
}
