//! An engine that answers a call by want of memory is as it was, and serves the call where it is made again.

ghost use Rattle.std.specs.Prelude.{◌<◌, ◌≤◌};

use super::asks::{
    BEGIN, DONE, READ_ONLY, asked, begin, bytes, cancelled, code, engine, given_up, handed, holds,
    must, read, save, served,
};
use itm_types::{
    Action, ActionKind, Call, CopyPair, Copying, Datum, Ran, SharedSide, Step, Width, WriteHint,
};
use norec_engine::{Answer, Engine, Next, Undone};
use std::alloc::{AllocError, Global};
use std::process::Abort;
use std::test::Fail;

/// What is asked of an engine.
#[derive(Clone, Copy)]
enum Asks {
    Log,
    ReadAndWrite,
    CopiesAndFills,
    BeyondRoom,
    Actions,
}

/// Whether memory was found for all that was asked.
fn serves(rt: &impl Abort, engine: &mut Engine, asks: Asks) -> bool {
    match asks {
        Asks::Log => logs(rt, engine),
        Asks::ReadAndWrite => reads_and_writes(rt, engine),
        Asks::CopiesAndFills => copies_and_moves(rt, engine),
        Asks::BeyondRoom => goes_beyond(rt, engine),
        Asks::Actions => registers_many(rt, engine),
    }
}

/// The same of a new engine over so many words. The proof that an engine is let go is long: it stands here alone.
fn expect(rt: &impl Abort, alloc: Global, words: u32, asks: Asks) -> Result<bool, AllocError>
    requires { (0 < words) × (words ≤ 8) }
{
    let mut engine = engine(alloc, words)?;
    Ok(serves(rt, &mut engine, asks))
}

const LOG: Call = Call::Log {
    width: Width::U4,
    at: 0,
};

/// Nothing was logged: at a cancel nothing of the arena comes back.
fn not_logged(rt: &impl Abort, engine: &mut Engine) {
    must(rt, engine, &save([1, 2, 3, 4]), &DONE);
    cancelled(rt, engine);
    holds(rt, engine, [1, 2, 3, 4]);
    must(rt, engine, &BEGIN, &code(5));
}

/// The arena is logged in a second block, at the second time where memory was refused.
fn logged(rt: &impl Abort, engine: &mut Engine) -> bool {
    begin(rt, engine);
    must(rt, engine, &BEGIN, &code(5));
    let found = asked(rt, engine, &LOG, &DONE);
    if !found {
        not_logged(rt, engine);
        must(rt, engine, &LOG, &DONE);
    }
    found
}

/// At a cancel the arena becomes as it was logged.
fn put_back(rt: &impl Abort, engine: &mut Engine, logged: [u8; 4]) {
    must(rt, engine, &save([5, 6, 7, 8]), &DONE);
    cancelled(rt, engine);
    must(rt, engine, &Call::InTransaction, &code(1));
    holds(rt, engine, logged);
}

/// What was logged comes back, and nothing else.
fn logs(rt: &impl Abort, engine: &mut Engine) -> bool {
    let found = logged(rt, engine);
    let left = if found { [0; 4] } else { [1, 2, 3, 4] };
    put_back(rt, engine, left);
    found
}

pub(super) fn expect_log(rt: &impl Abort, alloc: Global) -> Result<bool, AllocError> {
    expect(rt, alloc, 2, Asks::Log)
}

#[test]
fn log(rt: HostRuntime) -> Result<(), Fail> {
    assert!(rt; expect_log(&rt, rt.alloc())?);
    Ok(())
}

/// The bytes 1 to 32.
const WIDEST: [u8; 32] = [
    1, 2, 3, 4, 5, 6, 7, 8, 9, 10, 11, 12, 13, 14, 15, 16, 17, 18, 19, 20, 21, 22, 23, 24, 25, 26,
    27, 28, 29, 30, 31, 32,
];

/// The call is served, where memory was refused in a block after that one, which has left no row of the pieces that had
/// found memory.
fn served_alone(rt: &impl Abort, engine: &mut Engine, call: &Call, gives: &Next) -> bool {
    begin(rt, engine);
    let found = asked(rt, engine, call, gives);
    if !found {
        must(rt, engine, &Call::Commit, &READ_ONLY);
        begin(rt, engine);
        must(rt, engine, call, gives);
    }
    found
}

fn reads(rt: &impl Abort, engine: &mut Engine) -> bool {
    begin(rt, engine);
    let loads = Next::Step(Step::Load(1));
    let found = served(rt, engine, &read(Width::U8, 4), &loads);
    given_up(rt, engine, Undone::Done);
    found
}

fn writes(rt: &impl Abort, engine: &mut Engine) -> bool {
    let write = Call::Write {
        hint: WriteHint::W,
        at: 3,
        value: Datum::new(Width::M256, WIDEST.as_slice()),
    };
    let found = served_alone(rt, engine, &write, &DONE);
    must(rt, engine, &read(Width::U1, 34), &bytes(&[32]));
    found
}

fn reads_and_writes(rt: &impl Abort, engine: &mut Engine) -> bool {
    let read = reads(rt, engine);
    let written = writes(rt, engine);
    read && written
}

pub(super) fn expect_read_and_write(rt: &impl Abort, alloc: Global) -> Result<bool, AllocError> {
    expect(rt, alloc, 5, Asks::ReadAndWrite)
}

#[test]
fn read_and_write(rt: HostRuntime) -> Result<(), Fail> {
    assert!(rt; expect_read_and_write(&rt, rt.alloc())?);
    Ok(())
}

const FILL: Call = Call::Fill {
    hint: WriteHint::W,
    to: 4,
    byte: 7,
    size: 40,
};

const COPY_OUT: Call = Call::Copy(Copying {
    moves: false,
    pair: CopyPair::Out(SharedSide::T),
    to: 30,
    from: 0,
    size: 4,
});

const MOVE: Call = Call::Copy(Copying {
    moves: true,
    pair: CopyPair::Within(SharedSide::T, SharedSide::T),
    to: 0,
    from: 8,
    size: 33,
});

/// The call is served in a block that is given up.
fn tried(rt: &impl Abort, engine: &mut Engine, call: &Call, gives: &Next) -> bool {
    let found = served_alone(rt, engine, call, gives);
    given_up(rt, engine, Undone::Done);
    found
}

fn copies_and_moves(rt: &impl Abort, engine: &mut Engine) -> bool {
    let copied = tried(rt, engine, &COPY_OUT, &DONE);
    let filled = tried(rt, engine, &FILL, &DONE);
    let loads = Next::Step(Step::Load(2));
    let moved = tried(rt, engine, &MOVE, &loads);
    copied && filled && moved
}

pub(super) fn expect_copies_and_fills(rt: &impl Abort, alloc: Global) -> Result<bool, AllocError> {
    expect(rt, alloc, 6, Asks::CopiesAndFills)
}

#[test]
fn copies_and_fills(rt: HostRuntime) -> Result<(), Fail> {
    assert!(rt; expect_copies_and_fills(&rt, rt.alloc())?);
    Ok(())
}

/// The action of this number.
fn action(fun: u32) -> Action {
    Action { fun, arg: 100 }
}

fn on_commit(fun: u32) -> Call {
    Call::CommitAction(action(fun))
}

fn committed(fun: u32) -> Ran {
    Ran {
        kind: ActionKind::Commit,
        action: action(fun),
    }
}

/// So many actions are registered or have come to run.
fn has(rt: &impl Abort, engine: &Engine, actions: usize) {
    assert_eq!(rt; engine.actions(), actions);
}

/// These actions have come to run.
fn runs(rt: &impl Abort, engine: &Engine, wanted: &[Ran]) {
    assert_eq!(rt; engine.due(), wanted);
}

/// The transaction becomes irrevocable, with room for one action.
fn turns_irrevocable(rt: &impl Abort, engine: &mut Engine) -> bool {
    begin(rt, engine);
    let mode = Call::Mode { room: 1 };
    let takes = Next::Step(Step::Cas(0, 0, 1));
    let found = served(rt, engine, &mode, &takes);
    handed(rt, engine, 0, &DONE);
    found
}

/// The one action is left as it was, and the clock held.
fn still_held(rt: &impl Abort, engine: &mut Engine) {
    given_up(rt, engine, Undone::Held);
    has(rt, engine, 1);
    must(rt, engine, &Call::InTransaction, &code(2));
}

/// Of two registrations the first finds its room, and the next one may find none.
fn registers(rt: &impl Abort, engine: &mut Engine) -> bool {
    must(rt, engine, &on_commit(1), &DONE);
    let found = asked(rt, engine, &on_commit(2), &DONE);
    if !found {
        still_held(rt, engine);
        must(rt, engine, &on_commit(2), &DONE);
    }
    has(rt, engine, 2);
    found
}

/// The irrevocable transaction commits.
fn commits(rt: &impl Abort, engine: &mut Engine) {
    given_up(rt, engine, Undone::Held);
    let frees = Next::Step(Step::Store(0, 2));
    must(rt, engine, &Call::Commit, &frees);
    let ends = Next::Answer(Answer::Committed { at: 0, wrote: true });
    handed(rt, engine, 0, &ends);
    runs(rt, engine, &[committed(1), committed(2)]);
}

/// An irrevocable transaction, from its begin to its commit.
fn goes_beyond(rt: &impl Abort, engine: &mut Engine) -> bool {
    let gone = turns_irrevocable(rt, engine);
    let registered = registers(rt, engine);
    commits(rt, engine);
    gone && registered
}

pub(super) fn expect_beyond_room(rt: &impl Abort, alloc: Global) -> Result<bool, AllocError> {
    expect(rt, alloc, 2, Asks::BeyondRoom)
}

#[test]
fn beyond_room(rt: HostRuntime) -> Result<(), Fail> {
    assert!(rt; expect_beyond_room(&rt, rt.alloc())?);
    Ok(())
}

/// The action of this number is registered: each third one to run at the commit.
fn registered(rt: &impl Abort, engine: &mut Engine, fun: u32) -> bool {
    let call = if fun % 3 == 1 {
        on_commit(fun)
    } else {
        Call::UndoAction(action(fun))
    };
    served(rt, engine, &call, &DONE)
}

/// The lists grow several times.
fn grows(rt: &impl Abort, engine: &mut Engine) -> bool {
    let mut found = true;
    for fun in 0..30 {
        found &= registered(rt, engine, fun);
        if fun == 0 {
            // one has come to run beside those that are registered
            cancelled(rt, engine);
        }
    }
    has(rt, engine, 30);
    found
}

/// The undo action has run, and then the commit actions, in the order of their registration.
fn in_order(rt: &impl Abort, all: &[Ran]) {
    let first = Ran {
        kind: ActionKind::Undo,
        action: action(0),
    };
    assert_eq!(rt; all.first(), Some(&first));
    let later = [1, 4, 7, 10, 13, 16, 19, 22, 25, 28];
    for (ran, fun) in all.iter().skip(1).zip(&later) {
        assert_eq!(rt; *ran, committed(*fun));
    }
    assert_eq!(rt; all.len(), 11);
}

/// Actions are registered in a second block, and the outer one commits.
fn registers_many(rt: &impl Abort, engine: &mut Engine) -> bool {
    begin(rt, engine);
    must(rt, engine, &BEGIN, &code(5));
    let found = grows(rt, engine);
    must(rt, engine, &Call::Commit, &READ_ONLY);
    in_order(rt, engine.due());
    found
}

pub(super) fn expect_actions(rt: &impl Abort, alloc: Global) -> Result<bool, AllocError> {
    expect(rt, alloc, 2, Asks::Actions)
}

#[test]
fn actions(rt: HostRuntime) -> Result<(), Fail> {
    assert!(rt; expect_actions(&rt, rt.alloc())?);
    Ok(())
}
