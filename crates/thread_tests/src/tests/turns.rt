//! Two threads by turns, and one beside another that holds the clock.

ghost use Rattle.std.specs.Prelude.{◌≡◌, ◌*◌, ◌<◌, ◌≤◌, false};
ghost use Rattle.shared_words.specs.Passes.{Owns, view_of, cells_of};

use crate::tests::helpers::{
    BEGIN, BEGIN_IRREVOCABLE, DONE, IN, Row, code, cut, keep, opened, part, read, thread, walk,
    word, write,
};
use itm_runtime::Thread;
use itm_types::Call;
use norec_core::Answer;
use shared_words::{Pass, Words};
use std::alloc::Global;
use std::process::Abort;
use std::test::Fail;

/// The bytes of two words.
const EMPTY: [u8; 16] = [0; 16];

/// A thread of this pass, outside a transaction.
fn begun(rt: &impl Abort, alloc: Global, words: &Words, pass: Pass, patience: u32) -> Thread
    requires own { Owns words.now pass }
    requires idle { (view_of pass).holds ≡ false }
    requires patience { (0 < patience) × (patience ≤ 8) }
    ensures own { Owns words.now result.pass }
{
    thread(alloc, words, pass, patience, 0).expect(rt, "memory")
}

/// The calls are answered so, one after the other.
fn walks(rt: &impl Abort, words: &Words, thread: &mut Thread, rows: &[Row])
    requires own { Owns words.now thread.old.pass }
    ensures own { Owns words.now thread.new.pass }
{
    walk(rt, words, thread, rows).expect(rt, "memory");
}

/// The one pass of both threads.
fn joined(rt: &impl Abort, words: &Words, a: Thread, b: Thread) -> Pass
    requires own { Owns words.now a.pass × Owns words.now b.pass }
    ensures own { Owns words.now result }
{
    let mut first = part(rt, words, a);
    let second = part(rt, words, b);
    words.join(&mut first, second);
    first
}

/// The one commit has left 7 in the second word.
fn close(rt: &impl Abort, words: Words, pass: Pass)
    requires own { Owns words pass }
    requires size { 8 * cells_of words ≡ 24 }
{
    let mut memory = EMPTY;
    let closed = words.close(pass, &mut memory);
    assert_eq!(rt; closed.clock, 2);
    assert_eq!(rt; memory, [0, 0, 0, 0, 0, 0, 0, 0, 7, 0, 0, 0, 0, 0, 0, 0]);
}

/// Both threads end, and the one commit has left 7 in the second word.
fn end(rt: &impl Abort, words: Words, a: Thread, b: Thread)
    requires own { Owns words a.pass × Owns words b.pass }
    requires size { 8 * cells_of words ≡ 24 }
{
    let pass = joined(rt, &words, a, b);
    close(rt, words, pass);
}

/// A reader begins.
fn begin_reading(rt: &impl Abort, words: &Words, a: &mut Thread)
    requires own { Owns words.now a.old.pass }
    ensures own { Owns words.now a.new.pass }
{
    walks(rt, words, a, &[(BEGIN, IN, 1), (read(0), word(0), 2)]);
}

/// The other one commits.
fn overtake(rt: &impl Abort, words: &Words, b: &mut Thread)
    requires own { Owns words.now b.old.pass }
    ensures own { Owns words.now b.new.pass }
{
    let committed = Answer::Committed { at: 0, wrote: true };
    let rows = [
        (BEGIN, IN, 1),
        (write(8, 7), DONE, 0),
        (Call::Commit, committed, 3),
    ];
    walks(rt, words, b, &rows);
}

/// The reader's snapshot moves as it reads on.
fn read_on(rt: &impl Abort, words: &Words, a: &mut Thread)
    requires own { Owns words.now a.old.pass }
    ensures own { Owns words.now a.new.pass }
{
    assert_eq!(rt; a.snapshot(), 0);
    // the word, the clock, a round over one row, and the word and the clock again
    walks(rt, words, a, &[(read(8), word(7), 7)]);
    assert_eq!(rt; a.snapshot(), 2);
    let committed = Answer::Committed {
        at: 1,
        wrote: false,
    };
    walks(rt, words, a, &[(Call::Commit, committed, 0)]);
}

/// A reader whose snapshot moves while another one commits.
fn by_turns(rt: &impl Abort, alloc: Global, words: Words, first: Pass, second: Pass)
    requires own { Owns words first × Owns words second }
    requires idle { ((view_of first).holds ≡ false) × ((view_of second).holds ≡ false) }
    requires size { 8 * cells_of words ≡ 24 }
{
    let mut a = begun(rt, alloc, &words, first, 8);
    let mut b = begun(rt, alloc, &words, second, 8);
    begin_reading(rt, &words, &mut a);
    overtake(rt, &words, &mut b);
    read_on(rt, &words, &mut a);
    end(rt, words, a, b);
}

#[test]
fn two_by_turns(rt: HostRuntime) -> Result<(), Fail> {
    let (words, pass) = opened(rt.alloc(), &EMPTY)?;
    let (first, second) = cut(&words, pass);
    by_turns(&rt, rt.alloc(), words, first, second);
    Ok(())
}

/// A transaction that is irrevocable from the first.
fn take(rt: &impl Abort, words: &Words, a: Thread) -> Thread
    requires own { Owns words.now a.pass }
    ensures own { Owns words.now result.pass }
{
    let mut a = a;
    walks(rt, words, &mut a, &[(BEGIN_IRREVOCABLE, IN, 2)]);
    keep(rt, words, a)
}

/// One that can't begin beside it.
fn keep_out(rt: &impl Abort, words: &Words, b: &mut Thread)
    requires own { Owns words.now b.old.pass }
    ensures own { Owns words.now b.new.pass }
{
    let busy = Answer::Busy { clock: 1 };
    walks(rt, words, b, &[(BEGIN, busy, 2)]);
}

/// The irrevocable one writes and commits.
fn commit(rt: &impl Abort, words: &Words, a: &mut Thread)
    requires own { Owns words.now a.old.pass }
    ensures own { Owns words.now a.new.pass }
{
    let committed = Answer::Committed { at: 0, wrote: true };
    let rows = [(write(8, 7), DONE, 1), (Call::Commit, committed, 1)];
    walks(rt, words, a, &rows);
}

/// A transaction that is irrevocable from the first, and one that can't begin beside it.
fn irrevocable_first(rt: &impl Abort, alloc: Global, words: Words, first: Pass, second: Pass)
    requires own { Owns words first × Owns words second }
    requires idle { ((view_of first).holds ≡ false) × ((view_of second).holds ≡ false) }
    requires size { 8 * cells_of words ≡ 24 }
{
    let a = begun(rt, alloc, &words, first, 8);
    let mut b = begun(rt, alloc, &words, second, 2);
    let mut a = take(rt, &words, a);
    keep_out(rt, &words, &mut b);
    commit(rt, &words, &mut a);
    end(rt, words, a, b);
}

#[test]
fn irrevocable_by_turns(rt: HostRuntime) -> Result<(), Fail> {
    let (words, pass) = opened(rt.alloc(), &EMPTY)?;
    let (first, second) = cut(&words, pass);
    irrevocable_first(&rt, rt.alloc(), words, first, second);
    Ok(())
}

/// A thread is answered so before another one takes the clock, and so while that one holds it and takes no step.
fn beside(
    rt: &impl Abort,
    alloc: Global,
    words: &Words,
    first: Pass,
    second: Pass,
    before: &[Row],
    after: &[Row],
)
    requires own { Owns words.now first × Owns words.now second }
    requires idle { ((view_of first).holds ≡ false) × ((view_of second).holds ≡ false) }
{
    let a = begun(rt, alloc, words, first, 8);
    let mut b = begun(rt, alloc, words, second, 3);
    walks(rt, words, &mut b, before);
    let _held = take(rt, words, a);
    walks(rt, words, &mut b, after);
}

/// The same over words of their own.
fn beside_a_holder(
    rt: &impl Abort,
    alloc: Global,
    before: &[Row],
    after: &[Row],
) -> Result<(), Fail> {
    let (words, pass) = opened(alloc, &EMPTY)?;
    let (first, second) = cut(&words, pass);
    beside(rt, alloc, &words, first, second, before, after);
    Ok(())
}

/// The clock was odd at each try of a begin.
const BUSY: Answer = Answer::Busy { clock: 1 };

/// It was odd in each round of a call.
const CONFLICT: Answer = Answer::Conflict {
    clock: 1,
    word: None,
};

#[test]
fn begins_beside_a_holder(rt: HostRuntime) -> Result<(), Fail> {
    let after = [
        (Call::InTransaction, code(0), 0),
        (BEGIN, BUSY, 3),
        (BEGIN_IRREVOCABLE, BUSY, 3),
        (Call::InTransaction, code(0), 0),
    ];
    beside_a_holder(&rt, rt.alloc(), &[], &after)
}

/// A read of a word that the log has, and of one that it has not: the word, the clock, and the clock in each round.
#[test]
fn reads_beside_a_holder(rt: HostRuntime) -> Result<(), Fail> {
    let before = [(BEGIN, IN, 1), (read(8), word(0), 2)];
    let after = [(read(8), word(0), 0), (read(0), CONFLICT, 5)];
    beside_a_holder(&rt, rt.alloc(), &before, &after)
}

/// The exchange, and the clock in each round.
#[test]
fn commits_beside_a_holder(rt: HostRuntime) -> Result<(), Fail> {
    let before = [(BEGIN, IN, 1), (write(0, 1), DONE, 0)];
    let commits = [(Call::Commit, CONFLICT, 4)];
    beside_a_holder(&rt, rt.alloc(), &before, &commits)?;
    let goes = [(Call::Mode { room: 1 }, CONFLICT, 4)];
    beside_a_holder(&rt, rt.alloc(), &before, &goes)
}

/// A commit that has written nothing takes no step.
#[test]
fn a_reader_commits_beside_a_holder(rt: HostRuntime) -> Result<(), Fail> {
    let before = [(BEGIN, IN, 1), (read(0), word(0), 2)];
    let committed = Answer::Committed {
        at: 0,
        wrote: false,
    };
    let after = [(Call::Commit, committed, 0), (BEGIN, BUSY, 3)];
    beside_a_holder(&rt, rt.alloc(), &before, &after)
}
