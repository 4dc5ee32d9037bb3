//! An engine that is driven by hand, over cells that no other thread has.

use crate::tests::helpers::{BEGIN, BEGIN_IRREVOCABLE, DONE, IN, engine, read, word, write};
use itm_types::{Call, CopyPair, Copying, MAX_WORDS, Refusal, Reply, SharedSide, Step};
use norec_core::{Answer, Next};
use norec_engine::Engine;
use std::alloc::AllocError;
use std::process::Abort;

/// More steps than any call of the test takes.
const STEPS: u32 = 100;

/// The cell of the last word of the largest memory.
const LAST_CELL: u32 = MAX_WORDS as u32;

/// Where the cell stands: the last one of the largest memory behind that of the first word.
fn place_of(cell: u32) -> usize {
    if cell == LAST_CELL { 2 } else { cell as usize }
}

/// Does a step on the clock and the words, which follow it in order; the value that it found.
fn step_on(rt: &impl Abort, cells: &mut [u64], step: Step) -> u64 {
    let (Step::Load(cell) | Step::Store(cell, _) | Step::Cas(cell, _, _)) = step;
    let cell = place_of(cell);
    assert!(rt; cell < cells.len());
    let found = cells[cell];
    match step {
        Step::Load(_) => found,
        Step::Store(_, new) => {
            cells[cell] = new;
            0
        }
        Step::Cas(_, old, new) => {
            if found == old {
                cells[cell] = new;
            }
            found
        }
    }
}

/// Does the steps of a call, from what it gave first, up to its answer.
fn drive(rt: &impl Abort, engine: &mut Engine, cells: &mut [u64], first: Next) -> Answer {
    let mut next = first;
    for _ in 0..STEPS {
        match next {
            Next::Answer(answer) => return answer,
            Next::Step(step) => {
                let seen = step_on(rt, cells, step);
                assert!(rt; engine.waits());
                assert!(rt; engine.fits(seen));
                next = engine.resume(seen);
            }
        }
    }
    panic!(rt; "more steps than a call takes")
}

/// A call is answered so.
fn ask(
    rt: &impl Abort,
    engine: &mut Engine,
    cells: &mut [u64],
    call: &Call,
    answer: &Answer,
) -> Result<(), AllocError> {
    assert!(rt; !engine.waits());
    let first = engine.call(call)?;
    assert_eq!(rt; drive(rt, engine, cells, first), *answer, "{call:?}");
    Ok(())
}

/// A transaction adds 1 to the second of two words.
fn add_one(rt: &impl Abort, engine: &mut Engine, cells: &mut [u64; 3]) -> Result<(), AllocError> {
    ask(rt, engine, cells, &BEGIN, &IN)?;
    ask(rt, engine, cells, &read(8), &word(41))?;
    ask(rt, engine, cells, &write(8, 42), &DONE)?;
    let ends = Answer::Committed { at: 3, wrote: true };
    ask(rt, engine, cells, &Call::Commit, &ends)
}

#[test]
fn by_hand(rt: HostRuntime) {
    // three have committed before
    let mut cells = [6, 40, 41];
    let mut engine = engine(rt.alloc(), 2, 0, 8, 0).expect(&rt, "memory");
    add_one(&rt, &mut engine, &mut cells).expect(&rt, "memory");
    assert_eq!(rt; cells, [8, 40, 42]);
}

/// The place of the last word of the largest memory.
const LAST: u64 = 8 * (MAX_WORDS as u64 - 1);

const PAST_THE_END: Answer = Answer::Reply(Reply::Refused(Refusal::OutOfRange));

/// The last word is copied into the first.
const COPY: Call = Call::Copy(Copying {
    moves: false,
    pair: CopyPair::Within(SharedSide::T, SharedSide::T),
    to: 0,
    from: LAST,
    size: 8,
});

/// The calls are answered so, one after the other.
fn ask_all(
    rt: &impl Abort,
    engine: &mut Engine,
    cells: &mut [u64],
    rows: &[(Call, Answer)],
) -> Result<(), AllocError> {
    for (call, answer) in rows {
        ask(rt, engine, cells, call, answer)?;
    }
    Ok(())
}

/// The last word is read, written and copied in a transaction that may be tried again.
fn revocable_at_the_end(
    rt: &impl Abort,
    engine: &mut Engine,
    cells: &mut [u64],
) -> Result<(), AllocError> {
    let ends = Answer::Committed { at: 3, wrote: true };
    let rows = [
        (BEGIN, IN),
        (read(LAST), word(41)),
        (read(LAST + 1), PAST_THE_END),
        (write(LAST + 1, 42), PAST_THE_END),
        (write(LAST, 42), DONE),
        (COPY, DONE),
        (Call::Commit, ends),
    ];
    ask_all(rt, engine, cells, &rows)
}

/// The last word is written and copied in one that is irrevocable.
fn irrevocable_at_the_end(
    rt: &impl Abort,
    engine: &mut Engine,
    cells: &mut [u64],
) -> Result<(), AllocError> {
    let ends = Answer::Committed { at: 4, wrote: true };
    let rows = [
        (BEGIN_IRREVOCABLE, IN),
        (write(LAST, 43), DONE),
        (COPY, DONE),
        (read(0), word(43)),
        (Call::Commit, ends),
    ];
    ask_all(rt, engine, cells, &rows)
}

/// One of each kind, over the largest memory.
fn at_the_end(
    rt: &impl Abort,
    engine: &mut Engine,
    cells: &mut [u64; 3],
) -> Result<(), AllocError> {
    revocable_at_the_end(rt, engine, cells)?;
    assert_eq!(rt; *cells, [8, 42, 42]);
    irrevocable_at_the_end(rt, engine, cells)
}

#[test]
fn largest_memory(rt: HostRuntime) {
    let mut cells = [6, 40, 41];
    let mut engine = engine(rt.alloc(), LAST_CELL, 0, 8, 0).expect(&rt, "memory");
    at_the_end(&rt, &mut engine, &mut cells).expect(&rt, "memory");
    assert_eq!(rt; cells, [10, 43, 43]);
}
