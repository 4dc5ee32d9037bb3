//! Scripts from their bytes to what is written, said and answered.

use crate::fakes::Meagre;
use run_commands::sched;
use std::alloc::Global;
use std::io::{Read, Write};
use std::process::Abort;
use std::test::*;

const COUNTER: &[u8] = b".memory 8
.thread
set r1 1
_ITM_beginTransaction r0 -
_ITM_RU8 r2 0
add r2 r2 r1
_ITM_WU8 0 r2
_ITM_commitTransaction
";

const COUNTER_HISTORY: &[u8] = b"itm-history 1
memory 0000000000000000
attempt 0 1 0 committed -
arena -
call _ITM_RU8 0 = 0000000000000000
call _ITM_WU8 0 0100000000000000 = ok
call _ITM_commitTransaction = ok
end
final 2 0100000000000000
";

/// A reader finds the clock held, with one word of two stored, and gives up.
const PARTIAL_WRITE_BACK: &[u8] = b".memory 16
.patience 2
.retries 0
.schedule 1x1 0x3 1!
.thread
set r1 1
_ITM_beginTransaction r0 -
_ITM_WU8 0 r1
_ITM_WU8 8 r1
_ITM_commitTransaction
.thread
_ITM_beginTransaction r0 -
_ITM_RU8 r1 0
_ITM_commitTransaction
";

const PARTIAL_WRITE_BACK_HISTORY: &[u8] = b"itm-history 1
memory 00000000000000000000000000000000
attempt 1 1 0 conflict -
arena -
end
attempt 0 1 0 unfinished -
arena -
call _ITM_WU8 0 0100000000000000 = ok
call _ITM_WU8 8 0100000000000000 = ok
end
final 1 01000000000000000000000000000000
";

/// Of four threads the first and the last give up, in the order of the schedule the last but one first; their lines stand by number.
const TWO_GAVE_UP: &[u8] = b".memory 8
.commits 1
.schedule 2! 3! 1! 0!
.thread
set r1 1
_ITM_beginTransaction r0 -
_ITM_WU8 0 r1
_ITM_commitTransaction
.thread
_ITM_beginTransaction r0 -
_ITM_RU8 r1 0
_ITM_commitTransaction
.thread 2
set r1 1
_ITM_beginTransaction r0 -
_ITM_WU8 0 r1
_ITM_commitTransaction
";

/// The status of a script.
fn status_of<R: Read, W: Write, E: Write>(
    alloc: Global,
    reader: &mut R,
    output: &mut W,
    errors: &mut E,
) -> u8 {
    sched(alloc, reader, output, errors)
}

/// A script whose history is written in pieces of 16 bytes, and what it is answered where nothing fails.
#[derive(Clone, Copy)]
struct Case {
    script: &'static [u8],
    history: &'static [u8],
    good: u8,
}

/// What has come of a try whose writer fails.
#[derive(Clone, Copy)]
struct Tried {
    /// The status is the good one.
    good: bool,
    /// All of the history was taken.
    taken: bool,
}

/// What was taken is a beginning of the history; where the status is not the good one, the errors have the one line.
fn judged(rt: &impl Abort, case: &Case, status: u8, taken: &[u8], errors: &[u8]) -> Tried {
    assert!(rt; case.history.starts_with(taken));
    let good = status == case.good;
    if !good {
        assert_eq!(rt; status, 5);
        assert_eq!(rt; errors, b"itmrun: writing failed\n".as_slice());
    }
    Tried {
        good,
        taken: taken.len() == case.history.len(),
    }
}

/// The write after so many fails, and its flush where all else is good.
fn write_so(rt: &impl Abort, alloc: Global, case: &Case, writes: usize, fails: bool) -> Tried {
    let mut reader = case.script;
    let mut writer = Meagre {
        taken: Vec::new(alloc),
        writes,
        most: 16,
        fails,
    };
    let mut errors = Vec::new(alloc);
    let status = status_of(alloc, &mut reader, &mut writer, &mut errors);
    judged(rt, case, status, &writer.taken, &errors)
}

/// Each write of a script's history fails in turn, and then its flush: what was taken before is a beginning of it, and
/// the errors get the one line, also where threads gave up.
fn fails_in_turn(rt: &impl Abort, alloc: Global, case: &Case, fails: bool) {
    let mut unflushed = false;
    for writes in 0..1000 {
        let tried = write_so(rt, alloc, case, writes, fails);
        if tried.good {
            assert!(rt; 9 <= writes);
            break;
        }
        assert!(rt; !unflushed);
        unflushed = tried.taken;
    }
    assert_eq!(rt; unflushed, fails);
}

#[test]
fn failing_writes(rt: HostRuntime) {
    let counter = Case {
        script: COUNTER,
        history: COUNTER_HISTORY,
        good: 0,
    };
    let partial = Case {
        script: PARTIAL_WRITE_BACK,
        history: PARTIAL_WRITE_BACK_HISTORY,
        good: 4,
    };
    for fails in [true, false] {
        fails_in_turn(&rt, rt.alloc(), &counter, fails);
        fails_in_turn(&rt, rt.alloc(), &partial, fails);
    }
}

/// A writer that takes one byte at a time gets the whole history.
fn takes_all(rt: &impl Abort, alloc: Global) {
    let mut reader = COUNTER;
    let mut writer = Meagre {
        taken: Vec::new(alloc),
        writes: usize::MAX,
        most: 1,
        fails: true,
    };
    let mut errors = Vec::new(alloc);
    assert_eq!(rt; status_of(alloc, &mut reader, &mut writer, &mut errors), 0);
    assert_eq!(rt; writer.taken.as_slice(), COUNTER_HISTORY);
}

/// One that fails on the errors after so many writes gives status 5.
fn fails_on_errors(rt: &impl Abort, alloc: Global, script: &[u8], writes: usize, taken: &[u8]) {
    let mut reader = script;
    let mut output = Vec::new(alloc);
    let mut writer = Meagre {
        taken: Vec::new(alloc),
        writes,
        most: 4,
        fails: false,
    };
    assert_eq!(rt; status_of(alloc, &mut reader, &mut output, &mut writer), 5);
    assert_eq!(rt; writer.taken.as_slice(), taken);
}

/// A writer that takes one byte at a time gets the whole history, and one that fails on the errors gives status 5.
#[test]
fn meagre_writers(rt: HostRuntime) {
    takes_all(&rt, rt.alloc());
    fails_on_errors(&rt, rt.alloc(), b"no script", 2, b"itmrun: ");
    fails_on_errors(
        &rt,
        rt.alloc(),
        TWO_GAVE_UP,
        9,
        b"itmrun: thread 0 gave up\nitmrun: ",
    );
}
