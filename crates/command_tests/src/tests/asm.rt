//! Scripts from their bytes to what is written, said and answered.

use crate::fakes::Meagre;
use std::alloc::Global;
use std::io::{Read, Write};
use std::process::Abort;
use std::test::*;
use text_commands::asm;

const SCRIPT: &[u8] = b"; two threads
.commits 3
.memory 8\r
.init 0 Aa
.schedule 1!  0x2
.thread\t2
.rept 2
set  r1 1
.endr
_ITM_beginTransaction r0 pr_hasNoIrrevocable+pr_hasNoAbort
_ITM_WU1 7 r1
_ITM_commitTransaction";

const TEXT: &[u8] = b".memory 8
.arena 0
.patience 8
.retries 100
.commits 3
.init 0 aa
.schedule 1!
.schedule 0x2
.thread 2
set r1 1
set r1 1
_ITM_beginTransaction r0 pr_hasNoAbort+pr_hasNoIrrevocable
_ITM_WU1 7 r1
_ITM_commitTransaction
";

/// The status of a script.
fn status_of<R: Read, W: Write, E: Write>(
    alloc: Global,
    reader: &mut R,
    output: &mut W,
    errors: &mut E,
) -> u8 {
    asm(alloc, reader, output, errors)
}

/// Whether the whole text was taken, with status 0; else what was taken is a beginning of it, and the errors have the one
/// line.
fn is_whole(rt: &impl Abort, status: u8, taken: &[u8], errors: &[u8]) -> bool {
    if status == 0 {
        assert_eq!(rt; taken, TEXT);
        return true;
    }
    assert_eq!(rt; status, 5);
    assert!(rt; TEXT.starts_with(taken));
    assert_eq!(rt; errors, b"itmrun: writing failed\n".as_slice());
    false
}

/// So many writes are good: whether the whole text is taken.
fn written(rt: &impl Abort, alloc: Global, writes: usize, most: usize, fails: bool) -> bool {
    let mut reader = SCRIPT;
    let mut writer = Meagre {
        taken: Vec::new(alloc),
        writes,
        most,
        fails,
    };
    let mut errors = Vec::new(alloc);
    let status = status_of(alloc, &mut reader, &mut writer, &mut errors);
    is_whole(rt, status, &writer.taken, &errors)
}

/// Each write fails in turn; how many there are in all.
fn fails_in_turn(rt: &impl Abort, alloc: Global, most: usize, fails: bool) -> usize {
    for writes in 0..1000 {
        if written(rt, alloc, writes, most, fails) {
            return writes;
        }
    }
    panic!(rt; "no write is the last one");
}

/// Each write fails in turn, and then the flush: what was taken before is a beginning of the text, and the errors get
/// the one line.
#[test]
fn failing_writes(rt: HostRuntime) {
    for most in [1, 64] {
        let calls = TEXT.len().div_ceil(most);
        assert_eq!(rt; fails_in_turn(&rt, rt.alloc(), most, true), calls + 1);
        assert_eq!(rt; fails_in_turn(&rt, rt.alloc(), most, false), calls);
    }
}

/// A writer that fails on the errors gives status 5.
#[test]
fn failing_errors(rt: HostRuntime) {
    let mut reader: &[u8] = b"no script";
    let mut output = Vec::new(rt.alloc());
    let mut writer = Meagre {
        taken: Vec::new(rt.alloc()),
        writes: 2,
        most: 4,
        fails: false,
    };
    assert_eq!(rt;
        status_of(rt.alloc(), &mut reader, &mut output, &mut writer),
        5
    );
    assert_eq!(rt; writer.taken.as_slice(), b"itmrun: ".as_slice());
    assert!(rt; output.is_empty());
}
