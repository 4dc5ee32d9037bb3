//! Scripts whose reads fail in turn.

use crate::fakes::Halting;
use run_commands::sched;
use std::alloc::Global;
use std::io::{Read, Write};
use std::process::Abort;
use std::test::*;

const EMPTY_BLOCK: &[u8] = b".memory 8
.thread
_ITM_beginTransaction r0 -
_ITM_commitTransaction
";

const HISTORY: &[u8] = b"itm-history 1
memory 0000000000000000
attempt 0 1 0 readonly -
arena -
call _ITM_commitTransaction = ok
end
final 0 0000000000000000
";

/// The status of a script.
fn status_of<R: Read, W: Write, E: Write>(
    alloc: Global,
    reader: &mut R,
    output: &mut W,
    errors: &mut E,
) -> u8 {
    sched(alloc, reader, output, errors)
}

/// Nothing is written, and the errors have the one line; or, where no read has failed, the history is written.
fn judged(rt: &impl Abort, status: u8, output: &[u8], errors: &[u8]) -> bool {
    if status == 0 {
        assert_eq!(rt; output, HISTORY);
        assert!(rt; errors.is_empty());
        return true;
    }
    assert_eq!(rt; status, 5);
    assert!(rt; output.is_empty());
    assert_eq!(rt; errors, b"itmrun: reading failed\n".as_slice());
    false
}

/// The read after so many fails, and only that one: whether the script is read to its end before.
fn is_read(rt: &impl Abort, alloc: Global, reads: usize) -> bool {
    let mut reader = Halting {
        left: EMPTY_BLOCK,
        reads,
    };
    let mut output = Vec::new(alloc);
    let mut errors = Vec::new(alloc);
    let status = status_of(alloc, &mut reader, &mut output, &mut errors);
    judged(rt, status, &output, &errors)
}

/// Each read of the script fails in turn; the last one finds its end.
#[test]
fn failing_reads(rt: HostRuntime) {
    let last = EMPTY_BLOCK.len().div_ceil(7).saturating_add(1);
    for reads in 0..last {
        assert!(rt; !is_read(&rt, rt.alloc(), reads));
    }
    assert!(rt; is_read(&rt, rt.alloc(), last));
}
