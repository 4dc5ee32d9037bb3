//! Two threads in an order that a gate makes: only threads that run side by side come to it.

use crate::tests::gates::{Held, InTurns};
use crate::tests::texts::{expect_run, report_of};
use std::process::Abort;
use std::test::Fail;
use tx_host::Report;
use tx_runs::End;
use tx_worker::Quiet;

const TWO_WORDS: &str = ".memory 16
.thread
_ITM_beginTransaction r0 -
_ITM_RU8 r1 0
_ITM_RU8 r2 8
_ITM_commitTransaction
.thread
set r1 7
_ITM_beginTransaction r0 -
_ITM_WU8 8 r1
_ITM_commitTransaction
";

const BETWEEN_TWO_READS: &str = "itm-history 1
memory 00000000000000000000000000000000
attempt 0 1 1 readonly -
arena -
call _ITM_RU8 0 = 0000000000000000
call _ITM_RU8 8 = 0700000000000000
call _ITM_commitTransaction = ok
end
attempt 1 1 0 committed -
arena -
call _ITM_WU8 8 0700000000000000 = ok
call _ITM_commitTransaction = ok
end
final 2 00000000000000000700000000000000
";

/// A whole transaction of one thread between two reads of another.
#[test]
fn a_commit_between_two_reads(rt: HostRuntime) -> Result<(), Fail> {
    let held = [Held::new(1, 0, 1), Held::new(0, 2, 2)];
    let gate = InTurns::new(&held);
    let ends = [End::Finished; 2];
    expect_run(&rt, TWO_WORDS, &gate, &Quiet, BETWEEN_TWO_READS, &ends)
}

const TWO_COUNTERS: &str = ".memory 8
.thread 2
set r1 1
_ITM_beginTransaction r0 -
_ITM_RU8 r2 0
add r2 r2 r1
_ITM_WU8 0 r2
_ITM_commitTransaction
";

const TRIED_AGAIN: &str = "itm-history 1
memory 0000000000000000
attempt 0 1 0 conflict -
arena -
call _ITM_RU8 0 = 0000000000000000
call _ITM_WU8 0 0100000000000000 = ok
end
attempt 0 2 1 committed -
arena -
call _ITM_RU8 0 = 0100000000000000
call _ITM_WU8 0 0200000000000000 = ok
call _ITM_commitTransaction = ok
end
attempt 1 1 0 committed -
arena -
call _ITM_RU8 0 = 0000000000000000
call _ITM_WU8 0 0100000000000000 = ok
call _ITM_commitTransaction = ok
end
final 4 0200000000000000
";

/// No update is lost: the thread that comes second with its commit reads again.
#[test]
fn a_commit_before_a_commit(rt: HostRuntime) -> Result<(), Fail> {
    let held = [Held::new(1, 0, 2), Held::new(0, 3, 3)];
    let gate = InTurns::new(&held);
    let ends = [End::Finished; 2];
    expect_run(&rt, TWO_COUNTERS, &gate, &Quiet, TRIED_AGAIN, &ends)
}

/// So many writers had committed as each attempt began, as far as its thread knew.
fn expect_begun(rt: &impl Abort, report: &Report, begun: &[u64]) {
    let attempts = report.history.attempts.as_slice();
    assert_eq!(rt; attempts.len(), begun.len());
    for (attempt, began) in attempts.iter().zip(begun) {
        assert_eq!(rt; attempt.began, *began);
    }
}

/// A thread whose commit came second knows of the other one as it tries again.
#[test]
fn a_conflict_is_known(rt: HostRuntime) -> Result<(), Fail> {
    let held = [Held::new(1, 0, 2), Held::new(0, 3, 3)];
    let gate = InTurns::new(&held);
    let report = report_of(&rt, TWO_COUNTERS, &gate, &Quiet)?;
    expect_begun(&rt, &report, &[0, 1, 0]);
    Ok(())
}

const WRITER_AND_READER: &str = ".memory 16
.retries 2
.thread
set r2 1
.rept 3
add r1 r1 r2
_ITM_beginTransaction r0 -
_ITM_WU8 0 r1
_ITM_commitTransaction
.endr
.thread
_ITM_beginTransaction r0 -
_ITM_RU8 r1 0
_ITM_WU8 8 r1
_ITM_commitTransaction
";

const THREE_TRIES: &str = "itm-history 1
memory 00000000000000000000000000000000
attempt 0 1 0 committed -
arena -
call _ITM_WU8 0 0100000000000000 = ok
call _ITM_commitTransaction = ok
end
attempt 0 1 1 committed -
arena -
call _ITM_WU8 0 0200000000000000 = ok
call _ITM_commitTransaction = ok
end
attempt 0 1 2 committed -
arena -
call _ITM_WU8 0 0300000000000000 = ok
call _ITM_commitTransaction = ok
end
attempt 1 1 0 conflict -
arena -
call _ITM_RU8 0 = 0000000000000000
call _ITM_WU8 8 0000000000000000 = ok
end
attempt 1 2 1 conflict -
arena -
call _ITM_RU8 0 = 0100000000000000
call _ITM_WU8 8 0100000000000000 = ok
end
attempt 1 3 2 conflict -
arena -
call _ITM_RU8 0 = 0200000000000000
call _ITM_WU8 8 0200000000000000 = ok
end
final 6 03000000000000000000000000000000
";

/// A block is tried again as often as the script says: each of the second thread's tries finds a commit between its read and
/// its own commit.
#[test]
fn a_commit_before_each_try(rt: HostRuntime) -> Result<(), Fail> {
    let held = [
        Held::new(0, 0, 1),
        Held::new(1, 3, 2),
        Held::new(0, 3, 5),
        Held::new(1, 7, 5),
        Held::new(0, 6, 9),
        Held::new(1, 11, 8),
    ];
    let gate = InTurns::new(&held);
    let ends = [End::Finished, End::GaveUp];
    expect_run(&rt, WRITER_AND_READER, &gate, &Quiet, THREE_TRIES, &ends)
}
