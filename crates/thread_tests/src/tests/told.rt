//! What the gate is asked about and told of, and when actions run.

use crate::tests::gates::{Held, InTurns, Tallies};
use crate::tests::sinks::{Digits, Meanwhile};
use crate::tests::texts::{expect_ends, expect_run, report_of};
use std::sync::atomic::Ordering;
use std::test::Fail;
use tx_runs::End;
use tx_worker::Quiet;

const IRREVOCABLE: &str = ".memory 8
.thread
_ITM_beginTransaction r0 -
_ITM_WU8 0 r0
_ITM_changeTransactionMode modeSerialIrrevocable
_ITM_RU8 r1 0
_ITM_commitTransaction
_ITM_beginTransaction r0 pr_doesGoIrrevocable
_ITM_WU8 0 r1
_ITM_commitTransaction
_ITM_inTransaction r1
";

/// The gate is asked once about each call that does not come in an irrevocable transaction, and told of it, under its
/// number among all calls: here 0 to 2, 5 and 8.
#[test]
fn irrevocable_calls_pass_the_gate(rt: HostRuntime) -> Result<(), Fail> {
    let gate = Tallies::new();
    let report = report_of(&rt, IRREVOCABLE, &gate, &Quiet)?;
    expect_ends(&rt, &report, &[End::Finished]);
    assert_eq!(rt; gate.asked.load(Ordering::SeqCst), 0x1_0010_0111);
    assert_eq!(rt; gate.told.load(Ordering::SeqCst), 0x1_0010_0111);
    Ok(())
}

const TWO_ACTIONS: &str = ".memory 8
.thread
_ITM_beginTransaction r0 -
_ITM_addUserCommitAction 1 _ITM_noTransactionId 0
_ITM_addUserCommitAction 2 _ITM_noTransactionId 0
_ITM_commitTransaction
";

/// The gate is asked before each of four calls and told after it; the actions run in the order of their registration, in
/// the commit, before the gate is told of it.
#[test]
fn actions_run_in_their_call(rt: HostRuntime) -> Result<(), Fail> {
    let all = Digits::new();
    let _report = report_of(&rt, TWO_ACTIONS, &all, &all)?;
    assert_eq!(rt; all.all(), 0xad_adad_a12d);
    Ok(())
}

const WRITER_WITH_ACTION: &str = ".memory 8
.thread
set r1 5
_ITM_beginTransaction r0 -
_ITM_WU8 0 r1
_ITM_addUserCommitAction 1 _ITM_noTransactionId 0
_ITM_commitTransaction
.thread
_ITM_beginTransaction r0 -
_ITM_RU8 r1 0
_ITM_commitTransaction
";

const READ_MEANWHILE: &str = "itm-history 1
memory 0000000000000000
attempt 0 1 0 committed -
arena -
call _ITM_WU8 0 0500000000000000 = ok
call _ITM_addUserCommitAction 1 _ITM_noTransactionId 0 = ok
call _ITM_commitTransaction = ok
ran commit 1 0
end
attempt 1 1 1 readonly -
arena -
call _ITM_RU8 0 = 0500000000000000
call _ITM_commitTransaction = ok
end
final 2 0500000000000000
";

/// As a commit action runs, its transaction has committed: another thread's whole transaction in the meantime sees it.
#[test]
fn actions_run_after_the_commit(rt: HostRuntime) -> Result<(), Fail> {
    let meanwhile = Meanwhile::new(3);
    let ends = [End::Finished; 2];
    expect_run(
        &rt,
        WRITER_WITH_ACTION,
        &meanwhile,
        &meanwhile,
        READ_MEANWHILE,
        &ends,
    )
}

const UNDONE_AND_RUN_AGAIN: &str = ".memory 16
.restarts 1
.thread
_ITM_beginTransaction r0 -
_ITM_addUserCommitAction 3 _ITM_noTransactionId 0
_ITM_beginTransaction r1 -
_ITM_addUserUndoAction 1 0
_ITM_addUserUndoAction 2 0
_ITM_RU8 r2 0
_ITM_RU8 r3 8
_ITM_commitTransaction
_ITM_commitTransaction
.thread
set r1 7
_ITM_beginTransaction r0 -
_ITM_WU8 0 r1
_ITM_commitTransaction
";

const RAN_AGAIN: &str = "itm-history 2
memory 00000000000000000000000000000000
attempt 0 1 1 readonly -
arena -
call _ITM_addUserCommitAction 3 _ITM_noTransactionId 0 = ok
call _ITM_beginTransaction - = code 5
restart -
undone 2 0
undone 1 0
call _ITM_addUserUndoAction 1 0 = ok
call _ITM_addUserUndoAction 2 0 = ok
call _ITM_RU8 0 = 0700000000000000
call _ITM_RU8 8 = 0000000000000000
call _ITM_commitTransaction = ok
call _ITM_commitTransaction = ok
ran commit 3 0
end
attempt 1 1 0 committed -
arena -
call _ITM_WU8 0 0700000000000000 = ok
call _ITM_commitTransaction = ok
end
final 2 07000000000000000000000000000000
";

/// A commit between two reads of an inner block, which goes back to its begin: its undo actions run then, the last one first,
/// and none of them again at a later call; the commit action of the block around runs once.
#[test]
fn actions_of_a_block_that_runs_again(rt: HostRuntime) -> Result<(), Fail> {
    let held = [Held::new(1, 0, 5), Held::new(0, 6, 2)];
    let gate = InTurns::new(&held);
    let sink = Digits::new();
    let ends = [End::Finished; 2];
    expect_run(&rt, UNDONE_AND_RUN_AGAIN, &gate, &sink, RAN_AGAIN, &ends)?;
    assert_eq!(rt; sink.all(), 0x213);
    Ok(())
}
