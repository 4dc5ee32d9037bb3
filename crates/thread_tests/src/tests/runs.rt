//! What a sink is told, and a gate that shuts.

use crate::tests::gates::ShutsAt;
use crate::tests::sinks::Digits;
use crate::tests::texts::{expect_ends, report_of};
use std::process::Abort;
use std::test::Fail;
use tx_attempts::Outcome;
use tx_host::Report;
use tx_runs::End;
use tx_worker::Open;

const CANCELLED: &str = ".memory 8
.thread
_ITM_beginTransaction r0 -
_ITM_addUserUndoAction 1 0
_ITM_beginTransaction r1 -
_ITM_addUserUndoAction 2 0
_ITM_addUserCommitAction 9 _ITM_noTransactionId 0
_ITM_beginTransaction r2 -
_ITM_addUserUndoAction 3 0
_ITM_abortTransaction userAbort+outerAbort
_ITM_commitTransaction
_ITM_commitTransaction
_ITM_commitTransaction
";

/// The sink runs undo actions, the last one first.
#[test]
fn undo_actions_run(rt: HostRuntime) -> Result<(), Fail> {
    let sink = Digits::new();
    let _report = report_of(&rt, CANCELLED, &Open, &sink)?;
    assert_eq!(rt; sink.all(), 0x321);
    Ok(())
}

/// The one attempt has made one call, and stays as it is.
fn expect_unfinished(rt: &impl Abort, report: &Report) {
    assert_eq!(rt; report.history.attempts.as_slice().len(), 1);
    for attempt in report.history.attempts.as_slice() {
        assert_eq!(rt; attempt.outcome, Outcome::Unfinished);
        assert_eq!(rt; attempt.calls.as_slice().len(), 1);
    }
}

/// Where the gate shuts, the attempt stays as it is, and nothing runs.
#[test]
fn a_shut_gate_stops(rt: HostRuntime) -> Result<(), Fail> {
    let sink = Digits::new();
    let report = report_of(&rt, CANCELLED, &ShutsAt { call: 2 }, &sink)?;
    expect_ends(&rt, &report, &[End::GaveUp]);
    expect_unfinished(&rt, &report);
    assert_eq!(rt; sink.all(), 0);
    Ok(())
}
