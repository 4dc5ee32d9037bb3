//! Scripts that are run, and reports as texts.

use script_asm::assemble;
use script_program::Program;
use std::alloc::Global;
use std::io;
use std::process::Abort;
use std::sync::Wait;
use std::test::*;
use std::thread::Threads;
use tx_history::write_history;
use tx_host::{HostFault, Report, run_threads};
use tx_runs::End;
use tx_worker::{ActionSink, Gate};

/// The program of a script that has no fault.
fn program(alloc: Global, script: &str) -> Result<Program, Fail> {
    match assemble(alloc, script.as_bytes()) {
        Ok(program) => Ok(program),
        Err(_) => Err(Fail::new("no script")),
    }
}

/// What the threads of a program come to.
fn run<R: Threads + Wait, G: Gate + Sync, A: ActionSink + Sync>(
    rt: &R,
    alloc: Global,
    program: &Program,
    gate: &G,
    sink: &A,
) -> Result<Report, HostFault> {
    run_threads(rt, alloc, program, gate, sink)
}

/// The report of a script that has no fault.
pub(super) fn report_of<R: Threads + Wait + AllocGlobal, G: Gate + Sync, A: ActionSink + Sync>(
    rt: &R,
    script: &str,
    gate: &G,
    sink: &A,
) -> Result<Report, Fail> {
    let program = program(rt.alloc(), script)?;
    match run(rt, rt.alloc(), &program, gate, sink) {
        Ok(report) => Ok(report),
        Err(_) => Err(Fail::new("no report")),
    }
}

/// Writes the history of a report.
fn write(text: &mut Vec<u8>, report: &Report) -> io::Result<()> {
    let history = &report.history;
    write_history(
        text,
        history.version,
        history.memory.as_slice(),
        history.attempts.as_slice(),
        history.clock,
        history.bytes.as_slice(),
    )
}

/// The text of a report's history.
fn text_of(alloc: Global, report: &Report) -> Result<Vec<u8>, Fail> {
    let mut text = Vec::new(alloc);
    match write(&mut text, report) {
        Ok(()) => Ok(text),
        Err(_) => Err(Fail::new("no text")),
    }
}

/// This is the text of a report's history.
fn expect_text(rt: &impl Abort, alloc: Global, report: &Report, text: &str) -> Result<(), Fail> {
    let written = text_of(alloc, report)?;
    assert_eq!(rt; written.as_slice(), text.as_bytes());
    Ok(())
}

/// The threads have ended so.
pub(super) fn expect_ends(rt: &impl Abort, report: &Report, ends: &[End]) {
    assert_eq!(rt; report.ends.as_slice(), ends);
}

/// The run of a script has this history, and its threads have ended so.
pub(super) fn expect_run<
    R: Threads + Wait + Abort + AllocGlobal,
    G: Gate + Sync,
    A: ActionSink + Sync,
>(rt: &R, script: &str, gate: &G, sink: &A, text: &str, ends: &[End]) -> Result<(), Fail> {
    let report = report_of(rt, script, gate, sink)?;
    expect_text(rt, rt.alloc(), &report, text)?;
    expect_ends(rt, &report, ends);
    Ok(())
}
