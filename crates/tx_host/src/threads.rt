//! A whole run, from a program to its report.

ghost use Rattle.std.specs.Prelude.{◌≡◌, ◌+◌, ◌*◌, false, IfErr, IfOk, length};
ghost use Rattle.script_program.specs.Listing.{opening_of};
ghost use Rattle.shared_words.specs.Good.{EndsWith};
ghost use Rattle.shared_words.specs.Passes.{Owns, cells_of, view_of};
ghost use Rattle.tx_history.specs.Bounds.{AreLimited};
ghost use Rattle.report_rules.specs.Limits.{IsLimitedListing};
ghost use Rattle.report_rules.specs.Reports.{Ran, StaysHeld};

use crate::gather::gather_all;
use crate::versions::version_of;
use crate::workers::run_all;
use report_rules::{HostFault, Report};
use script_program::Program;
use shared_words::{Pass, Words};
use std::alloc::{AllocError, Global};
use std::sync::Wait;
use std::thread::Threads;
use tx_attempts::Bytes;
use tx_history::History;
use tx_worker::{ActionSink, Gate};

/// The memory before the run, and as many bytes for the memory after it.
fn memories(alloc: Global, program: &Program) -> Result<(Vec<u8>, Vec<u8>), AllocError>
    ensures before { IfOk result (λ r. r.0.items ≡ opening_of program.now) }
    ensures size { IfOk result (λ r. length r.1.items ≡ length r.0.items) }
    ensures limits { IfOk result (λ r. IsLimitedListing program.now) }
{
    let mut before = vec![in alloc; 0; program.size()]?;
    let after = vec![in alloc; 0; program.size()]?;
    program.opening(&mut before);
    // (their clauses say that the program is within its limits)
    let _limits = (program.arena(), program.limits(), program.threads());
    Ok((before, after))
}

/// Closes the words with the pass that has the whole share: the clock, and the bytes that all commits have left. Takes no
/// memory.
fn closed(words: Words, pass: Pass, room: Vec<u8>) -> (u64, Bytes)
    requires own { Owns words pass }
    requires size { length room.items + 8 ≡ 8 * cells_of words }
    requires whole { (view_of pass).share ≡ 128 }
    requires idle { (view_of pass).holds ≡ false }
    ensures { EndsWith (view_of pass) result.0 result.1 }
{
    let mut bytes = room;
    let closed = words.close(pass, &mut bytes);
    (closed.clock, Bytes::new(bytes))
}

/// Runs the scripts of a program on threads of their own, each up to its end.
///
/// Each thread's transactions are tried again at most as often as the program's limits say, and within one inner blocks go
/// back to their begins alone, at most as often as these say of that. The gate and the sink are called from all threads.
/// Takes memory before the first thread starts, for what its thread does, and for the report.
pub fn run_threads<R: Threads + Wait, G: Gate + Sync, A: ActionSink + Sync>(
    rt: &R,
    alloc: Global,
    program: &Program,
    gate: &G,
    sink: &A,
) -> Result<Report, HostFault>
    ensures ran { IfOk result (λ r. Ran G.answers program.now r) }
    ensures limited { IfOk result (λ r. AreLimited r.history) }
    ensures held { IfErr result (λ fault. fault ≡ HostFault.Held → StaysHeld G.answers program.now) }
{
    let Ok((before, room)) = memories(alloc, program) else {
        return Err(HostFault::NoMemory);
    };
    let Ok((words, pass)) = Words::new(alloc, &before) else {
        return Err(HostFault::NoMemory);
    };
    let (pass, all) = run_all(rt, alloc, &words, pass, program, gate, sink)?;
    let (clock, bytes) = closed(words, pass, room);
    let Ok((attempts, ends)) = gather_all(alloc, all) else {
        return Err(HostFault::NoMemory);
    };
    let history = History {
        version: version_of(program),
        memory: Bytes::new(before),
        attempts,
        clock,
        bytes,
    };
    Ok(Report { history, ends })
}
