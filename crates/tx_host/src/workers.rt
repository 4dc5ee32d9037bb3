//! All workers of one run, in one scope.

ghost use Rattle.std.specs.Prelude.{◌≡◌, ◌<◌, IfErr, IfOk, length};
ghost use Rattle.itm_types.specs.declared.limits.TheConstants.{MAX_ACTORS};
ghost use Rattle.script_program.specs.Listing.{threads_of};
ghost use Rattle.shared_words.specs.Passes.{Owns, view_of};
ghost use Rattle.report_rules.specs.Joins.{Gathers};
ghost use Rattle.report_rules.specs.Rows.{HeldAmong};
ghost use Rattle.tx_host.specs.Starts.{IsUnused};

use crate::join::{Joined, join_all};
use crate::start::{Started, prepare, start_all};
use report_rules::{Done, HostFault};
use script_program::Program;
use shared_words::{Pass, Words};
use std::alloc::Global;
use std::snapshot::Snapshot;
use std::sync::Wait;
use std::thread;
use std::thread::{Scope, Threads};
use tx_worker::{ActionSink, Gate};

/// Starts all workers, and joins those that started.
fn start_and_join<'s, 'e: 's, R: Threads, G: Gate + Sync, A: ActionSink + Sync>(
    rt: &R,
    scope: &Scope<'s, &'e ()>,
    alloc: Global,
    words: &'e Words,
    pass: Pass,
    program: &'e Program,
    gate: &'e G,
    sink: &'e A,
) -> Result<(Pass, Vec<Done>), HostFault>
    requires own { Owns words.now pass }
    requires unused { IsUnused (view_of pass) }
    requires parts { MAX_ACTORS < (view_of pass).share }
    ensures own { IfOk result (λ r. Owns words.now r.0) }
    ensures gathers { IfOk result (λ r. Gathers words.now (view_of pass) program.now G.answers (view_of r.0) r.1.items) }
    ensures held { IfErr result (λ fault. fault ≡ HostFault.Held → HeldAmong words.now program.now (view_of pass).base G.answers (length (threads_of program.now))) }
{
    let mut pass = pass;
    let count = program.threads();
    let Ok(room) = Vec::with_capacity(alloc, count) else {
        return Err(HostFault::NoMemory);
    };
    let Ok(done) = Vec::with_capacity(alloc, count) else {
        return Err(HostFault::NoMemory);
    };
    let Ok(all) = prepare(alloc, words, &mut pass, program) else {
        return Err(HostFault::NoMemory);
    };
    let base = Snapshot::of(&pass);
    let Started { handles, whole } = start_all(
        scope, alloc, words, base, program, all, gate, sink, room,
    );
    let Joined { pass, all, held } = join_all(rt, words, pass, program, handles, done);
    if !whole {
        return Err(HostFault::NoThread);
    }
    if held {
        return Err(HostFault::Held);
    }
    Ok((pass, all))
}

/// Runs each thread of the program, with a pass of its own. The pass that comes back has all parts again, and knows what
/// all of them know.
pub(crate) fn run_all<R: Threads + Wait, G: Gate + Sync, A: ActionSink + Sync>(
    rt: &R,
    alloc: Global,
    words: &Words,
    pass: Pass,
    program: &Program,
    gate: &G,
    sink: &A,
) -> Result<(Pass, Vec<Done>), HostFault>
    requires own { Owns words.now pass }
    requires unused { IsUnused (view_of pass) }
    requires parts { MAX_ACTORS < (view_of pass).share }
    ensures own { IfOk result (λ r. Owns words.now r.0) }
    ensures gathers { IfOk result (λ r. Gathers words.now (view_of pass) program.now G.answers (view_of r.0) r.1.items) }
    ensures held { IfErr result (λ fault. fault ≡ HostFault.Held → HeldAmong words.now program.now (view_of pass).base G.answers (length (threads_of program.now))) }
{
    thread::scope(
        thread::scope_env(),
        rt,
        move |scope| -> Result<(Pass, Vec<Done>), HostFault>
            requires { Owns words.now pass × IsUnused (view_of pass) × (MAX_ACTORS < (view_of pass).share) }
            ensures { IfOk result (λ r. Owns words.entry.now r.0
                × Gathers words.entry.now (view_of pass) program.entry.now G.answers (view_of r.0) r.1.items)
                × IfErr result (λ fault. fault ≡ HostFault.Held → HeldAmong words.entry.now program.entry.now (view_of pass).base G.answers (length (threads_of program.entry.now))) }
        { start_and_join(rt, scope, alloc, words, pass, program, gate, sink) },
    )
}
