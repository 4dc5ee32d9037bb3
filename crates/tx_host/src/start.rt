//! Starting workers in a scope.

ghost use Rattle.std.specs.Prelude.{◌≡◌, ◌+◌, ◌^◌, ◌<◌, ◌≤◌, false, [], IfSome, IfOk, length, vec_len, vec_capacity};
ghost use Rattle.itm_types.specs.declared.limits.TheConstants.{MAX_RETRIES};
ghost use Rattle.norec_core.specs.Core.{in_transaction};
ghost use Rattle.shared_words.specs.Passes.{Owns, view_of};
ghost use Rattle.script_program.specs.Listing.{threads_of};
ghost use Rattle.script_vm.specs.Threads.{depth_of};
ghost use Rattle.call_rules.specs.Ties.{Stands};
ghost use Rattle.tx_host.specs.Starts.{AllReady, IsUnused, Prepares, Starts};

use itm_runtime::Thread;
use itm_types::MAX_RETRIES;
use script_program::Program;
use script_vm::Script;
use shared_words::{Pass, Words};
use std::alloc::{AllocError, Global};
use std::snapshot::Snapshot;
use std::thread::{Promise, PromisedHandle, Scope};
use tx_worker::{ActionSink, Gate, Worked, work};
use undo_log::Arena;

/// What a started worker's result has to keep: what `work` says of it, for the thread, the player, the number and the gate
/// that it was given.
#[derive(Drop)]
pub(crate) struct WorksOn<'a, G> {
    pub(crate) words: &'a Words,
    pub(crate) start: Snapshot<Thread>,
    pub(crate) player: Snapshot<Script<'a>>,
    pub(crate) number: u8,
    pub(crate) retries: u32,
    pub(crate) gate: &'a G,
}

impl<'a, G: Gate> Promise<Worked> for WorksOn<'a, G> {
    ghost use Rattle.script_vm.specs.Threads.{thread_rules};
    ghost use Rattle.worker_rules.specs.Works.{Works};

    ghost kept_by = { λ p w. Works thread_rules p.words.now p.start.value p.player.value p.number p.retries G.answers w };
}

/// What one worker is to be given: its number, its own thread and its player.
#[derive(Drop)]
pub(crate) struct Ready<'p> {
    pub(crate) number: u8,
    pub(crate) thread: Thread,
    pub(crate) player: Script<'p>,
}

/// Starts a worker, or tells that a thread was refused.
pub(crate) fn start_one<'s, 'e: 's, G: Gate + Sync, A: ActionSink + Sync>(
    scope: &Scope<'s, &'e ()>,
    alloc: Global,
    words: &'e Words,
    ready: Ready<'e>,
    retries: u32,
    gate: &'e G,
    sink: &'e A,
) -> Option<PromisedHandle<Worked, WorksOn<'e, G>>>
    requires own { Owns words.now ready.thread.pass }
    requires stands { Stands (view_of ready.thread.pass) ready.thread.engine }
    requires outside { in_transaction ready.thread.engine ≡ false }
    requires depth { depth_of ready.player ≡ 0 }
    requires limit { ready.thread.engine.restarts < 2 ^ 32 }
    requires few { retries ≤ MAX_RETRIES }
    ensures { IfSome result (λ h. (h.promise.words.now ≡ words.now) × (h.promise.start.value ≡ ready.entry.thread)
        × (h.promise.player.value ≡ ready.entry.player) × (h.promise.number ≡ ready.entry.number) × (h.promise.retries ≡ retries)) }
{
    let Ready {
        number,
        thread,
        player,
    } = ready;
    let promise = WorksOn {
        words,
        start: Snapshot::of(&thread),
        player: Snapshot::of(&player),
        number,
        retries,
        gate,
    };
    match scope.spawn_with(
        promise,
        move || work(alloc, words, thread, player, number, retries, gate, sink),
    ) {
        Ok(handle) => Some(handle),
        Err(_) => None,
    }
}

/// What each thread of the program is given, before any of them starts: a pass of its own, split from this one, an arena,
/// and its code.
pub(crate) fn prepare<'p>(
    alloc: Global,
    words: &Words,
    pass: &mut Pass,
    program: &'p Program,
) -> Result<Vec<Ready<'p>>, AllocError>
    requires own { Owns words.now pass.old }
    requires unused { IsUnused (view_of pass.old) }
    requires parts { length (threads_of program.now) < (view_of pass.old).share }
    ensures own { Owns words.now pass.new }
    ensures ready { IfOk result (λ all. Prepares words.now (view_of pass.old) program.now (view_of pass.new) all) }
{
    let count = program.threads();
    let mut all = Vec::with_capacity(alloc, count)?;
    for number in 0..count {
        let arena = Arena::new(alloc, program.arena())?;
        let player = Script::new(alloc, program, number)?;
        let theirs = words.split(pass);
        let thread = Thread::new(alloc, words, theirs, arena, program.limits())?;
        all.push_reserved(Ready {
            number: number as u8,
            thread,
            player,
        });
    }
    Ok(all)
}

/// The workers that were started, in order. Not whole where a thread was refused.
#[derive(Drop)]
pub(crate) struct Started<'a, G: Gate> {
    pub(crate) handles: Vec<PromisedHandle<Worked, WorksOn<'a, G>>>,
    pub(crate) whole: bool,
}

/// Starts a worker for each of these, in order. Stops at the first thread that is refused.
pub(crate) fn start_all<'s, 'e: 's, G: Gate + Sync, A: ActionSink + Sync>(
    scope: &Scope<'s, &'e ()>,
    alloc: Global,
    words: &'e Words,
    base: Snapshot<Pass>,
    program: &'e Program,
    all: Vec<Ready<'e>>,
    gate: &'e G,
    sink: &'e A,
    room: Vec<PromisedHandle<Worked, WorksOn<'e, G>>>,
) -> Started<'e, G>
    requires ready { AllReady words.now (view_of base.value).base program.now 0 all.items }
    requires room { (room.items ≡ []) × (vec_len all ≤ vec_capacity room) }
    ensures { Starts words.now (view_of base.value).base program.now (vec_len all.entry) result }
{
    let retries = program.limits().retries;
    let mut handles = room;
    let mut whole = true;
    for ready in all {
        let Some(handle) = start_one(scope, alloc, words, ready, retries, gate, sink) else {
            whole = false;
            break;
        };
        handles.push_reserved(handle);
    }
    Started { handles, whole }
}
