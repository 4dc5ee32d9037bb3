//! Joining workers, and their passes.

ghost use Rattle.std.specs.Prelude.{◌≡◌, ◌≤◌, false, [], IfOk, vec_len, vec_capacity};
ghost use Rattle.shared_words.specs.Passes.{Owns, view_of};
ghost use Rattle.shared_words.specs.Steps.{Joined as JoinedViews};
ghost use Rattle.worker_rules.specs.Works.{IsBack, is_held};
ghost use Rattle.tx_host.specs.Joined.{AreJoined};
ghost use Rattle.tx_host.specs.Starts.{Promised};

use crate::start::WorksOn;
use itm_runtime::Thread;
use report_rules::Done;
use script_program::Program;
use shared_words::{Pass, Words};
use std::thread::{PromisedHandle, Threads};
use tx_worker::{Gate, Worked};

/// What all workers did, and the pass that took in theirs. `held` where a worker did not give its pass back.
#[derive(Drop)]
pub(crate) struct Joined {
    pub(crate) pass: Pass,
    pub(crate) all: Vec<Done>,
    pub(crate) held: bool,
}

/// Takes in a worker's pass, where it came back. Answers whether the worker's thread still holds the clock.
fn take_in(words: &Words, pass: &mut Pass, theirs: Result<Pass, Thread>) -> bool
    requires own { Owns words.now pass.old }
    requires idle { (view_of pass.old).holds ≡ false }
    requires back { IsBack words.now theirs }
    ensures own { Owns words.now pass.new }
    ensures idle { (view_of pass.new).holds ≡ false }
    ensures held { result ≡ is_held theirs }
    ensures joined { IfOk theirs (λ p. JoinedViews (view_of pass.old) (view_of p) (view_of pass.new)) }
{
    match theirs {
        Ok(theirs) => {
            words.join(pass, theirs);
            false
        }
        Err(_) => true,
    }
}

/// Joins each worker in order, and its pass to this one.
pub(crate) fn join_all<'e, R: Threads, G: Gate>(
    rt: &R,
    words: &Words,
    pass: Pass,
    program: &Program,
    handles: Vec<PromisedHandle<Worked, WorksOn<'e, G>>>,
    room: Vec<Done>,
) -> Joined
    requires own { Owns words.now pass }
    requires idle { (view_of pass).holds ≡ false }
    requires promised { Promised words.now (view_of pass).base program.now 0 handles.items }
    requires room { (room.items ≡ []) × (vec_len handles ≤ vec_capacity room) }
    ensures { AreJoined words.now (view_of pass) program.now G.answers (vec_len handles.entry) result }
{
    let mut pass = pass;
    let mut all = room;
    let mut held = false;
    for handle in handles {
        let Worked {
            thread: _,
            attempts,
            end,
            pass: theirs,
        } = handle.join(rt);
        let holds = take_in(words, &mut pass, theirs);
        held = held || holds;
        all.push_reserved(Done { attempts, end });
    }
    Joined { pass, all, held }
}
