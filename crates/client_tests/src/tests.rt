//! Clients of one thread.

ghost use Rattle.std.specs.Prelude.{◌≡◌, false};
ghost use Rattle.shared_words.specs.Passes.{Owns, view_of};

use crate::learning::learn;
use itm_runtime::Thread;
use itm_types::{Action, Limits, MAX_COMMITS, Refusal, USUAL_DEPTH};
use shared_words::{Pass, Words};
use std::alloc::{AllocError, Global};
use std::process::Abort;
use std::sync::Arc;
use transactions::{Client, Done, Failed, Stopped};
use undo_log::Arena;

const LIMITS: Limits = Limits {
    patience: 8,
    retries: 0,
    max_commits: MAX_COMMITS,
    depth: USUAL_DEPTH,
    restarts: 1,
};

/// A client over words, which are shared, with a pass of them.
fn client(alloc: Global, words: Arc<Words>, pass: Pass, tries: u64) -> Result<Client, AllocError>
    requires own { Owns words.value pass }
    requires idle { (view_of pass).holds ≡ false }
{
    let arena = Arena::new(alloc, 0)?;
    let thread = Thread::new(alloc, &*words, pass, arena, LIMITS)?;
    Ok(Client::new(words, thread, tries))
}

/// Adds to the number at a place, and gives what stood there.
fn add(client: &mut Client, at: u64, more: u64) -> Result<Done<u64>, Failed<()>> {
    client.atomically(|tx| -> Result<u64, Stopped<()>> {
        let found = tx.read_u64(at)?;
        tx.write_u64(at, found.wrapping_add(more))?;
        Ok(found)
    })
}

/// Two clients over three words, of which the first one tries so often.
fn two(alloc: Global, tries: u64) -> Result<(Client, Client), AllocError> {
    let Ok((words, pass)) = Words::new(alloc, &[0; 24]) else {
        return Err(AllocError);
    };
    let mut first = pass;
    let second = words.split(&mut first);
    let words = Arc::new(alloc, words)?;
    let other = client(alloc, Arc::try_clone(&words)?, second, 1)?;
    Ok((client(alloc, words, first, tries)?, other))
}

/// What a test tries on two clients. They are lent to it by `on_two`, which owns them for all tests: so these are proved in
/// less time than with clients of their own.
#[derive(Clone, Copy)]
enum Case {
    CommitInTurn,
    TakeBack,
    RunAgain,
    GiveUp,
    RefuseAPlace,
    RegisterAnAction,
    TakeABlockBack,
    RunABlockAgain,
    LearnOfABlock,
}

fn try_case(rt: &impl Abort, case: Case, one: &mut Client, other: &mut Client) {
    match case {
        Case::CommitInTurn => commit_in_turn(rt, one, other),
        Case::TakeBack => take_back(rt, one),
        Case::RunAgain => run_again(rt, one, other),
        Case::GiveUp => give_up(rt, one),
        Case::RefuseAPlace => refuse_a_place(rt, one),
        Case::RegisterAnAction => register_an_action(rt, one),
        Case::TakeABlockBack => take_a_block_back(rt, one),
        Case::RunABlockAgain => run_a_block_again(rt, one, other),
        Case::LearnOfABlock => learn_of_a_block(rt, one),
    }
}

/// Tries the case on two clients, of which the first one tries so often.
fn on_two(rt: &impl Abort, alloc: Global, tries: u64, case: Case) -> Result<(), AllocError> {
    let (mut one, mut other) = two(alloc, tries)?;
    try_case(rt, case, &mut one, &mut other);
    Ok(())
}

fn commit_in_turn(rt: &impl Abort, one: &mut Client, other: &mut Client) {
    let done = |value, at| Ok(Done {
        value,
        at,
        wrote: true,
    });
    assert_eq!(rt; add(one, 8, 3), done(0, 0));
    assert_eq!(rt; add(other, 8, 4), done(3, 1));
    assert_eq!(rt; add(one, 8, 5), done(7, 2));
}

#[test]
fn commits_in_turn(rt: HostRuntime) -> Result<(), AllocError> {
    on_two(&rt, rt.alloc(), 1, Case::CommitInTurn)
}

fn take_back(rt: &impl Abort, one: &mut Client) {
    let why = one.atomically(|tx| -> Result<(), Stopped<u64>> {
        tx.write_u64(0, 7)?;
        let found = tx.read_u64(0)?;
        Err(Stopped::Cancelled(found))
    });
    assert_eq!(rt; why, Err(Failed::Cancelled(7)));
    assert_eq!(rt;
        add(one, 0, 1),
        Ok(Done {
            value: 0,
            at: 0,
            wrote: true
        })
    );
}

#[test]
fn takes_back(rt: HostRuntime) -> Result<(), AllocError> {
    on_two(&rt, rt.alloc(), 1, Case::TakeBack)
}

/// What another thread commits between two reads is met by a conflict, and the body is run again.
fn run_again(rt: &impl Abort, one: &mut Client, other: &mut Client) {
    let mut runs = 0u8;
    let sum = one.atomically(|tx| -> Result<u64, Stopped<()>> {
        let low = tx.read_u64(0)?;
        if runs == 0 {
            runs = 1;
            let _ = add(other, 0, 5);
            let _ = add(other, 8, 6);
        }
        let high = tx.read_u64(8)?;
        tx.write_u64(0, 1)?;
        Ok(low.wrapping_add(high))
    });
    assert_eq!(rt;
        sum,
        Ok(Done {
            value: 11,
            at: 2,
            wrote: true
        })
    );
}

#[test]
fn runs_again(rt: HostRuntime) -> Result<(), AllocError> {
    on_two(&rt, rt.alloc(), 2, Case::RunAgain)
}

fn give_up(rt: &impl Abort, one: &mut Client) {
    assert_eq!(rt; add(one, 0, 1), Err(Failed::Tries));
}

#[test]
fn gives_up(rt: HostRuntime) -> Result<(), AllocError> {
    on_two(&rt, rt.alloc(), 0, Case::GiveUp)
}

fn refuse_a_place(rt: &impl Abort, one: &mut Client) {
    assert_eq!(rt; add(one, 17, 1), Err(Failed::Refused(Refusal::OutOfRange)));
}

#[test]
fn refuses_a_place(rt: HostRuntime) -> Result<(), AllocError> {
    on_two(&rt, rt.alloc(), 1, Case::RefuseAPlace)
}

fn register_an_action(rt: &impl Abort, one: &mut Client) {
    let told = one.atomically(|tx| -> Result<(), Stopped<()>> {
        tx.on_commit(Action { fun: 3, arg: 4 })?;
        Ok(())
    });
    assert_eq!(rt;
        told,
        Ok(Done {
            value: (),
            at: 0,
            wrote: false
        })
    );
    assert!(rt; one.due().len() == 1);
    assert!(rt; one.due()[0].action == Action { fun: 3, arg: 4 });
}

#[test]
fn actions_are_due(rt: HostRuntime) -> Result<(), AllocError> {
    on_two(&rt, rt.alloc(), 1, Case::RegisterAnAction)
}

/// A block that is taken back alone leaves what the transaction wrote before it, and the transaction goes on.
fn take_a_block_back(rt: &impl Abort, one: &mut Client) {
    let told = one.atomically(|tx| -> Result<Result<(), u64>, Stopped<()>> {
        tx.write_u64(0, 7)?;
        let inner = tx.block(|tx| -> Result<(), Stopped<u64>> {
            tx.write_u64(0, 8)?;
            tx.write_u64(8, 9)?;
            let found = tx.read_u64(0)?;
            Err(Stopped::Cancelled(found))
        })?;
        let _ = tx.block(|tx| -> Result<(), Stopped<()>> {
            let found = tx.read_u64(0)?;
            tx.write_u64(8, found)?;
            Ok(())
        })?;
        Ok(inner)
    });
    assert_eq!(rt;
        told,
        Ok(Done {
            value: Err(8),
            at: 0,
            wrote: true
        })
    );
    let done = Ok(Done {
        value: 7,
        at: 1,
        wrote: true,
    });
    assert_eq!(rt; add(one, 8, 1), done);
}

#[test]
fn takes_a_block_back(rt: HostRuntime) -> Result<(), AllocError> {
    on_two(&rt, rt.alloc(), 1, Case::TakeABlockBack)
}

/// What another thread commits of a word that the block alone has read is met by the block alone, and what its first run wrote
/// is gone.
fn run_a_block_again(rt: &impl Abort, one: &mut Client, other: &mut Client) {
    let mut runs = 0u8;
    let sum = one.atomically(|tx| -> Result<u64, Stopped<()>> {
        let first = tx.read_u64(0)?;
        let inner = tx.block(|tx| -> Result<u64, Stopped<()>> {
            let low = tx.read_u64(8)?;
            if runs == 0 {
                runs = 1;
                tx.write_u64(0, 9)?;
                let _ = add(other, 8, 5);
            }
            let high = tx.read_u64(16)?;
            tx.write_u64(16, 1)?;
            Ok(low.wrapping_add(high))
        })?;
        Ok(inner.unwrap_or(0).wrapping_add(first))
    });
    assert_eq!(rt;
        sum,
        Ok(Done {
            value: 5,
            at: 1,
            wrote: true
        })
    );
    let done = Ok(Done {
        value: 0,
        at: 2,
        wrote: true,
    });
    assert_eq!(rt; add(one, 0, 1), done);
}

#[test]
fn runs_a_block_again(rt: HostRuntime) -> Result<(), AllocError> {
    on_two(&rt, rt.alloc(), 1, Case::RunABlockAgain)
}

/// What was read in a block that is taken back is acted on afterwards.
fn learn_of_a_block(rt: &impl Abort, one: &mut Client) {
    let done = |value, at| Ok(Done {
        value,
        at,
        wrote: true,
    });
    assert_eq!(rt; add(one, 8, 7), done(0, 0));
    assert_eq!(rt; learn(one, 8, 16), done(7, 1));
    assert_eq!(rt; add(one, 16, 1), done(7, 2));
}

#[test]
fn learns_of_a_block(rt: HostRuntime) -> Result<(), AllocError> {
    on_two(&rt, rt.alloc(), 1, Case::LearnOfABlock)
}
