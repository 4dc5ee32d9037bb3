//! The local work of an actor: what it does between two operations.

ghost use Rattle.std.specs.Prelude.{◌≡◌, ◌≤◌, false, Some, IfOk, OnErr};
ghost use Rattle.norec_core.specs.Core.{in_transaction};
ghost use Rattle.norec_core.specs.declared.answer.Next.TheVariants.{Answer as Answers};
ghost use Rattle.norec_engine.specs.NextSteps.{next_in};
ghost use Rattle.world_rules.specs.Rows.{rows_in};
ghost use Rattle.world_rules.specs.Status.{is_ready};
ghost use Rattle.world_rules.specs.Stages.{KeepsOthers, count_of};
ghost use Rattle.event_rules.specs.Moments.{HasWorked};
ghost use Rattle.world_rules.specs.ActionRoom.{IsActing, IsRefused, MayRun};
ghost use Rattle.world_rules.specs.Sound.{IsKept, IsSound, MayRecord, WritesDown, Falls};
ghost use Rattle.norec_world.specs.Calls.{HasAsked, HasEnded, WasRefused};
ghost use Rattle.tx_runs.specs.Ranks.{restarts_left};

use crate::actor::Actor;
use crate::memory::Memory;
use crate::places::prepare;
use itm_types::{Call, MAX_ACTORS, Reply, Step};
use norec_core::{Answer, Undone};
use std::alloc::{AllocError, Global};
use tx_attempts::{Attempt, Outcome};
use tx_player::Player;
use tx_runs::{End, ahead_of};
use world_rules::Status;

/// Calls are made until one waits for a step or the actor has ended.
#[inline(always)]
pub(crate) fn work<P: Player>(
    actor: &mut Actor<P>,
    alloc: Global,
    memory: &Memory,
    ended: &mut Vec<Attempt>,
)
    requires { IsSound P.Player memory.now (rows_in ended.old) actor.old }
    ensures worked { HasWorked P.Player memory.now (rows_in ended.old) actor.old (rows_in ended.new) actor.new }
    ensures done { is_ready actor.new.status ≡ false }
{
    while let Status::Ready = actor.status {
        call_next(actor, alloc, memory, ended);
    }
}

/// The player's next call.
#[inline(never)]
fn call_next<P: Player>(
    actor: &mut Actor<P>,
    alloc: Global,
    memory: &Memory,
    ended: &mut Vec<Attempt>,
)
    requires sound { IsSound P.Player memory.now (rows_in ended.old) actor.old }
    requires ready { actor.old.status ≡ Status.Ready }
    ensures worked { HasWorked P.Player memory.now (rows_in ended.old) actor.old (rows_in ended.new) actor.new }
    ensures falls { actor.new.status ≡ Status.Ready
        → Falls P.Player (in_transaction actor.old.engine) (in_transaction actor.new.engine) (restarts_left actor.old.engine) (restarts_left actor.new.engine) actor.old actor.new }
{
    let Some(mut call) = actor.run.player.next() else {
        actor.status = Status::Ended(End::Finished);
        return;
    };
    let mut answer = Answer::Reply(Reply::Done);
    match ask(actor, memory, ended, &call, &mut answer) {
        Ok(Some(step)) => actor.status = Status::Waits { call, step },
        Ok(None) => settle(actor, ended, &mut call, &mut answer),
        Err(_) => starve(actor, ended),
    }
}

/// The call goes to the engine, once there is room for what comes of it. The step that it waits for first; where there is
/// none, the call is over, and `answer` tells how.
fn ask<P: Player>(
    actor: &mut Actor<P>,
    memory: &Memory,
    ended: &mut Vec<Attempt>,
    call: &Call,
    answer: &mut Answer,
) -> Result<Option<Step>, AllocError>
    requires sound { IsSound P.Player memory.now (rows_in ended.old) actor.old }
    requires ready { actor.old.status ≡ Status.Ready }
    requires asks { P.next_call actor.old.run.player ≡ Some call.now }
    ensures asked { IfOk result
        (λ step. HasAsked P.Player memory.now.clock (rows_in ended.old) (rows_in ended.new) actor.old actor.new call.now (next_in step answer.new)) }
    ensures refused { OnErr result (WasRefused P.Player actor.old actor.new call.now) }
    ensures ended { ended.new.items ≡ ended.old.items }
    ensures place { count_of actor.new ≤ (rows_in ended.new).room }
    ensures others { KeepsOthers actor.old (rows_in ended.old) actor.new (rows_in ended.new) }
{
    if let Some(open) = actor.run.current.within_mut() {
        prepare(open, &actor.engine, call)?;
        return actor.engine.call_into(call, answer);
    }
    match call {
        Call::Begin { props, room } => {
            ended.reserve(MAX_ACTORS)?;
            let ahead = ahead_of(actor.engine.irrevocable_room(call));
            let arena = actor.engine.arena().bytes();
            let began = memory.clock() / 2;
            actor.run.begin(began, *props, arena, ahead)?;
            let next = actor
                .engine
                .begin_into(*props, *room, actor.run.again, answer);
            if next.is_err() {
                actor.run.current.leave();
            }
            next
        }
        _ => actor.engine.call_into(call, answer),
    }
}

/// What comes of the call's answer. A call and its reply are large, so they are moved once, from where they stand, and what is
/// left there means nothing. Its code stands where it is called.
#[inline(always)]
pub(crate) fn settle<P: Player>(
    actor: &mut Actor<P>,
    ended: &mut Vec<Attempt>,
    call: &mut Call,
    answer: &mut Answer,
)
    requires answered { MayRecord P.Player actor.old call.old (Answers answer.old) }
    requires acts { MayRun actor.old call.old answer.old }
    requires place { count_of actor.old ≤ (rows_in ended.old).room }
    ensures acts { IsActing actor.new }
    ensures recorded { WritesDown P.Player (rows_in ended.old) actor.old call.old (Answers answer.old) (rows_in ended.new) actor.new }
{
    let is_open = actor.engine.is_open();
    let at = actor.engine.snapshot() / 2;
    let ran = actor.engine.due();
    let arena = actor.engine.arena().bytes();
    let end = actor
        .run
        .take_in(ended, call, answer, is_open, at, ran, arena);
    if let Some(end) = end {
        actor.status = Status::Ended(end);
    }
}

/// Memory was refused before the call came to the engine: the actor ends. An irrevocable attempt stays unfinished, with
/// the clock held.
fn starve<P: Player>(actor: &mut Actor<P>, ended: &mut Vec<Attempt>)
    requires kept { IsKept (in_transaction actor.old.engine) actor.old }
    requires free { actor.old.engine.holds ≡ actor.old.engine.irrevocable }
    requires refused { IsRefused actor.old }
    requires place { count_of actor.old ≤ (rows_in ended.old).room }
    ensures { HasEnded P.Player (rows_in ended.old) (rows_in ended.new) actor.old actor.new }
{
    if let Undone::Done = actor.engine.abort() {
        let at = actor.engine.snapshot() / 2;
        actor
            .run
            .stop(ended, Outcome::NoMemory, at, actor.engine.due());
    }
    actor.status = Status::Ended(End::NoMemory);
}
