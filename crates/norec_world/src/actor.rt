//! What an actor does at its steps.

ghost use Rattle.norec_core.specs.declared.answer.Next.TheVariants.{Answer as Answers};
ghost use Rattle.norec_engine.specs.NextSteps.{next_in};
ghost use Rattle.tx_attempts.specs.declared.attempt.Attempt.{Attempt};
ghost use Rattle.world_rules.specs.Rows.{rows_in};
ghost use Rattle.std.specs.Prelude.{◌≡◌, ◌≤◌, true, false, Some, None, MatchOption};
ghost use Rattle.world_rules.specs.Stages.{active_of, calls_of, count_of};
ghost use Rattle.world_rules.specs.Status.{ending_of, is_waiting, waiting_step, InProgress};
ghost use Rattle.world_rules.specs.Records.{ReadsAt, told};
ghost use Rattle.event_rules.specs.Moments.{HasStepped};
ghost use Rattle.world_rules.specs.ActionRoom.{MayRun, MayRunOn, IsActing};
ghost use Rattle.world_rules.specs.Sound.{IsSound, MayRecord, WritesDown};
ghost use Rattle.tx_runs.specs.Currents.{Outside};

use crate::memory::Memory;
use crate::work::settle;
use itm_types::Step;
use norec_core::Answer;
use norec_engine::Engine;
use std::alloc::Global;
use std::mem;
use tx_attempts::Attempt;
use tx_player::Player;
use tx_runs::{End, PlayerRun};
use world_rules::Status;

/// A player with its engine.
pub(crate) type Actor<P> = world_rules::Actor<P, Engine>;

/// An actor that has made no call.
pub(crate) fn fresh<P: Player>(
    alloc: Global,
    thread: u8,
    retries: u32,
    player: P,
    engine: Engine,
) -> Actor<P>
    ensures run { result.run ≡ record { thread = thread; retries = retries; player = player; nth = 1; again = false; current = Outside } }
    ensures engine { result.engine ≡ engine }
    ensures status { result.status ≡ Status.Ready }
{
    Actor {
        run: PlayerRun::new(alloc, thread, retries, player),
        engine,
        status: Status::Ready,
    }
}

/// How it ended.
pub(crate) fn ending<P: Player>(actor: &Actor<P>) -> Option<End>
    ensures { result ≡ ending_of actor.now.status }
{
    match actor.status {
        Status::Ended(end) => Some(end),
        _ => None,
    }
}

/// It waits for a step.
pub(crate) fn waits<P: Player>(actor: &Actor<P>) -> bool
    ensures { result ≡ is_waiting actor.now.status }
{
    match actor.status {
        Status::Waits { .. } => true,
        _ => false,
    }
}

/// The operation that it waits for.
pub(crate) fn next_step<P: Player>(actor: &Actor<P>) -> Option<Step>
    ensures { result ≡ waiting_step actor.now.status }
{
    match actor.status {
        Status::Waits { step, .. } => Some(step),
        _ => None,
    }
}

/// Its open attempt.
pub(crate) fn attempt<P: Player>(actor: &Actor<P>) -> Option<&Attempt>
    ensures { MatchOption result (active_of actor.now ≡ None) (λ row. active_of actor.now ≡ Some row.now) }
{
    Some(actor.run.current.within()?.row())
}

/// How many calls of its open attempt have a reply.
pub(crate) fn replies<P: Player>(actor: &Actor<P>) -> usize
    ensures { result ≡ calls_of actor.now }
{
    match attempt(actor) {
        Some(row) => row.calls.as_slice().len(),
        None => 0,
    }
}

/// The operation that it waits for: the call goes on, or is answered.
#[inline(always)]
pub(crate) fn step<P: Player>(
    actor: &mut Actor<P>,
    memory: &mut Memory,
    ended: &mut Vec<Attempt>,
    answer: &mut Answer,
)
    requires sound { IsSound P.Player memory.old (rows_in ended.old) actor.old }
    requires reads { ReadsAt actor.old }
    requires waits { is_waiting actor.old.status ≡ true }
    ensures { HasStepped P.Player memory.old (rows_in ended.old) actor.old memory.new (rows_in ended.new) actor.new }
{
    let Status::Waits { step, .. } = actor.status else {
        return;
    };
    let from = actor.engine.snapshot();
    let seen = memory.apply(step);
    let next = actor.engine.resume_into(seen, answer);
    proceed(actor, ended, next, answer);
    follow(actor, from);
}

/// The call in progress waits for a step, or what comes of its answer is recorded. The call stays where it is while it
/// waits, and the answer is moved only where there is one.
#[inline(always)]
fn proceed<P: Player>(
    actor: &mut Actor<P>,
    ended: &mut Vec<Attempt>,
    next: Option<Step>,
    answer: &mut Answer,
)
    requires waits { is_waiting actor.old.status ≡ true }
    requires due { InProgress actor.old.status
        (λ call. MayRecord P.Player (record actor.old { status = Status.Ready }) call (next_in next answer.old)) }
    requires acts { InProgress actor.old.status
        (λ call. MayRunOn (record actor.old { status = Status.Ready }) call (next_in next answer.old)) }
    requires place { count_of actor.old ≤ (rows_in ended.old).room }
    ensures acts { IsActing actor.new }
    ensures recorded { InProgress actor.old.status
        (λ call. WritesDown P.Player (rows_in ended.old) (record actor.old { status = Status.Ready }) call (next_in next answer.old) (rows_in ended.new) actor.new) }
{
    match next {
        Some(next) => wait(actor, next),
        None => end_call(actor, ended, answer),
    }
}

/// The call in progress is answered, and what comes of that is recorded. Its code stands apart, so that of the events that
/// end no call stays small.
#[inline(never)]
fn end_call<P: Player>(actor: &mut Actor<P>, ended: &mut Vec<Attempt>, answer: &mut Answer)
    requires waits { is_waiting actor.old.status ≡ true }
    requires answered { InProgress actor.old.status
        (λ call. MayRecord P.Player (record actor.old { status = Status.Ready }) call (Answers answer.old)) }
    requires acts { InProgress actor.old.status (λ call. MayRun (record actor.old { status = Status.Ready }) call answer.old) }
    requires place { count_of actor.old ≤ (rows_in ended.old).room }
    ensures acts { IsActing actor.new }
    ensures recorded { InProgress actor.old.status
        (λ call. WritesDown P.Player (rows_in ended.old) (record actor.old { status = Status.Ready }) call (Answers answer.old) (rows_in ended.new) actor.new) }
{
    if let Status::Waits { mut call, .. } = mem::replace(&mut actor.status, Status::Ready) {
        settle(actor, ended, &mut call, answer);
    }
}

/// The call in progress waits for this step.
fn wait<P: Player>(actor: &mut Actor<P>, next: Step)
    ensures { InProgress actor.old.status (λ call. actor.new ≡ record actor.old { status = Status.Waits call next }) }
{
    if let Status::Waits { step, .. } = &mut actor.status {
        *step = next;
    }
}

/// The open attempt is told where the engine reads, where that is not where it has read.
fn follow<P: Player>(actor: &mut Actor<P>, from: u64)
    requires { from ≡ actor.old.engine.snapshot → ReadsAt actor.old }
    ensures { actor.new ≡ told actor.old }
{
    let now = actor.engine.snapshot();
    if now == from {
        return;
    }
    if let Some(open) = actor.run.current.within_mut() {
        open.move_to(now / 2);
    }
}
