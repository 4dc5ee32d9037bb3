//! Attempts, replayed alone on the memory that is there.

ghost use Rattle.std.specs.Prelude.{◌≡◌, ◌≤◌, ◌-◌, ◌||◌, ◌&&◌, nat_le, is_some, slice_get, IfOk, OnOk, None, Some, true, length, map, take};
ghost use Rattle.itm_model.specs.Machine.{undone};
ghost use Rattle.itm_model.specs.Runs.{state_through};
ghost use Rattle.tx_attempts.specs.Attempts.{alone, is_committed};
ghost use Rattle.tx_attempts.specs.Restarts.{again_at, breaks_of};
ghost use Rattle.tx_history.specs.Legal.{is_unfinished};
ghost use Rattle.history_checker.specs.Replays.{are_again, calls_fault, came_irrevocable, end_fault, ends_by_abort, ends_by_commit, fault_in, fits, is_abort_done, is_cancelled, is_commit_done, may_stand};
ghost use Rattle.history_checker.specs.Answers.{answer_at, answer_on};
ghost use Rattle.history_checker.specs.Tables.{ended, told_on, unless_fault};

use crate::matches::{same_ran, same_reply};
use crate::restarts::{are_again, is_due};
use crate::verdict::{BadKind, Fault};
use itm_model::Plain;
use itm_types::{CANCELLED, Call, MAX_ARENA, Props, Ran, Reply};
use std::alloc::{AllocError, Global};
use tx_attempts::{Again, Attempt, CallRecord, Outcome};

/// What a replay tells of an attempt that is not committed.
#[derive(Clone, Copy, Debug)]
pub(crate) struct Told {
    pub(crate) fault: Option<Fault>,
    /// It has not ended, and is irrevocable.
    pub(crate) holds: bool,
}

/// What the calls of an attempt came to.
#[derive(Debug, Drop)]
struct Called {
    fault: Option<Fault>,
    /// Whether the transaction was irrevocable as the last one came.
    late: bool,
    /// What the machine answers to the call at which the fault is.
    answer: Option<Reply>,
}

/// Makes the calls, up to the first one that is wrong, and sets the arena where a block ran again.
fn replay_calls(
    plain: &mut Plain,
    calls: &[CallRecord],
    restarts: &[Again],
) -> Result<Called, AllocError>
    requires { are_again (length plain.old.state.arena) 0 calls.now restarts.now ≡ true }
    ensures fault { IfOk result (λ r. r.fault ≡ calls_fault plain.old.deepest (again_at restarts.now) plain.old.state 0 calls.now) }
    ensures state { IfOk result (λ r. r.fault ≡ None
        → plain.new.state ≡ state_through plain.old.deepest (breaks_of restarts.now) plain.old.state (map (λ e. e.call) calls.now)) }
    ensures late { IfOk result (λ r. r.fault ≡ None
        → r.late ≡ (state_through plain.old.deepest (breaks_of restarts.now) plain.old.state (map (λ e. e.call) (take (length calls.now - 1) calls.now))).irrevocable) }
    ensures answer { IfOk result (λ r. r.answer ≡ answer_at plain.old.deepest restarts.now plain.old.state calls.now r.fault) }
    ensures before { OnOk result (plain.new.before ≡ plain.old.before) }
    ensures deepest { plain.new.deepest ≡ plain.old.deepest }
{
    let mut late = plain.is_irrevocable();
    let mut next = 0;
    for (place, entry) in calls.iter().enumerate() {
        if plain.depth() == 0 {
            return Ok(told_head(BadKind::Shape, late));
        }
        late = plain.is_irrevocable();
        let reply = plain.one(&entry.call)?;
        if !same_reply(&entry.reply, &reply) {
            return Ok(Called {
                fault: Some(Fault {
                    call: Some(place),
                    kind: BadKind::Reply,
                }),
                late,
                answer: Some(reply),
            });
        }
        if is_due(restarts, next, place + 1) {
            if plain.is_irrevocable() {
                return Ok(told_head(BadKind::Shape, late));
            }
            plain.set_arena(restarts[next].arena.as_slice());
            next += 1;
        }
    }
    Ok(Called {
        fault: None,
        late,
        answer: None,
    })
}

/// The calls came to a fault that is told at the head.
fn told_head(kind: BadKind, late: bool) -> Called
    ensures fault { result.fault ≡ Some (record { call = None; kind = kind }) }
    ensures late { result.late ≡ late }
    ensures answer { result.answer ≡ None }
{
    Called {
        fault: Some(head(kind)),
        late,
        answer: None,
    }
}

/// At the head of an attempt.
pub(crate) fn head(kind: BadKind) -> Fault
    ensures { result ≡ record { call = None; kind = kind } }
{
    Fault { call: None, kind }
}

/// Whether the last call is a commit that was accepted.
fn ends_by_commit(calls: &[CallRecord]) -> bool
    ensures { result ≡ ends_by_commit calls.now }
{
    match calls {
        [] => false,
        [.., last] => is_commit_done(&last.call, &last.reply),
    }
}

/// Whether the last call is an abort that was accepted.
fn ends_by_abort(calls: &[CallRecord]) -> bool
    ensures { result ≡ ends_by_abort calls.now }
{
    match calls {
        [] => false,
        [.., last] => is_abort_done(&last.call, &last.reply),
    }
}

/// Whether the call is a commit that was accepted.
fn is_commit_done(call: &Call, reply: &Reply) -> bool
    ensures { result ≡ is_commit_done call.now reply.now }
{
    match call {
        Call::Commit => matches!(reply, Reply::Done),
        _ => false,
    }
}

/// Whether the call is an abort that was accepted.
fn is_abort_done(call: &Call, reply: &Reply) -> bool
    ensures { result ≡ is_abort_done call.now reply.now }
{
    match call {
        Call::Abort { .. } => is_cancelled(reply),
        _ => false,
    }
}

fn is_cancelled(reply: &Reply) -> bool
    ensures { result ≡ is_cancelled reply.now }
{
    match reply {
        Reply::Code(code) => *code == CANCELLED,
        _ => false,
    }
}

/// Whether the machine's state after the calls fits the outcome. `late` tells whether the transaction was irrevocable
/// as the last one came.
fn fits(plain: &Plain, base: &[u8], attempt: &Attempt, late: bool) -> bool
    requires base { base.now ≡ plain.now.before }
    requires late { late ≡ came_irrevocable plain.now.deepest plain.now.before attempt.now }
    ensures { result ≡ fits plain.now.deepest attempt.now.outcome plain.now.before attempt.now plain.now.state }
{
    let calls = attempt.calls.as_slice();
    let is_open = plain.depth() > 0;
    match attempt.outcome {
        Outcome::Committed => !is_open && ends_by_commit(calls),
        Outcome::ReadOnly => {
            !is_open && ends_by_commit(calls) && plain.is_as_before(base) && !late
        }
        Outcome::Cancelled => !is_open && ends_by_abort(calls),
        Outcome::Conflict | Outcome::Full | Outcome::NoMemory => {
            is_open && !plain.is_irrevocable()
        }
        Outcome::Unfinished => is_open,
    }
}

/// What is wrong at the end of an attempt. What was given up is rolled back.
fn replay_end(plain: &mut Plain, base: &[u8], attempt: &Attempt, late: bool) -> Option<Fault>
    requires base { base.now ≡ plain.old.before }
    requires late { late ≡ came_irrevocable plain.old.deepest plain.old.before attempt.now }
    ensures fault { result ≡ end_fault plain.old.deepest plain.old.before attempt.now plain.old.state }
    ensures state { result ≡ None → plain.new.state ≡ ended attempt.now.outcome plain.old.state }
    ensures before { plain.new.before ≡ plain.old.before }
    ensures deepest { plain.new.deepest ≡ plain.old.deepest }
{
    if !fits(plain, base, attempt, late) {
        return Some(head(BadKind::Shape));
    }
    give_up(plain, attempt.outcome);
    if same_ran(attempt.ran.as_slice(), plain.ran()) {
        None
    } else {
        Some(head(BadKind::Ran))
    }
}

/// What an attempt of this outcome gives up is rolled back.
fn give_up(plain: &mut Plain, outcome: Outcome)
    ensures state { plain.new.state ≡ ended outcome plain.old.state }
    ensures before { plain.new.before ≡ plain.old.before }
    ensures deepest { plain.new.deepest ≡ plain.old.deepest }
{
    match outcome {
        Outcome::Conflict | Outcome::Full | Outcome::NoMemory => plain.back_all(),
        Outcome::Committed | Outcome::ReadOnly | Outcome::Cancelled | Outcome::Unfinished => {}
    }
}

/// An outermost block does not begin with these properties.
fn is_refused(props: Props) -> bool
    ensures { result ≡ (props.goes_irrevocable && props.no_irrevocable) }
{
    props.goes_irrevocable && props.no_irrevocable
}

/// An attempt with no fault has not ended, and is irrevocable.
fn is_holding(plain: &Plain, fault: Option<Fault>, outcome: Outcome) -> bool
    ensures { result ≡ unless_fault fault (is_unfinished outcome && plain.now.state.irrevocable) }
{
    match (fault, outcome) {
        (None, Outcome::Unfinished) => plain.is_irrevocable(),
        _ => false,
    }
}

/// The attempt may begin, and its blocks that ran again are such blocks.
fn may_stand(attempt: &Attempt) -> bool
    ensures { result ≡ may_stand attempt.now }
{
    let size = attempt.arena.as_slice().len();
    let calls = attempt.calls.as_slice();
    !is_refused(attempt.props) && are_again(size, calls, attempt.restarts.as_slice())
}

/// What is wrong with an attempt on the memory that is there, of which `base` is a copy.
fn replay(
    alloc: Global,
    plain: &mut Plain,
    base: &[u8],
    attempt: &Attempt,
) -> Result<Option<Fault>, AllocError>
    requires arena { length attempt.now.arena ≤ MAX_ARENA }
    requires base { base.now ≡ plain.old.state.memory }
    ensures fault { IfOk result (λ fault. fault ≡ fault_in plain.old.deepest plain.old.state.memory attempt.now) }
    ensures state { IfOk result (λ fault. fault ≡ None
        → plain.new.state ≡ ended attempt.now.outcome (alone plain.old.deepest plain.old.state.memory attempt.now)) }
    ensures before { OnOk result (plain.new.before ≡ plain.old.state.memory) }
    ensures deepest { plain.new.deepest ≡ plain.old.deepest }
{
    if !may_stand(attempt) {
        plain.again_with(alloc, &[], Props::default())?;
        return Ok(Some(head(BadKind::Shape)));
    }
    plain.again_with(alloc, attempt.arena.as_slice(), attempt.props)?;
    let restarts = attempt.restarts.as_slice();
    let called = replay_calls(plain, attempt.calls.as_slice(), restarts)?;
    if called.fault.is_some() {
        return Ok(called.fault);
    }
    Ok(replay_end(plain, base, attempt, called.late))
}

/// What the machine answers to the first call of an attempt that has another reply, on the memory that is there.
pub(crate) fn replay_answer(
    alloc: Global,
    plain: &mut Plain,
    attempt: &Attempt,
) -> Result<Option<Reply>, AllocError>
    requires { length attempt.now.arena ≤ MAX_ARENA }
    ensures { IfOk result (λ answer. answer ≡ answer_on plain.old.deepest plain.old.state.memory attempt.now) }
{
    if !may_stand(attempt) {
        return Ok(None);
    }
    plain.again_with(alloc, attempt.arena.as_slice(), attempt.props)?;
    let restarts = attempt.restarts.as_slice();
    let called = replay_calls(plain, attempt.calls.as_slice(), restarts)?;
    Ok(called.answer)
}

/// Replays an attempt, and takes back what it did.
pub(crate) fn replay_other(
    alloc: Global,
    plain: &mut Plain,
    base: &[u8],
    attempt: &Attempt,
) -> Result<Told, AllocError>
    requires arena { length attempt.now.arena ≤ MAX_ARENA }
    requires base { base.now ≡ plain.old.state.memory }
    ensures told { IfOk result (λ told. told ≡ told_on plain.old.deepest plain.old.state.memory attempt.now) }
    ensures memory { OnOk result (plain.new.state.memory ≡ plain.old.state.memory) }
    ensures deepest { plain.new.deepest ≡ plain.old.deepest }
{
    let fault = replay(alloc, plain, base, attempt)?;
    let holds = is_holding(plain, fault, attempt.outcome);
    plain.take_back();
    Ok(Told { fault, holds })
}

/// Replays an attempt, and keeps what it wrote in both copies of the memory, unless it is wrong.
pub(crate) fn replay_committed(
    alloc: Global,
    plain: &mut Plain,
    base: &mut Vec<u8>,
    attempt: &Attempt,
) -> Result<Option<Fault>, AllocError>
    requires arena { length attempt.now.arena ≤ MAX_ARENA }
    requires base { base.old.items ≡ plain.old.state.memory }
    requires committed { is_committed attempt.now.outcome ≡ true }
    ensures fault { IfOk result (λ fault. fault ≡ fault_in plain.old.deepest plain.old.state.memory attempt.now) }
    ensures memory { IfOk result (λ fault. fault ≡ None
        → plain.new.state.memory ≡ (alone plain.old.deepest plain.old.state.memory attempt.now).memory) }
    ensures base { IfOk result (λ fault. fault ≡ None → base.new.items ≡ plain.new.state.memory) }
    ensures deepest { plain.new.deepest ≡ plain.old.deepest }
{
    let fault = replay(alloc, plain, base, attempt)?;
    if fault.is_none() {
        plain.lay_into(base);
    }
    Ok(fault)
}
