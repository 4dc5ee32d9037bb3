//! What the fields behind the first one of a line say.

ghost use Rattle.std.specs.Prelude.{◌≡◌, ◌*◌, ◌^◌, ◌<◌, IfOk, true};
ghost use Rattle.script_fields.specs.Operands.{Sees, decoded};
ghost use Rattle.history_reader.specs.Fields.{rest_fields};
ghost use Rattle.history_reader.specs.Digits.{is_lower_hex, AreLowerHex, arena_of as shown};
ghost use Rattle.history_reader.specs.Lines.{depth_of, memory_of, arena_of, try_of, outcome_of, head_of, ran_of, undone_of, restart_of, final_of};

use crate::digits::{arena_digits, memory_digits, restart_digits, sized};
use crate::fields::{next_field, no_field, one_field, three_fields};
use crate::keywords::{block_props, kind, outcome};
use crate::numbers::{depth, nth, thread};
use crate::state::Head;
use itm_types::{Action, ActionKind, Depth, Props, Ran};
use script_fields::{FaultKind, both, function, number};
use tx_attempts::Outcome;

/// How many blocks may be open at once.
#[tactic(auto, unfolding(crate::specs::Lines::depth_of))]
pub fn depth_of(rest: Option<&[u8]>) -> Result<Depth, FaultKind>
    ensures { result ≡ depth_of (rest_fields rest.entry) }
{
    depth(one_field(rest)?)
}

/// The digits of the memory before the run.
#[tactic(auto, unfolding(crate::specs::Lines::memory_of))]
pub fn memory_of(limit: usize, rest: Option<&[u8]>) -> Result<&[u8], FaultKind>
    requires { 2 * limit < 2 ^ 64 }
    ensures value { Sees (λ x. decoded x.now) result (memory_of limit (rest_fields rest.entry)) }
    ensures hex { IfOk result (λ x. is_lower_hex x.now ≡ true) }
{
    memory_digits(limit, one_field(rest)?)
}

/// The digits of an attempt's arena.
#[tactic(auto, unfolding(crate::specs::Lines::arena_of))]
pub fn arena_of(rest: Option<&[u8]>) -> Result<Option<&[u8]>, FaultKind>
    ensures value { Sees shown result (arena_of (rest_fields rest.entry)) }
    ensures hex { IfOk result AreLowerHex }
{
    arena_digits(one_field(rest)?)
}

/// A thread, the try of its block, and where it stands.
fn try_of(
    last: u8,
    first: &[u8],
    second: &[u8],
    third: &[u8],
) -> Result<(u8, (u32, u64)), FaultKind>
    ensures { result ≡ try_of last first.now second.now third.now }
{
    both(thread(last, first), both(nth(second), number(third)))
}

/// How a try ended, and the properties of its block.
fn outcome_of(first: &[u8], second: &[u8]) -> Result<(Outcome, Props), FaultKind>
    ensures { result ≡ outcome_of first.now second.now }
{
    both(outcome(first), block_props(second))
}

/// What the first line of an attempt says.
#[tactic(auto, unfolding(crate::specs::Lines::head_of))]
pub fn head_of(limit: u8, rest: Option<&[u8]>) -> Result<Head, FaultKind>
    ensures { result ≡ head_of limit (rest_fields rest.entry) }
{
    let (first, second, third, rest) = three_fields(rest)?;
    let (fourth, rest) = next_field(rest)?;
    let last = one_field(rest)?;
    let tried = try_of(limit, first, second, third);
    let ((thread, (nth, at)), (outcome, props)) = both(tried, outcome_of(fourth, last))?;
    Ok(Head {
        thread,
        nth,
        at,
        outcome,
        props,
    })
}

/// An action that ran.
#[tactic(auto, unfolding(crate::specs::Lines::ran_of))]
pub fn ran_of(rest: Option<&[u8]>) -> Result<Ran, FaultKind>
    ensures { result ≡ ran_of (rest_fields rest.entry) }
{
    let (first, second, third, rest) = three_fields(rest)?;
    no_field(rest)?;
    let (kind, (fun, arg)) = both(kind(first), both(function(second), number(third)))?;
    Ok(Ran {
        kind,
        action: Action { fun, arg },
    })
}

/// An action that had run in a block before it ran again.
#[tactic(auto, unfolding(crate::specs::Lines::undone_of))]
pub fn undone_of(rest: Option<&[u8]>) -> Result<Ran, FaultKind>
    ensures { result ≡ undone_of (rest_fields rest.entry) }
{
    let (first, rest) = next_field(rest)?;
    let last = one_field(rest)?;
    let (fun, arg) = both(function(first), number(last))?;
    Ok(Ran {
        kind: ActionKind::Undo,
        action: Action { fun, arg },
    })
}

/// The digits of the arena from which a block ran again, which has so many bytes.
#[tactic(auto, unfolding(crate::specs::Lines::restart_of))]
pub fn restart_of(size: usize, rest: Option<&[u8]>) -> Result<Option<&[u8]>, FaultKind>
    ensures value { Sees shown result (restart_of size (rest_fields rest.entry)) }
    ensures hex { IfOk result AreLowerHex }
{
    restart_digits(size, one_field(rest)?)
}

/// The clock after the run, and the digits of the memory after it, which has so many bytes.
#[tactic(auto, unfolding(crate::specs::Lines::final_of))]
pub fn final_of(size: usize, rest: Option<&[u8]>) -> Result<(u64, &[u8]), FaultKind>
    ensures value { Sees (λ x. (x.0, decoded x.1.now)) result (final_of size (rest_fields rest.entry)) }
    ensures hex { IfOk result (λ x. is_lower_hex x.1.now ≡ true) }
{
    let (first, rest) = next_field(rest)?;
    let last = one_field(rest)?;
    both(number(first), sized(size, last))
}
