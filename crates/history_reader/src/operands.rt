//! The operands of calls, each time with the reply that stands behind them.

ghost use Rattle.std.specs.Prelude.{◌≡◌};
ghost use Rattle.history_reader.specs.Fields.{rest_fields};
ghost use Rattle.script_fields.specs.Operands.{both, number, function, no_transaction};
ghost use Rattle.history_reader.specs.Numbers.{byte};
ghost use Rattle.history_reader.specs.Calls.{no_operand, begin_operand, abort_operand, mode_operand, place_operand, place_size, place_datum, undo_action, commit_action, copy_operands, fill_operands};

use crate::digits::datum;
use crate::fields::{next_field, three_fields};
use crate::keywords::block_props;
use crate::numbers::byte;
use crate::reply::{ReplyKind, with_reply};
use itm_types::{Datum, Props, Reply, Width};
use script_fields::{FaultKind, both, function, mode, no_transaction, number, scope};

/// No operand.
#[tactic(auto, unfolding(crate::specs::Calls::no_operand))]
pub fn no_operand(kind: ReplyKind, rest: Option<&[u8]>) -> Result<((), Reply), FaultKind>
    ensures { result ≡ no_operand kind (rest_fields rest.entry) }
{
    with_reply(Ok(()), kind, rest)
}

/// The properties of a block.
#[tactic(auto, unfolding(crate::specs::Calls::begin_operand))]
pub fn begin_operand(rest: Option<&[u8]>) -> Result<(Props, Reply), FaultKind>
    ensures { result ≡ begin_operand (rest_fields rest.entry) }
{
    let (first, rest) = next_field(rest)?;
    with_reply(block_props(first), ReplyKind::Code, rest)
}

/// The scope of an abort.
#[tactic(auto, unfolding(crate::specs::Calls::abort_operand))]
pub fn abort_operand(rest: Option<&[u8]>) -> Result<(bool, Reply), FaultKind>
    ensures { result ≡ abort_operand (rest_fields rest.entry) }
{
    let (first, rest) = next_field(rest)?;
    with_reply(scope(first), ReplyKind::Code, rest)
}

/// The one mode.
#[tactic(auto, unfolding(crate::specs::Calls::mode_operand))]
pub fn mode_operand(rest: Option<&[u8]>) -> Result<((), Reply), FaultKind>
    ensures { result ≡ mode_operand (rest_fields rest.entry) }
{
    let (first, rest) = next_field(rest)?;
    with_reply(mode(first), ReplyKind::Done, rest)
}

/// A place.
#[tactic(auto, unfolding(crate::specs::Calls::place_operand))]
pub fn place_operand(kind: ReplyKind, rest: Option<&[u8]>) -> Result<(u64, Reply), FaultKind>
    ensures { result ≡ place_operand kind (rest_fields rest.entry) }
{
    let (first, rest) = next_field(rest)?;
    with_reply(number(first), kind, rest)
}

/// A place and a size.
#[tactic(auto, unfolding(crate::specs::Calls::place_size))]
pub fn place_size(rest: Option<&[u8]>) -> Result<((u64, u64), Reply), FaultKind>
    ensures { result ≡ place_size (rest_fields rest.entry) }
{
    let (first, rest) = next_field(rest)?;
    let (second, rest) = next_field(rest)?;
    with_reply(both(number(first), number(second)), ReplyKind::Done, rest)
}

/// A place, and bytes of a type.
#[tactic(auto, unfolding(crate::specs::Calls::place_datum))]
pub fn place_datum(width: Width, rest: Option<&[u8]>) -> Result<((u64, Datum), Reply), FaultKind>
    ensures { result ≡ place_datum width (rest_fields rest.entry) }
{
    let (first, rest) = next_field(rest)?;
    let (second, rest) = next_field(rest)?;
    with_reply(
        both(number(first), datum(width, second)),
        ReplyKind::Done,
        rest,
    )
}

/// A function and an argument.
#[tactic(auto, unfolding(crate::specs::Calls::undo_action))]
pub fn undo_action(rest: Option<&[u8]>) -> Result<((u32, u64), Reply), FaultKind>
    ensures { result ≡ undo_action (rest_fields rest.entry) }
{
    let (first, rest) = next_field(rest)?;
    let (second, rest) = next_field(rest)?;
    with_reply(both(function(first), number(second)), ReplyKind::Done, rest)
}

/// A function, the word for no transaction, and an argument.
#[tactic(auto, unfolding(crate::specs::Calls::commit_action))]
pub fn commit_action(rest: Option<&[u8]>) -> Result<((u32, ((), u64)), Reply), FaultKind>
    ensures { result ≡ commit_action (rest_fields rest.entry) }
{
    let (first, second, third, rest) = three_fields(rest)?;
    with_reply(registered(first, second, third), ReplyKind::Done, rest)
}

/// Where a copy writes, where it reads, and a size.
#[tactic(auto, unfolding(crate::specs::Calls::copy_operands))]
pub fn copy_operands(rest: Option<&[u8]>) -> Result<((u64, (u64, u64)), Reply), FaultKind>
    ensures { result ≡ copy_operands (rest_fields rest.entry) }
{
    let (first, second, third, rest) = three_fields(rest)?;
    with_reply(copied(first, second, third), ReplyKind::Done, rest)
}

/// Where a fill writes, a byte, and a size.
#[tactic(auto, unfolding(crate::specs::Calls::fill_operands))]
pub fn fill_operands(rest: Option<&[u8]>) -> Result<((u64, (u64, u64)), Reply), FaultKind>
    ensures { result ≡ fill_operands (rest_fields rest.entry) }
{
    let (first, second, third, rest) = three_fields(rest)?;
    with_reply(filled(first, second, third), ReplyKind::Done, rest)
}

/// Two places and a size.
fn copied(first: &[u8], second: &[u8], third: &[u8]) -> Result<(u64, (u64, u64)), FaultKind>
    ensures { result ≡ both (number first.now) (both (number second.now) (number third.now)) }
{
    both(number(first), both(number(second), number(third)))
}

/// A place, a byte and a size.
fn filled(first: &[u8], second: &[u8], third: &[u8]) -> Result<(u64, (u64, u64)), FaultKind>
    ensures { result ≡ both (number first.now) (both (byte second.now) (number third.now)) }
{
    both(number(first), both(byte(second), number(third)))
}

/// A function, the word for no transaction, and an argument.
fn registered(first: &[u8], second: &[u8], third: &[u8]) -> Result<(u32, ((), u64)), FaultKind>
    ensures { result ≡ both (function first.now) (both (no_transaction second.now) (number third.now)) }
{
    both(function(first), both(no_transaction(second), number(third)))
}
