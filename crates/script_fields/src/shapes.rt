//! The operands of a line of a thread's code.

ghost use Rattle.std.specs.Prelude.{◌≡◌};
ghost use Rattle.script_fields.specs.Text.{fields};
ghost use Rattle.script_fields.specs.Shapes.{one_register, two_registers, three_registers, register_number, register_literal, register_props, register_place, place_register, one_place, two_places, three_places, abort_scope, only_mode, commit_action, undo_action};

use crate::fault::FaultKind;
use crate::fields::{one_field, three_fields, two_fields};
use crate::hex_digits::literal;
use crate::keywords::{mode, no_transaction, scope};
use crate::literal::Literal;
use crate::numbers::{function, number};
use crate::operands::{both, place, register};
use crate::place::Place;
use crate::property::props;
use crate::register::Register;
use itm_types::Props;

/// A register.
#[tactic(auto, unfolding(crate::specs::Shapes::one_register))]
pub fn one_register(rest: &[u8]) -> Result<Register, FaultKind>
    ensures { result ≡ one_register (fields rest.now) }
{
    register(one_field(rest)?)
}

/// Two registers.
#[tactic(auto, unfolding(crate::specs::Shapes::two_registers))]
pub fn two_registers(rest: &[u8]) -> Result<(Register, Register), FaultKind>
    ensures { result ≡ two_registers (fields rest.now) }
{
    let (first, second) = two_fields(rest)?;
    both(register(first), register(second))
}

/// Three registers.
#[tactic(auto, unfolding(crate::specs::Shapes::three_registers))]
pub fn three_registers(rest: &[u8]) -> Result<(Register, (Register, Register)), FaultKind>
    ensures { result ≡ three_registers (fields rest.now) }
{
    let (first, second, third) = three_fields(rest)?;
    both(register(first), both(register(second), register(third)))
}

/// A register, then a number.
#[tactic(auto, unfolding(crate::specs::Shapes::register_number))]
pub fn register_number(rest: &[u8]) -> Result<(Register, u64), FaultKind>
    ensures { result ≡ register_number (fields rest.now) }
{
    let (first, second) = two_fields(rest)?;
    both(register(first), number(second))
}

/// A register, then bytes for it. Takes no memory.
#[tactic(auto, unfolding(crate::specs::Shapes::register_literal))]
pub fn register_literal(rest: &[u8]) -> Result<(Register, Literal), FaultKind>
    ensures { result ≡ register_literal (fields rest.now) }
{
    let (first, second) = two_fields(rest)?;
    both(register(first), literal(second))
}

/// A register, then the properties of a block.
#[tactic(auto, unfolding(crate::specs::Shapes::register_props))]
pub fn register_props(rest: &[u8]) -> Result<(Register, Props), FaultKind>
    ensures { result ≡ register_props (fields rest.now) }
{
    let (first, second) = two_fields(rest)?;
    both(register(first), props(second))
}

/// A register, then a place.
#[tactic(auto, unfolding(crate::specs::Shapes::register_place))]
pub fn register_place(rest: &[u8]) -> Result<(Register, Place), FaultKind>
    ensures { result ≡ register_place (fields rest.now) }
{
    let (first, second) = two_fields(rest)?;
    both(register(first), place(second))
}

/// A place, then a register.
#[tactic(auto, unfolding(crate::specs::Shapes::place_register))]
pub fn place_register(rest: &[u8]) -> Result<(Place, Register), FaultKind>
    ensures { result ≡ place_register (fields rest.now) }
{
    let (first, second) = two_fields(rest)?;
    both(place(first), register(second))
}

/// A place.
#[tactic(auto, unfolding(crate::specs::Shapes::one_place))]
pub fn one_place(rest: &[u8]) -> Result<Place, FaultKind>
    ensures { result ≡ one_place (fields rest.now) }
{
    place(one_field(rest)?)
}

/// Two places.
#[tactic(auto, unfolding(crate::specs::Shapes::two_places))]
pub fn two_places(rest: &[u8]) -> Result<(Place, Place), FaultKind>
    ensures { result ≡ two_places (fields rest.now) }
{
    let (first, second) = two_fields(rest)?;
    both(place(first), place(second))
}

/// Three places.
#[tactic(auto, unfolding(crate::specs::Shapes::three_places))]
pub fn three_places(rest: &[u8]) -> Result<(Place, (Place, Place)), FaultKind>
    ensures { result ≡ three_places (fields rest.now) }
{
    let (first, second, third) = three_fields(rest)?;
    both(place(first), both(place(second), place(third)))
}

/// The scope of an abort: whether all blocks that are open are cancelled.
#[tactic(auto, unfolding(crate::specs::Shapes::abort_scope))]
pub fn abort_scope(rest: &[u8]) -> Result<bool, FaultKind>
    ensures { result ≡ abort_scope (fields rest.now) }
{
    scope(one_field(rest)?)
}

/// The one mode that a transaction can be changed to.
#[tactic(auto, unfolding(crate::specs::Shapes::only_mode))]
pub fn only_mode(rest: &[u8]) -> Result<(), FaultKind>
    ensures { result ≡ only_mode (fields rest.now) }
{
    mode(one_field(rest)?)
}

/// A function, the word for no transaction, and an argument.
#[tactic(auto, unfolding(crate::specs::Shapes::commit_action))]
pub fn commit_action(rest: &[u8]) -> Result<(u32, Place), FaultKind>
    ensures { result ≡ commit_action (fields rest.now) }
{
    let (first, second, third) = three_fields(rest)?;
    let (fun, (_, arg)) = both(function(first), both(no_transaction(second), place(third)))?;
    Ok((fun, arg))
}

/// A function and an argument.
#[tactic(auto, unfolding(crate::specs::Shapes::undo_action))]
pub fn undo_action(rest: &[u8]) -> Result<(u32, Place), FaultKind>
    ensures { result ≡ undo_action (fields rest.now) }
{
    let (first, second) = two_fields(rest)?;
    both(function(first), place(second))
}
