//! How many fields a line has.

ghost use Rattle.std.specs.Prelude.{◌≡◌};
ghost use Rattle.script_fields.specs.Text.{fields};
ghost use Rattle.script_fields.specs.Operands.{Sees};
ghost use Rattle.script_fields.specs.Shapes.{none, one, two, three};

use crate::fault::FaultKind;
use crate::text::first_field;

/// No operand.
#[tactic(auto, unfolding(crate::specs::Shapes::none))]
pub fn no_field(rest: &[u8]) -> Result<(), FaultKind>
    ensures { Sees (λ x. x) result (none (fields rest.now)) }
{
    match first_field(rest) {
        None => Ok(()),
        Some(_) => Err(FaultKind::Operand),
    }
}

/// One field.
#[tactic(auto, unfolding(crate::specs::Shapes::one))]
pub fn one_field(rest: &[u8]) -> Result<&[u8], FaultKind>
    ensures { Sees (λ x. x.now) result (one (fields rest.now)) }
{
    let Some((first, rest)) = first_field(rest) else {
        return Err(FaultKind::Operand);
    };
    if first_field(rest).is_some() {
        return Err(FaultKind::Operand);
    }
    Ok(first)
}

/// Two fields.
#[tactic(auto, unfolding(crate::specs::Shapes::two))]
pub fn two_fields(rest: &[u8]) -> Result<(&[u8], &[u8]), FaultKind>
    ensures { Sees (λ x. (x.0.now, x.1.now)) result (two (fields rest.now)) }
{
    let Some((first, rest)) = first_field(rest) else {
        return Err(FaultKind::Operand);
    };
    let Some((second, rest)) = first_field(rest) else {
        return Err(FaultKind::Operand);
    };
    if first_field(rest).is_some() {
        return Err(FaultKind::Operand);
    }
    Ok((first, second))
}

/// Three fields.
#[tactic(auto, unfolding(crate::specs::Shapes::three))]
pub fn three_fields(rest: &[u8]) -> Result<(&[u8], &[u8], &[u8]), FaultKind>
    ensures { Sees (λ x. (x.0.now, x.1.now, x.2.now)) result (three (fields rest.now)) }
{
    let Some((first, rest)) = first_field(rest) else {
        return Err(FaultKind::Operand);
    };
    let Some((second, rest)) = first_field(rest) else {
        return Err(FaultKind::Operand);
    };
    let Some((third, rest)) = first_field(rest) else {
        return Err(FaultKind::Operand);
    };
    if first_field(rest).is_some() {
        return Err(FaultKind::Operand);
    }
    Ok((first, second, third))
}
