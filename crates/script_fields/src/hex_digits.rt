//! Fields as bytes.

ghost use Rattle.std.specs.Prelude.{◌≡◌, ◌≤◌, IfOk, true, length};
ghost use Rattle.std.specs.List.{list_all};
ghost use Rattle.hex.specs.Hex.{is_hex_digit};
ghost use Rattle.script_fields.specs.Operands.{Sees, is_hex, decoded, digits_to, digits, literal_of, literal};

use crate::fault::FaultKind;
use crate::literal::Literal;
use hex::decode_to_slice;

/// How many digits the bytes of one line of a script have at most.
pub const MAX_INIT_DIGITS: usize = 131_072;

/// What the limit of digits is, as a number. Does nothing.
pub fn most_digits()
    ensures { MAX_INIT_DIGITS ≡ 131072 }
{}

fn has_hex_digits(field: &[u8]) -> bool
    ensures { result ≡ list_all is_hex_digit field.now }
{
    field.iter().all(|b| b.is_ascii_hexdigit())
}

fn is_hex(field: &[u8]) -> bool
    ensures { result ≡ is_hex field.now }
{
    !field.is_empty() && field.len() % 2 == 0 && has_hex_digits(field)
}

/// Hexadecimal digits, two for each byte, and at most so many.
fn digits_to(most: usize, field: &[u8]) -> Result<&[u8], FaultKind>
    ensures value { Sees (λ x. decoded x.now) result (digits_to most field.now) }
    ensures hex { IfOk result (λ x. is_hex x.now ≡ true) }
    ensures few { IfOk result (λ x. length x.now ≤ most) }
{
    if !is_hex(field) {
        return Err(FaultKind::Operand);
    }
    if most < field.len() {
        return Err(FaultKind::Range);
    }
    Ok(field)
}

/// Hexadecimal digits of bytes for the memory: at most 131,072.
#[tactic(auto, unfolding(crate::specs::Operands::digits))]
pub fn digits(field: &[u8]) -> Result<&[u8], FaultKind>
    ensures value { Sees (λ x. decoded x.now) result (digits field.now) }
    ensures hex { IfOk result (λ x. is_hex x.now ≡ true) }
{
    digits_to(MAX_INIT_DIGITS, field)
}

fn literal_of(digits: &[u8]) -> Literal
    requires hex { is_hex digits.now ≡ true }
    requires few { length digits.now ≤ 64 }
    ensures { result ≡ literal_of (decoded digits.now) }
{
    let count = digits.len() / 2;
    let mut bytes = [0u8; 32];
    let (said, _) = bytes.split_at_mut(count);
    let _ = decode_to_slice(digits, said);
    Literal {
        bytes,
        count: count as u8,
    }
}

/// The bytes that at most 64 digits say. Takes no memory.
#[tactic(auto, unfolding(crate::specs::Operands::literal))]
pub fn literal(field: &[u8]) -> Result<Literal, FaultKind>
    ensures { result ≡ literal field.now }
{
    Ok(literal_of(digits_to(64, field)?))
}
