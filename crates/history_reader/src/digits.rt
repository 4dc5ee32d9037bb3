//! Fields as bytes: two hexadecimal digits for each, in lower case.

ghost use Rattle.std.specs.Prelude.{◌≡◌, ◌*◌, ◌/◌, ◌^◌, ◌<◌, IfOk, true, length};
ghost use Rattle.std.specs.List.{list_all};
ghost use Rattle.itm_types.specs.Access.{size_of};
ghost use Rattle.script_fields.specs.Operands.{Sees, decoded};
ghost use Rattle.history_reader.specs.Digits.{is_lower_digit, is_lower_hex, bytes_if, sized, memory_bytes, are_words, arena_bytes, arena_of, restart_bytes, AreLowerHex, datum};

use hex::{decode, decode_to_slice};
use itm_types::{Datum, MAX_ARENA, Value, Width};
use script_fields::FaultKind;
use std::alloc::{AllocError, Global};

fn has_lower_digits(field: &[u8]) -> bool
    ensures { result ≡ list_all is_lower_digit field.now }
{
    field.iter().all(|b| (b'0' <= *b && *b <= b'9') || (b'a' <= *b && *b <= b'f'))
}

fn is_lower_hex(field: &[u8]) -> bool
    ensures { result ≡ is_lower_hex field.now }
{
    !field.is_empty() && field.len() % 2 == 0 && has_lower_digits(field)
}

/// The digits, where they have the form and are as many as may be.
fn digits_if(fits: bool, field: &[u8]) -> Result<&[u8], FaultKind>
    ensures value { Sees (λ x. decoded x.now) result (bytes_if fits field.now) }
    ensures same { IfOk result (λ x. x.now ≡ field.now) }
    ensures hex { IfOk result (λ x. is_lower_hex x.now ≡ true) }
    ensures fits { IfOk result (λ x. fits ≡ true) }
{
    if !is_lower_hex(field) {
        return Err(FaultKind::Operand);
    }
    if !fits {
        return Err(FaultKind::Range);
    }
    Ok(field)
}

/// The digits of so many bytes.
#[tactic(auto, unfolding(crate::specs::Digits::sized))]
pub fn sized(size: usize, field: &[u8]) -> Result<&[u8], FaultKind>
    ensures value { Sees (λ x. decoded x.now) result (sized size field.now) }
    ensures hex { IfOk result (λ x. is_lower_hex x.now ≡ true) }
    ensures count { IfOk result (λ x. length x.now / 2 ≡ size) }
{
    digits_if(field.len() / 2 == size, field)
}

/// The digits of a memory: of 8 bytes or more, no more than the limit, and in whole words.
#[tactic(auto, unfolding(crate::specs::Digits::memory_bytes))]
pub fn memory_digits(limit: usize, field: &[u8]) -> Result<&[u8], FaultKind>
    requires { 2 * limit < 2 ^ 64 }
    ensures value { Sees (λ x. decoded x.now) result (memory_bytes limit field.now) }
    ensures hex { IfOk result (λ x. is_lower_hex x.now ≡ true) }
{
    let count = field.len();
    digits_if(16 <= count && count <= 2 * limit && count % 16 == 0, field)
}

/// The digits of an arena, where it has bytes.
#[tactic(auto, unfolding(crate::specs::Digits::arena_bytes))]
pub fn arena_digits(field: &[u8]) -> Result<Option<&[u8]>, FaultKind>
    ensures value { Sees arena_of result (arena_bytes field.now) }
    ensures hex { IfOk result AreLowerHex }
{
    if field == b"-".as_slice() {
        return Ok(None);
    }
    Ok(Some(digits_if(field.len() <= 2 * MAX_ARENA, field)?))
}

/// The digits of the arena from which a block runs again, which has so many bytes, where it has any.
#[tactic(auto, unfolding(crate::specs::Digits::restart_bytes))]
pub fn restart_digits(size: usize, field: &[u8]) -> Result<Option<&[u8]>, FaultKind>
    ensures value { Sees arena_of result (restart_bytes size field.now) }
    ensures hex { IfOk result AreLowerHex }
{
    if field != b"-".as_slice() {
        return Ok(Some(sized(size, field)?));
    }
    if size == 0 {
        Ok(None)
    } else {
        Err(FaultKind::Range)
    }
}

/// The bytes that digits say.
pub fn bytes_of(alloc: Global, digits: &[u8]) -> Result<Vec<u8>, AllocError>
    requires { is_lower_hex digits.now ≡ true }
    ensures { IfOk result (λ bytes. bytes.items ≡ decoded digits.now) }
{
    decode(alloc, digits).map_err(|_| AllocError)
}

/// The bytes of a value of a type.
pub fn value(width: Width, field: &[u8]) -> Result<Value, FaultKind>
    ensures value { Sees (λ v. v.items) result (sized (size_of width) field.now) }
    ensures length { IfOk result (λ v. length v.items ≡ size_of width) }
{
    let size = usize::from(width.size());
    let digits = sized(size, field)?;
    let mut bytes = [0u8; 32];
    let (said, _) = bytes.split_at_mut(size);
    let _ = decode_to_slice(digits, said);
    let mut value = Value::new();
    match value.try_extend_from_slice(said) {
        Ok(()) => Ok(value),
        Err(_) => unreachable!(),
    }
}

/// A value of a type.
#[tactic(auto, unfolding(crate::specs::Digits::datum))]
pub fn datum(width: Width, field: &[u8]) -> Result<Datum, FaultKind>
    ensures { result ≡ datum width field.now }
{
    let value = value(width, field)?;
    Ok(Datum::new(width, value.as_slice()))
}
