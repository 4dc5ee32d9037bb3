//! Fields as numbers.

ghost use Rattle.std.specs.Prelude.{◌≡◌, ◌≤◌, ◌<◌, ◌^◌, IfOk};
ghost use Rattle.std.specs.List.{list_all};
ghost use Rattle.script_fields.specs.Operands.{is_digit, is_number, value_of, number, within, function};

use crate::fault::FaultKind;

fn has_digits(field: &[u8]) -> bool
    ensures { result ≡ list_all is_digit field.now }
{
    field.iter().all(|b| b'0' <= *b && *b <= b'9')
}

fn is_number(field: &[u8]) -> bool
    ensures { result ≡ is_number field.now }
{
    !field.is_empty() && !(field[0] == b'0' && 1 < field.len()) && has_digits(field)
}

#[tactic(auto, using(crate::proofs::Digits::too_big, crate::proofs::Digits::all_read))]
fn value_of(field: &[u8]) -> Option<u64>
    ensures { result ≡ value_of field.now }
{
    let mut total = 0u64;
    for b in field {
        let digit = u64::from(b.saturating_sub(b'0'));
        total = total.checked_mul(10)?.checked_add(digit)?;
    }
    Some(total)
}

/// A number of at most 64 bits: digits with no leading zero except `0` itself.
#[tactic(auto, unfolding(crate::specs::Operands::number))]
pub fn number(field: &[u8]) -> Result<u64, FaultKind>
    ensures { result ≡ number field.now }
{
    // most numbers are one digit
    if field.len() == 1 && b'0' <= field[0] && field[0] <= b'9' {
        return Ok(u64::from(field[0] - b'0'));
    }
    if !is_number(field) {
        return Err(FaultKind::Operand);
    }
    match value_of(field) {
        Some(n) => Ok(n),
        None => Err(FaultKind::Range),
    }
}

/// The number, where it is one of those from low to high.
pub fn within(low: u64, high: u64, n: u64) -> Result<u64, FaultKind>
    ensures value { result ≡ within low high n }
    ensures low { IfOk result (λ n. low ≤ n) }
    ensures high { IfOk result (λ n. n ≤ high) }
{
    if low <= n && n <= high {
        Ok(n)
    } else {
        Err(FaultKind::Range)
    }
}

/// The number of a function: at most 32 bits.
#[tactic(auto, unfolding(crate::specs::Operands::function))]
pub fn function(field: &[u8]) -> Result<u32, FaultKind>
    ensures { result ≡ function field.now }
{
    Ok(within(0, u64::from(u32::MAX), number(field)?)? as u32)
}
