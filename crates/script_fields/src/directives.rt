//! The operands of directives.

ghost use Rattle.std.specs.Prelude.{◌≡◌, ◌≤◌, ◌%◌, IfOk, true};
ghost use Rattle.itm_types.specs.declared.limits.TheConstants.{MAX_MEMORY};
ghost use Rattle.script_fields.specs.Text.{fields};
ghost use Rattle.script_fields.specs.Operands.{Sees, is_hex, decoded};
ghost use Rattle.script_fields.specs.Shapes.{memory_size, size_of, limit_of, init_of, not_zero, count_of};

use crate::fault::FaultKind;
use crate::fields::{one_field, two_fields};
use crate::hex_digits::digits;
use crate::numbers::{number, within};
use crate::operands::both;
use crate::text::first_field;
use itm_types::MAX_MEMORY;

fn memory_size(n: u64) -> Result<usize, FaultKind>
    ensures value { result ≡ memory_size n }
    ensures low { IfOk result (λ n. 8 ≤ n) }
    ensures high { IfOk result (λ n. n ≤ MAX_MEMORY) }
    ensures whole { IfOk result (λ n. n % 8 ≡ 0) }
{
    if 8 <= n && n <= MAX_MEMORY as u64 && n % 8 == 0 {
        Ok(n as usize)
    } else {
        Err(FaultKind::Range)
    }
}

/// The size of a memory: whole words, from one to 131,072.
#[tactic(auto, unfolding(crate::specs::Shapes::size_of))]
pub fn size_of(rest: &[u8]) -> Result<usize, FaultKind>
    ensures value { result ≡ size_of (fields rest.now) }
    ensures low { IfOk result (λ n. 8 ≤ n) }
    ensures high { IfOk result (λ n. n ≤ MAX_MEMORY) }
    ensures whole { IfOk result (λ n. n % 8 ≡ 0) }
{
    memory_size(number(one_field(rest)?)?)
}

/// A number from low to high.
#[tactic(auto, unfolding(crate::specs::Shapes::limit_of))]
pub fn limit_of(low: u64, high: u64, rest: &[u8]) -> Result<u64, FaultKind>
    ensures value { result ≡ limit_of low high (fields rest.now) }
    ensures low { IfOk result (λ n. low ≤ n) }
    ensures high { IfOk result (λ n. n ≤ high) }
{
    within(low, high, number(one_field(rest)?)?)
}

/// A place, and the digits of the bytes from there on.
#[tactic(auto, unfolding(crate::specs::Shapes::init_of))]
pub fn init_of(rest: &[u8]) -> Result<(u64, &[u8]), FaultKind>
    ensures value { Sees (λ x. (x.0, decoded x.1.now)) result (init_of (fields rest.now)) }
    ensures hex { IfOk result (λ x. is_hex x.1.now ≡ true) }
{
    let (first, second) = two_fields(rest)?;
    both(number(first), digits(second))
}

fn not_zero(n: u64) -> Result<u64, FaultKind>
    ensures { result ≡ not_zero n }
{
    if n == 0 { Err(FaultKind::Range) } else { Ok(n) }
}

/// How many threads: one, where no number is said.
#[tactic(auto, unfolding(crate::specs::Shapes::count_of))]
pub fn count_of(rest: &[u8]) -> Result<u64, FaultKind>
    ensures { result ≡ count_of (fields rest.now) }
{
    if first_field(rest).is_none() {
        return Ok(1);
    }
    not_zero(number(one_field(rest)?)?)
}
