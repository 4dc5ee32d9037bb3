//! Fields as numbers with limits.

ghost use Rattle.std.specs.Prelude.{◌≡◌, ◌≤◌, IfOk};
ghost use Rattle.history_reader.specs.Numbers.{ranged, thread, nth, byte, depth};

use itm_types::{Depth, MAX_DEPTH, MAX_RETRIES};
use script_fields::{FaultKind, number, within};

/// One of the numbers between two.
#[tactic(auto, unfolding(crate::specs::Numbers::ranged))]
pub fn ranged(low: u64, high: u64, field: &[u8]) -> Result<u64, FaultKind>
    ensures value { result ≡ ranged low high field.now }
    ensures low { IfOk result (λ n. low ≤ n) }
    ensures high { IfOk result (λ n. n ≤ high) }
{
    within(low, high, number(field)?)
}

/// A thread: none behind the last one.
pub fn thread(last: u8, field: &[u8]) -> Result<u8, FaultKind>
    ensures { result ≡ thread last field.now }
{
    Ok(ranged(0, u64::from(last), field)? as u8)
}

/// How many blocks may be open at once.
#[tactic(auto, unfolding(crate::specs::Numbers::depth))]
pub fn depth(field: &[u8]) -> Result<Depth, FaultKind>
    ensures { result ≡ depth field.now }
{
    let blocks = ranged(1, u64::from(MAX_DEPTH), field)? as u8;
    match Depth::new(blocks) {
        Some(depth) => Ok(depth),
        None => unreachable!(),
    }
}

/// Which try of its block.
pub fn nth(field: &[u8]) -> Result<u32, FaultKind>
    ensures { result ≡ nth field.now }
{
    Ok(ranged(1, u64::from(MAX_RETRIES) + 1, field)? as u32)
}

/// A byte.
pub fn byte(field: &[u8]) -> Result<u64, FaultKind>
    ensures value { result ≡ byte field.now }
    ensures high { IfOk result (λ n. n ≤ 255) }
{
    ranged(0, 255, field)
}
