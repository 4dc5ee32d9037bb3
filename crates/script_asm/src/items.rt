//! The operands of `.schedule`.

ghost use Rattle.std.specs.Prelude.{◌≡◌, ◌≤◌, Ok, Err, IfErr, IfOk, OnOk, length, position, true};
ghost use Rattle.script_fields.specs.Text.{fields};
ghost use Rattle.script_program.specs.Schedules.{planned};
ghost use Rattle.script_asm.specs.Items.{is_times, thread_number, events, item_of, items_in, schedule_of};

use script_fields::{FaultKind, both, first_field, number, within};
use script_program::{Item, MAX_EVENTS, MAX_ITEMS, Plan};

fn times_at(field: &[u8]) -> Option<usize>
    ensures { result ≡ position is_times field.now }
{
    field.iter().position(|b| *b == b'x')
}

fn thread_number(n: u64) -> u8
    ensures { result ≡ thread_number n }
{
    n.min(255) as u8
}

#[tactic(auto, unfolding(crate::specs::Items::events))]
fn events(field: &[u8]) -> Result<u32, FaultKind>
    ensures { result ≡ events field.now }
{
    Ok(within(1, MAX_EVENTS, number(field)?)? as u32)
}

/// An item. Its code stands where it is called, since a line of a long schedule has many.
#[inline(always)]
#[tactic(auto, unfolding(crate::specs::Items::item_of))]
fn item_of(field: &[u8]) -> Result<Item, FaultKind>
    ensures { result ≡ item_of field.now }
{
    if let [front @ .., b'!'] = field {
        return Ok(Item::Out(thread_number(number(front)?)));
    }
    let Some(at) = times_at(field) else {
        return Err(FaultKind::Operand);
    };
    let (thread, _) = field.split_at(at);
    let (_, count) = field.split_at(at + 1);
    let (thread, count) = both(number(thread), events(count))?;
    Ok(Item::Take(thread_number(thread), count))
}

/// How many items there are.
pub fn count_items(rest: &[u8]) -> Result<usize, FaultKind>
    ensures items { OnOk result (schedule_of (fields rest.now) ≡ Ok (items_in (fields rest.now))) }
    ensures count { IfOk result (λ n. n ≡ length (items_in (fields rest.now))) }
    ensures refused { IfErr result (λ k. schedule_of (fields rest.now) ≡ Err k) }
{
    let mut rest = rest;
    let mut count = 0;
    let mut beyond = None;
    while let Some((field, after)) = first_field(rest) {
        match item_of(field) {
            Ok(_) => count += 1,
            Err(FaultKind::Operand) => return Err(FaultKind::Operand),
            Err(kind) => beyond = Some(kind),
        }
        rest = after;
    }
    match beyond {
        Some(kind) => Err(kind),
        None if count == 0 => Err(FaultKind::Operand),
        None => Ok(count),
    }
}

/// Puts the items that stand in the line, and tells whether each field is one, there is one or more, and there is room
/// for them all. Where it is not so, some of them stand there.
pub fn add_items(plan: &mut Plan, line: usize, rest: &[u8]) -> bool
    ensures items { result ≡ true → schedule_of (fields rest.now) ≡ Ok (items_in (fields rest.now)) }
    ensures planned { result ≡ true → plan.new ≡ planned plan.old line (items_in (fields rest.now)) }
    ensures few { result ≡ true → length plan.new.items ≤ MAX_ITEMS }
{
    let mut rest = rest;
    let mut count = 0usize;
    while let Some((field, after)) = first_field(rest) {
        let Ok(item) = item_of(field) else {
            return false;
        };
        if MAX_ITEMS <= plan.len() || plan.push(line, item).is_err() {
            return false;
        }
        count += 1;
        rest = after;
    }
    0 < count
}
