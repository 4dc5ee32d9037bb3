//! What a thread does between its calls.

ghost use Rattle.std.specs.Prelude.{◌≡◌, ◌+◌, ◌^◌, ◌<◌, ◌≤◌, ℕ, List, ◌∷◌, length, IfNone, IfSome};
ghost use Rattle.script_program.specs.declared.instruction.Instruction.{Instruction};
ghost use Rattle.script_vm.specs.Work.{computed, chosen_by, worked, settled, groups_in};

use crate::registers::Registers;
use crate::stage::Stage;
use script_program::{Instruction, MAX_INSTRUCTIONS, Operation};

/// What is worked out from two numbers.
fn computed(operation: Operation, left: u64, right: u64) -> u64
    ensures { result ≡ computed operation left right }
{
    match operation {
        Operation::Add => left.wrapping_add(right),
        Operation::Sub => left.wrapping_sub(right),
        Operation::And => left & right,
        Operation::LessThan => u64::from(left < right),
    }
}

/// What happens after the begin of a group, by the number that it tests.
fn chosen_by(number: u64) -> Stage
    ensures { result ≡ chosen_by number }
{
    if number == 0 {
        Stage::ToElse(0)
    } else {
        Stage::Runs
    }
}

/// Does an instruction, and tells what happens after it; of a call it does nothing.
fn work(instruction: &Instruction, registers: &mut Registers) -> Option<Stage>
    ensures call { IfNone result ((more : List Instruction) → worked Stage.Runs registers.old (instruction.now ∷ more) ≡ (registers.new, instruction.now ∷ more)) }
    ensures local { IfSome result (λ stage. (more : List Instruction) → worked Stage.Runs registers.old (instruction.now ∷ more) ≡ worked stage registers.new more) }
    ensures groups { IfSome result (λ stage. groups_in stage ≡ 0) }
{
    match *instruction {
        Instruction::Set { to, number } => registers.put_number(to, number),
        Instruction::Bytes { to, literal } => registers.put(to, literal.bytes),
        Instruction::Move { to, from } => registers.copy(to, from),
        Instruction::Compute {
            operation,
            to,
            left,
            right,
        } => {
            let number = computed(operation, registers.number(left), registers.number(right));
            registers.put_number(to, number);
        }
        Instruction::IfNotZero { register } => return Some(chosen_by(registers.number(register))),
        Instruction::Else => return Some(Stage::ToEnd(0)),
        Instruction::EndIf => {}
        _ => return None,
    }
    Some(Stage::Runs)
}

/// Passes over instructions up to the first that is done again, or to the end; answers the code from there on. Few are passed
/// over, so its code stands apart.
#[inline(never)]
fn passed<'p>(stage: Stage, code: &'p [Instruction]) -> &'p [Instruction]
    requires { groups_in stage + length code.now < 2 ^ 64 }
    ensures passed { (registers : List (List ℕ)) → worked Stage.Runs registers result.now ≡ worked stage registers code.now }
    ensures shorter { length result.now ≤ length code.now }
{
    let mut rest = code;
    let mut stage = stage;
    while let Some((first, more)) = rest.split_first() {
        if let Stage::Runs = stage {
            return rest;
        }
        stage = stage.past(first);
        rest = more;
    }
    rest
}

/// Does the work up to the next call, or to the end; answers the code from there on.
pub fn settle<'p>(code: &'p [Instruction], registers: &mut Registers) -> &'p [Instruction]
    requires { length code.now ≤ MAX_INSTRUCTIONS }
    ensures settled { (registers.new, result.now) ≡ settled registers.old code.now }
    ensures shorter { length result.now ≤ length code.now }
{
    let mut rest = code;
    while let Some((first, more)) = rest.split_first() {
        match work(first, registers) {
            None => return rest,
            Some(Stage::Runs) => rest = more,
            Some(stage) => rest = passed(stage, more),
        }
    }
    rest
}
