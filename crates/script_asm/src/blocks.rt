//! The lines of a section: instructions, and blocks and groups that begin and end.

ghost use Rattle.std.specs.Prelude.{◌≡◌, true, false};
ghost use Rattle.script_asm.specs.Groups.{innermost};
ghost use Rattle.script_asm.specs.Blocks.{counted, begins, ends, ends_block, turns_group, ends_group, run_code, repeats, again, ends_repeat, repeated};
ghost use Rattle.script_asm.specs.Wants.{Steps};

use crate::groups::Group;
use crate::state::State;
use crate::stop::{Stop, fault};
use script_fields::FaultKind;
use script_program::Instruction;

/// One more instruction. Its code stands where it is called: an answer has room for a fault, which would be cleared and
/// copied for each line.
#[inline(always)]
#[tactic(auto, using(crate::proofs::KeptLines::code_kept))]
fn push_code(state: &mut State, line: usize, instruction: &Instruction) -> Result<(), Stop>
    ensures { Steps result state.old state.new (counted state.old line instruction.now) }
{
    if state.threads.is_full() {
        return fault(line, FaultKind::TooLong);
    }
    if state.levels.within_never() {
        state.threads.leave_out();
        return Ok(());
    }
    match state.threads.push(*instruction) {
        Ok(()) => Ok(()),
        Err(_) => Err(Stop::Memory),
    }
}

/// An instruction that begins a block or a group.
fn begin(
    state: &mut State,
    line: usize,
    instruction: &Instruction,
    group: Group,
) -> Result<(), Stop>
    ensures { Steps result state.old state.new (begins state.old line instruction.now group) }
{
    if state.levels.is_full() {
        return fault(line, FaultKind::TooLong);
    }
    push_code(state, line, instruction)?;
    match state.levels.push(line, group) {
        Ok(()) => Ok(()),
        Err(_) => Err(Stop::Memory),
    }
}

/// An instruction that ends what is innermost.
fn end(state: &mut State, line: usize, instruction: &Instruction) -> Result<(), Stop>
    ensures { Steps result state.old state.new (ends state.old line instruction.now) }
{
    push_code(state, line, instruction)?;
    state.levels.pop();
    Ok(())
}

fn end_block(state: &mut State, line: usize) -> Result<(), Stop>
    ensures { Steps result state.old state.new (ends_block state.old line (innermost state.old.levels)) }
{
    match state.levels.innermost() {
        Some(Group::Block) => end(state, line, &Instruction::Commit),
        _ => fault(line, FaultKind::Unbalanced),
    }
}

fn turn_group(state: &mut State, line: usize) -> Result<(), Stop>
    ensures { Steps result state.old state.new (turns_group state.old line (innermost state.old.levels)) }
{
    match state.levels.innermost() {
        Some(Group::First) => {
            push_code(state, line, &Instruction::Else)?;
            state.levels.turn();
            Ok(())
        }
        _ => fault(line, FaultKind::Unbalanced),
    }
}

fn end_group(state: &mut State, line: usize) -> Result<(), Stop>
    ensures { Steps result state.old state.new (ends_group state.old line (innermost state.old.levels)) }
{
    match state.levels.innermost() {
        Some(Group::First) => end(state, line, &Instruction::EndIf),
        Some(Group::Second) => end(state, line, &Instruction::EndIf),
        _ => fault(line, FaultKind::Unbalanced),
    }
}

/// One more line of a thread's code.
#[tactic(auto, unfolding(crate::specs::Blocks::run_code))]
pub fn run_code(state: &mut State, line: usize, instruction: &Instruction) -> Result<(), Stop>
    ensures { Steps result state.old state.new (run_code state.old line instruction.now) }
{
    match *instruction {
        Instruction::Begin { .. } => begin(state, line, instruction, Group::Block),
        Instruction::IfNotZero { .. } => begin(state, line, instruction, Group::First),
        Instruction::Else => turn_group(state, line),
        Instruction::EndIf => end_group(state, line),
        Instruction::Commit => end_block(state, line),
        _ => push_code(state, line, instruction),
    }
}

/// Lines begin that stand so many times.
pub fn begin_repeat(state: &mut State, line: usize, times: usize) -> Result<(), Stop>
    ensures { Steps result state.old state.new (repeats state.old line times) }
{
    if state.levels.is_full() {
        return fault(line, FaultKind::TooLong);
    }
    let start = if times == 0 || state.levels.within_never() {
        state.threads.left_out()
    } else {
        state.threads.code_len()
    };
    match state.levels.push(line, Group::Repeat { start, times }) {
        Ok(()) => Ok(()),
        Err(_) => Err(Stop::Memory),
    }
}

/// What was left out from a number on counts so many times, and the innermost ends.
fn count_again(state: &mut State, line: usize, start: usize, times: usize) -> Result<(), Stop>
    ensures { Steps result state.old state.new (ends_repeat state.old line (again true state.old.threads start times)) }
{
    if state.threads.exceeds_left_out(start, times) {
        return fault(line, FaultKind::TooLong);
    }
    state.threads.count_again(start, times);
    state.levels.pop();
    Ok(())
}

/// The code from a place on stands so many times, and the innermost ends.
fn stand_again(state: &mut State, line: usize, start: usize, times: usize) -> Result<(), Stop>
    ensures { Steps result state.old state.new (ends_repeat state.old line (again false state.old.threads start times)) }
{
    if state.threads.exceeds(start, times) {
        return fault(line, FaultKind::TooLong);
    }
    match state.threads.repeat(start, times) {
        Ok(()) => {
            state.levels.pop();
            Ok(())
        }
        Err(_) => Err(Stop::Memory),
    }
}

/// Lines end that stand so many times: so often they stand in place of once, or count where they were left out.
#[tactic(auto, unfolding(crate::specs::Blocks::repeated))]
pub fn end_repeat(state: &mut State, line: usize) -> Result<(), Stop>
    ensures { Steps result state.old state.new (repeated state.old line (innermost state.old.levels)) }
{
    match state.levels.innermost() {
        Some(Group::Repeat { start, times }) => {
            if state.levels.within_never() {
                count_again(state, line, start, times)
            } else {
                stand_again(state, line, start, times)
            }
        }
        _ => fault(line, FaultKind::Unbalanced),
    }
}
