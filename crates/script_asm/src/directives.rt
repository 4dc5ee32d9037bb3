//! The lines before the first section.

ghost use Rattle.std.specs.Prelude.{◌≡◌, true};
ghost use Rattle.script_fields.specs.Text.{fields};
ghost use Rattle.script_fields.specs.Operands.{decoded, is_hex};
ghost use Rattle.script_asm.specs.declared.mnemonics.Word.TheVariants as words;
ghost use Rattle.script_asm.specs.Directives.{laid_in};
ghost use Rattle.script_asm.specs.Assembly.{obeyed};
ghost use Rattle.script_asm.specs.Wants.{Steps};

use crate::items::{add_items, count_items};
use crate::state::State;
use crate::stop::{Stop, fault};
use itm_types::{MAX_ARENA, MAX_COMMITS, MAX_DEPTH, MAX_PATIENCE, MAX_RESTARTS, MAX_RETRIES};
use script_fields::{FaultKind, init_of, limit_of, size_of};
use script_program::{MAX_ITEMS, Opening, Size};
use std::alloc::Global;

/// The size of shared memory.
#[tactic(auto, unfolding(crate::specs::Assembly::obeyed))]
pub fn read_memory(alloc: Global, state: &mut State, line: usize, rest: &[u8]) -> Result<(), Stop>
    ensures { Steps result state.old state.new (obeyed state.old line words.Memory (fields rest.now)) }
{
    match size_of(rest) {
        Ok(bytes) => {
            state.memory = Some(Opening::new(alloc, Size::new(bytes)));
            Ok(())
        }
        Err(kind) => fault(line, kind),
    }
}

#[tactic(auto, unfolding(crate::specs::Directives::laid_in))]
fn lay_in(alloc: Global, state: &mut State, line: usize, at: u64, digits: &[u8]) -> Result<(), Stop>
    requires { is_hex digits.now ≡ true }
    ensures { Steps result state.old state.new (laid_in state.old line (at, decoded digits.now) state.old.memory) }
{
    let Some(opening) = &mut state.memory else {
        return fault(line, FaultKind::Misplaced);
    };
    if !opening.fits(at, digits.len() / 2) {
        return fault(line, FaultKind::Range);
    }
    let Ok(bytes) = hex::decode(alloc, digits) else {
        return Err(Stop::Memory);
    };
    match opening.add(at as usize, bytes) {
        Ok(()) => Ok(()),
        Err(_) => Err(Stop::Memory),
    }
}

/// Bytes of shared memory as the threads begin.
#[tactic(auto, unfolding(crate::specs::Assembly::obeyed))]
pub fn read_init(alloc: Global, state: &mut State, line: usize, rest: &[u8]) -> Result<(), Stop>
    ensures { Steps result state.old state.new (obeyed state.old line words.Init (fields rest.now)) }
{
    match init_of(rest) {
        Ok((at, digits)) => lay_in(alloc, state, line, at, digits),
        Err(kind) => fault(line, kind),
    }
}

/// The size of each thread's arena.
#[tactic(auto, unfolding(crate::specs::Assembly::obeyed))]
pub fn read_arena(state: &mut State, line: usize, rest: &[u8]) -> Result<(), Stop>
    ensures { Steps result state.old state.new (obeyed state.old line words.Arena (fields rest.now)) }
{
    match limit_of(0, MAX_ARENA as u64, rest) {
        Ok(arena) => {
            state.limits.set_arena(arena as u32);
            Ok(())
        }
        Err(kind) => fault(line, kind),
    }
}

/// How many rounds of validation a call may start.
#[tactic(auto, unfolding(crate::specs::Assembly::obeyed))]
pub fn read_patience(state: &mut State, line: usize, rest: &[u8]) -> Result<(), Stop>
    ensures { Steps result state.old state.new (obeyed state.old line words.Patience (fields rest.now)) }
{
    match limit_of(1, u64::from(MAX_PATIENCE), rest) {
        Ok(patience) => {
            state.limits.set_patience(patience as u32);
            Ok(())
        }
        Err(kind) => fault(line, kind),
    }
}

/// How often a block is tried again.
#[tactic(auto, unfolding(crate::specs::Assembly::obeyed))]
pub fn read_retries(state: &mut State, line: usize, rest: &[u8]) -> Result<(), Stop>
    ensures { Steps result state.old state.new (obeyed state.old line words.Retries (fields rest.now)) }
{
    match limit_of(0, u64::from(MAX_RETRIES), rest) {
        Ok(retries) => {
            state.limits.set_retries(retries as u32);
            Ok(())
        }
        Err(kind) => fault(line, kind),
    }
}

/// How many commits the memory takes.
#[tactic(auto, unfolding(crate::specs::Assembly::obeyed))]
pub fn read_commits(state: &mut State, line: usize, rest: &[u8]) -> Result<(), Stop>
    ensures { Steps result state.old state.new (obeyed state.old line words.Commits (fields rest.now)) }
{
    match limit_of(1, MAX_COMMITS, rest) {
        Ok(commits) => {
            state.limits.set_commits(commits);
            Ok(())
        }
        Err(kind) => fault(line, kind),
    }
}

/// How often inner blocks may run again in one attempt.
#[tactic(auto, unfolding(crate::specs::Assembly::obeyed))]
pub fn read_restarts(state: &mut State, line: usize, rest: &[u8]) -> Result<(), Stop>
    ensures { Steps result state.old state.new (obeyed state.old line words.Restarts (fields rest.now)) }
{
    match limit_of(0, u64::from(MAX_RESTARTS), rest) {
        Ok(restarts) => {
            state.limits.set_restarts(restarts as u32);
            Ok(())
        }
        Err(kind) => fault(line, kind),
    }
}

/// How many blocks may be open at once.
#[tactic(auto, unfolding(crate::specs::Assembly::obeyed))]
pub fn read_depth(state: &mut State, line: usize, rest: &[u8]) -> Result<(), Stop>
    ensures { Steps result state.old state.new (obeyed state.old line words.Depth (fields rest.now)) }
{
    match limit_of(1, u64::from(MAX_DEPTH), rest) {
        Ok(depth) => {
            state.limits.set_depth(depth as u8);
            Ok(())
        }
        Err(kind) => fault(line, kind),
    }
}

/// Who takes the next events.
#[tactic(auto, unfolding(crate::specs::Assembly::obeyed))]
pub fn read_schedule(state: &mut State, line: usize, rest: &[u8]) -> Result<(), Stop>
    ensures { Steps result state.old state.new (obeyed state.old line words.Schedule (fields rest.now)) }
{
    let before = state.schedule.len();
    if add_items(&mut state.schedule, line, rest) {
        return Ok(());
    }
    match count_items(rest) {
        Ok(count) => {
            let total = before.saturating_add(count);
            if MAX_ITEMS < total {
                return fault(line, FaultKind::TooLong);
            }
            Err(Stop::Memory)
        }
        Err(kind) => fault(line, kind),
    }
}
