//! Lines by their first field.

ghost use Rattle.std.specs.Prelude.{◌≡◌};
ghost use Rattle.script_fields.specs.Text.{fields};
ghost use Rattle.script_asm.specs.declared.mnemonics.Word.TheVariants as words;
ghost use Rattle.script_asm.specs.Groups.{innermost_line};
ghost use Rattle.script_asm.specs.Directives.{threaded};
ghost use Rattle.script_asm.specs.Assembly.{obeyed};
ghost use Rattle.script_asm.specs.Wants.{Steps};

use crate::blocks::{begin_repeat, end_repeat, run_code};
use crate::code::instruction_into;
use crate::directives::{
    read_arena, read_commits, read_depth, read_init, read_memory, read_patience, read_restarts,
    read_retries, read_schedule,
};
use crate::mnemonics::{Mnemonic, Word};
use crate::state::State;
use crate::stop::{Stop, fault};
use itm_types::MAX_ACTORS;
use script_fields::{FaultKind, count_of, limit_of, no_field};
use script_program::{Instruction, MAX_REPEATS};
use std::alloc::Global;

/// A section begins, where nothing is open.
#[tactic(auto, unfolding(crate::specs::Directives::threaded))]
fn begin_threads(alloc: Global, state: &mut State, line: usize, count: u64) -> Result<(), Stop>
    ensures { Steps result state.old state.new (threaded state.old line count (innermost_line state.old.levels)) }
{
    if let Some(begin) = state.levels.innermost_line() {
        return fault(begin, FaultKind::Unbalanced);
    }
    if ((MAX_ACTORS - state.threads.count()) as u64) < count {
        return fault(line, FaultKind::TooLong);
    }
    match state.threads.begin(alloc, count as usize) {
        Ok(()) => Ok(()),
        Err(_) => Err(Stop::Memory),
    }
}

#[tactic(auto, unfolding(crate::specs::Assembly::obeyed))]
fn read_thread(alloc: Global, state: &mut State, line: usize, rest: &[u8]) -> Result<(), Stop>
    ensures { Steps result state.old state.new (obeyed state.old line words.Thread (fields rest.now)) }
{
    match count_of(rest) {
        Ok(count) => begin_threads(alloc, state, line, count),
        Err(kind) => fault(line, kind),
    }
}

#[tactic(auto, unfolding(crate::specs::Assembly::obeyed))]
fn read_repeat(state: &mut State, line: usize, rest: &[u8]) -> Result<(), Stop>
    ensures { Steps result state.old state.new (obeyed state.old line words.Repeat (fields rest.now)) }
{
    match limit_of(0, MAX_REPEATS, rest) {
        Ok(times) => begin_repeat(state, line, times as usize),
        Err(kind) => fault(line, kind),
    }
}

#[tactic(auto, unfolding(crate::specs::Assembly::obeyed))]
fn read_end_repeat(state: &mut State, line: usize, rest: &[u8]) -> Result<(), Stop>
    ensures { Steps result state.old state.new (obeyed state.old line words.EndRepeat (fields rest.now)) }
{
    match no_field(rest) {
        Ok(()) => end_repeat(state, line),
        Err(kind) => fault(line, kind),
    }
}

#[tactic(auto, unfolding(crate::specs::Assembly::obeyed))]
fn read_code(state: &mut State, line: usize, mnemonic: Mnemonic, rest: &[u8]) -> Result<(), Stop>
    ensures { Steps result state.old state.new (obeyed state.old line (words.Code mnemonic) (fields rest.now)) }
{
    let mut instruction = Instruction::Else;
    match instruction_into(mnemonic, rest, &mut instruction) {
        Ok(()) => run_code(state, line, &instruction),
        Err(kind) => fault(line, kind),
    }
}

/// Does what a line says that begins with the word and may stand here.
pub fn obey(
    alloc: Global,
    state: &mut State,
    line: usize,
    word: Word,
    rest: &[u8],
) -> Result<(), Stop>
    ensures { Steps result state.old state.new (obeyed state.old line word (fields rest.now)) }
{
    match word {
        Word::Memory => read_memory(alloc, state, line, rest),
        Word::Init => read_init(alloc, state, line, rest),
        Word::Arena => read_arena(state, line, rest),
        Word::Patience => read_patience(state, line, rest),
        Word::Retries => read_retries(state, line, rest),
        Word::Commits => read_commits(state, line, rest),
        Word::Restarts => read_restarts(state, line, rest),
        Word::Depth => read_depth(state, line, rest),
        Word::Schedule => read_schedule(state, line, rest),
        Word::Thread => read_thread(alloc, state, line, rest),
        Word::Repeat => read_repeat(state, line, rest),
        Word::EndRepeat => read_end_repeat(state, line, rest),
        Word::Code(mnemonic) => read_code(state, line, mnemonic, rest),
    }
}
