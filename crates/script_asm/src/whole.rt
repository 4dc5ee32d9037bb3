//! Whole texts.

ghost use Rattle.std.specs.Prelude.{◌≡◌, ◌≤◌, length, IfErr};
ghost use Rattle.std.specs.Str.Lines.{lines};
ghost use Rattle.script_asm.specs.Assembly.{program_of, lines_say, initial};
ghost use Rattle.script_asm.specs.Wants.{Gives, RunsOut, IsAnswer};
ghost use Rattle.script_asm.specs.declared.stop.Stop.TheVariants.{Memory};

use crate::groups::Groups;
use crate::reading::{finish, is_plain, read_line};
use crate::state::State;
use crate::stop::Stop;
use script_fields::{AsmFault, FaultKind, first_line};
use script_program::{MAX_TEXT, Plan, Program, SaidLimits, Threads};
use std::alloc::Global;

/// What the lines say, one after the other; `number` is the line that was read last.
#[tactic(auto, using(crate::proofs::RefusedLines::read_on, crate::proofs::RefusedLines::drop_on, crate::proofs::RefusedLines::runs_out, crate::proofs::PlainLines::each_line, crate::proofs::PlainLines::line_on))]
fn read_lines(alloc: Global, text: &[u8], number: &mut usize) -> Result<State, Stop>
    requires small { length text.now ≤ MAX_TEXT }
    requires first { number.old ≡ 0 }
    ensures read { Gives result (lines_say initial 1 (lines text.now)) }
    ensures refused { IfErr result (λ e. e ≡ Memory → RunsOut text.now number.new) }
{
    let mut state = State {
        memory: None,
        limits: SaidLimits::new(),
        schedule: Plan::new(alloc),
        threads: Threads::new(alloc),
        levels: Groups::new(alloc),
    };
    // a text is looked through once, and not line by line, where it is plain
    let plain = is_plain(text);
    let mut rest = text;
    while let Some((line, after)) = first_line(rest) {
        *number += 1;
        read_line(alloc, &mut state, *number, line, plain)?;
        rest = after;
    }
    Ok(state)
}

#[tactic(auto, unfolding(crate::specs::Assembly::program_of))]
fn read_text(alloc: Global, text: &[u8], number: &mut usize) -> Result<Program, Stop>
    requires { number.old ≡ 0 }
    ensures read { Gives result (program_of text.now) }
    ensures refused { IfErr result (λ e. e ≡ Memory → RunsOut text.now number.new) }
{
    if MAX_TEXT < text.len() {
        return Err(Stop::Fault(AsmFault {
            line: 0,
            kind: FaultKind::TooLong,
        }));
    }
    Ok(finish(read_lines(alloc, text, number)?)?)
}

/// The program that the text says, or its first fault.
///
/// Lines are read in order, and the first that has a fault decides. What is wrong with the whole is told after the
/// last line: a block or a group that is left open, in the line of the innermost beginning; no `.thread`, in line 0;
/// an item of `.schedule` whose thread is not there, in the first such line. A text of more than 16,777,216 bytes is
/// too long in line 0. Where memory is refused, the fault is `FaultKind::Memory` in the line that was read.
pub fn assemble(alloc: Global, text: &[u8]) -> Result<Program, AsmFault>
    ensures { IsAnswer result text.now }
{
    let mut number = 0;
    match read_text(alloc, text, &mut number) {
        Ok(program) => Ok(program),
        Err(Stop::Fault(fault)) => Err(fault),
        Err(Stop::Memory) => Err(AsmFault {
            line: number,
            kind: FaultKind::Memory,
        }),
    }
}
