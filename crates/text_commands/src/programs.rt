//! Programs that are read from their texts.

ghost use Rattle.std.specs.Prelude.{◌≡◌, ◌+◌, ℕ, List, IfSome};
ghost use Rattle.script_asm.specs.Assembly.{program_of};
ghost use Rattle.text_commands.specs.Input.{IsFront};
ghost use Rattle.text_commands.specs.Answers.{Reads};

use crate::failure::Failure;
use crate::input::read_up_to;
use script_asm::{AsmFault, FaultKind, assemble};
use script_program::{MAX_TEXT, Program};
use std::alloc::Global;
use std::io::Read;

/// The program of a text.
fn program_of(alloc: Global, text: &[u8]) -> Result<Program, Failure<AsmFault>>
    ensures { Reads result (program_of text.now) }
{
    match assemble(alloc, text) {
        Ok(program) => Ok(program),
        Err(fault) => match fault.kind {
            FaultKind::Memory => Err(Failure::NoMemory),
            _ => Err(Failure::Faulty(fault)),
        },
    }
}

/// Reads a script. Of its text no more is read than decides that it is too long.
pub fn read_program<R: Read>(alloc: Global, reader: &mut R) -> Result<Program, Failure<AsmFault>>
    ensures read { (text : List ℕ) × IfSome (R.remaining reader.old) (λ all. text ≡ all) × Reads result (program_of text) }
    ensures few { IsFront (R.remaining reader.old) (R.remaining reader.new) (MAX_TEXT + 1) }
{
    let text = read_up_to(alloc, reader, MAX_TEXT + 1)?;
    program_of(alloc, &text)
}
