//! Scripts that are printed, and what they are answered.

ghost use Rattle.std.specs.Prelude.{◌≡◌, ◌+◌, ℕ, List, IfSome, Ok};
ghost use Rattle.script_asm.specs.Assembly.{program_of};
ghost use Rattle.text_commands.specs.Input.{IsFront};
ghost use Rattle.text_commands.specs.Answers.{Answers, Outputs};
ghost use Rattle.text_commands.specs.Commands.{printing};

use crate::failure::Failure;
use crate::output::write_pieces;
use crate::programs::read_program;
use script_asm::AsmFault;
use script_print::print;
use script_program::{MAX_TEXT, Program};
use std::alloc::Global;
use std::io::{Read, Write};
use tx_history::Piece;

/// Writes the text of a program.
fn write_program<W: Write>(
    alloc: Global,
    program: &Program,
    writer: &mut W,
) -> Result<(), Failure<AsmFault>>
    ensures { Outputs printing result (Ok program.now) (W.contents writer.old) (W.contents writer.new) }
{
    let text = print(alloc, program)?;
    write_pieces(writer, &[Piece::Text(&text)])
}

/// Reads a script and writes the text of its program.
fn print_script<R: Read, W: Write>(
    alloc: Global,
    reader: &mut R,
    writer: &mut W,
) -> Result<(), Failure<AsmFault>>
    ensures output { (text : List ℕ) × IfSome (R.remaining reader.old) (λ all. text ≡ all)
        × Outputs printing result (program_of text) (W.contents writer.old) (W.contents writer.new) }
    ensures few { IsFront (R.remaining reader.old) (R.remaining reader.new) (MAX_TEXT + 1) }
{
    let program = read_program(alloc, reader)?;
    write_program(alloc, &program, writer)
}

/// Reads a script, writes the canonical script of its program, and answers the status of the program: 0 where all went
/// well, 2 where the text is no script, 4 where memory was refused, and 5 where reading or writing failed. The errors
/// get a line where the status is not 0.
pub fn asm<R: Read, W: Write, E: Write>(
    alloc: Global,
    reader: &mut R,
    writer: &mut W,
    errors: &mut E,
) -> u8
    ensures answer { (text : List ℕ) × IfSome (R.remaining reader.old) (λ all. text ≡ all)
        × Answers printing result (program_of text) (W.contents writer.old) (W.contents writer.new) (E.contents
        errors.old) (E.contents errors.new) }
    ensures few { IsFront (R.remaining reader.old) (R.remaining reader.new) (MAX_TEXT + 1) }
{
    match print_script(alloc, reader, writer) {
        Ok(()) => 0,
        Err(failure) => failure.tell(errors),
    }
}
