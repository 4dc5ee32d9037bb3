//! Sections: their threads and their code.

ghost use Rattle.std.specs.Prelude.{◌≡◌, [], ◌∷◌, ◌++◌, OnOk, map};
ghost use Rattle.script_print.specs.Fields.{lines_text};
ghost use Rattle.script_print.specs.Printing.{instruction_fields, part_lines, thread_fields};

use crate::field::Field;
use crate::instruction::put_instruction;
use crate::line::put_line;
use script_program::Instruction;
use std::alloc::AllocError;

fn put_thread(text: &mut Vec<u8>, count: usize) -> Result<(), AllocError>
    ensures { OnOk result (text.new.items ≡ text.old.items ++ lines_text (thread_fields count ∷ [])) }
{
    if count == 1 {
        put_line(text, ".thread", &[])
    } else {
        put_line(text, ".thread", &[Field::Number(count as u64)])
    }
}

fn put_code(text: &mut Vec<u8>, code: &[Instruction]) -> Result<(), AllocError>
    ensures { OnOk result (text.new.items ≡ text.old.items ++ lines_text (map instruction_fields code.now)) }
{
    for instruction in code {
        put_instruction(text, instruction)?;
    }
    Ok(())
}

/// Puts a section after the text: how many threads it is for, and its code.
pub fn put_section(text: &mut Vec<u8>, count: usize, code: &[Instruction]) -> Result<(), AllocError>
    ensures { OnOk result
        (text.new.items ≡ text.old.items ++ lines_text (part_lines (record { count = count; code = code.now }))) }
{
    put_thread(text, count)?;
    put_code(text, code)
}
