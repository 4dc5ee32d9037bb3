//! The lines of a thread's code.

ghost use Rattle.std.specs.Prelude.{◌≡◌, [], ◌∷◌, ◌++◌, OnOk};
ghost use Rattle.script_print.specs.Fields.{lines_text};
ghost use Rattle.script_print.specs.Printing.{instruction_fields, load_name, operation_name, save_name};

use crate::field::Field;
use crate::line::put_line;
use itm_entries::{Control, Entry, name_of};
use script_fields::{props_text, scope_text};
use script_program::{ArenaWidth, Instruction, Operation};
use std::alloc::AllocError;

fn operation_name(operation: Operation) -> &'static str
    ensures { result.now ≡ operation_name operation }
{
    match operation {
        Operation::Add => "add",
        Operation::Sub => "sub",
        Operation::And => "and",
        Operation::LessThan => "ltu",
    }
}

fn load_name(width: ArenaWidth) -> &'static str
    ensures { result.now ≡ load_name width }
{
    match width {
        ArenaWidth::One => "ld1",
        ArenaWidth::Two => "ld2",
        ArenaWidth::Four => "ld4",
        ArenaWidth::Eight => "ld8",
    }
}

fn save_name(width: ArenaWidth) -> &'static str
    ensures { result.now ≡ save_name width }
{
    match width {
        ArenaWidth::One => "st1",
        ArenaWidth::Two => "st2",
        ArenaWidth::Four => "st4",
        ArenaWidth::Eight => "st8",
    }
}

/// Puts the line of an instruction after the text.
pub fn put_instruction(text: &mut Vec<u8>, instruction: &Instruction) -> Result<(), AllocError>
    ensures { OnOk result
        (text.new.items ≡ text.old.items ++ lines_text (instruction_fields instruction.now ∷ [])) }
{
    match *instruction {
        Instruction::Set { to, number } => {
            put_line(text, "set", &[Field::Register(to), Field::Number(number)])
        }
        Instruction::Bytes { to, literal } => put_line(
            text,
            "bytes",
            &[Field::Register(to), Field::Bytes(literal.said())],
        ),
        Instruction::Move { to, from } => {
            put_line(text, "mov", &[Field::Register(to), Field::Register(from)])
        }
        Instruction::Compute {
            operation,
            to,
            left,
            right,
        } => put_line(
            text,
            operation_name(operation),
            &[
                Field::Register(to),
                Field::Register(left),
                Field::Register(right),
            ],
        ),
        Instruction::IfNotZero { register } => {
            put_line(text, "ifnz", &[Field::Register(register)])
        }
        Instruction::Else => put_line(text, "else", &[]),
        Instruction::EndIf => put_line(text, "endif", &[]),
        Instruction::Load { width, to, at } => put_line(
            text,
            load_name(width),
            &[Field::Register(to), Field::Place(at)],
        ),
        Instruction::Save { width, at, from } => put_line(
            text,
            save_name(width),
            &[Field::Place(at), Field::Register(from)],
        ),
        Instruction::Begin { props, code } => put_line(
            text,
            name_of(Entry::Control(Control::BeginTransaction)),
            &[Field::Register(code), Field::Word(props_text(props))],
        ),
        Instruction::Commit => put_line(
            text,
            name_of(Entry::Control(Control::CommitTransaction)),
            &[],
        ),
        Instruction::Abort { outer } => put_line(
            text,
            name_of(Entry::Control(Control::AbortTransaction)),
            &[Field::Word(scope_text(outer))],
        ),
        Instruction::Mode => put_line(
            text,
            name_of(Entry::Control(Control::ChangeTransactionMode)),
            &[Field::Word("modeSerialIrrevocable")],
        ),
        Instruction::InTransaction { to } => put_line(
            text,
            name_of(Entry::Control(Control::InTransaction)),
            &[Field::Register(to)],
        ),
        Instruction::CommitAction { fun, arg } => put_line(
            text,
            name_of(Entry::Control(Control::AddUserCommitAction)),
            &[
                Field::Number(u64::from(fun)),
                Field::Word("_ITM_noTransactionId"),
                Field::Place(arg),
            ],
        ),
        Instruction::UndoAction { fun, arg } => put_line(
            text,
            name_of(Entry::Control(Control::AddUserUndoAction)),
            &[Field::Number(u64::from(fun)), Field::Place(arg)],
        ),
        Instruction::Read {
            hint,
            width,
            to,
            at,
        } => put_line(
            text,
            name_of(Entry::Read(hint, width)),
            &[Field::Register(to), Field::Place(at)],
        ),
        Instruction::Write {
            hint,
            width,
            at,
            from,
        } => put_line(
            text,
            name_of(Entry::Write(hint, width)),
            &[Field::Place(at), Field::Register(from)],
        ),
        Instruction::Log { width, at } => {
            put_line(text, name_of(Entry::Log(width)), &[Field::Place(at)])
        }
        Instruction::LogBytes { at, size } => put_line(
            text,
            name_of(Entry::LogBytes),
            &[Field::Place(at), Field::Place(size)],
        ),
        Instruction::Copy {
            moves,
            pair,
            to,
            from,
            size,
        } => put_line(
            text,
            name_of(Entry::Copy { moves, pair }),
            &[Field::Place(to), Field::Place(from), Field::Place(size)],
        ),
        Instruction::Fill {
            hint,
            to,
            byte,
            size,
        } => put_line(
            text,
            name_of(Entry::Fill(hint)),
            &[Field::Place(to), Field::Place(byte), Field::Place(size)],
        ),
    }
}
