//! The operands of a line of a thread's code. An instruction is put where it is told to, since it is large and its cases are
//! many: an answer that holds it would be put together from parts of all of them.

ghost use Rattle.std.specs.Prelude.{◌≡◌};
ghost use Rattle.script_fields.specs.Text.{fields};
ghost use Rattle.script_fields.specs.Operands.{Sees};
ghost use Rattle.script_asm.specs.Code.{control_code, entry_code, instruction_of};

use crate::mnemonics::Mnemonic;
use itm_entries::{Control, Entry};
use script_fields::{
    FaultKind, abort_scope, commit_action, no_field, one_place, one_register, only_mode,
    place_register, register_literal, register_number, register_place, register_props,
    three_places, three_registers, two_places, two_registers, undo_action,
};
use script_program::Instruction;

#[tactic(auto, unfolding(crate::specs::Code::control_code))]
fn control_into(control: Control, rest: &[u8], into: &mut Instruction) -> Result<(), FaultKind>
    ensures { Sees (λ _. into.new) result (control_code control (fields rest.now)) }
{
    match control {
        Control::BeginTransaction => {
            let (code, props) = register_props(rest)?;
            *into = Instruction::Begin { props, code };
        }
        Control::CommitTransaction => {
            no_field(rest)?;
            *into = Instruction::Commit;
        }
        Control::AbortTransaction => {
            let outer = abort_scope(rest)?;
            *into = Instruction::Abort { outer };
        }
        Control::ChangeTransactionMode => {
            only_mode(rest)?;
            *into = Instruction::Mode;
        }
        Control::InTransaction => {
            let to = one_register(rest)?;
            *into = Instruction::InTransaction { to };
        }
        Control::AddUserCommitAction => {
            let (fun, arg) = commit_action(rest)?;
            *into = Instruction::CommitAction { fun, arg };
        }
        Control::AddUserUndoAction => {
            let (fun, arg) = undo_action(rest)?;
            *into = Instruction::UndoAction { fun, arg };
        }
    }
    Ok(())
}

#[tactic(auto, unfolding(crate::specs::Code::entry_code))]
fn entry_into(entry: Entry, rest: &[u8], into: &mut Instruction) -> Result<(), FaultKind>
    ensures { Sees (λ _. into.new) result (entry_code entry (fields rest.now)) }
{
    match entry {
        Entry::Control(control) => control_into(control, rest, into)?,
        Entry::Read(hint, width) => {
            let (to, at) = register_place(rest)?;
            *into = Instruction::Read {
                hint,
                width,
                to,
                at,
            };
        }
        Entry::Write(hint, width) => {
            let (at, from) = place_register(rest)?;
            *into = Instruction::Write {
                hint,
                width,
                at,
                from,
            };
        }
        Entry::Log(width) => {
            let at = one_place(rest)?;
            *into = Instruction::Log { width, at };
        }
        Entry::LogBytes => {
            let (at, size) = two_places(rest)?;
            *into = Instruction::LogBytes { at, size };
        }
        Entry::Copy { moves, pair } => {
            let (to, (from, size)) = three_places(rest)?;
            *into = Instruction::Copy {
                moves,
                pair,
                to,
                from,
                size,
            };
        }
        Entry::Fill(hint) => {
            let (to, (byte, size)) = three_places(rest)?;
            *into = Instruction::Fill {
                hint,
                to,
                byte,
                size,
            };
        }
    }
    Ok(())
}

/// The instruction that begins with the mnemonic. Its code stands apart, so that the caller's place stays one in memory.
#[inline(never)]
#[tactic(auto, unfolding(crate::specs::Code::instruction_of))]
pub fn instruction_into(
    mnemonic: Mnemonic,
    rest: &[u8],
    into: &mut Instruction,
) -> Result<(), FaultKind>
    ensures { Sees (λ _. into.new) result (instruction_of mnemonic (fields rest.now)) }
{
    match mnemonic {
        Mnemonic::Set => {
            let (to, number) = register_number(rest)?;
            *into = Instruction::Set { to, number };
        }
        Mnemonic::Bytes => {
            let (to, literal) = register_literal(rest)?;
            *into = Instruction::Bytes { to, literal };
        }
        Mnemonic::Move => {
            let (to, from) = two_registers(rest)?;
            *into = Instruction::Move { to, from };
        }
        Mnemonic::Compute(operation) => {
            let (to, (left, right)) = three_registers(rest)?;
            *into = Instruction::Compute {
                operation,
                to,
                left,
                right,
            };
        }
        Mnemonic::IfNotZero => {
            let register = one_register(rest)?;
            *into = Instruction::IfNotZero { register };
        }
        Mnemonic::Else => {
            no_field(rest)?;
            *into = Instruction::Else;
        }
        Mnemonic::EndIf => {
            no_field(rest)?;
            *into = Instruction::EndIf;
        }
        Mnemonic::Load(width) => {
            let (to, at) = register_place(rest)?;
            *into = Instruction::Load { width, to, at };
        }
        Mnemonic::Save(width) => {
            let (at, from) = place_register(rest)?;
            *into = Instruction::Save { width, at, from };
        }
        Mnemonic::Entry(entry) => entry_into(entry, rest, into)?,
    }
    Ok(())
}
