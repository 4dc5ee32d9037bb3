//! The call that a thread makes next.

ghost use Rattle.std.specs.Prelude.{◌≡◌, ◌+◌, ◌<◌, ◌^◌, length};
ghost use Rattle.script_vm.specs.Threads.{control_call, arena_call, value_call, range_call, memory_call, call_at};

use crate::ends::room;
use crate::registers::Registers;
use itm_types::{Action, Call, Copying};
use script_program::Instruction;

/// A call about blocks, transactions and actions, with so many blocks open and this code after it.
fn control_call(
    instruction: &Instruction,
    depth: usize,
    more: &[Instruction],
    registers: &Registers,
) -> Option<Call>
    requires { depth + length more.now + 1 < 2 ^ 32 }
    ensures { result ≡ control_call registers.now depth instruction.now more.now }
{
    match *instruction {
        Instruction::Begin { props, .. } => {
            let room = room(depth + 1, more) as u32;
            Some(Call::Begin { props, room })
        }
        Instruction::Commit => Some(Call::Commit),
        Instruction::Abort { outer } => Some(Call::Abort { outer }),
        Instruction::Mode => {
            let room = room(depth, more) as u32;
            Some(Call::Mode { room })
        }
        Instruction::InTransaction { .. } => Some(Call::InTransaction),
        Instruction::CommitAction { fun, arg } => {
            let arg = registers.place(arg);
            Some(Call::CommitAction(Action { fun, arg }))
        }
        Instruction::UndoAction { fun, arg } => {
            let arg = registers.place(arg);
            Some(Call::UndoAction(Action { fun, arg }))
        }
        _ => None,
    }
}

/// A call about the thread's arena.
fn arena_call(instruction: &Instruction, registers: &Registers) -> Option<Call>
    ensures { result ≡ arena_call registers.now instruction.now }
{
    match *instruction {
        Instruction::Load { width, at, .. } => {
            let at = registers.place(at);
            let width = width.width();
            Some(Call::Load { width, at })
        }
        Instruction::Save { width, at, from } => {
            let at = registers.place(at);
            let value = registers.datum(width.width(), from);
            Some(Call::Save { at, value })
        }
        Instruction::Log { width, at } => {
            let at = registers.place(at);
            Some(Call::Log { width, at })
        }
        Instruction::LogBytes { at, size } => {
            let at = registers.place(at);
            let size = registers.place(size);
            Some(Call::LogBytes { at, size })
        }
        _ => None,
    }
}

/// A call that moves a value of shared memory.
fn value_call(instruction: &Instruction, registers: &Registers) -> Option<Call>
    ensures { result ≡ value_call registers.now instruction.now }
{
    match *instruction {
        Instruction::Read {
            hint,
            width,
            at,
            ..
        } => {
            let at = registers.place(at);
            Some(Call::Read { hint, width, at })
        }
        Instruction::Write {
            hint,
            width,
            at,
            from,
        } => {
            let at = registers.place(at);
            let value = registers.datum(width, from);
            Some(Call::Write { hint, at, value })
        }
        _ => None,
    }
}

/// A call about a range of shared memory.
fn range_call(instruction: &Instruction, registers: &Registers) -> Option<Call>
    ensures { result ≡ range_call registers.now instruction.now }
{
    match *instruction {
        Instruction::Copy {
            moves,
            pair,
            to,
            from,
            size,
        } => Some(Call::Copy(Copying {
            moves,
            pair,
            to: registers.place(to),
            from: registers.place(from),
            size: registers.place(size),
        })),
        Instruction::Fill {
            hint,
            to,
            byte,
            size,
        } => Some(Call::Fill {
            hint,
            to: registers.place(to),
            byte: registers.place(byte),
            size: registers.place(size),
        }),
        _ => None,
    }
}

/// A call about the arena or shared memory.
fn memory_call(instruction: &Instruction, registers: &Registers) -> Option<Call>
    ensures { result ≡ memory_call registers.now instruction.now }
{
    match arena_call(instruction, registers) {
        Some(call) => Some(call),
        None => match value_call(instruction, registers) {
            Some(call) => Some(call),
            None => range_call(instruction, registers),
        },
    }
}

/// The call that the code begins with, with so many blocks open.
pub fn call_at(code: &[Instruction], depth: usize, registers: &Registers) -> Option<Call>
    requires { depth + length code.now < 2 ^ 32 }
    ensures { result ≡ call_at registers.now depth code.now }
{
    let (first, more) = code.split_first()?;
    match control_call(first, depth, more, registers) {
        Some(call) => Some(call),
        None => memory_call(first, registers),
    }
}
