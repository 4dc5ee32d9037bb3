//! Where a block began.

ghost use Rattle.std.specs.Prelude.{◌≡◌, ◌≤◌, length};
ghost use Rattle.script_vm.specs.Registers.{with_number};

use crate::registers::Registers;
use script_fields::Register;
use script_program::{Instruction, MAX_INSTRUCTIONS};
use std::marker::Model;

/// The code and the registers as a block's begin was called, and the begin's register. The registers stand first: so they are
/// copied once, to where the start is kept, and not by way of the stack.
#[derive(Drop)]
pub struct Start<'p> {
    registers: Registers,
    rest: &'p [Instruction],
    code: Register,
}

impl<'p> Model for Start<'p> {
    ghost use Rattle.std.specs.Prelude.{◌≤◌, length};
    ghost use Rattle.script_program.specs.declared.limits.TheConstants.{MAX_INSTRUCTIONS};
    ghost use Rattle.script_vm.specs.Threads.{Block};

    ghost Value = { Block };

    ghost view = { λ s. record { rest = s.rest.now; registers = s.registers; code = s.code } };

    ghost invariant = { λ s. length s.rest.now ≤ MAX_INSTRUCTIONS };
}

impl<'p> Start<'p> {
    /// The start of a block whose begin stands first in the code. Copies the registers.
    pub fn new(rest: &'p [Instruction], registers: &Registers, code: Register) -> Self
        requires { length rest.now ≤ MAX_INSTRUCTIONS }
        ensures { result ≡ record { rest = rest.now; registers = registers.now; code = code } }
    {
        Start {
            registers: *registers,
            rest,
            code,
        }
    }

    /// An equal start.
    pub fn copy(&self) -> Self
        ensures { result ≡ self.now }
    {
        Start {
            rest: self.rest,
            registers: self.registers,
            code: self.code,
        }
    }

    /// The code from the begin on.
    pub fn rest(&self) -> &'p [Instruction]
        ensures value { result.now ≡ self.now.rest }
        ensures few { length result.now ≤ MAX_INSTRUCTIONS }
    {
        self.rest
    }

    /// Takes the registers back to the begin.
    pub fn take_back(&self, registers: &mut Registers)
        ensures { registers.new ≡ self.now.registers }
    {
        *registers = self.registers;
    }

    /// Takes the registers back to the begin, with this code in its register.
    pub fn cancel(&self, registers: &mut Registers, code: u32)
        ensures { registers.new ≡ with_number self.now.registers self.now.code code }
    {
        *registers = self.registers;
        registers.put_number(self.code, u64::from(code));
    }
}
