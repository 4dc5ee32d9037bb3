//! A thread of a program makes its calls.

ghost use Rattle.std.specs.Prelude.{◌≡◌, ◌+◌, ◌<◌, ◌≤◌, length, IfOk};

use crate::blocks::OpenBlocks;
use crate::calls::call_at;
use crate::ends::past_block;
use crate::registers::Registers;
use crate::start::Start;
use crate::work::settle;
use itm_types::{Call, ENTERED, Reply};
use script_fields::Register;
use script_program::{Instruction, MAX_INSTRUCTIONS, Program};
use std::alloc::{AllocError, Global};
use std::marker::Model;
use tx_player::Player;

/// The thread of a program. Between calls it stands at its next call, or at its end.
#[derive(Drop)]
pub struct Script<'p> {
    rest: &'p [Instruction],
    registers: Registers,
    blocks: OpenBlocks<'p>,
}

impl<'p> Model for Script<'p> {
    ghost use Rattle.std.specs.Prelude.{◌≡◌, ◌+◌, ◌<◌, ◌≤◌, [], length};
    ghost use Rattle.script_program.specs.declared.limits.TheConstants.{MAX_INSTRUCTIONS};
    ghost use Rattle.script_vm.specs.Registers.{zeros};
    ghost use Rattle.script_vm.specs.Threads.{Thread};

    ghost Value = { Thread };

    ghost view = { λ s. record { rest = s.rest.now; registers = s.registers; blocks = s.blocks.blocks; deepest = s.blocks.deepest } };

    ghost invariant = { λ s. (0 < s.blocks.deepest) × (s.blocks.deepest ≤ MAX_INSTRUCTIONS) × (length s.rest.now ≤ MAX_INSTRUCTIONS) × (length s.blocks.blocks ≤ s.blocks.deepest + 1)
        × (s.blocks.deepest < length s.blocks.blocks → (s.rest.now ≡ []) × (s.registers ≡ zeros)) };
}

impl<'p> Script<'p> {
    ghost use Rattle.std.specs.Prelude.{◌≡◌, ◌+◌, ◌<◌, ◌≤◌, [], false, true, length, slice_index_or, IfOk};
    ghost use Rattle.script_program.specs.Listing.{threads_of};
    ghost use Rattle.script_vm.specs.Threads.{opening, goes_on, stopped, begun, ended, cancelled, took, told};

    /// A thread of the program before its first call, with room for what it keeps of as many open blocks as the program's
    /// limits allow. No method takes memory after this.
    pub fn new(alloc: Global, program: &'p Program, thread: usize) -> Result<Self, AllocError>
        requires { thread < length (threads_of program.now) }
        ensures { IfOk result (λ s. s ≡ opening program.now.limits.depth (slice_index_or (threads_of program.now) thread [])) }
    {
        let deepest = usize::from(program.limits().depth);
        Script::of_code(alloc, deepest, program.code(thread))
    }

    /// The thread of this code before its first call, where so many blocks may be open at once.
    pub(crate) fn of_code(
        alloc: Global,
        deepest: usize,
        code: &'p [Instruction],
    ) -> Result<Self, AllocError>
        requires some { 0 < deepest }
        requires few { deepest ≤ MAX_INSTRUCTIONS }
        requires short { length code.now ≤ MAX_INSTRUCTIONS }
        ensures { IfOk result (λ s. s ≡ opening deepest code.now) }
    {
        let blocks = OpenBlocks::new(alloc, deepest)?;
        let mut registers = Registers::new();
        let rest = settle(code, &mut registers);
        Ok(Script {
            rest,
            registers,
            blocks,
        })
    }

    /// Goes on at this code.
    fn go_on(&mut self, more: &'p [Instruction])
        requires within { length self.old.blocks ≤ self.old.deepest }
        requires short { length more.now ≤ MAX_INSTRUCTIONS }
        ensures { self.new ≡ goes_on self.old self.old.registers more.now }
    {
        self.rest = settle(more, &mut self.registers);
    }

    /// One more block is open than may be: it has no more calls.
    fn stop(&mut self)
        requires { length self.old.blocks ≡ self.old.deepest }
        ensures { self.new ≡ stopped self.old }
    {
        let (_, none) = self.rest.split_at(self.rest.len());
        self.rest = none;
        self.registers = Registers::new();
        self.blocks.open_beyond();
    }

    /// Takes the reply to a begin. Its code stands apart, as that of the aborts does: the usual replies need few registers then.
    #[inline(never)]
    fn take_begun(&mut self, code: Register, more: &'p [Instruction], reply: &Reply)
        requires within { length self.old.blocks ≤ self.old.deepest }
        requires short { length more.now < MAX_INSTRUCTIONS }
        ensures { self.new ≡ begun self.old code more.now reply.now }
    {
        match reply {
            Reply::Code(n) if self.blocks.has_room() => {
                let start = Start::new(self.rest, &self.registers, code);
                self.blocks.open(start);
                self.registers.put_number(code, u64::from(*n));
                self.go_on(more);
            }
            Reply::Code(_) => self.stop(),
            Reply::Refused(_) => self.go_on(past_block(1, more)),
            Reply::Done | Reply::Bytes(_) => self.go_on(more),
        }
    }

    /// Takes the reply to a commit.
    fn take_ended(&mut self, more: &'p [Instruction], reply: &Reply)
        requires within { length self.old.blocks ≤ self.old.deepest }
        requires short { length more.now < MAX_INSTRUCTIONS }
        ensures { self.new ≡ ended self.old more.now reply.now }
    {
        if let Reply::Done = reply {
            self.blocks.close();
            self.go_on(more);
        } else {
            self.go_on(more);
        }
    }

    /// Takes the reply to an abort of the innermost block.
    #[inline(never)]
    fn take_inner(&mut self, more: &'p [Instruction], reply: &Reply)
        requires within { length self.old.blocks ≤ self.old.deepest }
        requires short { length more.now < MAX_INSTRUCTIONS }
        ensures { self.new ≡ cancelled self.old false more.now reply.now }
    {
        if let Reply::Code(n) = reply {
            if let Some(start) = self.blocks.innermost() {
                start.cancel(&mut self.registers, *n);
                self.blocks.close();
                self.go_on(past_block(1, more));
                return;
            }
        }
        self.go_on(more);
    }

    /// Takes the reply to an abort of all blocks.
    #[inline(never)]
    fn take_outer(&mut self, more: &'p [Instruction], reply: &Reply)
        requires within { length self.old.blocks ≤ self.old.deepest }
        requires short { length more.now < MAX_INSTRUCTIONS }
        ensures { self.new ≡ cancelled self.old true more.now reply.now }
    {
        if let Reply::Code(n) = reply {
            if let Some(start) = self.blocks.outermost() {
                start.cancel(&mut self.registers, *n);
                let rest = past_block(self.blocks.len(), more);
                self.blocks.close_all();
                self.go_on(rest);
                return;
            }
        }
        self.go_on(more);
    }

    /// Takes the reply to a read or a load.
    fn take_read(&mut self, to: Register, more: &'p [Instruction], reply: &Reply)
        requires within { length self.old.blocks ≤ self.old.deepest }
        requires short { length more.now < MAX_INSTRUCTIONS }
        ensures { self.new ≡ took self.old to more.now reply.now }
    {
        if let Reply::Bytes(value) = reply {
            self.registers.put_bytes(to, value.as_slice());
        }
        self.go_on(more);
    }

    /// Takes the reply to the question whether a transaction is open.
    fn take_told(&mut self, to: Register, more: &'p [Instruction], reply: &Reply)
        requires within { length self.old.blocks ≤ self.old.deepest }
        requires short { length more.now < MAX_INSTRUCTIONS }
        ensures { self.new ≡ told self.old to more.now reply.now }
    {
        if let Reply::Code(n) = reply {
            self.registers.put_number(to, u64::from(*n));
        }
        self.go_on(more);
    }
}

impl<'p> Player for Script<'p> {
    ghost use Rattle.script_vm.specs.Threads.{next_call, answered, restarted, at_block, calls_left, depth_of};
    ghost use Rattle.script_vm.specs.ThreadLaws.{thread_laws};

    ghost next_call = { next_call };

    ghost answered = { answered };

    ghost restarted = { restarted };

    ghost at_block = { at_block };

    ghost calls_left = { calls_left };

    ghost depth = { depth_of };

    fn next(&self) -> Option<Call> {
        call_at(self.rest, self.blocks.len(), &self.registers)
    }

    fn answer(&mut self, reply: &Reply) {
        let Some((first, more)) = self.rest.split_first() else {
            return;
        };
        match *first {
            Instruction::Set { .. }
            | Instruction::Bytes { .. }
            | Instruction::Move { .. }
            | Instruction::Compute { .. }
            | Instruction::IfNotZero { .. }
            | Instruction::Else
            | Instruction::EndIf => {}
            Instruction::Load { to, .. } | Instruction::Read { to, .. } => {
                self.take_read(to, more, reply);
            }
            Instruction::Begin { code, .. } => self.take_begun(code, more, reply),
            Instruction::Commit => self.take_ended(more, reply),
            Instruction::Abort { outer: false } => self.take_inner(more, reply),
            Instruction::Abort { outer: true } => self.take_outer(more, reply),
            Instruction::InTransaction { to } => self.take_told(to, more, reply),
            Instruction::Save { .. }
            | Instruction::Mode
            | Instruction::CommitAction { .. }
            | Instruction::UndoAction { .. }
            | Instruction::Write { .. }
            | Instruction::Log { .. }
            | Instruction::LogBytes { .. }
            | Instruction::Copy { .. }
            | Instruction::Fill { .. } => self.go_on(more),
        }
    }

    fn restart(&mut self) {
        if let Some(start) = self.blocks.outermost() {
            start.take_back(&mut self.registers);
            self.rest = start.rest();
            self.blocks.close_all();
        }
    }

    #[tactic(auto, using(crate::proofs::InnerRestarts::stays_stopped))]
    fn restart_block(&mut self) {
        if let Some(begin) = self.blocks.innermost() {
            begin.take_back(&mut self.registers);
            self.rest = begin.rest();
            self.blocks.close();
            self.answer(&Reply::Code(ENTERED));
        }
    }

    fn copy(&self) -> Result<Self, AllocError> {
        Ok(Script {
            rest: self.rest,
            registers: self.registers,
            blocks: self.blocks.copy()?,
        })
    }

    ghost laws = { thread_laws };
}
