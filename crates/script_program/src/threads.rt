//! The threads of a script: sections of code, each for one thread or for several.

ghost use Rattle.std.specs.Prelude.{◌≡◌, ◌+◌, ◌-◌, ◌*◌, ◌<◌, ◌≤◌, [], ◌∷◌, ◌++◌, Some, OnErr, OnOk, IfOk, length, nat_le, nat_lt, slice_get, take};
ghost use Rattle.std.specs.List.{repeat};
ghost use Rattle.script_program.specs.Listing.{codes_of};
ghost use Rattle.script_program.specs.Sections.{parts_of, thread_total, instruction_total, begun, expanded, counted_again};

use crate::instruction::Instruction;
use crate::limits::MAX_INSTRUCTIONS;
use itm_types::MAX_ACTORS;
use std::alloc::{AllocError, Global};
use std::marker::Model;
use std::mem;

/// As many instructions are put behind the code at once as fit some 4,000 bytes, or else one group.
const PIECE: usize = 72;

/// A group of instructions, so many times.
fn copies(
    alloc: Global,
    group: &[Instruction],
    times: usize,
) -> Result<Vec<Instruction>, AllocError>
    ensures { IfOk result (λ piece. piece.items ≡ repeat times group.now) }
{
    let mut piece = Vec::new(alloc);
    for _ in 0..times {
        piece.extend_from_slice(group)?;
    }
    Ok(piece)
}

/// The code of so many threads.
#[derive(Drop)]
struct Section {
    count: usize,
    code: Vec<Instruction>,
}

impl Model for Section {
    ghost use Rattle.std.specs.Prelude.{◌≤◌, length};
    ghost use Rattle.script_program.specs.Listing.{Part};
    ghost use Rattle.script_program.specs.declared.limits.TheConstants.{MAX_INSTRUCTIONS};

    ghost Value = { Part };

    ghost view = { λ s. record { count = s.count; code = s.code.items } };

    ghost invariant = { λ s. length s.code.items ≤ MAX_INSTRUCTIONS };
}

/// The sections of a script: those that have ended, and the one that is read.
#[derive(Drop)]
pub struct Threads {
    ended: Vec<Section>,
    count: usize,
    code: Vec<Instruction>,
    left_out: usize,
    threads: usize,
    instructions: usize,
}

impl Model for Threads {
    ghost use Rattle.std.specs.Prelude.{◌≡◌, ◌≤◌};
    ghost use Rattle.itm_types.specs.declared.limits.TheConstants.{MAX_ACTORS};
    ghost use Rattle.script_program.specs.declared.limits.TheConstants.{MAX_INSTRUCTIONS};
    ghost use Rattle.script_program.specs.Sections.{Sections, thread_total, instruction_total};

    ghost Value = { Sections };

    ghost view = { λ t. record { ended = t.ended.items; count = t.count; code = t.code.items; left_out = t.left_out } };

    ghost invariant = { λ t. (t.threads ≡ thread_total (record { ended = t.ended.items; count = t.count; code = t.code.items; left_out = t.left_out }))
        × (t.instructions ≡ instruction_total (record { ended = t.ended.items; count = t.count; code = t.code.items; left_out = t.left_out }))
        × (t.threads ≤ MAX_ACTORS) × (t.instructions ≤ MAX_INSTRUCTIONS) };
}

impl Threads {
    /// No section has begun. Takes no memory.
    #[tactic(auto, unfolding(crate::specs::Sections::thread_total, crate::specs::Sections::instruction_total))]
    pub fn new(alloc: Global) -> Self
        ensures { result ≡ record { ended = []; count = 0; code = []; left_out = 0 } }
    {
        Threads {
            ended: Vec::new(alloc),
            count: 0,
            code: Vec::new(alloc),
            left_out: 0,
            threads: 0,
            instructions: 0,
        }
    }

    /// Whether a section has begun.
    pub fn has_begun(&self) -> bool
        ensures { result ≡ nat_lt 0 self.now.count }
    {
        0 < self.count
    }

    /// How many threads there are.
    pub fn count(&self) -> usize
        ensures value { result ≡ thread_total self.now }
        ensures few { result ≤ MAX_ACTORS }
    {
        self.threads
    }

    /// Whether as many instructions are counted as may be.
    pub fn is_full(&self) -> bool
        ensures { result ≡ nat_le MAX_INSTRUCTIONS (instruction_total self.now) }
    {
        MAX_INSTRUCTIONS <= self.instructions
    }

    /// The section of so many threads begins.
    #[tactic(auto, unfolding(crate::specs::Sections::thread_total, crate::specs::Sections::instruction_total), using(crate::proofs::AddedSections::threads_more, crate::proofs::AddedSections::code_more))]
    pub fn begin(&mut self, alloc: Global, count: usize) -> Result<(), AllocError>
        requires { thread_total self.old + count ≤ MAX_ACTORS }
        ensures ok { OnOk result (self.new ≡ begun self.old count) }
        ensures refused { OnErr result ((0 < self.old.count) × (self.new ≡ self.old)) }
    {
        if 0 < self.count {
            let code = mem::replace(&mut self.code, Vec::new(alloc));
            let section = Section {
                count: self.count,
                code,
            };
            if let Err(failed) = self.ended.push(section) {
                let Section { code, .. } = failed.value;
                self.code = code;
                return Err(AllocError);
            }
        }
        self.count = count;
        self.threads += count;
        Ok(())
    }

    /// One more line of the code that is read.
    #[tactic(auto, unfolding(crate::specs::Sections::thread_total, crate::specs::Sections::instruction_total))]
    pub fn push(&mut self, instruction: Instruction) -> Result<(), AllocError>
        requires { instruction_total self.old < MAX_INSTRUCTIONS }
        ensures ok { OnOk result (self.new ≡ record self.old { code = self.old.code ++ instruction ∷ [] }) }
        ensures refused { OnErr result (self.new ≡ self.old) }
    {
        match self.code.push(instruction) {
            Ok(()) => {
                self.instructions += 1;
                Ok(())
            }
            Err(_) => Err(AllocError),
        }
    }

    /// One more line is counted, and leaves no code. Takes no memory.
    #[tactic(auto, unfolding(crate::specs::Sections::thread_total, crate::specs::Sections::instruction_total))]
    pub fn leave_out(&mut self)
        requires { instruction_total self.old < MAX_INSTRUCTIONS }
        ensures { self.new ≡ record self.old { left_out = self.old.left_out + 1 } }
    {
        self.left_out += 1;
        self.instructions += 1;
    }

    /// How many instructions the code that is read has.
    pub fn code_len(&self) -> usize
        ensures { result ≡ length self.now.code }
    {
        self.code.len()
    }

    /// How many instructions were counted that leave no code.
    pub fn left_out(&self) -> usize
        ensures { result ≡ self.now.left_out }
    {
        self.left_out
    }

    /// Whether there would be more instructions than may be, if so many of them counted so many times.
    fn would_exceed(&self, group: usize, times: usize) -> bool
        requires { group ≤ instruction_total self.now }
        ensures { result ≡ nat_lt MAX_INSTRUCTIONS ((instruction_total self.now - group) + times * group) }
    {
        let others = self.instructions - group;
        MAX_INSTRUCTIONS - others < group.saturating_mul(times)
    }

    /// Whether there would be more instructions than may be, if those of the code that is read from a place on stood
    /// so many times.
    #[tactic(auto, unfolding(crate::specs::Sections::instruction_total))]
    pub fn exceeds(&self, start: usize, times: usize) -> bool
        ensures { result ≡ nat_lt MAX_INSTRUCTIONS (instruction_total (expanded self.now start times)) }
    {
        let group = self.code.len().saturating_sub(start);
        self.would_exceed(group, times)
    }

    /// Whether there would be more instructions than may be, if those that were left out from a number on counted so
    /// many times.
    #[tactic(auto, unfolding(crate::specs::Sections::instruction_total))]
    pub fn exceeds_left_out(&self, start: usize, times: usize) -> bool
        ensures { result ≡ nat_lt MAX_INSTRUCTIONS (instruction_total (counted_again self.now start times)) }
    {
        let group = self.left_out.saturating_sub(start);
        self.would_exceed(group, times)
    }

    /// What was left out from a number on counts so many times in place of once. Takes no memory, and a time that does
    /// not grow with the times.
    pub fn count_again(&mut self, start: usize, times: usize)
        requires { instruction_total (counted_again self.old start times) ≤ MAX_INSTRUCTIONS }
        ensures { self.new ≡ counted_again self.old start times }
    {
        let group = self.left_out.saturating_sub(start);
        let again = group * times;
        self.left_out = self.left_out - group + again;
        self.instructions = self.instructions - group + again;
    }

    /// The code that is read ends before a place.
    #[tactic(auto, unfolding(crate::specs::Sections::thread_total, crate::specs::Sections::instruction_total))]
    fn cut(&mut self, start: usize)
        ensures { self.new ≡ record self.old { code = take start self.old.code } }
    {
        let group = self.code.len().saturating_sub(start);
        self.code.truncate(start);
        self.instructions -= group;
    }

    /// These instructions stand after the code that is read.
    #[tactic(auto, unfolding(crate::specs::Sections::thread_total, crate::specs::Sections::instruction_total))]
    fn append(&mut self, more: &[Instruction]) -> Result<(), AllocError>
        requires room { instruction_total self.old + length more.now ≤ MAX_INSTRUCTIONS }
        ensures ok { OnOk result (self.new ≡ record self.old { code = self.old.code ++ more.now }) }
        ensures refused { OnErr result (self.new ≡ self.old) }
    {
        self.code.extend_from_slice(more)?;
        self.instructions += more.len();
        Ok(())
    }

    /// There is memory for so many more instructions of the code that is read.
    fn reserve_code(&mut self, more: usize) -> Result<(), AllocError>
        ensures { self.new ≡ self.old }
    {
        self.code.reserve(more)
    }

    /// The code that is read, from a place on, stands so many times in place of once.
    #[tactic(auto, unfolding(crate::specs::Sections::expanded), using(crate::proofs::Repeats::nothing, crate::proofs::Repeats::once))]
    pub fn repeat(&mut self, start: usize, times: usize) -> Result<(), AllocError>
        requires { instruction_total (expanded self.old start times) ≤ MAX_INSTRUCTIONS }
        ensures ok { OnOk result (self.new ≡ expanded self.old start times) }
        ensures refused { OnErr result ((length self.old.code < length (expanded self.old start times).code)
            × (self.new ≡ self.old)) }
    {
        if times == 0 {
            self.cut(start);
            return Ok(());
        }
        let end = self.code_len();
        if end <= start {
            return Ok(());
        }
        if times == 1 {
            return Ok(());
        }
        let (_, group) = self.code.split_at(start);
        let size = group.len();
        let most = (PIECE / size).clamp(1, times - 1);
        let piece = copies(*self.code.allocator(), group, most)?;
        self.reserve_code(size * (times - 1))?;
        let mut count = 1;
        while count < times {
            let more = most.min(times - count);
            let (part, _) = piece.split_at(more * size);
            match self.append(part) {
                Ok(()) => count += more,
                Err(failed) => {
                    self.cut(end);
                    return Err(failed);
                }
            }
        }
        Ok(())
    }

    /// How many sections there are.
    pub fn sections(&self) -> usize
        ensures { result ≡ length (parts_of self.now) }
    {
        self.ended.len() + 1
    }

    /// A section: how many threads it is for, and its code. Sections are counted from 0.
    pub fn section(&self, index: usize) -> (usize, &[Instruction])
        requires { index < length (parts_of self.now) }
        ensures { slice_get (parts_of self.now) index ≡ Some (record { count = result.0; code = result.1.now }) }
    {
        match self.ended.get(index) {
            Some(section) => (section.count, &section.code),
            None => (self.count, &self.code),
        }
    }

    /// The code of a thread.
    pub fn code(&self, thread: usize) -> &[Instruction]
        requires { thread < thread_total self.now }
        ensures value { slice_get (codes_of (parts_of self.now)) thread ≡ Some result.now }
        ensures few { length result.now ≤ MAX_INSTRUCTIONS }
    {
        let mut left = thread;
        for section in &self.ended {
            if left < section.count {
                return &section.code;
            }
            left -= section.count;
        }
        &self.code
    }
}
