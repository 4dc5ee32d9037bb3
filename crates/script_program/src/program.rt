//! Programs.

ghost use Rattle.std.specs.Prelude.{◌≡◌, ◌<◌, ◌≤◌, All, Some, length, slice_get};
ghost use Rattle.itm_types.specs.Limits.{AreWithin};
ghost use Rattle.script_program.specs.Sizes.{IsSize};
ghost use Rattle.script_program.specs.Listing.{opening_of, threads_of, thread_of};
ghost use Rattle.script_program.specs.Sections.{parts_of, thread_total};

use crate::instruction::Instruction;
use crate::limits::MAX_INSTRUCTIONS;
use crate::opening::{Init, Opening};
use crate::schedule::Item;
use crate::threads::Threads;
use itm_types::{Limits, MAX_ACTORS, MAX_ARENA};
use std::marker::Model;

/// A script that was read: shared memory as the threads begin, the limits of the run, which thread takes the next
/// events, and the code of each thread.
#[derive(Drop)]
pub struct Program {
    opening: Opening,
    arena: usize,
    limits: Limits,
    schedule: Vec<Item>,
    threads: Threads,
}

impl Model for Program {
    ghost use Rattle.std.specs.Prelude.{◌<◌, ◌≤◌, All};
    ghost use Rattle.itm_types.specs.declared.limits.TheConstants.{MAX_ARENA};
    ghost use Rattle.itm_types.specs.Limits.{AreWithin};
    ghost use Rattle.script_program.specs.Listing.{Listing, thread_of};
    ghost use Rattle.script_program.specs.Sections.{parts_of, thread_total};

    ghost Value = { Listing };

    ghost view = { λ p. record {
      memory = p.opening;
      arena = p.arena;
      limits = p.limits;
      schedule = p.schedule.items;
      parts = parts_of p.threads;
    } };

    ghost invariant = { λ p. AreWithin p.limits × (p.arena ≤ MAX_ARENA) × (0 < p.threads.count) × All (λ i. thread_of i < thread_total p.threads) p.schedule.items };
}

impl Program {
    /// The program of these parts. Takes no memory.
    pub fn new(
        opening: Opening,
        arena: usize,
        limits: Limits,
        schedule: Vec<Item>,
        threads: Threads,
    ) -> Self
        requires within { AreWithin limits }
        requires small { arena ≤ MAX_ARENA }
        requires begun { 0 < threads.count }
        requires named { All (λ i. thread_of i < thread_total threads) schedule.items }
        ensures { result ≡ record {
          memory = opening;
          arena = arena;
          limits = limits;
          schedule = schedule.items;
          parts = parts_of threads;
        } }
    {
        Program {
            opening,
            arena,
            limits,
            schedule,
            threads,
        }
    }

    /// How many bytes of shared memory it has.
    pub fn size(&self) -> usize
        ensures value { result ≡ self.now.memory.size }
        ensures sized { IsSize result }
    {
        self.opening.size()
    }

    /// Writes shared memory as the threads find it when they begin, byte for byte. Takes no memory.
    pub fn opening(&self, memory: &mut [u8])
        requires { length memory.old ≡ self.now.memory.size }
        ensures { memory.new ≡ opening_of self.now }
    {
        self.opening.lay(memory);
    }

    /// The bytes that are laid over the zeros of shared memory, in the order of the script: the last to write a byte
    /// wins.
    pub fn inits(&self) -> &[Init]
        ensures { result.now ≡ self.now.memory.inits }
    {
        self.opening.inits()
    }

    /// How many bytes each thread's arena has.
    pub fn arena(&self) -> usize
        ensures value { result ≡ self.now.arena }
        ensures small { result ≤ MAX_ARENA }
    {
        self.arena
    }

    /// The limits of the run.
    pub fn limits(&self) -> Limits
        ensures value { result ≡ self.now.limits }
        ensures within { AreWithin result }
    {
        self.limits
    }

    /// How many threads it has.
    #[tactic(auto, using(crate::proofs::AddedSections::codes_length), unfolding(crate::specs::Sections::thread_total))]
    pub fn threads(&self) -> usize
        ensures value { result ≡ length (threads_of self.now) }
        ensures low { 1 ≤ result }
        ensures high { result ≤ MAX_ACTORS }
    {
        self.threads.count()
    }

    /// What a thread does, line by line. Threads are counted from 0.
    #[tactic(auto, using(crate::proofs::AddedSections::codes_length))]
    pub fn code(&self, thread: usize) -> &[Instruction]
        requires { thread < length (threads_of self.now) }
        ensures value { slice_get (threads_of self.now) thread ≡ Some result.now }
        ensures few { length result.now ≤ MAX_INSTRUCTIONS }
    {
        self.threads.code(thread)
    }

    /// How many sections of `.thread` it has.
    pub fn sections(&self) -> usize
        ensures { result ≡ length self.now.parts }
    {
        self.threads.sections()
    }

    /// A section: how many threads it is for, and its code. Sections are counted from 0, in the order of the script.
    pub fn section(&self, index: usize) -> (usize, &[Instruction])
        requires { index < length self.now.parts }
        ensures { slice_get self.now.parts index ≡ Some (record { count = result.0; code = result.1.now }) }
    {
        self.threads.section(index)
    }

    /// Which thread takes the next events, in the order of the script.
    #[tactic(auto, using(crate::proofs::AddedSections::codes_length))]
    pub fn schedule(&self) -> &[Item]
        ensures value { result.now ≡ self.now.schedule }

        // Each item is of a thread that there is.
        ensures named { All (λ i. thread_of i < length (threads_of self.now)) result.now }
    {
        &self.schedule
    }
}
