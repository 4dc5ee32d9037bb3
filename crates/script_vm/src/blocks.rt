//! The open blocks of a thread.

ghost use Rattle.std.specs.Prelude.{◌≡◌, ◌+◌, ◌-◌, ◌<◌, ◌≤◌, ◌^◌, ◌↔◌, [], ◌∷◌, ◌++◌, length, IfOk, IfNone, IfSome, IsTrue};
ghost use Rattle.script_vm.specs.Threads.{may_open, no_block, closed, innermost_of, outermost_of};

use crate::start::Start;
use std::alloc::{AllocError, Global};
use std::marker::Model;

/// Open blocks, the outermost first. Of as many as may be open their starts are kept, and of those beyond only how many there
/// are.
#[derive(Drop)]
pub struct OpenBlocks<'p> {
    starts: Vec<Start<'p>>,
    beyond: usize,
    deepest: usize,
}

impl<'p> Model for OpenBlocks<'p> {
    ghost use Rattle.std.specs.Prelude.{◌≡◌, ◌<◌, ◌≤◌, vec_len, vec_capacity};
    ghost use Rattle.script_vm.specs.Threads.{Opened, all_blocks};

    ghost Value = { Opened };

    ghost view = { λ b. record { deepest = b.deepest; blocks = all_blocks b.starts.items b.beyond } };

    ghost invariant = { λ b. (0 < b.deepest) × (vec_len b.starts ≤ b.deepest) × (b.deepest ≤ vec_capacity b.starts)
        × (0 < b.beyond → vec_len b.starts ≡ b.deepest) };
}

impl<'p> OpenBlocks<'p> {
    /// None, with room for the starts of so many.
    pub fn new(alloc: Global, deepest: usize) -> Result<Self, AllocError>
        requires { 0 < deepest }
        ensures { IfOk result (λ b. b ≡ record { deepest = deepest; blocks = [] }) }
    {
        Ok(OpenBlocks {
            starts: Vec::with_capacity(alloc, deepest)?,
            beyond: 0,
            deepest,
        })
    }

    /// How many there are.
    pub fn len(&self) -> usize
        requires { length self.now.blocks < 2 ^ 32 }
        ensures { result ≡ length self.now.blocks }
    {
        self.starts.len() + self.beyond
    }

    /// May one more be open?
    #[tactic(auto, using(crate::proofs::KeptBlocks::has_room, crate::proofs::KeptBlocks::all_length))]
    pub fn has_room(&self) -> bool
        ensures value { result ≡ may_open self.now.deepest self.now.blocks }
        ensures few { IsTrue result ↔ (length self.now.blocks < self.now.deepest) }
    {
        self.starts.len() < self.deepest
    }

    /// One more is open. Takes no memory.
    #[tactic(auto, using(crate::proofs::KeptBlocks::opened_kept))]
    pub fn open(&mut self, start: Start<'p>)
        requires { length self.old.blocks < self.old.deepest }
        ensures value { self.new ≡ record self.old { blocks = self.old.blocks ++ start.entry ∷ [] } }
        ensures more { length self.new.blocks ≡ length self.old.blocks + 1 }
    {
        self.starts.push_reserved(start);
    }

    /// One more is open than may be, of which no start is kept.
    #[tactic(auto, using(crate::proofs::KeptBlocks::one_more_beyond))]
    pub fn open_beyond(&mut self)
        requires many { self.old.deepest ≤ length self.old.blocks }
        requires few { length self.old.blocks < 2 ^ 32 }
        ensures value { self.new ≡ record self.old { blocks = self.old.blocks ++ no_block ∷ [] } }
        ensures more { length self.new.blocks ≡ length self.old.blocks + 1 }
    {
        self.beyond += 1;
    }

    /// The innermost is closed.
    #[tactic(auto, using(crate::proofs::KeptBlocks::closed_kept, crate::proofs::KeptBlocks::closed_beyond, crate::proofs::KeptBlocks::length_closed))]
    pub fn close(&mut self)
        ensures value { self.new ≡ record self.old { blocks = closed self.old.blocks } }
        ensures fewer { length self.new.blocks ≡ length self.old.blocks - 1 }
    {
        if self.beyond > 0 {
            self.beyond -= 1;
        } else {
            self.starts.pop();
        }
    }

    /// All are closed.
    pub fn close_all(&mut self)
        ensures { self.new ≡ record self.old { blocks = [] } }
    {
        self.starts.clear();
        self.beyond = 0;
    }

    /// The start of the innermost; of one beyond those that may be open there is none.
    #[tactic(auto, using(crate::proofs::KeptBlocks::innermost_kept, crate::proofs::KeptBlocks::innermost_beyond))]
    pub fn innermost(&self) -> Option<&Start<'p>>
        ensures none { IfNone result (length self.now.blocks ≤ self.now.deepest → self.now.blocks ≡ []) }
        ensures some { IfSome result (λ start. innermost_of self.now.blocks ≡ Some start.now) }
        ensures beyond { self.now.deepest < length self.now.blocks → innermost_of self.now.blocks ≡ Some no_block }
    {
        if self.beyond > 0 {
            return None;
        }
        self.starts.last()
    }

    /// The start of the outermost.
    pub fn outermost(&self) -> Option<&Start<'p>>
        ensures none { IfNone result (self.now.blocks ≡ []) }
        ensures some { IfSome result (λ start. outermost_of self.now.blocks ≡ Some start.now) }
    {
        self.starts.first()
    }

    /// Equal ones, with room for the starts of as many.
    pub fn copy(&self) -> Result<Self, AllocError>
        ensures { IfOk result (λ b. b ≡ self.now) }
    {
        let alloc = *self.starts.allocator();
        let mut starts = Vec::with_capacity(alloc, self.deepest)?;
        for start in &self.starts {
            starts.push_reserved(start.copy());
        }
        Ok(OpenBlocks {
            starts,
            beyond: self.beyond,
            deepest: self.deepest,
        })
    }
}
