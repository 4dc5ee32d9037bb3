//! The shared cells.

ghost use Rattle.std.specs.Prelude.{◌≡◌, ◌*◌, ◌/◌, ◌%◌, ◌<◌, ◌≤◌, length, slice_set, slice_index};
ghost use Rattle.itm_types.specs.Memory.{bytes_of, AllFit};
ghost use Rattle.world_rules.specs.Cells.{IsCell, found, cells_after};

use itm_types::{MAX_MEMORY, Step, get_word, put_word};
use std::marker::Model;

/// The sequence clock and the shared memory, which has whole words of 8 bytes.
#[derive(Drop)]
pub(crate) struct Memory {
    clock: u64,
    bytes: Vec<u8>,
}

impl Model for Memory {
    ghost use Rattle.itm_types.specs.Memory.{AreWords, words_of};
    ghost use Rattle.world_rules.specs.Cells.{Cells};

    ghost Value = { Cells };

    ghost view = { λ m. record { clock = m.clock; words = words_of m.bytes.items } };

    ghost invariant = { λ m. AreWords m.bytes.items };
}

impl Memory {
    /// These bytes, with the clock at 0. Takes no memory.
    pub(crate) fn new(bytes: Vec<u8>) -> Self
        requires { length bytes.items % 8 ≡ 0 }
        ensures clock { result.clock ≡ 0 }
        ensures bytes { bytes_of result.words ≡ bytes.items }
        ensures words { length result.words ≡ length bytes.items / 8 }
        ensures fit { AllFit result.words }
    {
        Memory { clock: 0, bytes }
    }

    pub(crate) fn clock(&self) -> u64
        ensures { result ≡ self.now.clock }
    {
        self.clock
    }

    pub(crate) fn bytes(&self) -> &[u8]
        ensures bytes { result.now ≡ bytes_of self.now.words }
        ensures fit { AllFit self.now.words }
    {
        &self.bytes
    }

    /// How many words the memory has.
    pub(crate) fn words(&self) -> u32
        requires { 8 * length self.now.words ≤ MAX_MEMORY }
        ensures { result ≡ length self.now.words }
    {
        (self.bytes.len() / 8) as u32
    }

    /// Does the operation, and gives what it found: the value loaded, the value that an exchange met, or 0 for a store.
    pub(crate) fn apply(&mut self, step: Step) -> u64
        requires { IsCell (length self.old.words) step }
        ensures found { result ≡ found self.old step }
        ensures cells { self.new ≡ cells_after self.old step }
        ensures fit { AllFit self.new.words }
    {
        match step {
            Step::Load(cell) => {
                if cell == 0 {
                    self.clock
                } else {
                    self.word(cell - 1)
                }
            }
            Step::Store(cell, value) => {
                if cell == 0 {
                    self.clock = value;
                } else {
                    self.set_word(cell - 1, value);
                }
                0
            }
            Step::Cas(_, from, to) => {
                let met = self.clock;
                if met == from {
                    self.clock = to;
                }
                met
            }
        }
    }

    /// What the operation would find now, as `apply` says.
    pub(crate) fn found(&self, step: Step) -> u64
        requires { IsCell (length self.now.words) step }
        ensures { result ≡ found self.now step }
    {
        match step {
            Step::Load(cell) if cell > 0 => self.word(cell - 1),
            Step::Load(_) | Step::Cas(..) => self.clock,
            Step::Store(..) => 0,
        }
    }

    /// The word, from its bytes, the low one first.
    fn word(&self, word: u32) -> u64
        requires { word < length self.now.words }
        ensures { result ≡ slice_index self.now.words word }
    {
        get_word(&self.bytes, word as usize * 8)
    }

    fn set_word(&mut self, word: u32, value: u64)
        requires { word < length self.old.words }
        ensures word { self.new ≡ record self.old { words = slice_set self.old.words word value } }
        ensures fit { AllFit self.new.words }
    {
        put_word(&mut self.bytes, word as usize * 8, value);
    }
}
