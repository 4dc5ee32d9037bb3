//! A thread's registers.

ghost use Rattle.std.specs.Prelude.{◌≡◌, ◌≤◌, length};
ghost use Rattle.script_fields.specs.Registers.{index_of};
ghost use Rattle.script_vm.specs.Registers.{zeros, bytes_at, number_at, place_of, datum, of_bytes, with_bytes, with_number};

use itm_types::{Datum, Width};
use script_fields::{Place, Register};
use std::marker::Model;

/// The 16 registers, of 32 bytes each.
#[derive(Clone, Copy)]
pub struct Registers {
    bytes: [[u8; 32]; 16],
}

impl Model for Registers {
    ghost use Rattle.std.specs.Prelude.{ℕ, List};

    ghost Value = { List (List ℕ) };

    ghost view = { λ r. r.bytes };

    ghost inverse = { λ rows. record { bytes = rows } };
}

impl Registers {
    /// All bytes zero.
    pub fn new() -> Self
        ensures { result ≡ zeros }
    {
        Registers {
            bytes: [[0; 32]; 16],
        }
    }

    /// A register's bytes.
    fn bytes(&self, register: Register) -> &[u8]
        ensures value { result.now ≡ bytes_at self.now register }
        ensures count { length result.now ≡ 32 }
    {
        &self.bytes[register.index()]
    }

    /// The low 8 bytes of a register as a number.
    pub fn number(&self, register: Register) -> u64
        ensures { result ≡ number_at self.now register }
    {
        let (low, _) = self.bytes(register).split_at(8);
        let mut word = [0; 8];
        word.copy_from_slice(low);
        u64::from_le_bytes(word)
    }

    /// The number that a place is.
    pub fn place(&self, place: Place) -> u64
        ensures { result ≡ place_of self.now place }
    {
        match place {
            Place::Number(number) => number,
            Place::Register(register) => self.number(register),
        }
    }

    /// The low bytes of a register, as many as the width has.
    pub fn datum(&self, width: Width, register: Register) -> Datum
        ensures { result ≡ datum self.now width register }
    {
        let bytes = self.bytes(register);
        match width {
            Width::U8 => {
                let (word, _) = bytes.split_at(8);
                Datum::new(Width::U8, word)
            }
            _ => {
                let (low, _) = bytes.split_at(usize::from(width.size()));
                Datum::new(width, low)
            }
        }
    }

    /// Puts 32 bytes in a register.
    pub fn put(&mut self, to: Register, bytes: [u8; 32])
        ensures { self.new ≡ with_bytes self.old to bytes }
    {
        self.bytes[to.index()] = bytes;
    }

    /// Puts a number in a register: its 8 bytes, the rest zero.
    pub fn put_number(&mut self, to: Register, number: u64)
        ensures { self.new ≡ with_number self.old to number }
    {
        let mut bytes = [0; 32];
        let (low, _) = bytes.split_at_mut(8);
        low.copy_from_slice(&number.to_le_bytes());
        self.bytes[to.index()] = bytes;
    }

    /// Puts bytes in a register, the rest zero.
    #[tactic(auto, using(crate::proofs::Padding::padded))]
    pub fn put_bytes(&mut self, to: Register, value: &[u8])
        requires { length value.now ≤ 32 }
        ensures { self.new ≡ with_bytes self.old to (of_bytes value.now) }
    {
        match value.as_array::<8>() {
            Some(word) => {
                let mut bytes = [0; 32];
                let (low, _) = bytes.split_at_mut(8);
                low.copy_from_slice(word);
                self.bytes[to.index()] = bytes;
            }
            None => self.put_other(to, value),
        }
    }

    /// Puts bytes that are no word in a register, the rest zero. Its code stands apart, so that of an answer stays small.
    #[inline(never)]
    #[tactic(auto, using(crate::proofs::Padding::padded))]
    fn put_other(&mut self, to: Register, value: &[u8])
        requires { length value.now ≤ 32 }
        ensures { self.new ≡ with_bytes self.old to (of_bytes value.now) }
    {
        let mut bytes = [0; 32];
        let (front, _) = bytes.split_at_mut(value.len());
        front.copy_from_slice(value);
        self.bytes[to.index()] = bytes;
    }

    /// Puts all bytes of a register in another.
    pub fn copy(&mut self, to: Register, from: Register)
        ensures { self.new ≡ with_bytes self.old to (bytes_at self.old from) }
    {
        let bytes = self.bytes[from.index()];
        self.bytes[to.index()] = bytes;
    }
}
