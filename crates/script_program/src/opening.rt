//! The size of shared memory, and the bytes that it has as the threads begin.

ghost use Rattle.std.specs.Prelude.{◌≡◌, ◌+◌, ◌≤◌, [], ◌∷◌, ◌++◌, length, nat_le, vec_len, OnErr, OnOk};
ghost use Rattle.script_program.specs.Sizes.{IsSize};
ghost use Rattle.script_program.specs.Listing.{bytes_of};

use std::alloc::{AllocError, Global};
use std::marker::Model;

/// A size of shared memory: whole words of 8 bytes, from 1 to 131,072 of them.
#[derive(Clone, Copy, Debug, PartialEq, Eq)]
pub struct Size {
    bytes: usize,
}

impl Model for Size {
    ghost use Rattle.std.specs.Prelude.{ℕ};
    ghost use Rattle.script_program.specs.Sizes.{IsSize};

    ghost Value = { ℕ };

    ghost view = { λ s. s.bytes };

    ghost invariant = { λ s. IsSize s.bytes };

    ghost inverse = { λ n. record { bytes = n } };
}

impl Size {
    /// The size of so many bytes.
    pub fn new(bytes: usize) -> Self
        requires { IsSize bytes }
        ensures { result ≡ bytes }
    {
        Size { bytes }
    }

    /// How many bytes it is.
    pub fn bytes(self) -> usize
        ensures value { result ≡ self }
        ensures sized { IsSize result }
    {
        self.bytes
    }
}

/// Bytes that stand from a place on.
#[derive(Drop)]
pub struct Init {
    at: usize,
    bytes: Vec<u8>,
}

impl Model for Init {
    ghost use Rattle.script_program.specs.Listing.{Placed};

    ghost Value = { Placed };

    ghost view = { λ i. record { at = i.at; bytes = i.bytes.items } };
}

impl Init {
    /// Where the first of them stands.
    pub fn at(&self) -> usize
        ensures { result ≡ self.now.at }
    {
        self.at
    }

    /// The bytes.
    pub fn bytes(&self) -> &[u8]
        ensures { result.now ≡ self.now.bytes }
    {
        &self.bytes
    }
}

/// Shared memory as the threads begin: zeros, with bytes laid over them.
#[derive(Drop)]
pub struct Opening {
    size: Size,
    inits: Vec<Init>,
}

impl Model for Opening {
    ghost use Rattle.script_program.specs.Listing.{Shared, AllWithin};

    ghost Value = { Shared };

    ghost view = { λ o. record { size = o.size; inits = o.inits.items } };

    ghost invariant = { λ o. AllWithin o.size o.inits.items };
}

impl Opening {
    /// A memory of zeros. Takes no memory.
    pub fn new(alloc: Global, size: Size) -> Self
        ensures { result ≡ record { size = size; inits = [] } }
    {
        Opening {
            size,
            inits: Vec::new(alloc),
        }
    }

    /// How many bytes it has.
    pub fn size(&self) -> usize
        ensures value { result ≡ self.now.size }
        ensures sized { IsSize result }
    {
        self.size.bytes()
    }

    /// The bytes that are laid over its zeros, one after the other.
    pub fn inits(&self) -> &[Init]
        ensures { result.now ≡ self.now.inits }
    {
        &self.inits
    }

    /// Whether so many bytes from a place on lie within it.
    pub fn fits(&self, at: u64, count: usize) -> bool
        ensures { result ≡ nat_le (at + count) self.now.size }
    {
        let size = self.size.bytes() as u64;
        let count = count as u64;
        count <= size && at <= size - count
    }

    /// Lays bytes from a place on over what is there.
    pub fn add(&mut self, at: usize, bytes: Vec<u8>) -> Result<(), AllocError>
        requires { at + vec_len bytes ≤ self.old.size }
        ensures ok { OnOk result
            (self.new ≡ record self.old { inits = self.old.inits ++ record { at = at; bytes = bytes.items } ∷ [] }) }
        ensures refused { OnErr result (self.new ≡ self.old) }
    {
        self.inits.push(Init { at, bytes })?;
        Ok(())
    }

    /// Writes each byte of the memory. Takes no memory.
    #[tactic(auto, unfolding(crate::specs::Listing::bytes_of))]
    pub fn lay(&self, memory: &mut [u8])
        requires { length memory.old ≡ self.now.size }
        ensures { memory.new ≡ bytes_of self.now }
    {
        memory.fill(0);
        for init in &self.inits {
            let end = init.at + init.bytes.len();
            memory[init.at..end].copy_from_slice(&init.bytes);
        }
    }
}
