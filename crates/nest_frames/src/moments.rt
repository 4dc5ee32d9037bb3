//! The begins of all open blocks.

ghost use Rattle.std.specs.Prelude.{◌≡◌, ◌↔◌, ◌<◌, ◌≤◌, ◌==◌, [], ◌∷◌, ◌++◌, IfOk, IsSome, length, map};
ghost use Rattle.std.specs.Option.{option_to_list};
ghost use Rattle.nest_frames.specs.Moments.{forgotten};

use crate::moment::Moment;
use std::alloc::{AllocError, Global};
use std::marker::Model;

/// Where the open blocks began, the innermost last. There is a place for each that may be open.
#[derive(Debug, Drop)]
pub(crate) struct Moments {
    places: Vec<Moment>,
    /// How many blocks may be open at once.
    most: u8,
}

impl Model for Moments {
    ghost use Rattle.std.specs.Prelude.{length, vec_capacity};
    ghost use Rattle.nest_frames.specs.Moments.{Begins, HasPlaces};

    ghost Value = { Begins };

    ghost view = { λ m. record { items = m.places.items; most = m.most } };

    ghost invariant = { λ m. HasPlaces (length m.places.items) m.most (vec_capacity m.places) };
}

impl Moments {
    /// No block is open, and so many may be.
    pub(crate) fn new(alloc: Global, most: u8) -> Result<Moments, AllocError>
        ensures ok { IfOk result (λ m. m ≡ record { items = []; most = most }) }
    {
        let places = Vec::with_capacity(alloc, most as usize)?;
        Ok(Moments { places, most })
    }

    /// How many blocks are open.
    #[inline(always)]
    pub(crate) fn len(&self) -> usize
        ensures value { result ≡ length self.now.items }
        ensures few { length self.now.items ≤ self.now.most }
    {
        self.places.len()
    }

    /// Whether none is.
    #[inline(always)]
    pub(crate) fn is_empty(&self) -> bool
        ensures { result ≡ (length self.now.items == 0) }
    {
        self.places.is_empty()
    }

    /// How many may be open at once.
    #[inline(always)]
    pub(crate) fn most(&self) -> usize
        ensures { result ≡ self.now.most }
    {
        self.most as usize
    }

    /// A block began within those that are open. Takes no memory.
    #[inline(always)]
    pub(crate) fn push(&mut self, moment: Moment)
        requires { length self.old.items < self.old.most }
        ensures items { self.new.items ≡ self.old.items ++ moment ∷ [] }
        ensures most { self.new.most ≡ self.old.most }
    {
        self.places.push_reserved(moment);
    }

    /// The innermost block is gone.
    #[inline(always)]
    pub(crate) fn pop(&mut self) -> Option<Moment>
        ensures items { self.old.items ≡ self.new.items ++ option_to_list result }
        ensures variant { IsSome result ↔ (0 < length self.old.items) }
        ensures most { self.new.most ≡ self.old.most }
    {
        self.places.pop()
    }

    /// All of them.
    #[inline(always)]
    pub(crate) fn as_slice(&self) -> &[Moment]
        ensures value { result.now ≡ self.now.items }
    {
        self.places.as_slice()
    }

    /// At each begin there was nothing. Takes no memory.
    pub(crate) fn forget(&mut self)
        ensures items { self.new.items ≡ map forgotten self.old.items }
        ensures most { self.new.most ≡ self.old.most }
    {
        for moment in self.places.as_mut_slice().iter_mut() {
            *moment = Moment::at_start(moment.props);
        }
    }
}
