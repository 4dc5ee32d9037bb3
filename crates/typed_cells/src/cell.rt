//! A cell.

ghost use Rattle.std.specs.Prelude.{◌≡◌, ◌+◌, ◌≤◌, ◌↔◌, ◌++◌, IsTrue, IsSome, IfSome, length, take, drop};
ghost use Rattle.std.specs.Int.{w64, from_le_bytes, to_le_bytes};

use crate::word::Word;
use itm_types::{get_word, put_word};
use std::marker::PhantomData;

/// Where a value of this type lies: at one word of the memory.
#[derive(Clone, Copy, Debug)]
pub struct Cell<T> {
    pub(crate) place: u64,
    pub(crate) of: PhantomData<T>,
}

impl<T: Word> Cell<T> {
    /// The first byte's number.
    pub fn place(&self) -> u64
        ensures { result ≡ self.now.place }
    {
        self.place
    }

    /// The value in these bytes of the memory, where they have its place.
    pub fn get(&self, bytes: &[u8]) -> Option<T>
        ensures within { IsSome result ↔ (self.now.place + 8 ≤ length bytes.now) }
        ensures value { IfSome result (λ x. x ≡ T.value (from_le_bytes w64 (take 8 (drop self.now.place bytes.now)))) }
        ensures fits { IfSome result T.fits }
    {
        if bytes.len() < 8 || self.place > (bytes.len() - 8) as u64 {
            return None;
        }
        Some(T::of_number(get_word(bytes, self.place as usize)))
    }

    /// Puts a value in these bytes of the memory, and tells whether they have its place.
    pub fn set(&self, bytes: &mut [u8], value: T) -> bool
        ensures within { IsTrue result ↔ (self.now.place + 8 ≤ length bytes.old) }
        ensures put { IsTrue result → bytes.new ≡ take self.now.place bytes.old ++ to_le_bytes w64 (T.number value) ++ drop (self.now.place + 8) bytes.old }
        ensures none { (IsTrue result → ⊥) → bytes.new ≡ bytes.old }
    {
        if bytes.len() < 8 || self.place > (bytes.len() - 8) as u64 {
            return false;
        }
        put_word(bytes, self.place as usize, value.to_number());
        true
    }
}
