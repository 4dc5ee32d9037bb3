//! What a read gives C.

ghost use Rattle.std.specs.Prelude.{◌≡◌, ◌^◌, ◌<◌};
ghost use Rattle.itm_c.specs.Codes.{is_done, number_of_bytes};

use crate::code::DONE;

/// The number of the bytes that were read, the low one first; 0 where the code is not `DONE`.
#[repr(C)]
#[derive(Clone, Copy)]
pub struct Number {
    pub value: u64,
    pub code: u32,
}

/// The number of these bytes, the low one first, of which the first 8 count.
pub fn number_of(bytes: &[u8]) -> u64
    ensures { result ≡ number_of_bytes bytes.now }
{
    let mut word = [0u8; 8];
    let count = bytes.len().min(8);
    word[..count].copy_from_slice(&bytes[..count]);
    u64::from_le_bytes(word)
}

/// A number that was read.
#[inline(always)]
pub fn read_number(value: u64) -> Number
    ensures value { result.value ≡ value }
    ensures code { result.code ≡ is_done }
    ensures fits { value < 2 ^ 64 }
{
    Number { value, code: DONE }
}
