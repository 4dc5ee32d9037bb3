//! Numbers as what is written.

ghost use Rattle.std.specs.Prelude.{◌≡◌};
ghost use Rattle.itm_c.specs.Data.{number_of_1, number_of_2, number_of_4};

use itm_types::{Datum, Width};

/// The number in 4 bytes, the low one first.
#[inline(always)]
pub fn datum_of_4(value: u32) -> Datum
    ensures { result ≡ number_of_4 value }
{
    Datum::new(Width::U4, &value.to_le_bytes())
}

/// The number in 2 bytes.
#[inline(always)]
pub fn datum_of_2(value: u16) -> Datum
    ensures { result ≡ number_of_2 value }
{
    Datum::new(Width::U2, &value.to_le_bytes())
}

/// The number in a byte.
#[inline(always)]
pub fn datum_of_1(value: u8) -> Datum
    ensures { result ≡ number_of_1 value }
{
    Datum::new(Width::U1, &value.to_le_bytes())
}
