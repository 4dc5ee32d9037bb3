//! Slices of a list of bytes.

ghost use Rattle.std.specs.Prelude.{◌≡◌, ◌≤◌, ◌+◌, IsTrue, length, replicate};
ghost use Rattle.itm_types.specs.Access.{size_of};
ghost use Rattle.itm_types.specs.Slices.{slice, with_slice};
ghost use Rattle.itm_model.specs.Places.{in_range};

use itm_types::{Value, Width};

/// The most bytes that a value has.
pub(crate) const WIDEST: usize = 32;

/// Whether so many bytes from a place on lie within the list. No sum wraps.
pub(crate) fn is_in_range(bytes: &[u8], place: u64, size: u64) -> bool
    ensures { result ≡ in_range bytes.now place size }
{
    let len = bytes.len() as u64;
    size <= len && place <= len - size
}

/// The bytes of an access at a place.
pub(crate) fn value_at(bytes: &[u8], place: u64, width: Width) -> Value
    requires { IsTrue (in_range bytes.now place (size_of width)) }
    ensures { result.items ≡ slice bytes.now place (size_of width) }
{
    let start = place as usize;
    let end = start + usize::from(width.size());
    Value::try_from(&bytes[start..end]).unwrap()
}

/// Some bytes at a place, no more than a value has.
pub(crate) fn part_at(bytes: &[u8], start: usize, size: usize) -> Value
    requires range { start + size ≤ length bytes.now }
    requires size { size ≤ WIDEST }
    ensures { result.items ≡ slice bytes.now start size }
{
    Value::try_from(&bytes[start..start + size]).unwrap()
}

/// So many bytes from a place on.
pub(crate) fn range_at(bytes: &[u8], place: u64, size: u64) -> &[u8]
    requires { IsTrue (in_range bytes.now place size) }
    ensures { result.now ≡ slice bytes.now place size }
{
    let start = place as usize;
    let end = start + size as usize;
    &bytes[start..end]
}

/// Puts new bytes from a place on.
pub(crate) fn replace(bytes: &mut Vec<u8>, place: u64, new: &[u8])
    requires { IsTrue (in_range bytes.old.items place (length new.now)) }
    ensures { bytes.new.items ≡ with_slice bytes.old.items place new.now }
{
    let start = place as usize;
    bytes[start..start + new.len()].copy_from_slice(new);
}

/// Puts so many bytes at a place, as they were at another. The two ranges may overlap.
pub(crate) fn move_within(bytes: &mut Vec<u8>, to: u64, from: u64, size: u64)
    requires to { IsTrue (in_range bytes.old.items to size) }
    requires from { IsTrue (in_range bytes.old.items from size) }
    ensures { bytes.new.items ≡ with_slice bytes.old.items to (slice bytes.old.items from size) }
{
    let start = from as usize;
    let end = start + size as usize;
    bytes.copy_within(start..end, to as usize);
}

/// Puts one byte so many times from a place on.
pub(crate) fn fill(bytes: &mut Vec<u8>, place: u64, byte: u8, size: u64)
    requires { IsTrue (in_range bytes.old.items place size) }
    ensures { bytes.new.items ≡ with_slice bytes.old.items place (replicate size byte) }
{
    let start = place as usize;
    let end = start + size as usize;
    bytes[start..end].fill(byte);
}
