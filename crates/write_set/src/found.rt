//! Writes that take no memory.

ghost use Rattle.std.specs.Prelude.{◌≡◌, ◌<◌, true, false, take, length, ℕ, None};
ghost use Rattle.write_set.specs.Rows.{lookup, put, reserved, AreRows, IsFirst};

use crate::keyed_rows::Rows;
use crate::row::Row;
use word_pieces::merge;

/// Writes the masked bytes of a value to a word, or does nothing. It may write where the word was the last transaction's next one,
/// or there are few rows and none of so many first ones is its own, and a row that joins has room.
#[inline(always)]
pub(crate) fn write_next(rows: &mut Rows, first: usize, word: u32, mask: u64, value: u64) -> bool
    ensures none { result ≡ false → rows.new.rows ≡ rows.old.rows }
    ensures rows { result ≡ true → rows.new.rows ≡ put (reserved rows.old.rows word) word mask value }
    ensures first { result ≡ true → lookup word (take first rows.old.rows) ≡ None }
    ensures are_rows { AreRows rows.old.rows }
{
    let row = Row {
        word,
        mask,
        value: value & mask,
    };
    if rows.add_again(row) {
        return true;
    }
    if !rows.are_few() {
        return false;
    }
    match rows.scan(word) {
        Some(place) => write_over(rows, first, place, mask, value),
        None => rows.add_few(row),
    }
}

/// The same, where there are more rows than few and the index has the word.
#[inline(always)]
pub(crate) fn write_found(rows: &mut Rows, first: usize, word: u32, mask: u64, value: u64) -> bool
    ensures none { result ≡ false → rows.new.rows ≡ rows.old.rows }
    ensures rows { result ≡ true → rows.new.rows ≡ put (reserved rows.old.rows word) word mask value }
    ensures first { result ≡ true → lookup word (take first rows.old.rows) ≡ None }
    ensures are_rows { AreRows rows.old.rows }
{
    if rows.are_few() {
        return false;
    }
    let Some(at) = rows.find(word) else {
        return false;
    };
    match rows.place_at(at, word) {
        Some(place) => write_over(rows, first, place, mask, value),
        None => rows.add_at(
            at,
            Row {
                word,
                mask,
                value: value & mask,
            },
        ),
    }
}

/// Writes the masked bytes of a value to the row of a word, at this place, where that is none of so many first ones; else nothing
/// is done.
#[inline(always)]
fn write_over(rows: &mut Rows, first: usize, place: usize, mask: u64, value: u64) -> bool
    requires within { place < length rows.old.rows }
    ensures none { result ≡ false → rows.new.rows ≡ rows.old.rows }
    ensures rows { result ≡ true → (word : ℕ) → IsFirst rows.old.rows word place → rows.new.rows ≡ put (reserved rows.old.rows word) word mask value }
    ensures first { result ≡ true → (word : ℕ) → IsFirst rows.old.rows word place → lookup word (take first rows.old.rows) ≡ None }
{
    if place < first {
        return false;
    }
    let row = rows.row(place);
    rows.set(place, row.mask | mask, merge(row.value, mask, value));
    true
}
