//! The cells before the transactions and after them.

ghost use Rattle.std.specs.Prelude.{◌≡◌, ◌+◌, ◌*◌, ◌<◌, ◌≤◌, ◌^◌, ◌∷◌, length, drop, sum, IfOk, IfSome};
ghost use Rattle.std.specs.List.{range_with_len};
ghost use Rattle.large_words.specs.Layout.{AreAdded};

use crate::layout::{MEBIBYTE, MOST, TRANSACTIONS, added_to};
use std::alloc::{AllocError, Global};

/// The clock, at 0, and so many words, each of which holds its own number.
pub fn laid(alloc: Global, words: u64) -> Result<Vec<u64>, AllocError>
    requires { words < 2 ^ 32 }
    ensures { IfOk result (λ cells. cells.items ≡ 0 ∷ range_with_len 0 words) }
{
    let mut cells = Vec::with_capacity(alloc, words as usize + 1)?;
    cells.push(0)?;
    for word in 0..words {
        cells.push(word)?;
    }
    Ok(cells)
}

/// The sum of the words, if each of them and the clock are as all transactions leave them.
pub fn sum_if_right(cells: &[u64]) -> Option<u64>
    requires some { 0 < length cells.now }
    requires few { length cells.now ≤ MEBIBYTE * MOST + 1 }
    ensures right { IfSome result (λ _. AreAdded cells.now) }
    ensures sum { IfSome result (λ n. n ≡ sum (drop 1 cells.now)) }
{
    if cells[0] != 2 * TRANSACTIONS {
        return None;
    }
    let words = cells.len() as u64 - 1;
    let mut sum = 0u64;
    for word in 0..words {
        let value = cells[word as usize + 1];
        if value != word + added_to(words, word) {
            return None;
        }
        sum += value;
    }
    Some(sum)
}
