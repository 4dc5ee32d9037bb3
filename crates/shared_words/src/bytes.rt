//! The cells of a row of bytes.

ghost use Rattle.std.specs.Prelude.{◌≡◌, ◌%◌, ◌∷◌, length, drop, IfOk};
ghost use Rattle.itm_types.specs.Memory.{bytes_of};

use itm_types::get_word;
use std::alloc::{AllocError, Global};

/// The clock, at 0, and the words of these bytes, in order.
pub(crate) fn cells_of_bytes(alloc: Global, bytes: &[u8]) -> Result<Vec<u64>, AllocError>
    requires { length bytes.now % 8 ≡ 0 }
    ensures clock { IfOk result (λ cells. cells.items ≡ 0 ∷ drop 1 cells.items) }
    ensures words { IfOk result (λ cells. bytes_of (drop 1 cells.items) ≡ bytes.now) }
{
    let count = bytes.len() / 8;
    let mut cells = Vec::with_capacity(alloc, count + 1)?;
    cells.push(0)?;
    for i in 0..count {
        cells.push(get_word(bytes, 8 * i))?;
    }
    Ok(cells)
}
