//! The chunks that a copy is taken in.

ghost use Rattle.std.specs.Prelude.{◌≡◌, ◌≤◌, ◌+◌, ◌&&◌, false, IfSome, slice_get, option_map};
ghost use Rattle.itm_types.specs.Copies.{both_shared, overlap};
ghost use Rattle.norec_core.specs.Copies.{chunks_in, direction_of};
ghost use Rattle.norec_core.specs.Order.{chunk_reading};

use itm_types::{CopyPair, Copying, MAX_BYTES};
use norec_core::{Purpose, Reading};
use word_pieces::{Chunks, Direction};

/// The chunk of this number of a copy's source, at its first piece, if there are as many.
pub fn chunk_reading(copying: Copying, number: u32) -> Option<Reading>
    requires { copying.from + copying.size ≤ MAX_BYTES }
    ensures value { result ≡ option_map (chunk_reading copying number) (slice_get (chunks_in copying) number) }
    ensures some { IfSome result (λ r. (r.size ≤ 32) × (copying.from ≤ r.at) × (r.at + r.size ≤ copying.from + copying.size)) }
{
    let chunk = chunks(copying).get(number)?;
    Some(Reading {
        purpose: Purpose::Chunk { copying, number },
        at: copying.from + chunk.at,
        size: chunk.size,
        number: 0,
    })
}

/// The chunks that a copy is taken in.
pub fn chunks(copying: Copying) -> Chunks
    ensures size { result.size ≡ copying.size }
    ensures direction { result.direction ≡ direction_of copying }
{
    Chunks::new(copying.size, direction(copying))
}

/// From which end a copy is taken: one to a higher place that overlaps its source from the high end.
pub fn direction(copying: Copying) -> Direction
    ensures { result ≡ direction_of copying }
{
    if overlaps(copying) && copying.from < copying.to {
        Direction::Down
    } else {
        Direction::Up
    }
}

/// The two sides are shared memory, and have a byte in common.
pub fn overlaps(copying: Copying) -> bool
    ensures { result ≡ (both_shared copying.pair && overlap copying.to copying.from copying.size) }
{
    match copying.pair {
        CopyPair::Out(_) | CopyPair::In(_) => false,
        CopyPair::Within(_, _) if copying.to < copying.from => {
            copying.from - copying.to < copying.size
        }
        CopyPair::Within(_, _) => copying.to - copying.from < copying.size,
    }
}
