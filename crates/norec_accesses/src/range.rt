//! Ranges of shared memory that are written, chunk by chunk, words upwards within a chunk.

ghost use Rattle.std.specs.Prelude.{◌≡◌, ◌<◌, ◌≤◌, ◌+◌, OnOk, OnErr, All, length};
ghost use Rattle.itm_types.specs.Slices.{AreBytes};
ghost use Rattle.word_pieces.specs.Chunks.{chunks_of};
ghost use Rattle.write_set.specs.Marks.{MayPut};
ghost use Rattle.norec_core.specs.Rows.{HaveRows, range_pieces, reserved_all, put_chunks};
ghost use Rattle.norec_accesses.specs.KeptFrames.{KeepsAllButWrites};

use crate::writes::{put_all, reserve_all};
use itm_types::MAX_BYTES;
use nest_frames::Frames;
use std::alloc::AllocError;
use word_pieces::{Chunks, Direction, pieces};

/// Makes each word of a range ready to be written. Where memory is refused, none is given a row.
pub(crate) fn reserve_range(frames: &mut Frames, to: u64, chunks: Chunks) -> Result<(), AllocError>
    requires open { 0 < length frames.old.blocks }
    requires range { to + chunks.size ≤ MAX_BYTES }
    ensures rows { OnOk result (frames.new.writes.rows
        ≡ reserved_all frames.old.writes.rows (range_pieces to (chunks_of chunks.direction chunks.size))) }
    ensures may_put { OnOk result
        (All (λ p. MayPut frames.new.writes p.word) (range_pieces to (chunks_of chunks.direction chunks.size))) }
    ensures err { OnErr result (frames.new.writes.rows ≡ frames.old.writes.rows) }
    ensures kept { KeepsAllButWrites frames.old frames.new }
{
    let len = frames.len();
    for number in 0..chunks.len() {
        let Some(chunk) = chunks.get(number) else {
            unreachable!();
        };
        let pieces = pieces(to + chunk.at, chunk.size);
        if reserve_all(frames, &pieces).is_err() {
            frames.cut(len);
            return Err(AllocError);
        }
    }
    Ok(())
}

/// Puts bytes in the write set from a place on, where each word was made ready. Takes no memory.
pub(crate) fn put_range(frames: &mut Frames, to: u64, direction: Direction, bytes: &[u8])
    requires range { to + length bytes.now ≤ MAX_BYTES }
    requires room { HaveRows frames.old.writes.rows (range_pieces to (chunks_of direction (length bytes.now))) }
    requires may_put { All (λ p. MayPut frames.old.writes p.word) (range_pieces to (chunks_of direction (length bytes.now))) }
    ensures rows { frames.new.writes.rows
        ≡ put_chunks frames.old.writes.rows to (chunks_of direction (length bytes.now)) bytes.now }
    ensures kept { KeepsAllButWrites frames.old frames.new }
    ensures bytes { AreBytes bytes.now }
{
    let chunks = Chunks::new(bytes.len() as u64, direction);
    for number in 0..chunks.len() {
        let Some(chunk) = chunks.get(number) else {
            unreachable!();
        };
        let pieces = pieces(to + chunk.at, chunk.size);
        let start = chunk.at as usize;
        put_all(
            frames,
            &pieces,
            &bytes[start..start + usize::from(chunk.size)],
        );
    }
}
