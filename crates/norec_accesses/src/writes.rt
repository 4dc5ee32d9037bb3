//! Writes: a value goes into the write set, piece by piece upwards, and no step is taken.

ghost use Rattle.norec_core.specs.Phases as phases;
ghost use Rattle.std.specs.Prelude.{◌≡◌, ◌<◌, ◌≤◌, ◌+◌, ◌∷◌, [], true, false, OnOk, OnErr, All, length, map, None};
ghost use Rattle.word_pieces.specs.Pieces.{IsPiece, pieces_of};
ghost use Rattle.itm_types.specs.Access.{size_of};
ghost use Rattle.itm_types.specs.Slices.{AreBytes};
ghost use Rattle.write_set.specs.Marks.{KeepsRoom, MayPut};
ghost use Rattle.nest_frames.specs.Nest.{rows_of};
ghost use Rattle.norec_core.specs.Rows.{AreRoomy, HaveRows, reserved_all, put_all};
ghost use Rattle.norec_turns.specs.InPhases.{IsSound};
ghost use Rattle.norec_accesses.specs.KeptFrames.{KeepsAllButWrites};
ghost use Rattle.norec_core.specs.Accesses.{access_refusal};
ghost use Rattle.norec_data.specs.View.{in_block};
ghost use Rattle.norec_turns.specs.Moves.{CallComes, CallTurns, ComesTo};

use itm_types::{Call, Datum, MAX_BYTES, WriteHint};
use nest_frames::Frames;
use norec_data::{CallEnd, Data, Turn, access_refusal};
use norec_turns::refuse;
use std::alloc::AllocError;
use word_pieces::{Piece, piece_at, pieces};

/// A write comes.
#[inline(always)]
pub fn write(state: &mut Data, hint: WriteHint, at: u64, value: &Datum) -> Result<Turn, AllocError>
    requires sound { IsSound state.old phases.Idle }
    ensures { CallComes state.old (Call.Write hint at value.now) false result state.new }
{
    if let Some(why) = access_refusal(state, at, u64::from(value.width.size())) {
        return Ok(refuse(state, why));
    }
    write_served(state, hint, at, value)?;
    Ok(Turn::End(CallEnd::Done))
}

/// The same, where the write is served.
#[inline(always)]
pub fn write_served(
    state: &mut Data,
    hint: WriteHint,
    at: u64,
    value: &Datum,
) -> Result<(), AllocError>
    requires sound { IsSound state.old phases.Idle }
    requires served { access_refusal (in_block state.old) state.old.words at (size_of value.now.width) ≡ None }
    ensures { ComesTo (λ done. Turn.End CallEnd.Done) state.old (Call.Write hint at value.now) false result state.new }
{
    put_value(&mut state.frames, at, value.width.size(), &value.bytes)?;
    state.start_call();
    Ok(())
}

/// The same may be done here, where that takes no memory and no look at the write set's index: the value lies in one word, which the
/// last transaction wrote next, or few words are written. Where it is not, nothing is done.
#[inline(always)]
pub fn write_next(state: &mut Data, hint: WriteHint, at: u64, value: &Datum) -> bool
    requires sound { IsSound state.old phases.Idle }
    requires served { access_refusal (in_block state.old) state.old.words at (size_of value.now.width) ≡ None }
    ensures none { result ≡ false → state.new ≡ state.old }
    ensures written { result ≡ true → CallTurns state.old (Call.Write hint at value.now) false (Turn.End CallEnd.Done) state.new }
{
    if !put_next(&mut state.frames, at, value.width.size(), &value.bytes) {
        return false;
    }
    state.start_call();
    true
}

/// Puts a value of so many bytes in the write set, where `write_next` does it.
#[inline(always)]
fn put_next(frames: &mut Frames, at: u64, size: u8, bytes: &[u8]) -> bool
    requires open { 0 < length frames.old.blocks }
    requires range { at + size ≤ MAX_BYTES }
    requires small { size ≤ 32 }
    requires bytes { size ≤ length bytes.now }
    ensures none { result ≡ false → frames.new ≡ frames.old }
    ensures rows { result ≡ true → frames.new.writes.rows
        ≡ put_all (reserved_all frames.old.writes.rows (pieces_of at size)) (pieces_of at size) bytes.now }
    ensures kept { KeepsAllButWrites frames.old frames.new }
    ensures bytes { AreBytes bytes.now }
{
    match piece_at(at, size, 0) {
        Some(piece) if piece.count == size => {
            frames.write_next(piece.word, piece.mask(), piece.scatter(bytes))
        }
        _ => false,
    }
}

/// The same may be done here, where that takes no memory: the value lies in one word, which the index has, and more words than few
/// are written. Where it is not, nothing is done.
#[inline(always)]
pub fn write_found(state: &mut Data, hint: WriteHint, at: u64, value: &Datum) -> bool
    requires sound { IsSound state.old phases.Idle }
    requires served { access_refusal (in_block state.old) state.old.words at (size_of value.now.width) ≡ None }
    ensures none { result ≡ false → state.new ≡ state.old }
    ensures written { result ≡ true → CallTurns state.old (Call.Write hint at value.now) false (Turn.End CallEnd.Done) state.new }
{
    if !put_found(&mut state.frames, at, value.width.size(), &value.bytes) {
        return false;
    }
    state.start_call();
    true
}

/// Puts a value of so many bytes in the write set, where `write_found` does it.
#[inline(always)]
fn put_found(frames: &mut Frames, at: u64, size: u8, bytes: &[u8]) -> bool
    requires open { 0 < length frames.old.blocks }
    requires range { at + size ≤ MAX_BYTES }
    requires small { size ≤ 32 }
    requires bytes { size ≤ length bytes.now }
    ensures none { result ≡ false → frames.new ≡ frames.old }
    ensures rows { result ≡ true → frames.new.writes.rows
        ≡ put_all (reserved_all frames.old.writes.rows (pieces_of at size)) (pieces_of at size) bytes.now }
    ensures kept { KeepsAllButWrites frames.old frames.new }
    ensures bytes { AreBytes bytes.now }
{
    match piece_at(at, size, 0) {
        Some(piece) if piece.count == size => {
            frames.write_found(piece.word, piece.mask(), piece.scatter(bytes))
        }
        _ => false,
    }
}

/// Puts a value of so many bytes in the write set. Where memory is refused, no word is given a row.
#[inline(always)]
fn put_value(frames: &mut Frames, at: u64, size: u8, bytes: &[u8]) -> Result<(), AllocError>
    requires open { 0 < length frames.old.blocks }
    requires range { at + size ≤ MAX_BYTES }
    requires small { size ≤ 32 }
    requires bytes { size ≤ length bytes.now }
    ensures rows { OnOk result (frames.new.writes.rows
        ≡ put_all (reserved_all frames.old.writes.rows (pieces_of at size)) (pieces_of at size) bytes.now) }
    ensures err { OnErr result (frames.new.writes.rows ≡ frames.old.writes.rows) }
    ensures kept { KeepsAllButWrites frames.old frames.new }
    ensures grows { OnErr result (AreRoomy frames.old.writes.rows (rows_of frames.old.blocks) (pieces_of at size) → ⊥) }
    ensures bytes { AreBytes bytes.now }
{
    match piece_at(at, size, 0) {
        Some(piece) if piece.count == size => put_piece(frames, piece, bytes),
        _ => put_pieces(frames, at, size, bytes),
    }
}

/// The same for a value that lies in one word.
#[inline(always)]
fn put_piece(frames: &mut Frames, piece: Piece, bytes: &[u8]) -> Result<(), AllocError>
    requires open { 0 < length frames.old.blocks }
    requires piece { IsPiece piece }
    requires bytes { piece.at + piece.count ≤ length bytes.now }
    ensures rows { OnOk result (frames.new.writes.rows
        ≡ put_all (reserved_all frames.old.writes.rows (piece ∷ [])) (piece ∷ []) bytes.now) }
    ensures err { OnErr result (frames.new.writes.rows ≡ frames.old.writes.rows) }
    ensures kept { KeepsAllButWrites frames.old frames.new }
    ensures grows { OnErr result (AreRoomy frames.old.writes.rows (rows_of frames.old.blocks) (piece ∷ []) → ⊥) }
    ensures bytes { AreBytes bytes.now }
{
    frames.write(piece.word, piece.mask(), piece.scatter(bytes))?;
    Ok(())
}

/// The same, piece by piece.
#[inline(never)]
fn put_pieces(frames: &mut Frames, at: u64, size: u8, bytes: &[u8]) -> Result<(), AllocError>
    requires open { 0 < length frames.old.blocks }
    requires range { at + size ≤ MAX_BYTES }
    requires small { size ≤ 32 }
    requires bytes { size ≤ length bytes.now }
    ensures rows { OnOk result (frames.new.writes.rows
        ≡ put_all (reserved_all frames.old.writes.rows (pieces_of at size)) (pieces_of at size) bytes.now) }
    ensures err { OnErr result (frames.new.writes.rows ≡ frames.old.writes.rows) }
    ensures kept { KeepsAllButWrites frames.old frames.new }
    ensures grows { OnErr result (AreRoomy frames.old.writes.rows (rows_of frames.old.blocks) (pieces_of at size) → ⊥) }
    ensures bytes { AreBytes bytes.now }
{
    let pieces = pieces(at, size);
    reserve_all(frames, &pieces)?;
    put_all(frames, &pieces, bytes);
    Ok(())
}

/// Makes each piece's word ready to be written. Where memory is refused, none is given a row.
pub(crate) fn reserve_all(frames: &mut Frames, pieces: &[Piece]) -> Result<(), AllocError>
    requires open { 0 < length frames.old.blocks }
    ensures rows { OnOk result (frames.new.writes.rows ≡ reserved_all frames.old.writes.rows pieces.now) }
    ensures may_put { OnOk result (All (λ p. MayPut frames.new.writes p.word) pieces.now) }
    ensures err { OnErr result (frames.new.writes.rows ≡ frames.old.writes.rows) }
    ensures kept { KeepsAllButWrites frames.old frames.new }
    ensures inner { frames.new.writes.inner ≡ frames.old.writes.inner }
    ensures others { OnOk result (KeepsRoom frames.old.writes frames.new.writes) }
    ensures grows { OnErr result (AreRoomy frames.old.writes.rows (rows_of frames.old.blocks) pieces.now → ⊥) }
{
    let len = frames.len();
    for piece in pieces {
        if frames.reserve(piece.word).is_err() {
            frames.cut(len);
            return Err(AllocError);
        }
    }
    Ok(())
}

/// Puts the pieces of a value in the write set, where each word was made ready.
pub(crate) fn put_all(frames: &mut Frames, pieces: &[Piece], bytes: &[u8])
    requires room { HaveRows frames.old.writes.rows pieces.now }
    requires may_put { All (λ p. MayPut frames.old.writes p.word) pieces.now }
    requires pieces { All IsPiece pieces.now }
    requires bytes { All (λ p. p.at + p.count ≤ length bytes.now) pieces.now }
    ensures rows { frames.new.writes.rows ≡ put_all frames.old.writes.rows pieces.now bytes.now }
    ensures kept { KeepsAllButWrites frames.old frames.new }
    ensures words { map (λ r. r.word) frames.new.writes.rows ≡ map (λ r. r.word) frames.old.writes.rows }
    ensures others { KeepsRoom frames.old.writes frames.new.writes }
    ensures bytes { AreBytes bytes.now }
{
    for piece in pieces {
        frames.put(piece.word, piece.mask(), piece.scatter(bytes));
    }
}
