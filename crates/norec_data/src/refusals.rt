//! Why a call is refused.

ghost use Rattle.std.specs.Prelude.{◌≡◌, ◌<◌, ◌≤◌, ◌+◌, ◌*◌, ◌&&◌, true, nat_le, nat_lt, is_none, length, IfNone};
ghost use Rattle.itm_model.specs.Machine.{is_clear, unless};
ghost use Rattle.nest_frames.specs.Nest.{stays_revocable};
ghost use Rattle.norec_core.specs.Accesses.{access_refusal, begin_refusal, mode_refusal};
ghost use Rattle.norec_core.specs.Core.{may_go};
ghost use Rattle.norec_core.specs.Copies.{arena_refusal, copy_refusal, shared_refusal, source_refusal, target_refusal};
ghost use Rattle.norec_data.specs.View.{in_block};

use crate::copies::overlaps;
use crate::data::Data;
use itm_types::{CopyPair, Copying, MAX_WORDS, Props, Refusal};

/// Why a read, a write or a fill of so many bytes from a place on is refused, if it is.
pub fn access_refusal(state: &Data, at: u64, size: u64) -> Option<Refusal>
    requires { state.now.words ≤ MAX_WORDS }
    ensures value { result ≡ access_refusal (in_block state.now) state.now.words at size }
    ensures served { is_none result ≡ (in_block state.now && nat_le (at + size) (8 * state.now.words)) }
{
    if !state.is_open() {
        Some(Refusal::Outside)
    } else if !is_within(state.words, at, size) {
        Some(Refusal::OutOfRange)
    } else {
        None
    }
}

/// Why a copy is refused, if it is: the bytes that it writes are tested first, then those that it reads, then what they
/// have in common.
pub fn copy_refusal(state: &Data, copying: Copying) -> Option<Refusal>
    requires { state.now.words ≤ MAX_WORDS }
    ensures { result ≡ copy_refusal (in_block state.now) state.now.words (length state.now.arena) copying }
{
    if !state.is_open() {
        return Some(Refusal::Outside);
    }
    target_refusal(state, copying)
        .or(source_refusal(state, copying))
        .or(overlap_refusal(copying))
}

/// Why the bytes that a copy writes are not to be had, if they are not.
fn target_refusal(state: &Data, copying: Copying) -> Option<Refusal>
    requires { state.now.words ≤ MAX_WORDS }
    ensures { result ≡ target_refusal state.now.words (length state.now.arena) copying.pair copying.to copying.size }
{
    match copying.pair {
        CopyPair::In(_) => arena_refusal(state, copying.to, copying.size),
        CopyPair::Out(_) | CopyPair::Within(_, _) => {
            shared_refusal(state, copying.to, copying.size)
        }
    }
}

/// And those that it reads.
fn source_refusal(state: &Data, copying: Copying) -> Option<Refusal>
    requires { state.now.words ≤ MAX_WORDS }
    ensures { result ≡ source_refusal state.now.words (length state.now.arena) copying.pair copying.from copying.size }
{
    match copying.pair {
        CopyPair::Out(_) => arena_refusal(state, copying.from, copying.size),
        CopyPair::In(_) | CopyPair::Within(_, _) => {
            shared_refusal(state, copying.from, copying.size)
        }
    }
}

/// A copy that does not move takes no two shared ranges with a byte in common.
fn overlap_refusal(copying: Copying) -> Option<Refusal>
    ensures { result ≡ unless (is_clear copying) Refusal.Overlap }
{
    if overlaps(copying) && !copying.moves {
        Some(Refusal::Overlap)
    } else {
        None
    }
}

/// So many bytes leave the memory.
fn shared_refusal(state: &Data, place: u64, size: u64) -> Option<Refusal>
    requires { state.now.words ≤ MAX_WORDS }
    ensures { result ≡ shared_refusal state.now.words place size }
{
    if is_within(state.words, place, size) {
        None
    } else {
        Some(Refusal::OutOfRange)
    }
}

/// So many bytes leave the arena.
fn arena_refusal(state: &Data, place: u64, size: u64) -> Option<Refusal>
    ensures { result ≡ arena_refusal (length state.now.arena) place size }
{
    if state.arena.contains(place, size) {
        None
    } else {
        Some(Refusal::OutOfArena)
    }
}

/// Whether so many bytes from a place on lie within the memory.
fn is_within(words: u32, at: u64, size: u64) -> bool
    requires { words ≤ MAX_WORDS }
    ensures { result ≡ nat_le (at + size) (8 * words) }
{
    let bytes = 8 * u64::from(words);
    size <= bytes && at <= bytes - size
}

/// Why a block of these properties does not begin, if it does not.
pub fn begin_refusal(state: &Data, props: Props) -> Option<Refusal>
    ensures refusal { result ≡ begin_refusal (may_go state.now.frames.blocks props) (nat_lt (length state.now.frames.blocks) state.now.frames.depth) }
    ensures served { IfNone result ((may_go state.now.frames.blocks props ≡ true) × (length state.now.frames.blocks < state.now.frames.depth)) }
{
    if props.goes_irrevocable && (props.no_irrevocable || state.frames.stays_revocable()) {
        Some(Refusal::NoIrrevocable)
    } else if state.frames.depth() == state.frames.deepest() {
        Some(Refusal::TooDeep)
    } else {
        None
    }
}

/// Why the transaction does not become irrevocable, if it does not.
pub fn mode_refusal(state: &Data) -> Option<Refusal>
    ensures { result ≡ mode_refusal (in_block state.now) (stays_revocable state.now.frames.blocks) }
{
    if !state.is_open() {
        Some(Refusal::Outside)
    } else if state.frames.stays_revocable() {
        Some(Refusal::NoIrrevocable)
    } else {
        None
    }
}
