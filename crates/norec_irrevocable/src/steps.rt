//! The step that is waited for.

ghost use Rattle.std.specs.Prelude.{◌≡◌, ℕ, ◌+◌, ◌*◌, ◌≤◌, ◌<◌};
ghost use Rattle.word_pieces.specs.Pieces.{count_of, IsPiece};
ghost use Rattle.norec_core.specs.Order.{placed_piece};
ghost use Rattle.norec_data.specs.Turns.{counted};
ghost use Rattle.norec_data.specs.View.{phase_of, step_of};
ghost use Rattle.norec_irrevocable.specs.Phases.{IsSoundHeld};
ghost use Rattle.norec_data.specs.Turns.{IsWaiting};

use itm_types::{MAX_BYTES, Step};
use norec_core::Writing;
use norec_data::{Data, Pending};
use word_pieces::{Piece, merge, piece_at};

/// The step that is waited for, in an irrevocable transaction.
pub fn step_of(state: &Data, pending: Pending) -> Step
    requires sound { IsSoundHeld (counted state.now) (phase_of state.now pending) }
    requires waits { IsWaiting pending }
    ensures { result ≡ step_of state.now (phase_of state.now pending) }
{
    match pending {
        Pending::Load => Step::Load(state.reading.word() + 1),
        Pending::Fetch => Step::Load(piece(state.writing).word + 1),
        Pending::Place => {
            let piece = piece(state.writing);
            let bytes = piece.scatter(&state.gathered);
            let value = match state.got {
                Some(word) => merge(word, piece.mask(), bytes),
                None => bytes,
            };
            Step::Store(piece.word + 1, value)
        }
        Pending::Free => Step::Store(0, state.snapshot + 2),
        _ => unreachable!(),
    }
}

/// The piece that the access is at.
fn piece(writing: Writing) -> Piece
    requires place { writing.at + writing.size ≤ MAX_BYTES }
    requires small { writing.size ≤ 32 }
    requires some { writing.number < count_of writing.at writing.size }
    ensures value { result ≡ placed_piece writing }
    ensures piece { IsPiece result }
    ensures in_value { result.at + result.count ≤ writing.size }
    ensures in_memory { (words : ℕ) → writing.at + writing.size ≤ 8 * words → result.word < words }
{
    match piece_at(writing.at, writing.size, writing.number) {
        Some(piece) => piece,
        None => unreachable!(),
    }
}
