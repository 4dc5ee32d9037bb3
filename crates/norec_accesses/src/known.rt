//! Reads of one whole word that is to be had with no step: the call is answered, with no look at its pieces.

ghost use Rattle.norec_core.specs.Phases as phases;
ghost use Rattle.std.specs.Prelude.{◌≡◌, IfSome, IfNone, false};
ghost use Rattle.norec_turns.specs.InPhases.{IsSound};
ghost use Rattle.norec_turns.specs.Moves.{CallTurns};

use crate::reads::{known_word, start};
use itm_types::{Call, ReadHint, Width};
use norec_data::{CallEnd, Data, Turn, access_refusal};
use word_pieces::Piece;

/// A read comes. Where it is one of a whole word that the write set has whole, or that is logged, it may be answered, with the
/// bytes of this number; where it is not, nothing is done.
#[inline(always)]
pub fn known_number(state: &mut Data, hint: ReadHint, width: Width, at: u64) -> Option<u64>
    requires sound { IsSound state.old phases.Idle }
    ensures none { IfNone result (state.new ≡ state.old) }
    ensures called { IfSome result (λ number. CallTurns state.old (Call.Read hint width at) false (Turn.End (CallEnd.Word number)) state.new) }
{
    if width.size() != 8 || at % 8 != 0 || access_refusal(state, at, 8).is_some() {
        return None;
    }
    let word = Piece {
        word: (at / 8) as u32,
        first: 0,
        count: 8,
        at: 0,
    };
    let number = known_word(state, word)?;
    state.written = state.frames.len();
    start(state);
    Some(number)
}
