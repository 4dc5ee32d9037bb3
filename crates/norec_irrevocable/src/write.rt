//! Writes: each piece is one store, and before it one load where it is a part of its word.

ghost use Rattle.norec_core.specs.Phases as phases;
ghost use Rattle.norec_core.specs.Phases.{Phase};
ghost use Rattle.std.specs.Prelude.{◌≡◌, ℕ, List, ◌+◌};
ghost use Rattle.itm_types.specs.declared.call.Reply.TheVariants.{Done};
ghost use Rattle.word_pieces.specs.Pieces.{pieces_of, written};
ghost use Rattle.norec_core.specs.Held.{rest_of};
ghost use Rattle.norec_core.specs.Order.{place_from, placed_past};
ghost use Rattle.norec_core.specs.OwnAccesses.{written_by};
ghost use Rattle.norec_data.specs.Bounds.{IsHeld};
ghost use Rattle.norec_data.specs.View.{held, placed_for};
ghost use Rattle.norec_irrevocable.specs.Outcomes.{in_call, kept};
ghost use Rattle.norec_irrevocable.specs.Phases.{HasPlaced, IsSoundHeld, MayPlace};
ghost use Rattle.norec_irrevocable.specs.Moves.{HeldGoesTo, HeldStepTurns, HeldCallTurns};

use crate::access::{are_bytes, next_place, value_of};
use crate::copy::chunk_on;
use crate::fill::fill_on;
use itm_types::{Call, Datum, WriteHint};
use norec_core::{Target, Writing};
use norec_data::{CallEnd, Data, Pending, Turn, access_refusal};

/// A write comes.
pub(crate) fn write(state: &mut Data, hint: WriteHint, at: u64, value: &Datum) -> Turn
    requires held { IsHeld state.old }
    ensures { HeldCallTurns state.old (Call.Write hint at value.now) result state.new }
{
    let refused = access_refusal(state, at, u64::from(value.width.size()));
    state.start_call();
    if let Some(why) = refused {
        state.why = why;
        return Turn::EndIrrevocable(CallEnd::Refused);
    }
    state.value = Datum::new(value.width, &value.bytes);
    state.gathered = value_of(&value.bytes);
    start(
        state,
        Writing {
            target: Target::Value {
                hint,
                width: value.width,
            },
            at,
            size: value.width.size(),
            number: 0,
        },
    )
}

/// The bytes that are gathered are written: the first piece comes.
pub(crate) fn start(state: &mut Data, writing: Writing) -> Turn
    requires held { IsHeld state.old }
    requires may { MayPlace state.old writing }
    ensures goes { (bytes : List ℕ) (past : Phase) → written_by writing.target writing.at writing.size state.old.arena bytes ≡ state.old.gathered.items
        → HeldGoesTo (in_call state.old (placed_for state.old writing.target writing.at) bytes) (place_from past writing)
        (λ m. rest_of writing.target (kept state.old (written m (pieces_of writing.at writing.size) state.old.gathered.items)))
        (λ m. Done) state.old result state.new }
    ensures frame { state.new ≡ record state.old { writing = state.new.writing; got = state.new.got } }
{
    match next_place(writing) {
        Some(pending) => {
            state.writing = writing;
            state.got = None;
            Turn::Wait(pending)
        }
        None => unreachable!(),
    }
}

/// The word of a piece was loaded, to be stored with the piece's bytes.
pub(crate) fn fetched(state: &mut Data, seen: u64) -> Turn
    requires sound { IsSoundHeld state.old (phases.Fetch state.old.writing) }
    ensures { HeldStepTurns state.old (phases.Fetch state.old.writing) seen result state.new }
{
    state.got = Some(seen);
    Turn::Wait(Pending::Place)
}

/// A piece was stored.
pub(crate) fn placed(state: &mut Data) -> Turn
    requires sound { IsSoundHeld state.old (phases.Place state.old.writing state.old.got) }
    ensures { HeldStepTurns state.old (phases.Place state.old.writing state.old.got) 0 result state.new }
{
    are_bytes(&state.gathered);
    let writing = state.writing;
    let next = Writing {
        number: writing.number + 1,
        ..writing
    };
    match next_place(next) {
        Some(pending) => {
            state.writing = next;
            state.got = None;
            Turn::Wait(pending)
        }
        None => past(state, writing),
    }
}

/// The access is written whole: the call is done, or its next chunk comes.
fn past(state: &mut Data, writing: Writing) -> Turn
    requires held { IsHeld state.old }
    requires placed { HasPlaced state.old writing }
    ensures { (bytes : List ℕ) → HeldGoesTo (in_call state.old (placed_for state.old writing.target writing.at) bytes) (placed_past writing.target)
        (λ m. rest_of writing.target (kept state.old m)) (λ m. Done) state.old result state.new }
{
    match writing.target {
        Target::Value { .. } => Turn::EndIrrevocable(CallEnd::Done),
        Target::Fill {
            hint,
            to,
            byte,
            size,
            number,
        } => fill_on(state, hint, to, byte, size, number + 1),
        Target::Chunk { copying, number } => chunk_on(state, copying, number + 1),
    }
}
