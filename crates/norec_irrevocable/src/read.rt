//! Reads, and chunks of a copy's source.

ghost use Rattle.norec_core.specs.Phases as phases;
ghost use Rattle.std.specs.Prelude.{◌-◌, ◌+◌};
ghost use Rattle.norec_core.specs.Held.{answered, reading as reading_of};
ghost use Rattle.norec_core.specs.Order.{read_past};
ghost use Rattle.norec_core.specs.OwnAccesses.{access_saved};
ghost use Rattle.norec_data.specs.Bounds.{IsHeld};
ghost use Rattle.norec_data.specs.View.{call_for, held};
ghost use Rattle.norec_irrevocable.specs.Outcomes.{in_call, kept};
ghost use Rattle.norec_irrevocable.specs.Phases.{HasLoaded, IsSoundHeld};
ghost use Rattle.norec_irrevocable.specs.Moves.{HeldGoesTo, HeldStepTurns, HeldCallTurns};

use crate::copy::{chunk_on, store_chunk};
use itm_types::{Call, CopyPair, ReadHint, Value, Width};
use norec_core::{Purpose, Reading};
use norec_data::{CallEnd, Data, Pending, Turn, access_refusal};

/// A read comes.
pub(crate) fn read(state: &mut Data, hint: ReadHint, width: Width, at: u64) -> Turn
    requires held { IsHeld state.old }
    ensures { HeldCallTurns state.old (Call.Read hint width at) result state.new }
{
    let refused = access_refusal(state, at, u64::from(width.size()));
    state.start_call();
    if let Some(why) = refused {
        state.why = why;
        return Turn::EndIrrevocable(CallEnd::Refused);
    }
    state.gathered = Value::new();
    state.reading = Reading {
        purpose: Purpose::Value { hint, width },
        at,
        size: width.size(),
        number: 0,
    };
    Turn::Wait(Pending::Load)
}

/// The word of a piece was loaded.
pub(crate) fn loaded(state: &mut Data, seen: u64) -> Turn
    requires sound { IsSoundHeld state.old (phases.Load state.old.reading) }
    ensures { HeldStepTurns state.old (phases.Load state.old.reading) seen result state.new }
{
    let reading = state.reading;
    let Some(piece) = reading.piece() else {
        unreachable!();
    };
    piece.gather(seen, &mut state.gathered);
    let next = reading.next();
    if next.piece().is_some() {
        state.reading = next;
        Turn::Wait(Pending::Load)
    } else {
        whole(state, reading)
    }
}

/// The access is read whole: its bytes are answered, or are a chunk of a copy's source.
fn whole(state: &mut Data, reading: Reading) -> Turn
    requires held { IsHeld state.old }
    requires loaded { HasLoaded state.old reading }
    ensures { HeldGoesTo (record (in_call state.old (call_for reading.purpose reading.at) state.old.gathered.items) {
      arena = access_saved reading.purpose reading.at state.old.arena state.old.gathered.items;
    }) (read_past reading.purpose) (λ m. reading_of reading.purpose reading (kept state.old m) state.old.gathered.items)
        (λ m. answered reading.purpose state.old.gathered.items) state.old result state.new }
{
    match reading.purpose {
        Purpose::Value { .. } => Turn::EndIrrevocable(CallEnd::Gathered),
        Purpose::Chunk { copying, number } => match copying.pair {
            CopyPair::In(_) => {
                // (what holds of every arena: it is small)
                let _bytes = state.arena.size();
                let start = (copying.to + (reading.at - copying.from)) as usize;
                state.arena.put(start, &state.gathered);
                chunk_on(state, copying, number + 1)
            }
            CopyPair::Out(_) => unreachable!(),
            CopyPair::Within(_, _) => {
                store_chunk(
                    state,
                    copying,
                    number,
                    reading.at - copying.from,
                    reading.size,
                )
            }
        },
    }
}
