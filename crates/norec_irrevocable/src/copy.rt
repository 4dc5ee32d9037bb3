//! Copies: each chunk is read and written before the next one.

ghost use Rattle.std.specs.Prelude.{◌≡◌, ℕ, List, drop, ◌+◌, true, None, false};
ghost use Rattle.itm_types.specs.declared.call.Reply.TheVariants.{Done};
ghost use Rattle.itm_model.specs.Machine.{written};
ghost use Rattle.norec_core.specs.Copies.{chunks_in, is_out};
ghost use Rattle.norec_core.specs.Order.{chunk_from, place_from};
ghost use Rattle.norec_core.specs.OwnAccesses.{chunk_source};
ghost use Rattle.norec_core.specs.Parts.{copied_each};
ghost use Rattle.norec_core.specs.Phases.{Phase};
ghost use Rattle.norec_data.specs.Bounds.{IsHeld};
ghost use Rattle.norec_data.specs.View.{held};
ghost use Rattle.norec_irrevocable.specs.Outcomes.{in_call, kept};
ghost use Rattle.norec_irrevocable.specs.Phases.{MayCopy, MayStore};
ghost use Rattle.norec_irrevocable.specs.Moves.{HeldGoesTo, HeldCallTurns};

use crate::access::{are_bytes, value_of};
use crate::write::start;
use itm_types::{Call, CopyPair, Copying, Value};
use norec_core::{Target, Writing};
use norec_data::{CallEnd, Data, Pending, Turn, chunk_reading, chunks, copy_refusal};

/// A copy comes.
pub(crate) fn copy(state: &mut Data, copying: Copying) -> Turn
    requires held { IsHeld state.old }
    ensures { HeldCallTurns state.old (Call.Copy copying) result state.new }
{
    let refused = copy_refusal(state, copying);
    state.start_call();
    match refused {
        Some(why) => {
            state.why = why;
            Turn::EndIrrevocable(CallEnd::Refused)
        }
        None => chunk_on(state, copying, 0),
    }
}

/// The chunk of this number comes, or the copy is done.
pub(crate) fn chunk_on(state: &mut Data, copying: Copying, number: u32) -> Turn
    requires held { IsHeld state.old }
    requires may { MayCopy state.old copying number }
    ensures { (bytes : List ℕ) → HeldGoesTo (in_call state.old (Call.Copy copying) bytes) (chunk_from copying number)
        (λ m. copied_each (kept state.old m) copying (drop number (chunks_in copying))) (λ m. Done) state.old result state.new }
{
    match copying.pair {
        CopyPair::Out(_) => send_chunk(state, copying, number),
        CopyPair::In(_) | CopyPair::Within(_, _) => load_chunk(state, copying, number),
    }
}

/// The same of a copy out of the arena.
fn send_chunk(state: &mut Data, copying: Copying, number: u32) -> Turn
    requires held { IsHeld state.old }
    requires out { is_out copying.pair ≡ true }
    requires may { MayCopy state.old copying number }
    ensures { (bytes : List ℕ) → HeldGoesTo (in_call state.old (Call.Copy copying) bytes) (chunk_from copying number)
        (λ m. copied_each (kept state.old m) copying (drop number (chunks_in copying))) (λ m. Done) state.old result state.new }
{
    let Some(chunk) = chunks(copying).get(number) else {
        return Turn::EndIrrevocable(CallEnd::Done);
    };
    // (what holds of every arena: it is small)
    let _bytes = state.arena.size();
    let first = (copying.from + chunk.at) as usize;
    let end = first + usize::from(chunk.size);
    state.gathered = value_of(&state.arena.bytes()[first..end]);
    store_chunk(state, copying, number, chunk.at, chunk.size)
}

/// And of one that reads shared memory.
fn load_chunk(state: &mut Data, copying: Copying, number: u32) -> Turn
    requires held { IsHeld state.old }
    requires shared { is_out copying.pair ≡ false }
    requires may { MayCopy state.old copying number }
    ensures { (bytes : List ℕ) → HeldGoesTo (in_call state.old (Call.Copy copying) bytes) (chunk_from copying number)
        (λ m. copied_each (kept state.old m) copying (drop number (chunks_in copying))) (λ m. Done) state.old result state.new }
{
    let Some(reading) = chunk_reading(copying, number) else {
        return Turn::EndIrrevocable(CallEnd::Done);
    };
    state.gathered = Value::new();
    state.reading = reading;
    Turn::Wait(Pending::Load)
}

/// The bytes of a chunk, so far from the first of the copy, are gathered: they are written.
pub(crate) fn store_chunk(
    state: &mut Data,
    copying: Copying,
    number: u32,
    at: u64,
    size: u8,
) -> Turn
    requires held { IsHeld state.old }
    requires may { MayStore state.old copying number at size }
    ensures goes { (bytes : List ℕ) (past : Phase) → chunk_source copying copying.pair (copying.to + at) size state.old.arena bytes ≡ state.old.gathered.items
        → HeldGoesTo (in_call state.old (Call.Copy copying) bytes)
        (place_from past (record { target = Target.Chunk copying number; at = copying.to + at; size = size; number = 0 }))
        (λ m. copied_each (written (kept state.old m) (copying.to + at) state.old.gathered.items) copying (drop (number + 1) (chunks_in copying)))
        (λ m. Done) state.old result state.new }
    ensures frame { state.new ≡ record state.old { writing = state.new.writing; got = state.new.got } }
{
    are_bytes(&state.gathered);
    start(
        state,
        Writing {
            target: Target::Chunk { copying, number },
            at: copying.to + at,
            size,
            number: 0,
        },
    )
}
