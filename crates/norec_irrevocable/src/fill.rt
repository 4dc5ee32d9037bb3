//! Fills, chunk by chunk.

ghost use Rattle.std.specs.Prelude.{◌≡◌, ℕ, List, drop, replicate, ◌+◌, ◌%◌, ◌≤◌};
ghost use Rattle.itm_types.specs.declared.call.Reply.TheVariants.{Done};
ghost use Rattle.word_pieces.specs.declared.chunk.Direction.TheVariants.{Up};
ghost use Rattle.word_pieces.specs.Chunks.{chunks_of};
ghost use Rattle.norec_core.specs.Order.{fill_from};
ghost use Rattle.norec_core.specs.Parts.{filled_each};
ghost use Rattle.norec_data.specs.Bounds.{IsHeld};
ghost use Rattle.norec_irrevocable.specs.Outcomes.{in_call, kept};
ghost use Rattle.norec_irrevocable.specs.Phases.{MayFill};
ghost use Rattle.norec_irrevocable.specs.Moves.{HeldGoesTo, HeldCallTurns};

use crate::access::{are_bytes, value_of};
use crate::write::start;
use itm_types::{Call, Value, WriteHint};
use norec_core::{Target, Writing};
use norec_data::{CallEnd, Data, Turn, access_refusal};
use word_pieces::{Chunks, Direction};

/// A fill comes.
pub(crate) fn fill(state: &mut Data, hint: WriteHint, to: u64, byte: u64, size: u64) -> Turn
    requires held { IsHeld state.old }
    ensures { HeldCallTurns state.old (Call.Fill hint to byte size) result state.new }
{
    let refused = access_refusal(state, to, size);
    state.start_call();
    match refused {
        Some(why) => {
            state.why = why;
            Turn::EndIrrevocable(CallEnd::Refused)
        }
        None => fill_on(state, hint, to, byte, size, 0),
    }
}

/// The chunk of this number comes, or the fill is done.
pub(crate) fn fill_on(
    state: &mut Data,
    hint: WriteHint,
    to: u64,
    byte: u64,
    size: u64,
    number: u32,
) -> Turn
    requires held { IsHeld state.old }
    requires may { MayFill state.old to size number }
    ensures { (bytes : List ℕ) → HeldGoesTo (in_call state.old (Call.Fill hint to byte size) bytes) (fill_from hint to byte size number)
        (λ m. filled_each (kept state.old m) to (byte % 256) (drop number (chunks_of Up size))) (λ m. Done) state.old result state.new }
{
    let Some(chunk) = Chunks::new(size, Direction::Up).get(number) else {
        return Turn::EndIrrevocable(CallEnd::Done);
    };
    state.gathered = repeated((byte % 256) as u8, chunk.size);
    are_bytes(&state.gathered);
    start(
        state,
        Writing {
            target: Target::Fill {
                hint,
                to,
                byte,
                size,
                number,
            },
            at: to + chunk.at,
            size: chunk.size,
            number: 0,
        },
    )
}

/// The byte, so many times.
fn repeated(byte: u8, count: u8) -> Value
    requires { count ≤ 32 }
    ensures { result.items ≡ replicate count byte }
{
    value_of(&[byte; 32][..usize::from(count)])
}
