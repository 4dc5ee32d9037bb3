//! Fills: a range of shared memory is set to one byte in the write set, and no step is taken.

ghost use Rattle.norec_core.specs.Phases as phases;
ghost use Rattle.std.specs.Prelude.{◌≡◌, ◌<◌, false, OnOk, replicate};
ghost use Rattle.itm_types.specs.declared.access.WriteHint.{WriteHint};
ghost use Rattle.norec_turns.specs.InPhases.{IsSound};
ghost use Rattle.norec_turns.specs.Moves.{CallComes};

use crate::range::{put_range, reserve_range};
use itm_types::{Call, WriteHint};
use norec_data::{CallEnd, Data, Turn, access_refusal};
use norec_turns::refuse;
use std::alloc::AllocError;
use word_pieces::{Chunks, Direction};

/// So many bytes are set to the low 8 bits of a number. To set none takes no memory.
pub fn fill(state: &mut Data, to: u64, byte: u64, size: u64) -> Result<Turn, AllocError>
    requires sound { IsSound state.old phases.Idle }
    ensures { (hint : WriteHint) → CallComes state.old (Call.Fill hint to byte size) false result state.new }
{
    if let Some(why) = access_refusal(state, to, size) {
        return Ok(refuse(state, why));
    }
    if size > 0 {
        set_all(&mut state.buffer, size as usize, (byte % 256) as u8)?;
        reserve_range(&mut state.frames, to, Chunks::new(size, Direction::Up))?;
        put_range(&mut state.frames, to, Direction::Up, &state.buffer);
    }
    state.start_call();
    Ok(Turn::End(CallEnd::Done))
}

/// Makes the buffer so many bytes of this value.
pub(crate) fn set_all(buffer: &mut Vec<u8>, size: usize, byte: u8) -> Result<(), AllocError>
    ensures { OnOk result (buffer.new.items ≡ replicate size byte) }
{
    buffer.clear();
    buffer.resize(size, byte)
}
