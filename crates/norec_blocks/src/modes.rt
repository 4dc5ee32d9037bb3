//! Transactions that become irrevocable.

ghost use Rattle.norec_core.specs.Phases as phases;
ghost use Rattle.std.specs.Prelude.{◌≡◌, ◌<◌, None, Some, [], Option, false, map, length, IfSome};
ghost use Rattle.itm_types.specs.declared.call.Props.{Props};
ghost use Rattle.write_set.specs.Marks.{unwritten};
ghost use Rattle.nest_frames.specs.Nest.{made_irrevocable};
ghost use Rattle.norec_core.specs.Core.{irrevocable_room};
ghost use Rattle.norec_core.specs.Phases.{Phase};
ghost use Rattle.norec_data.specs.View.{core};
ghost use Rattle.norec_turns.specs.InPhases.{IsSound};
ghost use Rattle.norec_turns.specs.Between.{blocks_with, entry_end};
ghost use Rattle.norec_turns.specs.Moves.{CallComes};

use crate::commits::exchange;
use itm_types::{Call, Props};
use norec_core::Taking;
use norec_data::{CallEnd, Data, Turn, begin_refusal, mode_refusal};
use std::alloc::AllocError;

/// The transaction is to become irrevocable.
pub fn mode(state: &mut Data, room: u32) -> Result<Turn, AllocError>
    requires sound { IsSound state.old phases.Idle }
    ensures { CallComes state.old (Call.Mode room) false result state.new }
{
    if let Some(why) = mode_refusal(state) {
        state.start_call();
        state.why = why;
        return Ok(Turn::End(CallEnd::Refused));
    }
    state.frames.reserve_actions(room as usize)?;
    state.start_call();
    state.tries = 0;
    Ok(exchange(state, Taking::Mode { room }))
}

/// The room that the call asks for, where it makes the transaction irrevocable.
pub fn irrevocable_room(state: &Data, call: &Call) -> Option<u32>
    ensures { (phase : Phase) → result ≡ irrevocable_room (core state.now phase) call.now }
{
    match call {
        Call::Begin { props, room } => {
            if props.goes_irrevocable && begin_refusal(state, *props).is_none() {
                Some(*room)
            } else {
                None
            }
        }
        Call::Mode { room } => {
            if mode_refusal(state).is_none() {
                Some(*room)
            } else {
                None
            }
        }
        _ => None,
    }
}

/// The write set is stored: the transaction is irrevocable, and where a block of these properties goes irrevocable, it
/// begins.
pub(crate) fn go_irrevocable(state: &mut Data, props: Option<Props>) -> CallEnd
    requires few { IfSome props (λ _. length state.old.frames.blocks < state.old.frames.depth) }
    ensures end { result ≡ entry_end props }
    ensures frames { state.new.frames ≡ record {
      writes = unwritten;
      size = state.old.frames.size;
      depth = state.old.frames.depth;
      blocks = map made_irrevocable (blocks_with props state.old.frames);
      actions = record state.old.frames.actions { undos = [] };
      room = state.old.frames.room;
    } }
    ensures log { state.new.log.rows ≡ [] }
    ensures others { state.new ≡ record state.old { frames = state.new.frames; log = state.new.log } }
{
    let end = match props {
        Some(props) => {
            state.frames.enter(props, 0);
            CallEnd::Entered
        }
        None => CallEnd::Done,
    };
    state.frames.make_irrevocable();
    state.log.clear();
    end
}
