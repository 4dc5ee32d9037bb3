//! The step that is waited for.

ghost use Rattle.std.specs.Prelude.{◌≡◌};
ghost use Rattle.norec_data.specs.View.{phase_of, step_of};
ghost use Rattle.norec_turns.specs.InPhases.{IsSound};
ghost use Rattle.norec_data.specs.Turns.{counted};

use itm_types::Step;
use norec_data::{Data, Pending};
use word_pieces::merge;

/// The step that is waited for.
#[inline(always)]
pub fn step_of(state: &Data, pending: Pending) -> Step
    requires sound { IsSound (counted state.now) (phase_of state.now pending) }
    ensures { result ≡ step_of state.now (phase_of state.now pending) }
{
    // (the bound of a number)
    let _words = state.words;
    match pending {
        Pending::Idle
        | Pending::Begin
        | Pending::Confirm(_)
        | Pending::RoundStart
        | Pending::RoundEnd
        | Pending::RoundBack(_) => Step::Load(0),
        Pending::Load => Step::Load(state.reading.word() + 1),
        Pending::RoundRow(row) => {
            let logged = state.log.row(row);
            Step::Load(logged.word + 1)
        }
        Pending::Take | Pending::Exchange => Step::Cas(0, state.snapshot, state.snapshot + 1),
        Pending::BackLoad(row) => {
            let written = state.frames.row(row);
            Step::Load(written.word + 1)
        }
        Pending::Store(row) => {
            let written = state.frames.row(row);
            let value = match state.got {
                Some(word) => merge(word, written.mask, written.value),
                None => written.value,
            };
            Step::Store(written.word + 1, value)
        }
        Pending::Free => Step::Store(0, state.snapshot + 2),
        Pending::Fetch | Pending::Place => unreachable!(),
    }
}
