//! The shapes of events.

ghost use Rattle.std.specs.Prelude.{◌≡◌};
ghost use Rattle.step_picture.specs.Shapes.{look_shape, shape_of};

use itm_types::Step;

/// The shape of a load of the clock: another one where the clock is no longer as the thread knew it.
#[tactic(auto, unfolding(crate::specs::Shapes::look_shape))]
fn look_shape(found: u64, known: Option<u64>) -> &'static [u8]
    ensures { result.now ≡ look_shape found known }
{
    match known {
        None => b"look",
        Some(known) => { if known == found { b"look" } else { b"moved" } }
    }
}

/// The shape of an operation that finds this value.
#[tactic(auto, unfolding(crate::specs::Shapes::shape_of))]
pub(crate) fn shape_of(step: Step, found: u64, known: Option<u64>) -> &'static [u8]
    ensures { result.now ≡ shape_of step found known }
{
    match step {
        Step::Load(cell) => {
            if cell == 0 {
                look_shape(found, known)
            } else {
                b"load"
            }
        }
        Step::Store(cell, _) => { if cell == 0 { b"free" } else { b"store" } }
        Step::Cas(_, from, _) => { if found == from { b"take" } else { b"miss" } }
    }
}
