//! The pieces of an access that writes.

ghost use Rattle.std.specs.Prelude.{◌≡◌, ◌<◌, ◌≤◌, ◌+◌, IfSome, IfNone, length, None, Some};
ghost use Rattle.itm_types.specs.Slices.{AreBytes};
ghost use Rattle.word_pieces.specs.Pieces.{count_of};
ghost use Rattle.norec_core.specs.Order.{place_from};
ghost use Rattle.norec_core.specs.Phases.{Phase};
ghost use Rattle.norec_data.specs.declared.data.Data.{Data};
ghost use Rattle.norec_data.specs.View.{phase_of};
ghost use Rattle.norec_irrevocable.specs.Phases.{IsNext};

use itm_types::{MAX_BYTES, Value};
use norec_core::Writing;
use norec_data::Pending;
use word_pieces::piece_at;

/// What the access waits for at its piece, if there are as many: a piece of a whole word is stored at once, and of
/// another one the word is loaded first.
pub(crate) fn next_place(writing: Writing) -> Option<Pending>
    requires place { writing.at + writing.size ≤ MAX_BYTES }
    requires small { writing.size ≤ 32 }
    ensures some { IfSome result (λ pending. (d : Data) → d.writing ≡ writing → d.got ≡ None
        → IsNext writing (phase_of d pending)) }
    ensures none { IfNone result ((past : Phase) → place_from past writing ≡ past) }
    ensures past { IfNone result (count_of writing.at writing.size ≤ writing.number) }
{
    let piece = piece_at(writing.at, writing.size, writing.number)?;
    Some(if piece.mask() == u64::MAX {
        Pending::Place
    } else {
        Pending::Fetch
    })
}

/// These bytes as a value.
pub(crate) fn value_of(bytes: &[u8]) -> Value
    requires { length bytes.now ≤ 32 }
    ensures items { result.items ≡ bytes.now }
    ensures fit { AreBytes bytes.now }
{
    let mut value = Value::new();
    match value.try_extend_from_slice(bytes) {
        Ok(()) => value,
        Err(_) => unreachable!(),
    }
}

/// Each of these is a byte, whatever they are.
pub(crate) fn are_bytes(_bytes: &[u8])
    ensures { AreBytes _bytes.now }
{}
