//! What is called: an entry point, or an access of the arena.

ghost use Rattle.std.specs.Prelude.{◌≡◌};
ghost use Rattle.history_reader.specs.Calls.{verb_of};

use itm_entries::{Entry, entry_of};
use itm_types::Width;
use script_fields::lookup;

/// What is called.
#[derive(Clone, Copy)]
pub enum Verb {
    /// An entry point of the runtime.
    Point(Entry),
    /// A read of the thread's arena.
    Load(Width),
    /// A write of it.
    Save(Width),
}

/// The accesses of the arena, by name.
const ACCESSES: [(&[u8], Verb); 8] = [
    (b"ld1", Verb::Load(Width::U1)),
    (b"ld2", Verb::Load(Width::U2)),
    (b"ld4", Verb::Load(Width::U4)),
    (b"ld8", Verb::Load(Width::U8)),
    (b"st1", Verb::Save(Width::U1)),
    (b"st2", Verb::Save(Width::U2)),
    (b"st4", Verb::Save(Width::U4)),
    (b"st8", Verb::Save(Width::U8)),
];

/// The access or the entry point of this name.
#[tactic(auto, unfolding(crate::specs::Calls::verb_of))]
pub fn verb_of(field: &[u8]) -> Option<Verb>
    ensures { result ≡ verb_of field.now }
{
    if let Some(verb) = lookup(&ACCESSES, field) {
        return Some(verb);
    }
    match entry_of(field) {
        Some(entry) => Some(Verb::Point(entry)),
        None => None,
    }
}
