//! Fields that are one of a few words.

ghost use Rattle.std.specs.Prelude.{◌≡◌};
ghost use Rattle.history_reader.specs.Words.{outcome, kind, block_props};

use itm_types::{ActionKind, Props};
use script_fields::{FaultKind, lookup};
use tx_attempts::Outcome;

/// How an attempt stands, by name.
const OUTCOMES: [(&[u8], Outcome); 7] = [
    (b"committed", Outcome::Committed),
    (b"readonly", Outcome::ReadOnly),
    (b"cancelled", Outcome::Cancelled),
    (b"conflict", Outcome::Conflict),
    (b"full", Outcome::Full),
    (b"nomemory", Outcome::NoMemory),
    (b"unfinished", Outcome::Unfinished),
];

/// When actions run, by name.
const KINDS: [(&[u8], ActionKind); 2] = [
    (b"commit", ActionKind::Commit),
    (b"undo", ActionKind::Undo),
];

/// The properties of a block, as they are written: each name once, and in order.
const PROPS: [(&[u8], Props); 8] = [
    (
        b"-",
        Props {
            no_abort: false,
            no_irrevocable: false,
            goes_irrevocable: false,
        },
    ),
    (
        b"pr_hasNoAbort",
        Props {
            no_abort: true,
            no_irrevocable: false,
            goes_irrevocable: false,
        },
    ),
    (
        b"pr_hasNoIrrevocable",
        Props {
            no_abort: false,
            no_irrevocable: true,
            goes_irrevocable: false,
        },
    ),
    (
        b"pr_doesGoIrrevocable",
        Props {
            no_abort: false,
            no_irrevocable: false,
            goes_irrevocable: true,
        },
    ),
    (
        b"pr_hasNoAbort+pr_hasNoIrrevocable",
        Props {
            no_abort: true,
            no_irrevocable: true,
            goes_irrevocable: false,
        },
    ),
    (
        b"pr_hasNoAbort+pr_doesGoIrrevocable",
        Props {
            no_abort: true,
            no_irrevocable: false,
            goes_irrevocable: true,
        },
    ),
    (
        b"pr_hasNoIrrevocable+pr_doesGoIrrevocable",
        Props {
            no_abort: false,
            no_irrevocable: true,
            goes_irrevocable: true,
        },
    ),
    (
        b"pr_hasNoAbort+pr_hasNoIrrevocable+pr_doesGoIrrevocable",
        Props {
            no_abort: true,
            no_irrevocable: true,
            goes_irrevocable: true,
        },
    ),
];

/// How an attempt stands.
#[tactic(auto, unfolding(crate::specs::Words::outcome))]
pub fn outcome(field: &[u8]) -> Result<Outcome, FaultKind>
    ensures { result ≡ outcome field.now }
{
    lookup(&OUTCOMES, field).ok_or(FaultKind::Operand)
}

/// When an action ran.
#[tactic(auto, unfolding(crate::specs::Words::kind))]
pub fn kind(field: &[u8]) -> Result<ActionKind, FaultKind>
    ensures { result ≡ kind field.now }
{
    lookup(&KINDS, field).ok_or(FaultKind::Operand)
}

/// The properties of a block.
#[tactic(auto, unfolding(crate::specs::Words::block_props))]
pub fn block_props(field: &[u8]) -> Result<Props, FaultKind>
    ensures { result ≡ block_props field.now }
{
    lookup(&PROPS, field).ok_or(FaultKind::Operand)
}
