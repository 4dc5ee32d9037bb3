//! Which calls may make the innermost block go back to its begin.

ghost use Rattle.std.specs.Prelude.{◌≡◌};
ghost use Rattle.norec_core.specs.RestartingCalls.{may_validate as validates, reads_shared as reads};

use itm_types::{Call, CopyPair};

/// Whether the call reads shared bytes or takes the clock, within a block that is not the outermost one.
pub(crate) fn may_validate(call: &Call) -> bool
    ensures { result ≡ validates call.now }
{
    match call {
        Call::Begin { props, .. } => props.goes_irrevocable,
        Call::Mode { .. } | Call::Read { .. } => true,
        Call::Copy(copying) => reads_shared(copying.pair),
        _ => false,
    }
}

fn reads_shared(pair: CopyPair) -> bool
    ensures { result ≡ reads pair }
{
    match pair {
        CopyPair::Out(_) => false,
        CopyPair::In(_) | CopyPair::Within(_, _) => true,
    }
}
