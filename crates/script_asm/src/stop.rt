//! Why reading stopped.

ghost use Rattle.std.specs.Prelude.{◌≡◌, Err};
ghost use Rattle.script_asm.specs.declared.stop.Stop.TheVariants.{Memory, Fault};

use script_fields::{AsmFault, FaultKind};
use std::alloc::{AllocError, AllocFailed};

/// Memory was refused, or a line is at fault.
#[derive(Drop)]
pub enum Stop {
    Memory,
    Fault(AsmFault),
}

impl From<AllocError> for Stop {
    ghost from_gives = { λ _ e. e ≡ Memory };

    fn from(_error: AllocError) -> Stop {
        Stop::Memory
    }
}

impl<T: Drop> From<AllocFailed<T>> for Stop {
    ghost from_gives = { λ _ e. e ≡ Memory };

    fn from(_error: AllocFailed<T>) -> Stop {
        Stop::Memory
    }
}

impl From<AsmFault> for Stop {
    ghost from_gives = { λ f e. e ≡ Fault f };

    fn from(fault: AsmFault) -> Stop {
        Stop::Fault(fault)
    }
}

/// The fault of a line.
pub fn fault(line: usize, kind: FaultKind) -> Result<(), Stop>
    ensures { result ≡ Err (Fault (record { line = line; kind = kind })) }
{
    Err(Stop::Fault(AsmFault { line, kind }))
}
