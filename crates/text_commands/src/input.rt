//! Reading a text that has a limit.

ghost use Rattle.std.specs.Prelude.{◌≡◌, ◌≤◌, IfOk, IfSome, length, take};
ghost use Rattle.std.specs.Io.KnownBytes.{Consumes};
ghost use Rattle.text_commands.specs.Input.{IsFront, failure_of};
ghost use Rattle.text_commands.specs.declared.input.InputFault.TheVariants.{Memory};

use crate::failure::Failure;
use std::alloc::{AllocError, Global};
use std::io::Read;

/// Why there is no text.
#[derive(Drop)]
pub enum InputFault {
    /// Memory was refused.
    Memory,
    /// A read failed.
    Reading,
}

impl From<AllocError> for InputFault {
    ghost from_gives = { λ _ e. e ≡ Memory };

    fn from(_error: AllocError) -> InputFault {
        InputFault::Memory
    }
}

impl<F> From<InputFault> for Failure<F> {
    ghost from_gives = { λ fault failure. failure ≡ failure_of fault };

    fn from(fault: InputFault) -> Failure<F> {
        match fault {
            InputFault::Memory => Failure::NoMemory,
            InputFault::Reading => Failure::Reading,
        }
    }
}

/// Reads to the end, or up to the limit.
#[tactic(auto, using(crate::proofs::ReadTexts::few_more))]
pub fn read_up_to<R: Read>(
    alloc: Global,
    reader: &mut R,
    limit: usize,
) -> Result<Vec<u8>, InputFault>
    ensures read { IfOk result (λ text. IfSome (R.remaining reader.old) (λ all. text.items ≡ take limit all)) }
    ensures few { IsFront (R.remaining reader.old) (R.remaining reader.new) limit }
{
    let mut text = Vec::new(alloc);
    let mut buffer = [0u8; 4096];
    while text.len() < limit {
        let room = (limit - text.len()).min(4096);
        let (part, _) = buffer.split_at_mut(room);
        let n = match reader.read(part) {
            Ok(n) => n,
            Err(_) => return Err(InputFault::Reading),
        };
        if n == 0 {
            break;
        }
        let (got, _) = part.split_at(n);
        text.extend_from_slice(got)?;
    }
    Ok(text)
}
