//! Fields as registers and places, and two operands at once.

ghost use Rattle.std.specs.Prelude.{◌≡◌};
ghost use Rattle.script_fields.specs.Operands.{both, named, register, place};

use crate::fault::FaultKind;
use crate::names::lookup;
use crate::numbers::number;
use crate::place::Place;
use crate::register::Register;

/// The registers, by name.
const REGISTERS: [(&[u8], Register); 16] = [
    (b"r0", Register::R0),
    (b"r1", Register::R1),
    (b"r2", Register::R2),
    (b"r3", Register::R3),
    (b"r4", Register::R4),
    (b"r5", Register::R5),
    (b"r6", Register::R6),
    (b"r7", Register::R7),
    (b"r8", Register::R8),
    (b"r9", Register::R9),
    (b"r10", Register::R10),
    (b"r11", Register::R11),
    (b"r12", Register::R12),
    (b"r13", Register::R13),
    (b"r14", Register::R14),
    (b"r15", Register::R15),
];

/// The register of this name.
#[tactic(auto, unfolding(crate::specs::Operands::named))]
fn named(field: &[u8]) -> Option<Register>
    ensures { result ≡ named field.now }
{
    lookup(&REGISTERS, field)
}

/// `r0` to `r15`.
pub fn register(field: &[u8]) -> Result<Register, FaultKind>
    ensures { result ≡ register field.now }
{
    named(field).ok_or(FaultKind::Operand)
}

/// A register, or else a number.
#[tactic(auto, unfolding(crate::specs::Operands::place))]
pub fn place(field: &[u8]) -> Result<Place, FaultKind>
    ensures { result ≡ place field.now }
{
    match named(field) {
        Some(register) => Ok(Place::Register(register)),
        None => Ok(Place::Number(number(field)?)),
    }
}

/// Two operands: a wrong form of either goes before a number beyond its limit.
pub fn both<A: Drop, B: Drop>(
    a: Result<A, FaultKind>,
    b: Result<B, FaultKind>,
) -> Result<(A, B), FaultKind>
    ensures { result ≡ both a b }
{
    match (a, b) {
        (Ok(a), Ok(b)) => Ok((a, b)),
        (Ok(_), Err(kind)) => Err(kind),
        (Err(kind), Ok(_)) => Err(kind),
        (Err(FaultKind::Operand), Err(_)) => Err(FaultKind::Operand),
        (Err(_), Err(kind)) => Err(kind),
    }
}
