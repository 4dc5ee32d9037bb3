//! Places.

use crate::register::Register;
use std::fmt;

/// A place, a size or an argument: a number, or what stands in the low 8 bytes of a register.
#[derive(Clone, Copy, Debug, PartialEq, Eq)]
pub enum Place {
    Number(u64),
    Register(Register),
}

impl fmt::Display for Place {
    ghost use Rattle.std.specs.Prelude.{Some};
    ghost use Rattle.script_fields.specs.Spelling.{place_text};

    ghost output = { λ place. Some (place_text place) };

    fn fmt<W: fmt::Write>(&self, f: &mut fmt::Formatter<W>) -> fmt::Result {
        match *self {
            Place::Number(number) => write!(f, "{number}"),
            Place::Register(register) => f.write_str(register.name()),
        }
    }
}
