//! What is wrong with a text that is no program.

ghost use Rattle.std.specs.Prelude.{◌≡◌};
ghost use Rattle.script_fields.specs.Faults.{number_of, kind_text};

use std::error::Error;
use std::fmt;

/// The kinds of faults. Of several on one line the first of this order is told: `Character`, `Unknown`, `Misplaced`,
/// `Operand`, `Range`, `Unbalanced`, `TooLong`.
#[derive(Clone, Copy, Debug, PartialEq, Eq)]
pub enum FaultKind {
    /// A byte that a line may not hold outside comments.
    Character,
    /// The first field is no word of the language.
    Unknown,
    /// The number or the form of the operands.
    Operand,
    /// A number beyond its limit.
    Range,
    /// A line where the language does not let it stand, or once too often.
    Misplaced,
    /// An end without its beginning, or a beginning without its end.
    Unbalanced,
    /// More of something than may be.
    TooLong,
    /// Memory was refused.
    Memory,
}

impl FaultKind {
    /// The kind's number.
    pub fn number(self) -> u8
        ensures { result ≡ number_of self }
    {
        match self {
            FaultKind::Character => 1,
            FaultKind::Unknown => 2,
            FaultKind::Operand => 3,
            FaultKind::Range => 4,
            FaultKind::Misplaced => 5,
            FaultKind::Unbalanced => 6,
            FaultKind::TooLong => 7,
            FaultKind::Memory => 8,
        }
    }

    /// The kind in words.
    #[tactic(auto, unfolding(crate::specs::Faults::kind_text))]
    pub fn text(self) -> &'static str
        ensures { result.now ≡ kind_text self }
    {
        match self {
            FaultKind::Character => "bad character",
            FaultKind::Unknown => "unknown name",
            FaultKind::Operand => "wrong operand",
            FaultKind::Range => "out of range",
            FaultKind::Misplaced => "misplaced",
            FaultKind::Unbalanced => "unbalanced",
            FaultKind::TooLong => "too long",
            FaultKind::Memory => "no memory",
        }
    }
}

impl fmt::Display for FaultKind {
    ghost use Rattle.std.specs.Prelude.{Some};
    ghost use Rattle.script_fields.specs.Faults.{kind_text};

    ghost output = { λ kind. Some (kind_text kind) };

    fn fmt<W: fmt::Write>(&self, f: &mut fmt::Formatter<W>) -> fmt::Result {
        f.write_str(self.text())
    }
}

/// The first fault of a text: its line, counted from 1, or 0 where no line has it.
#[derive(Clone, Copy, Debug, PartialEq, Eq)]
pub struct AsmFault {
    pub line: usize,
    pub kind: FaultKind,
}

impl fmt::Display for AsmFault {
    ghost use Rattle.std.specs.Prelude.{Some, ◌++◌, codes, decimal};
    ghost use Rattle.script_fields.specs.Faults.{kind_text};

    ghost output = { λ f. Some (codes "line " ++ (decimal f.line ++ (codes ": " ++ kind_text f.kind))) };

    fn fmt<W: fmt::Write>(&self, f: &mut fmt::Formatter<W>) -> fmt::Result {
        let line = self.line;
        let kind = self.kind;
        write!(f, "line {line}: {kind}")
    }
}

impl Error for AsmFault {}
