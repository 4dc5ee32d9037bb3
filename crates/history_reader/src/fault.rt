//! What is wrong with a text that is no history.

ghost use Rattle.std.specs.Prelude.{◌≡◌};
ghost use Rattle.history_reader.specs.Faults.{kind_text, line_kind};
ghost use Rattle.history_reader.specs.declared.fault.ReadKind.TheVariants.{Memory};

use script_fields::FaultKind;
use std::alloc::{AllocError, AllocFailed};
use std::error::Error;
use std::fmt;

/// The kinds of faults.
#[derive(Clone, Copy, Debug, PartialEq, Eq)]
pub enum ReadKind {
    /// The first line does not name the format.
    Header,
    /// The line is none that may stand here.
    Line,
    /// The line's form is right, and a number or a length in it is none that may be.
    Size,
    /// The text ends in this line before its line feed, or before this line, which was due.
    Cut,
    /// Memory was refused.
    Memory,
}

impl ReadKind {
    /// The kind in words.
    #[tactic(auto, unfolding(crate::specs::Faults::kind_text))]
    pub fn text(self) -> &'static str
        ensures { result.now ≡ kind_text self }
    {
        match self {
            ReadKind::Header => "bad header",
            ReadKind::Line => "bad line",
            ReadKind::Size => "bad size",
            ReadKind::Cut => "cut",
            ReadKind::Memory => "no memory",
        }
    }
}

impl fmt::Display for ReadKind {
    ghost use Rattle.std.specs.Prelude.{Some};
    ghost use Rattle.history_reader.specs.Faults.{kind_text};

    ghost output = { λ kind. Some (kind_text kind) };

    fn fmt<W: fmt::Write>(&self, f: &mut fmt::Formatter<W>) -> fmt::Result {
        f.write_str(self.text())
    }
}

impl From<AllocError> for ReadKind {
    ghost from_gives = { λ _ kind. kind ≡ Memory };

    fn from(_error: AllocError) -> ReadKind {
        ReadKind::Memory
    }
}

impl<T: Drop> From<AllocFailed<T>> for ReadKind {
    ghost from_gives = { λ _ kind. kind ≡ Memory };

    fn from(_error: AllocFailed<T>) -> ReadKind {
        ReadKind::Memory
    }
}

impl From<FaultKind> for ReadKind {
    ghost from_gives = { λ operand kind. kind ≡ line_kind operand };

    fn from(operand: FaultKind) -> ReadKind {
        match operand {
            FaultKind::Range => ReadKind::Size,
            _ => ReadKind::Line,
        }
    }
}

/// The first fault of a text: its line, counted from 1.
#[derive(Clone, Copy, Debug, PartialEq, Eq)]
pub struct ReadFault {
    pub line: usize,
    pub kind: ReadKind,
}

impl fmt::Display for ReadFault {
    ghost use Rattle.std.specs.Prelude.{Some, ◌++◌, codes, decimal};
    ghost use Rattle.history_reader.specs.Faults.{kind_text};

    ghost output = { λ f. Some (codes "line " ++ (decimal f.line ++ (codes ": " ++ kind_text f.kind))) };

    fn fmt<W: fmt::Write>(&self, f: &mut fmt::Formatter<W>) -> fmt::Result {
        let line = self.line;
        let kind = self.kind;
        write!(f, "line {line}: {kind}")
    }
}

impl Error for ReadFault {}
