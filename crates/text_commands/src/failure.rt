//! Why a command did not do its work, and what is said of that.

ghost use Rattle.std.specs.Prelude.{◌≡◌, is_ok, if◌then◌else◌};
ghost use Rattle.tx_history.specs.Spelling.{Puts};
ghost use Rattle.text_commands.specs.declared.failure.Failure.TheVariants.{NoMemory};
ghost use Rattle.text_commands.specs.Lines.{failure_line, failure_status};
ghost use Rattle.text_commands.specs.Answers.{Says};

use crate::fault::Fault;
use std::alloc::AllocError;
use std::fmt::{Debug, Display};
use std::io;
use std::io::Write;
use thiserror::Error;
use tx_history::{Piece, put_pieces};

/// Why a command did not do its work.
#[derive(Debug, Drop, Error)]
#[error_bound(F: Debug + Display)]
pub enum Failure<F> {
    /// The text has this fault.
    #[error("{0}")]
    Faulty(F),
    /// Memory was refused.
    #[error("no memory")]
    NoMemory,
    /// A thread was refused.
    #[error("no thread")]
    NoThread,
    /// A read failed, or the text is longer than it may be.
    #[error("reading failed")]
    Reading,
    /// A write failed.
    #[error("writing failed")]
    Writing,
}

impl<F> From<AllocError> for Failure<F> {
    ghost from_gives = { λ _ failure. failure ≡ NoMemory };

    fn from(_error: AllocError) -> Failure<F> {
        Failure::NoMemory
    }
}

impl<F: Fault> Failure<F> {
    /// Writes the line on it.
    fn put_line<E: Write>(&self, errors: &mut E) -> io::Result<()>
        ensures { Puts (E.contents errors.old) (E.contents errors.new) result (failure_line F.line self.now) }
    {
        match self {
            Failure::Faulty(fault) => fault.put_line(errors),
            Failure::NoMemory => put_pieces(errors, &[Piece::Text(b"itmrun: no memory\n")]),
            Failure::NoThread => put_pieces(errors, &[Piece::Text(b"itmrun: no thread\n")]),
            Failure::Reading => put_pieces(errors, &[Piece::Text(b"itmrun: reading failed\n")]),
            Failure::Writing => put_pieces(errors, &[Piece::Text(b"itmrun: writing failed\n")]),
        }
    }

    /// The program's status.
    fn status(&self) -> u8
        ensures { result ≡ failure_status self.now }
    {
        match self {
            Failure::Faulty(_) => 2,
            Failure::NoMemory | Failure::NoThread => 4,
            Failure::Reading | Failure::Writing => 5,
        }
    }

    /// Says it on the errors, and answers the program's status.
    pub fn tell<E: Write>(&self, errors: &mut E) -> u8
        ensures { Says (failure_line F.line self.now) (failure_status self.now) result (E.contents errors.old)
            (E.contents errors.new) }
    {
        status_after(self.put_line(errors), self.status())
    }
}

/// The program's status, where the errors were to get what is said: the one that is due, or 5 where that failed.
pub fn status_after(said: io::Result<()>, due: u8) -> u8
    ensures { result ≡ (if is_ok said then due else 5) }
{
    match said {
        Ok(()) => due,
        Err(_) => 5,
    }
}
