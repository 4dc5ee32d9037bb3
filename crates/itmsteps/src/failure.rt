//! Why no run is shown, and what is said of that.

ghost use Rattle.std.specs.Prelude.{◌≡◌};
ghost use Rattle.tx_history.specs.Spelling.{Puts};
ghost use Rattle.text_commands.specs.Answers.{Says};
ghost use Rattle.text_commands.specs.Lines.{failure_status};
ghost use Rattle.itmsteps.specs.Doing.{failure_line};
ghost use Rattle.itmsteps.specs.Faults.{fault_text};
ghost use Rattle.itmsteps.specs.Histories.{history_line};

use history_reader::ReadFault;
use script_asm::AsmFault;
use std::io;
use std::io::Write;
use text_commands::{Failure, status_after};
use tx_history::{Piece, put_pieces};

/// Writes the line on a fault of a script: the number of its line, and the words.
#[tactic(auto, unfolding(crate::specs::Faults::fault_text), using(tx_history::proofs::TextPieces::put_as))]
fn put_fault<E: Write>(errors: &mut E, line: usize, words: &[u8]) -> io::Result<()>
    ensures { Puts (E.contents errors.old) (E.contents errors.new) result (fault_text line words.now) }
{
    put_pieces(
        errors,
        &[
            Piece::Text(b"itmsteps: line "),
            Piece::Number(line as u64),
            Piece::Text(b": "),
            Piece::Text(words),
            Piece::Text(b"\n"),
        ],
    )
}

/// Writes the line on it.
fn put_failure<E: Write>(errors: &mut E, failure: &Failure<AsmFault>) -> io::Result<()>
    ensures { Puts (E.contents errors.old) (E.contents errors.new) result (failure_line failure.now) }
{
    match failure {
        Failure::Faulty(fault) => put_fault(errors, fault.line, fault.kind.text().as_bytes()),
        Failure::NoMemory => put_pieces(errors, &[Piece::Text(b"itmsteps: no memory\n")]),
        Failure::NoThread => put_pieces(errors, &[Piece::Text(b"itmsteps: no thread\n")]),
        Failure::Reading => put_pieces(errors, &[Piece::Text(b"itmsteps: reading failed\n")]),
        Failure::Writing => put_pieces(errors, &[Piece::Text(b"itmsteps: writing failed\n")]),
    }
}

/// The program's status.
fn status_of(failure: &Failure<AsmFault>) -> u8
    ensures { result ≡ failure_status failure.now }
{
    match failure {
        Failure::Faulty(_) => 2,
        Failure::NoMemory | Failure::NoThread => 4,
        Failure::Reading | Failure::Writing => 5,
    }
}

/// Says it on the errors, and answers the program's status.
pub(crate) fn tell<E: Write>(errors: &mut E, failure: &Failure<AsmFault>) -> u8
    ensures { Says (failure_line failure.now) (failure_status failure.now) result (E.contents errors.old) (E.contents errors.new) }
{
    status_after(put_failure(errors, failure), status_of(failure))
}

/// Writes the line on a failure of a history.
fn put_unread<E: Write>(errors: &mut E, failure: &Failure<ReadFault>) -> io::Result<()>
    ensures { Puts (E.contents errors.old) (E.contents errors.new) result (history_line failure.now) }
{
    match failure {
        Failure::Faulty(fault) => put_fault(errors, fault.line, fault.kind.text().as_bytes()),
        Failure::NoMemory => put_pieces(errors, &[Piece::Text(b"itmsteps: no memory\n")]),
        Failure::NoThread => put_pieces(errors, &[Piece::Text(b"itmsteps: no thread\n")]),
        Failure::Reading => put_pieces(errors, &[Piece::Text(b"itmsteps: reading failed\n")]),
        Failure::Writing => put_pieces(errors, &[Piece::Text(b"itmsteps: writing failed\n")]),
    }
}

/// The program's status after it.
fn unread_status(failure: &Failure<ReadFault>) -> u8
    ensures { result ≡ failure_status failure.now }
{
    match failure {
        Failure::Faulty(_) => 2,
        Failure::NoMemory | Failure::NoThread => 4,
        Failure::Reading | Failure::Writing => 5,
    }
}

/// Says on the errors why no history is drawn, and answers the program's status.
pub(crate) fn tell_unread<E: Write>(errors: &mut E, failure: &Failure<ReadFault>) -> u8
    ensures { Says (history_line failure.now) (failure_status failure.now) result (E.contents errors.old) (E.contents errors.new) }
{
    status_after(put_unread(errors, failure), unread_status(failure))
}
