//! The picture of a history.

ghost use Rattle.std.specs.Prelude.{◌≡◌, ℕ, List, IfErr, IfSome, Ok};
ghost use Rattle.history_picture.specs.Picture.{picture_text};
ghost use Rattle.history_reader.specs.Reading.{read_of};
ghost use Rattle.history_reader.specs.Tellable.{IsHistory};
ghost use Rattle.text_commands.specs.Answers.{Outputs};
ghost use Rattle.text_commands.specs.declared.failure.Failure.TheVariants.{Writing};
ghost use Rattle.tx_history.specs.Spelling.{Writes};
ghost use Rattle.itmsteps.specs.Histories.{Drawn, IsJudgement, IsNote, call_of, drawing, place_of};

use crate::failure::tell_unread;
use history_checker::{Finding, Spot, Verdict, explain};
use history_picture::{Judgement, Note, Seat, columns_of, put_history, seats_of};
use history_reader::ReadFault;
use std::alloc::Global;
use std::io;
use std::io::{Read, Write};
use text_commands::{Failure, read_history};
use tx_attempts::Attempt;
use tx_history::History;

/// Whether the verdict is that a history is legal, and why not.
fn judgement_of(verdict: Verdict) -> Judgement<'static>
    ensures { IsJudgement verdict result }
{
    match verdict {
        Verdict::Legal => Judgement::Legal,
        Verdict::Bad { row, kind } => Judgement::Bad(row, kind.text()),
    }
}

/// Which attempt is wrong.
fn place_of(spot: Option<Spot>) -> Option<usize>
    ensures { result ≡ place_of spot }
{
    match spot {
        Some(spot) => Some(spot.attempt),
        None => None,
    }
}

/// Which of its calls.
fn call_of(spot: Option<Spot>) -> Option<usize>
    ensures { result ≡ call_of spot }
{
    match spot {
        Some(spot) => spot.fault.call,
        None => None,
    }
}

/// What is said of a history of which this is found.
fn note_of(finding: Finding) -> Note<'static>
    ensures { IsNote finding result }
{
    let Finding {
        verdict,
        spot,
        answer,
    } = finding;
    Note {
        judgement: judgement_of(verdict),
        flawed: place_of(spot),
        call: call_of(spot),
        answer,
    }
}

/// Writes a picture, and hands on what the writer holds back.
fn put_drawing<W: Write>(
    writer: &mut W,
    attempts: &[Attempt],
    columns: &[u8],
    seats: &[Seat],
    note: &Note<'_>,
) -> io::Result<()>
    ensures { Writes (W.contents writer.old) (W.contents writer.new) result (picture_text attempts.now columns.now seats.now note.now) }
{
    put_history(writer, attempts, columns, seats, note)?;
    writer.flush()
}

/// Writes a picture, or says that it could not be written.
fn write_drawing<W: Write>(
    writer: &mut W,
    attempts: &[Attempt],
    columns: &[u8],
    seats: &[Seat],
    note: &Note<'_>,
) -> Result<(), Failure<ReadFault>>
    ensures drawn { Writes (W.contents writer.old) (W.contents writer.new) result (picture_text attempts.now columns.now seats.now note.now) }
    ensures failure { IfErr result (λ failure. failure ≡ Writing) }
{
    put_drawing(writer, attempts, columns, seats, note).map_err(|_| Failure::Writing)
}

/// Judges a history, and draws it.
#[tactic(auto, using(text_commands::proofs::Judged::told_memory))]
fn draw<W: Write>(
    alloc: Global,
    history: &History,
    writer: &mut W,
) -> Result<(), Failure<ReadFault>>
    requires { IsHistory history.now }
    ensures { Outputs drawing result (Ok history.now) (W.contents writer.old) (W.contents writer.new) }
{
    let attempts = history.attempts.as_slice();
    let columns = columns_of(alloc, history)?;
    let seats = seats_of(alloc, attempts)?;
    let note = note_of(explain(alloc, history)?);
    write_drawing(writer, attempts, &columns, &seats, &note)
}

/// Reads a history and draws it.
fn draw_history<R: Read, W: Write>(
    alloc: Global,
    reader: &mut R,
    writer: &mut W,
) -> Result<(), Failure<ReadFault>>
    ensures { (text : List ℕ) × IfSome (R.remaining reader.old) (λ all. text ≡ all)
        × Outputs drawing result (read_of text) (W.contents writer.old) (W.contents writer.new) }
{
    let history = read_history(alloc, reader)?;
    draw(alloc, &history, writer)
}

/// Reads a history, writes its picture, and answers the status of the program: 0 where that is written, 2 where the text is no
/// history, 4 where memory was refused, and 5 where reading or writing failed. The errors get a line where the status is not 0.
pub(crate) fn draw_text<R: Read, W: Write, E: Write>(
    alloc: Global,
    reader: &mut R,
    writer: &mut W,
    errors: &mut E,
) -> u8
    ensures { (text : List ℕ) × IfSome (R.remaining reader.old) (λ all. text ≡ all)
        × Drawn text result (W.contents writer.old) (W.contents writer.new) (E.contents errors.old) (E.contents errors.new) }
{
    match draw_history(alloc, reader, writer) {
        Ok(()) => 0,
        Err(failure) => tell_unread(errors, &failure),
    }
}
