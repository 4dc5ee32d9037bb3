//! Histories that are judged, and what they are answered.

ghost use Rattle.std.specs.Prelude.{◌≡◌, ◌+◌, ℕ, List, IfErr, IfOk, IfSome, Ok};
ghost use Rattle.history_reader.specs.Reading.{read_of};
ghost use Rattle.history_reader.specs.Tellable.{IsHistory};
ghost use Rattle.tx_history.specs.Spelling.{Writes};
ghost use Rattle.text_commands.specs.declared.failure.Failure.TheVariants.{Writing};
ghost use Rattle.text_commands.specs.Input.{IsFront};
ghost use Rattle.text_commands.specs.Answers.{Answers, Outputs, Reads};
ghost use Rattle.text_commands.specs.Commands.{judging, verdict_status, verdict_text};

use crate::failure::Failure;
use crate::input::read_up_to;
use crate::output::write_pieces;
use history_checker::Verdict;
use history_reader::{ReadFault, ReadKind, read};
use std::alloc::Global;
use std::io::{Read, Write};
use tx_history::{History, Piece};

/// So many bytes a history may have: 2^40.
pub const MAX_HISTORY: usize = 1_099_511_627_776;

/// What the limit of histories is, as a number. Does nothing.
pub fn largest_history()
    ensures { MAX_HISTORY ≡ 1099511627776 }
{}

/// The history of a text.
fn history_of(alloc: Global, text: &[u8]) -> Result<History, Failure<ReadFault>>
    ensures read { Reads result (read_of text.now) }
    ensures history { IfOk result (λ h. IsHistory h) }
{
    match read(alloc, text) {
        Ok(history) => Ok(history),
        Err(fault) => match fault.kind {
            ReadKind::Memory => Err(Failure::NoMemory),
            _ => Err(Failure::Faulty(fault)),
        },
    }
}

/// Reads a history. Of its text no more is read than decides that it is too long.
pub fn read_history<R: Read>(alloc: Global, reader: &mut R) -> Result<History, Failure<ReadFault>>
    ensures read { (text : List ℕ) × IfSome (R.remaining reader.old) (λ all. text ≡ all) × Reads result (read_of text) }
    ensures history { IfOk result (λ h. IsHistory h) }
    ensures few { IsFront (R.remaining reader.old) (R.remaining reader.new) (MAX_HISTORY + 1) }
{
    let text = read_up_to(alloc, reader, MAX_HISTORY + 1)?;
    if text.len() > MAX_HISTORY {
        return Err(Failure::Reading);
    }
    history_of(alloc, &text)
}

/// Writes the line of a verdict.
#[tactic(auto, unfolding(crate::specs::Commands::verdict_text))]
fn write_verdict<W: Write>(writer: &mut W, verdict: Verdict) -> Result<(), Failure<ReadFault>>
    ensures writes { Writes (W.contents writer.old) (W.contents writer.new) result (verdict_text verdict) }
    ensures failure { IfErr result (λ failure. failure ≡ Writing) }
{
    match verdict {
        Verdict::Legal => write_pieces(writer, &[Piece::Text(b"legal\n")]),
        Verdict::Bad { row, kind } => write_pieces(
            writer,
            &[
                Piece::Text(b"bad "),
                Piece::Number(row),
                Piece::Text(b" "),
                Piece::Text(kind.text()),
                Piece::Text(b"\n"),
            ],
        ),
    }
}

/// Judges a history and writes the verdict.
#[tactic(auto, using(crate::proofs::Judged::told_memory))]
fn judge<W: Write>(
    alloc: Global,
    history: &History,
    writer: &mut W,
) -> Result<Verdict, Failure<ReadFault>>
    requires { IsHistory history.now }
    ensures { Outputs judging result (Ok history.now) (W.contents writer.old) (W.contents writer.new) }
{
    let verdict = history_checker::check(alloc, history)?;
    write_verdict(writer, verdict)?;
    Ok(verdict)
}

/// Reads a history, judges it and writes the verdict.
fn judge_text<R: Read, W: Write>(
    alloc: Global,
    reader: &mut R,
    writer: &mut W,
) -> Result<Verdict, Failure<ReadFault>>
    ensures output { (text : List ℕ) × IfSome (R.remaining reader.old) (λ all. text ≡ all)
        × Outputs judging result (read_of text) (W.contents writer.old) (W.contents writer.new) }
    ensures few { IsFront (R.remaining reader.old) (R.remaining reader.new) (MAX_HISTORY + 1) }
{
    let history = read_history(alloc, reader)?;
    judge(alloc, &history, writer)
}

/// The status of the program once a verdict is written.
fn verdict_status(verdict: Verdict) -> u8
    ensures { result ≡ verdict_status verdict }
{
    match verdict {
        Verdict::Legal => 0,
        Verdict::Bad { .. } => 3,
    }
}

/// Reads a history, writes its verdict, and answers the status of the program: 0 where it is legal, 2 where the text is
/// no history, 3 where it is not legal, 4 where memory was refused, and 5 where reading or writing failed, or the text
/// is longer than a history may be. The errors get a line where the status is 2, 4 or 5.
pub fn check<R: Read, W: Write, E: Write>(
    alloc: Global,
    reader: &mut R,
    writer: &mut W,
    errors: &mut E,
) -> u8
    ensures answer { (text : List ℕ) × IfSome (R.remaining reader.old) (λ all. text ≡ all)
        × Answers judging result (read_of text) (W.contents writer.old) (W.contents writer.new) (E.contents
        errors.old) (E.contents errors.new) }
    ensures few { IsFront (R.remaining reader.old) (R.remaining reader.new) (MAX_HISTORY + 1) }
{
    match judge_text(alloc, reader, writer) {
        Ok(verdict) => verdict_status(verdict),
        Err(failure) => failure.tell(errors),
    }
}
