//! What is said of a history, in words.

ghost use Rattle.std.specs.Prelude.{◌≡◌, ◌++◌, codes, flat_map};
ghost use Rattle.std.specs.Option.{option_copied};
ghost use Rattle.tx_history.specs.Histories.{reply_text};
ghost use Rattle.tx_history.specs.Spelling.{Puts, spelled};
ghost use Rattle.history_picture.specs.Picture.{answer_text, call_at, call_text, note_text, machine_text, told_text, judgement_text};

use crate::bodies::{body_of, reply_of};
use crate::note::{Judgement, Note};
use itm_types::Reply;
use picture_parts::{put_pair, put_text};
use std::io;
use std::io::Write;
use tx_attempts::{Attempt, CallRecord};
use tx_history::{Piece, put_pieces};

/// Whether it is legal.
#[tactic(auto, unfolding(crate::specs::Picture::judgement_text))]
fn judgement_words<'a>(judgement: Judgement<'a>) -> [Piece<'a>; 4]
    ensures { flat_map spelled result ≡ judgement_text judgement.entry }
{
    match judgement {
        Judgement::Legal => [
            Piece::Text(b"legal"),
            Piece::Text(b""),
            Piece::Text(b""),
            Piece::Text(b""),
        ],
        Judgement::Bad(row, kind) => [
            Piece::Text(b"bad "),
            Piece::Number(row),
            Piece::Text(b" "),
            Piece::Text(kind),
        ],
    }
}

/// The reply that is told of a call.
fn told_reply<'a>(reply: &'a Reply) -> [Piece<'a>; 3]
    ensures { flat_map spelled result ≡ codes " = " ++ reply_text reply.now }
{
    let [first, second] = reply_of(reply);
    [Piece::Text(b" = "), first, second]
}

/// Writes a call, and the reply that is told of it.
#[tactic(auto, unfolding(crate::specs::Picture::told_text))]
fn put_told<W: Write>(writer: &mut W, entry: &CallRecord) -> io::Result<()>
    ensures { Puts (W.contents writer.old) (W.contents writer.new) result (told_text entry.now) }
{
    put_text(writer, b": ")?;
    put_pair(writer, &body_of(&entry.call), &told_reply(&entry.reply))
}

/// Writes the call that is wrong, if one is.
fn put_call<W: Write>(writer: &mut W, entry: Option<&CallRecord>) -> io::Result<()>
    ensures { Puts (W.contents writer.old) (W.contents writer.new) result (call_text (option_copied entry.entry)) }
{
    match entry {
        None => Ok(()),
        Some(entry) => put_told(writer, entry),
    }
}

/// Writes the reply that the plain machine gives.
#[tactic(auto, unfolding(crate::specs::Picture::machine_text))]
fn put_machine<W: Write>(writer: &mut W, reply: &Reply) -> io::Result<()>
    ensures { Puts (W.contents writer.old) (W.contents writer.new) result (machine_text reply.now) }
{
    put_text(writer, b"; the plain machine answers ")?;
    put_pieces(writer, &reply_of(reply))
}

/// Writes it, if there is one.
fn put_answer<W: Write>(writer: &mut W, answer: &Option<Reply>) -> io::Result<()>
    ensures { Puts (W.contents writer.old) (W.contents writer.new) result (answer_text answer.now) }
{
    match answer {
        None => Ok(()),
        Some(reply) => put_machine(writer, reply),
    }
}

/// The call that is wrong, if one is.
fn call_at(attempts: &[Attempt], flawed: Option<usize>, call: Option<usize>) -> Option<&CallRecord>
    ensures { option_copied result ≡ call_at attempts.now flawed call }
{
    let attempt = attempts.get(flawed?)?;
    attempt.calls.as_slice().get(call?)
}

/// Writes what is said of a history.
pub(crate) fn put_note<W: Write>(
    writer: &mut W,
    attempts: &[Attempt],
    note: &Note<'_>,
) -> io::Result<()>
    ensures { Puts (W.contents writer.old) (W.contents writer.new) result (note_text attempts.now note.now) }
{
    put_pieces(writer, &judgement_words(note.judgement))?;
    put_call(writer, call_at(attempts, note.flawed, note.call))?;
    put_answer(writer, &note.answer)
}
