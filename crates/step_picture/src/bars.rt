//! The bars of attempts.

ghost use Rattle.std.specs.Prelude.{◌≡◌, ◌<◌, ◌^◌, flat_map};
ghost use Rattle.tx_history.specs.Spelling.{Puts, spelled};
ghost use Rattle.step_table.specs.Came.{end_text};
ghost use Rattle.picture_parts.specs.Looks.{look_text};
ghost use Rattle.step_picture.specs.Picture.{bar_front, bar_text, ended_bar, start_of};

use crate::mark::{Came, Mark};
use crate::walks::begun_in;
use picture_parts::look_of;
use std::io;
use std::io::Write;
use step_table::{end_words, put_three};
use tx_attempts::Outcome;
use tx_history::Piece;

/// No text.
pub(crate) const NOTHING: Piece<'static> = Piece::Text(b"");

/// What stands before the words of a bar from the one place to the other.
#[tactic(auto, unfolding(crate::specs::Picture::bar_front))]
fn bar_front<'a>(from: usize, to: usize, lane: usize, look: &'a [u8]) -> [Piece<'a>; 9]
    requires { to < 2 ^ 63 }
    ensures { flat_map spelled result ≡ bar_front from to lane look.now }
{
    [
        Piece::Text(b"<g transform=\"translate("),
        Piece::Number(from as u64),
        Piece::Text(b" "),
        Piece::Number(lane as u64),
        Piece::Text(b"0)\"><rect class=\""),
        Piece::Text(look),
        Piece::Text(b"\" width=\""),
        Piece::Number((to + 1).saturating_sub(from) as u64),
        Piece::Text(b"\" height=\"1.3\" rx=\".2\"/><text x=\".1\" y=\".85\">"),
    ]
}

/// Writes a bar with these words.
fn put_words<W: Write>(
    writer: &mut W,
    from: usize,
    to: usize,
    lane: usize,
    look: &[u8],
    words: &[Piece<'_>],
) -> io::Result<()>
    requires { to < 2 ^ 63 }
    ensures { Puts (W.contents writer.old) (W.contents writer.new) result (bar_text from to lane look.now (flat_map spelled words.now)) }
{
    let front = bar_front(from, to, lane, look);
    put_three(writer, &front, words, &[Piece::Text(b"</text></g>\n")])
}

/// Where the attempt began that was open before the event at this place, or by it.
fn start_of(marks: &[Mark], at: usize, mark: &Mark) -> usize
    ensures { result ≡ start_of marks.now at mark.now }
{
    if mark.in_attempt {
        begun_in(marks, mark.event.thread, at)
    } else {
        at
    }
}

/// Writes the bar of an attempt that ended so, at this position, with the event at this place.
fn put_ended<W: Write>(
    writer: &mut W,
    marks: &[Mark],
    at: usize,
    lane: usize,
    mark: &Mark,
    outcome: Outcome,
    position: u64,
) -> io::Result<()>
    requires { at < 2 ^ 63 }
    ensures { Puts (W.contents writer.old) (W.contents writer.new) result
        (bar_text (start_of marks.now at mark.now) at lane (look_text outcome) (end_text mark.now.event.operation.step position outcome)) }
{
    let start = start_of(marks, at, mark);
    let look = look_of(outcome);
    let words = end_words(mark.event.operation.step, position, outcome);
    put_words(writer, start, at, lane, look, &words)
}

/// Writes the bar of the attempt that ended with the event at this place; nothing, where none did.
#[tactic(auto, unfolding(crate::specs::Picture::ended_bar))]
pub(crate) fn put_bar<W: Write>(
    writer: &mut W,
    marks: &[Mark],
    at: usize,
    lane: usize,
    mark: &Mark,
) -> io::Result<()>
    requires { at < 2 ^ 63 }
    ensures { Puts (W.contents writer.old) (W.contents writer.new) result (ended_bar marks.now at lane mark.now mark.now.came) }
{
    match mark.came {
        Came::GoesOn => Ok(()),
        Came::Begun => Ok(()),
        Came::NotBegun => Ok(()),
        Came::Replied => Ok(()),
        Came::Restarted(_) => Ok(()),
        Came::Ended(outcome, position) => put_ended(
            writer, marks, at, lane, mark, outcome, position,
        ),
    }
}
