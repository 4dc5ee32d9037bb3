//! The bars of attempts.

ghost use Rattle.std.specs.Prelude.{◌≡◌, ◌++◌, flat_map, Some, slice_get};
ghost use Rattle.tx_attempts.specs.Attempts.{is_committed};
ghost use Rattle.tx_history.specs.Histories.{attempt_lines, outcome_name};
ghost use Rattle.tx_history.specs.Spelling.{Puts, spelled};
ghost use Rattle.history_picture.specs.Picture.{bar_back, bar_front, bar_text, cell_look, cell_text, flaw_text, is_flawed, mark_text, seat_at, seat_in, seat_with};

use crate::seats::Seat;
use picture_parts::{lane_in, look_of, put_pair};
use std::io;
use std::io::Write;
use tx_attempts::{Attempt, Outcome};
use tx_history::{Piece, Row, put_pieces, write_row};

/// How an attempt ended.
fn outcome_name(outcome: Outcome) -> &'static [u8]
    ensures { result.now ≡ outcome_name outcome }
{
    match outcome {
        Outcome::Committed => b"committed",
        Outcome::ReadOnly => b"readonly",
        Outcome::Cancelled => b"cancelled",
        Outcome::Conflict => b"conflict",
        Outcome::Full => b"full",
        Outcome::NoMemory => b"nomemory",
        Outcome::Unfinished => b"unfinished",
    }
}

/// What stands before the lines of an attempt.
#[tactic(auto, unfolding(crate::specs::Picture::bar_front))]
fn bar_front<'a>(at: usize, lane: usize) -> [Piece<'a>; 5]
    ensures { flat_map spelled result ≡ bar_front at lane }
{
    [
        Piece::Text(b"<g transform=\"translate("),
        Piece::Number(at as u64),
        Piece::Text(b" "),
        Piece::Number(lane as u64),
        Piece::Text(b"0)\"><title>"),
    ]
}

/// What stands behind them: the bar, and how the attempt ended.
#[tactic(auto, unfolding(crate::specs::Picture::bar_back))]
fn bar_back<'a>(attempt: &'a Attempt) -> [Piece<'a>; 7]
    ensures { flat_map spelled result ≡ bar_back attempt.now }
{
    [
        Piece::Text(b"</title><rect class=\""),
        Piece::Text(look_of(attempt.outcome)),
        Piece::Text(
            b"\" width=\"1\" height=\"9\" rx=\".2\"/><text transform=\"translate(.3 .4)rotate(90)\">try ",
        ),
        Piece::Number(u64::from(attempt.nth)),
        Piece::Text(b": "),
        Piece::Text(outcome_name(attempt.outcome)),
        Piece::Text(b"</text></g>\n"),
    ]
}

/// Writes the bar of an attempt.
fn put_bar<W: Write>(writer: &mut W, at: usize, lane: usize, attempt: &Attempt) -> io::Result<()>
    ensures { Puts (W.contents writer.old) (W.contents writer.new) result (bar_text at lane attempt.now) }
{
    put_pieces(writer, &bar_front(at, lane))?;
    write_row(writer, &Row::Tried(attempt))?;
    put_pieces(writer, &bar_back(attempt))
}

/// The mark of an attempt that is wrong.
#[tactic(auto, unfolding(crate::specs::Picture::flaw_text))]
fn flaw<'a>(at: usize, lane: usize) -> [Piece<'a>; 5]
    ensures { flat_map spelled result ≡ flaw_text at lane }
{
    [
        Piece::Text(b"<g transform=\"translate("),
        Piece::Number(at as u64),
        Piece::Text(b" "),
        Piece::Number(lane as u64),
        Piece::Text(
            b"0)\"><rect class=\"bad\" width=\"1\" height=\"9\" rx=\".2\"/><text class=\"note\" x=\".5\" y=\"9.8\">bad</text></g>\n",
        ),
    ]
}

/// Whether the attempt at this place of the text is wrong.
fn is_flawed(flawed: Option<usize>, place: usize) -> bool
    ensures { result ≡ is_flawed flawed place }
{
    match flawed {
        None => false,
        Some(flawed) => flawed == place,
    }
}

/// The mark of the attempt at this place of the text, if it is wrong.
#[tactic(auto, unfolding(crate::specs::Picture::mark_text))]
fn mark<'a>(flawed: Option<usize>, place: usize, at: usize, lane: usize) -> [Piece<'a>; 5]
    ensures { flat_map spelled result ≡ mark_text flawed place at lane }
{
    if is_flawed(flawed, place) {
        flaw(at, lane)
    } else {
        [Piece::Text(b""); 5]
    }
}

/// How the cell of an attempt looks: grey, if it is a commit.
fn cell_look(outcome: Outcome) -> &'static [u8]
    ensures { result.now ≡ cell_look outcome }
{
    match outcome {
        Outcome::Committed => b"held",
        _ => b"clear",
    }
}

/// What stands below an attempt: how many commits it saw, and its place in the text.
#[tactic(auto, unfolding(crate::specs::Picture::cell_text))]
fn cell<'a>(at: usize, lanes: usize, place: usize, attempt: &Attempt) -> [Piece<'a>; 11]
    ensures { flat_map spelled result ≡ cell_text at lanes place attempt.now }
{
    [
        Piece::Text(b"<g transform=\"translate("),
        Piece::Number(at as u64),
        Piece::Text(b" "),
        Piece::Number(lanes as u64),
        Piece::Text(b"0)\"><rect class=\""),
        Piece::Text(cell_look(attempt.outcome)),
        Piece::Text(b"\" width=\"1\" height=\"1\"/><text class=\"note\" x=\".5\" y=\".7\">"),
        Piece::Number(attempt.at),
        Piece::Text(b"</text><text class=\"note\" x=\".5\" y=\"2.2\">"),
        Piece::Number(place as u64),
        Piece::Text(b"</text></g>\n"),
    ]
}

/// Writes what stands beside a bar: its mark, and what is below.
fn put_beside<W: Write>(
    writer: &mut W,
    at: usize,
    lane: usize,
    lanes: usize,
    flawed: Option<usize>,
    place: usize,
    attempt: &Attempt,
) -> io::Result<()>
    ensures { Puts (W.contents writer.old) (W.contents writer.new) result (mark_text flawed place at lane ++ cell_text at lanes place attempt.now) }
{
    put_pair(
        writer,
        &mark(flawed, place, at, lane),
        &cell(at, lanes, place, attempt),
    )
}

/// Writes all that is drawn of an attempt, with a lane for each of these threads.
fn put_attempt<W: Write>(
    writer: &mut W,
    columns: &[u8],
    at: usize,
    flawed: Option<usize>,
    place: usize,
    attempt: &Attempt,
) -> io::Result<()>
    ensures { Puts (W.contents writer.old) (W.contents writer.new) result (seat_with columns.now flawed at place (Some attempt.now)) }
{
    let lanes = columns.len();
    let lane = lane_in(columns, attempt.thread, lanes);
    put_bar(writer, at, lane, attempt)?;
    put_beside(writer, at, lane, lanes, flawed, place, attempt)
}

/// The seat at this place.
fn seat_at(seats: &[Seat], at: usize) -> Option<Seat>
    ensures { result ≡ slice_get seats.now at }
{
    Some(*seats.get(at)?)
}

/// Writes what is drawn of the attempt whose seat is at this place.
pub(crate) fn put_seat<W: Write>(
    writer: &mut W,
    attempts: &[Attempt],
    columns: &[u8],
    flawed: Option<usize>,
    seats: &[Seat],
    at: usize,
) -> io::Result<()>
    ensures { Puts (W.contents writer.old) (W.contents writer.new) result (seat_at attempts.now columns.now flawed at (slice_get seats.now at)) }
{
    let Some(seat) = seat_at(seats, at) else {
        return Ok(());
    };
    match attempts.get(seat.place) {
        Some(attempt) => put_attempt(writer, columns, at, flawed, seat.place, attempt),
        None => Ok(()),
    }
}
