//! Pictures of histories.

ghost use Rattle.std.specs.Prelude.{◌≡◌, ◌++◌, ◌<◌, ◌^◌, codes, length};
ghost use Rattle.tx_history.specs.Spelling.{Puts, spelled};
ghost use Rattle.history_picture.specs.Picture.{body_of, foot_text, head_text, looks_text, page_text, picture_text, seats_text, width_of};

use crate::bars::put_seat;
use crate::note::Note;
use crate::seats::Seat;
use crate::sentences::put_note;
use picture_parts::{colours, put_front, put_lanes, put_text, style};
use std::io;
use std::io::Write;
use tx_attempts::Attempt;
use tx_history::{Piece, put_pieces};

const PAGE: &[u8] =
    b"<style>.bad{fill:none;stroke-width:.25}</style>\n<rect class=\"page\" x=\"-5\" y=\"-1\" width=\"100%\" height=\"100%\"/>\n<text x=\"-4.7\" y=\"-.4\">";

/// How the mark of what is wrong looks, and the page.
#[tactic(auto, unfolding(crate::specs::Picture::page_text))]
fn page() -> Piece<'static>
    ensures { spelled result ≡ page_text }
{
    Piece::Text(PAGE)
}

/// Writes how all of it looks.
fn put_looks<W: Write>(writer: &mut W) -> io::Result<()>
    ensures { Puts (W.contents writer.old) (W.contents writer.new) result looks_text }
{
    let style = style();
    let colours = colours();
    let page = page();
    put_pieces(writer, &[style, colours, page])
}

/// How wide a picture of so many attempts is: wide enough for the verdict.
fn width_of(seats: usize) -> u64
    requires { seats < 2 ^ 63 }
    ensures { result ≡ width_of seats }
{
    (seats as u64 + 6).max(50)
}

/// Writes what stands before the lanes.
fn put_head<W: Write>(
    writer: &mut W,
    attempts: &[Attempt],
    note: &Note<'_>,
    seats: usize,
    lanes: usize,
) -> io::Result<()>
    requires { seats < 2 ^ 63 }
    ensures { Puts (W.contents writer.old) (W.contents writer.new) result (head_text attempts.now note.now seats lanes) }
{
    put_front(writer, width_of(seats), lanes)?;
    put_looks(writer)?;
    put_note(writer, attempts, note)
}

/// Writes the attempts, from the left to the right.
fn put_seats<W: Write>(
    writer: &mut W,
    attempts: &[Attempt],
    columns: &[u8],
    flawed: Option<usize>,
    seats: &[Seat],
) -> io::Result<()>
    ensures { Puts (W.contents writer.old) (W.contents writer.new) result (seats_text attempts.now columns.now flawed seats.now) }
{
    for at in 0..seats.len() {
        put_seat(writer, attempts, columns, flawed, seats, at)?;
    }
    Ok(())
}

/// Writes the lanes and the attempts.
fn put_body<W: Write>(
    writer: &mut W,
    attempts: &[Attempt],
    columns: &[u8],
    seats: &[Seat],
    note: &Note<'_>,
) -> io::Result<()>
    ensures { Puts (W.contents writer.old) (W.contents writer.new) result (body_of attempts.now columns.now seats.now note.now) }
{
    put_text(writer, b"</text>\n")?;
    put_lanes(writer, columns, seats.len())?;
    put_seats(writer, attempts, columns, note.flawed, seats)
}

/// Writes what stands behind the lanes.
#[tactic(auto, unfolding(crate::specs::Picture::foot_text))]
fn put_foot<W: Write>(writer: &mut W, lanes: usize) -> io::Result<()>
    ensures { Puts (W.contents writer.old) (W.contents writer.new) result (foot_text lanes) }
{
    put_pieces(
        writer,
        &[
            Piece::Text(b"<g transform=\"translate(0 "),
            Piece::Number(lanes as u64),
            Piece::Text(
                b"0)\"><text x=\"-4.7\" y=\".7\">commits</text><text x=\"-4.7\" y=\"2.2\">attempt</text></g>\n</svg>\n",
            ),
        ],
    )
}

/// Writes the picture of attempts in this order, with a lane for each of these threads, and what is found of them. Where a
/// write fails, what the writer took is a beginning of it.
pub fn put_history<W: Write>(
    writer: &mut W,
    attempts: &[Attempt],
    columns: &[u8],
    seats: &[Seat],
    note: &Note<'_>,
) -> io::Result<()>
    ensures { Puts (W.contents writer.old) (W.contents writer.new) result (picture_text attempts.now columns.now seats.now note.now) }
{
    put_head(writer, attempts, note, seats.len(), columns.len())?;
    put_body(writer, attempts, columns, seats, note)?;
    put_foot(writer, columns.len())
}
