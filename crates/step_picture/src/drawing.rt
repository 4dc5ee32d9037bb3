//! Pictures.

ghost use Rattle.std.specs.Prelude.{◌≡◌, ◌++◌, length};
ghost use Rattle.tx_history.specs.Spelling.{Puts};
ghost use Rattle.picture_parts.specs.Lanes.{lanes_text};
ghost use Rattle.step_picture.specs.Picture.{foot_text, head_text, marks_text, picture_text};

use crate::events::put_mark;
use crate::mark::Mark;
use crate::styles::put_looks;
use picture_parts::{put_front, put_lanes};
use std::io;
use std::io::Write;
use tx_history::{Piece, put_pieces};

/// Writes what stands before the lanes of so many threads.
fn put_head<W: Write>(writer: &mut W, wide: u64, lanes: usize) -> io::Result<()>
    ensures { Puts (W.contents writer.old) (W.contents writer.new) result (head_text wide lanes) }
{
    put_front(writer, wide, lanes)?;
    put_looks(writer)
}

/// Writes what is drawn of the events.
fn put_marks<W: Write>(writer: &mut W, columns: &[u8], marks: &[Mark]) -> io::Result<()>
    ensures { Puts (W.contents writer.old) (W.contents writer.new) result (marks_text columns.now marks.now) }
{
    for at in 0..marks.len() {
        put_mark(writer, columns, marks, at)?;
    }
    Ok(())
}

/// Writes what stands behind the lanes.
#[tactic(auto, unfolding(crate::specs::Picture::foot_text))]
fn put_foot<W: Write>(writer: &mut W, lanes: usize) -> io::Result<()>
    ensures { Puts (W.contents writer.old) (W.contents writer.new) result (foot_text lanes) }
{
    put_pieces(
        writer,
        &[
            Piece::Text(b"<g transform=\"translate(0 "),
            Piece::Number(lanes as u64),
            Piece::Text(
                b"0)\"><text x=\"-4.7\" y=\".7\">clock</text><text x=\"-4.7\" y=\"2.2\">event</text></g>\n</svg>\n",
            ),
        ],
    )
}

/// Writes the lanes, the events and what stands behind them.
fn put_body<W: Write>(writer: &mut W, columns: &[u8], marks: &[Mark]) -> io::Result<()>
    ensures { Puts (W.contents writer.old) (W.contents writer.new) result
        (lanes_text columns.now (length marks.now) ++ marks_text columns.now marks.now ++ foot_text (length columns.now)) }
{
    put_lanes(writer, columns, marks.len())?;
    put_marks(writer, columns, marks)?;
    put_foot(writer, columns.len())
}

/// Writes the picture of these events, with a lane for each of these threads. Where a write fails, what the writer took is a
/// beginning of it.
pub fn put_picture<W: Write>(writer: &mut W, columns: &[u8], marks: &[Mark]) -> io::Result<()>
    ensures { Puts (W.contents writer.old) (W.contents writer.new) result (picture_text columns.now marks.now) }
{
    put_head(writer, marks.len() as u64 + 6, columns.len())?;
    put_body(writer, columns, marks)
}
