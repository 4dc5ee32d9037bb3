//! The lines of a table.

ghost use Rattle.std.specs.Prelude.{◌≡◌, ◌++◌, None, Some, codes, flat_map};
ghost use Rattle.tx_history.specs.Spelling.{Puts, spelled};
ghost use Rattle.step_table.specs.Table.{back_text, column_text, front_text, head_text, line_of, number_text};
ghost use Rattle.step_table.specs.Said.{said};

use crate::came::Came;
use crate::columns::put_columns;
use crate::event::Event;
use crate::padding::blanks_beside;
use crate::parts::put_three;
use crate::view::{View, shows};
use std::io;
use std::io::Write;
use tx_history::{Piece, put_pieces};

/// The width of a number's column.
const DIGITS: usize = 5;

/// Writes a number, with blanks before it.
#[tactic(auto, unfolding(crate::specs::Table::number_text))]
fn put_number<W: Write>(writer: &mut W, n: u64) -> io::Result<()>
    ensures { Puts (W.contents writer.old) (W.contents writer.new) result (number_text n) }
{
    let number = Piece::Number(n);
    let blanks = blanks_beside(DIGITS, &[number]);
    put_pieces(writer, &[blanks, number])
}

/// Writes what stands before the columns of the threads.
fn put_front<W: Write>(writer: &mut W, event: Event) -> io::Result<()>
    ensures { Puts (W.contents writer.old) (W.contents writer.new) result (front_text event) }
{
    put_number(writer, event.number)?;
    put_pieces(writer, &[Piece::Text(b"  ")])
}

/// Writes what came of an event.
fn put_came<W: Write>(writer: &mut W, came: &Came<'_>) -> io::Result<()>
    ensures { Puts (W.contents writer.old) (W.contents writer.new) result (said came.now) }
{
    put_three(writer, &[came.bar], &came.words, &[came.ending])
}

/// Writes what stands behind the columns of the threads.
fn put_back<W: Write>(writer: &mut W, event: Event, came: &Came<'_>) -> io::Result<()>
    ensures { Puts (W.contents writer.old) (W.contents writer.new) result (back_text event (said came.now)) }
{
    put_number(writer, event.clock)?;
    put_came(writer, came)?;
    put_pieces(writer, &[Piece::Text(b"\n")])
}

/// Writes the line of an event, of which this came.
fn put_event<W: Write>(
    writer: &mut W,
    threads: &[u8],
    event: Event,
    came: &Came<'_>,
) -> io::Result<()>
    ensures { Puts (W.contents writer.old) (W.contents writer.new) result
        (front_text event ++ flat_map (column_text (Some event)) threads.now ++ back_text event (said came.now)) }
{
    put_front(writer, event)?;
    put_columns(writer, Some(event), threads)?;
    put_back(writer, event, came)
}

/// Writes the line of an event, of which this came, where it is shown.
pub(crate) fn put_line<W: Write>(
    writer: &mut W,
    view: &View,
    event: Event,
    came: &Came<'_>,
) -> io::Result<()>
    ensures { Puts (W.contents writer.old) (W.contents writer.new) result
        (line_of view.now event (said came.now)) }
{
    if !shows(view, event) {
        return Ok(());
    }
    put_event(writer, view.columns.as_slice(), event, came)
}

/// Writes the head of a table with columns of these threads.
fn put_heads<W: Write>(writer: &mut W, threads: &[u8]) -> io::Result<()>
    ensures { Puts (W.contents writer.old) (W.contents writer.new) result
        (codes "event  " ++ flat_map (column_text None) threads.now ++ codes "clock\n") }
{
    put_pieces(writer, &[Piece::Text(b"event  ")])?;
    put_columns(writer, None, threads)?;
    put_pieces(writer, &[Piece::Text(b"clock\n")])
}

/// Writes the head of the table.
#[tactic(auto, unfolding(crate::specs::Table::head_text))]
pub(crate) fn put_head<W: Write>(writer: &mut W, view: &View) -> io::Result<()>
    ensures { Puts (W.contents writer.old) (W.contents writer.new) result (head_text view.now) }
{
    put_heads(writer, view.columns.as_slice())
}
