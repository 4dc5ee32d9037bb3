//! The marks of events.

ghost use Rattle.std.specs.Prelude.{◌≡◌, ◌<◌, ◌^◌, ◌++◌, flat_map, slice_get};
ghost use Rattle.tx_history.specs.Spelling.{Puts, spelled};
ghost use Rattle.step_table.specs.Table.{operation_text};
ghost use Rattle.step_picture.specs.Picture.{clock_look, clock_text, event_front, event_text, mark_at, mark_in, restart_text};
ghost use Rattle.step_picture.specs.Shapes.{shape_of};
ghost use Rattle.step_picture.specs.Walks.{known_in};

use crate::bars::put_bar;
use crate::mark::Mark;
use crate::restarts::restart;
use crate::shapes::shape_of;
use crate::walks::known_in;
use picture_parts::lane_in;
use std::io;
use std::io::Write;
use step_table::{operation_pieces, put_three};
use tx_history::Piece;

/// What stands before an operation, with this shape.
#[tactic(auto, unfolding(crate::specs::Picture::event_front))]
fn event_front<'a>(at: usize, lane: usize, shape: &'a [u8]) -> [Piece<'a>; 7]
    ensures { flat_map spelled result ≡ event_front at lane shape.now }
{
    [
        Piece::Text(b"<g transform=\"translate("),
        Piece::Number(at as u64),
        Piece::Text(b" "),
        Piece::Number(lane as u64),
        Piece::Text(b"0)\"><use href=\"#"),
        Piece::Text(shape),
        Piece::Text(b"\"/><text transform=\"translate(.3 3.6)rotate(90)\">"),
    ]
}

/// Writes an operation, with this shape.
fn put_operation<W: Write>(
    writer: &mut W,
    at: usize,
    lane: usize,
    shape: &[u8],
    mark: &Mark,
) -> io::Result<()>
    ensures { Puts (W.contents writer.old) (W.contents writer.new) result (event_text at lane shape.now (operation_text mark.now.event.operation)) }
{
    let front = event_front(at, lane, shape);
    let operation = operation_pieces(mark.event.operation);
    put_three(writer, &front, &operation, &[Piece::Text(b"</text></g>\n")])
}

/// How a clock looks: held, where it is odd.
fn look_of(clock: u64) -> &'static [u8]
    ensures { result.now ≡ clock_look clock }
{
    if clock % 2 == 1 { b"held" } else { b"clear" }
}

/// The clock and the number of an event.
#[tactic(auto, unfolding(crate::specs::Picture::clock_text))]
fn clock<'a>(at: usize, lanes: usize, clock: u64, number: u64) -> [Piece<'a>; 11]
    ensures { flat_map spelled result ≡ clock_text at lanes clock number }
{
    [
        Piece::Text(b"<g transform=\"translate("),
        Piece::Number(at as u64),
        Piece::Text(b" "),
        Piece::Number(lanes as u64),
        Piece::Text(b"0)\"><rect class=\""),
        Piece::Text(look_of(clock)),
        Piece::Text(b"\" width=\"1\" height=\"1\"/><text class=\"note\" x=\".5\" y=\".7\">"),
        Piece::Number(clock),
        Piece::Text(b"</text><text class=\"note\" x=\".5\" y=\"2.2\">"),
        Piece::Number(number),
        Piece::Text(b"</text></g>\n"),
    ]
}

/// Writes the shape and the operation of the event at this place.
fn put_event<W: Write>(
    writer: &mut W,
    marks: &[Mark],
    at: usize,
    lane: usize,
    mark: &Mark,
) -> io::Result<()>
    ensures { Puts (W.contents writer.old) (W.contents writer.new) result
        (event_text at lane (shape_of mark.now.event.operation.step mark.now.event.operation.found (known_in marks.now mark.now.event.thread at)) (operation_text mark.now.event.operation)) }
{
    let known = known_in(marks, mark.event.thread, at);
    let shape = shape_of(mark.event.operation.step, mark.event.operation.found, known);
    put_operation(writer, at, lane, shape, mark)
}

/// Writes what stands below an event, of so many lanes.
fn put_back<W: Write>(
    writer: &mut W,
    lanes: usize,
    lane: usize,
    marks: &[Mark],
    at: usize,
    mark: &Mark,
) -> io::Result<()>
    requires { at < 2 ^ 63 }
    ensures { Puts (W.contents writer.old) (W.contents writer.new) result
        (restart_text marks.now at lane mark.now mark.now.came ++ clock_text at lanes mark.now.event.clock mark.now.event.number) }
{
    let back = restart(marks, at, lane, mark);
    let foot = clock(at, lanes, mark.event.clock, mark.event.number);
    put_three(writer, &back, &foot, &[])
}

/// Writes all that is drawn of an event, of so many lanes in this one.
fn put_whole<W: Write>(
    writer: &mut W,
    lanes: usize,
    lane: usize,
    marks: &[Mark],
    at: usize,
    mark: &Mark,
) -> io::Result<()>
    requires { at < 2 ^ 63 }
    ensures { Puts (W.contents writer.old) (W.contents writer.new) result (mark_in lanes lane marks.now at mark.now) }
{
    put_bar(writer, marks, at, lane, mark)?;
    put_event(writer, marks, at, lane, mark)?;
    put_back(writer, lanes, lane, marks, at, mark)
}

/// The event at this place.
fn event_at(marks: &[Mark], at: usize) -> Option<Mark>
    ensures { result ≡ slice_get marks.now at }
{
    Some(*marks.get(at)?)
}

/// Writes what is drawn of the event at this place.
pub(crate) fn put_mark<W: Write>(
    writer: &mut W,
    columns: &[u8],
    marks: &[Mark],
    at: usize,
) -> io::Result<()>
    requires { at < 2 ^ 63 }
    ensures { Puts (W.contents writer.old) (W.contents writer.new) result (mark_at columns.now marks.now at (slice_get marks.now at)) }
{
    match event_at(marks, at) {
        Some(mark) => {
            let lanes = columns.len();
            let lane = lane_in(columns, mark.event.thread, lanes);
            put_whole(writer, lanes, lane, marks, at, &mark)
        }
        None => Ok(()),
    }
}
