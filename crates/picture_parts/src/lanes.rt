//! The lanes of pictures.

ghost use Rattle.std.specs.Prelude.{◌≡◌, slice_get};
ghost use Rattle.tx_history.specs.Spelling.{Puts};
ghost use Rattle.picture_parts.specs.Lanes.{is_thread, lane_at, lane_in, lane_text, lanes_text};

use std::io;
use std::io::Write;
use tx_history::{Piece, put_pieces};

/// Whether the lane at this place is the thread's.
fn is_lane(columns: &[u8], at: usize, thread: u8) -> bool
    ensures { result ≡ is_thread thread (slice_get columns.now at) }
{
    match columns.get(at) {
        Some(column) => *column == thread,
        None => false,
    }
}

/// The place of the thread's lane.
pub fn lane_in(columns: &[u8], thread: u8, end: usize) -> usize
    ensures { result ≡ lane_in columns.now thread end }
{
    let mut at = end;
    while at > 0 {
        at -= 1;
        if is_lane(columns, at, thread) {
            return at;
        }
    }
    0
}

/// Writes the lane of a thread.
#[tactic(auto, unfolding(crate::specs::Lanes::lane_text))]
fn put_thread<W: Write>(writer: &mut W, events: usize, lane: usize, thread: u8) -> io::Result<()>
    ensures { Puts (W.contents writer.old) (W.contents writer.new) result (lane_text events lane thread) }
{
    put_pieces(
        writer,
        &[
            Piece::Text(b"<g transform=\"translate(0 "),
            Piece::Number(lane as u64),
            Piece::Text(b"0)\"><text x=\"-4.7\" y=\".85\">thread "),
            Piece::Number(u64::from(thread)),
            Piece::Text(b"</text><path class=\"lane\" d=\"M0 2.9H"),
            Piece::Number(events as u64),
            Piece::Text(b"\"/></g>\n"),
        ],
    )
}

/// The thread of the lane at this place.
fn thread_at(columns: &[u8], lane: usize) -> Option<u8>
    ensures { result ≡ slice_get columns.now lane }
{
    Some(*columns.get(lane)?)
}

/// Writes the lane at this place.
fn put_lane<W: Write>(writer: &mut W, columns: &[u8], events: usize, lane: usize) -> io::Result<()>
    ensures { Puts (W.contents writer.old) (W.contents writer.new) result (lane_at events lane (slice_get columns.now lane)) }
{
    match thread_at(columns, lane) {
        Some(thread) => put_thread(writer, events, lane, thread),
        None => Ok(()),
    }
}

/// Writes a lane for each of these threads, over so many events.
pub fn put_lanes<W: Write>(writer: &mut W, columns: &[u8], events: usize) -> io::Result<()>
    ensures { Puts (W.contents writer.old) (W.contents writer.new) result (lanes_text columns.now events) }
{
    for lane in 0..columns.len() {
        put_lane(writer, columns, events, lane)?;
    }
    Ok(())
}
