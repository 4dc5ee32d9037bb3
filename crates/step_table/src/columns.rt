//! The columns of the threads.

ghost use Rattle.std.specs.Prelude.{◌≡◌, flat_map, Option};
ghost use Rattle.tx_history.specs.Spelling.{Puts, spelled};
ghost use Rattle.step_table.specs.Table.{cell_of, column_text};

use crate::event::Event;
use crate::operations::{NOTHING, operation_pieces};
use crate::padding::{WIDTH, blanks_beside};
use crate::parts::put_three;
use std::io;
use std::io::Write;
use tx_history::Piece;

/// What stands in the column of a thread: in the line of an event of its own the operation, in that of another one nothing,
/// and in the head of the table the thread's number.
#[tactic(auto, unfolding(crate::specs::Table::cell_of))]
fn cell_of(event: Option<Event>, thread: u8) -> [Piece<'static>; 5]
    ensures { flat_map spelled result ≡ cell_of event thread }
{
    match event {
        None => [
            Piece::Text(b"thread "),
            Piece::Number(u64::from(thread)),
            NOTHING,
            NOTHING,
            NOTHING,
        ],
        Some(event) => {
            if event.thread == thread {
                operation_pieces(event.operation)
            } else {
                [NOTHING; 5]
            }
        }
    }
}

/// Writes the column of a thread.
#[tactic(auto, unfolding(crate::specs::Table::column_text))]
fn put_column<W: Write>(writer: &mut W, event: Option<Event>, thread: u8) -> io::Result<()>
    ensures { Puts (W.contents writer.old) (W.contents writer.new) result (column_text event thread) }
{
    let cell = cell_of(event, thread);
    let blanks = blanks_beside(WIDTH, &cell);
    put_three(writer, &cell, &[blanks], &[Piece::Text(b" | ")])
}

/// Writes the columns of the threads.
#[tactic(auto, using(crate::proofs::Texts::no_texts, crate::proofs::Texts::more_texts, crate::proofs::Texts::texts_stop, crate::proofs::Texts::all_texts))]
pub(crate) fn put_columns<W: Write>(
    writer: &mut W,
    event: Option<Event>,
    threads: &[u8],
) -> io::Result<()>
    ensures { Puts (W.contents writer.old) (W.contents writer.new) result (flat_map (column_text event) threads.now) }
{
    for thread in threads {
        put_column(writer, event, *thread)?;
    }
    Ok(())
}
