//! How the threads of a run ended, and what is said of that.

ghost use Rattle.std.specs.Prelude.{◌≡◌};
ghost use Rattle.std.specs.List.{list_any};
ghost use Rattle.tx_history.specs.Spelling.{Puts};
ghost use Rattle.text_commands.specs.Answers.{Says};
ghost use Rattle.run_commands.specs.Endings.{thread_line, ending_line, ending_lines, endings_status, fell_short};

use arrayvec::ArrayVec;
use itm_types::MAX_ACTORS;
use std::io;
use std::io::Write;
use text_commands::status_after;
use tx_history::{Piece, put_pieces};
use tx_runs::End;

/// How the threads of a program stand, by number; `None` for one that has not ended.
pub type Endings = ArrayVec<Option<End>, MAX_ACTORS>;

/// Writes a line on a thread.
#[tactic(auto, unfolding(crate::specs::Endings::thread_line), using(tx_history::proofs::TextPieces::put_as))]
fn put_thread<E: Write>(errors: &mut E, thread: usize, words: &[u8]) -> io::Result<()>
    ensures { Puts (E.contents errors.old) (E.contents errors.new) result (thread_line thread words.now) }
{
    put_pieces(
        errors,
        &[
            Piece::Text(b"itmrun: thread "),
            Piece::Number(thread as u64),
            Piece::Text(words),
        ],
    )
}

/// Writes the line of a thread that gave up or found no memory; of another one there is none.
#[tactic(auto, unfolding(crate::specs::Endings::ending_line))]
fn put_ending<E: Write>(errors: &mut E, thread: usize, ending: Option<End>) -> io::Result<()>
    ensures { Puts (E.contents errors.old) (E.contents errors.new) result (ending_line thread ending) }
{
    match ending {
        None | Some(End::Finished) => Ok(()),
        Some(End::GaveUp) => put_thread(errors, thread, b" gave up\n"),
        Some(End::NoMemory) => put_thread(errors, thread, b" found no memory\n"),
    }
}

/// Writes the lines of the threads that gave up or found no memory, by number.
#[tactic(auto, using(crate::proofs::EndingLines::no_lines, crate::proofs::EndingLines::more_lines, crate::proofs::EndingLines::lines_stop, crate::proofs::EndingLines::all_lines))]
fn put_endings<E: Write>(errors: &mut E, endings: &[Option<End>]) -> io::Result<()>
    ensures { Puts (E.contents errors.old) (E.contents errors.new) result (ending_lines 0 endings.now) }
{
    for (thread, ending) in endings.iter().enumerate() {
        put_ending(errors, thread, *ending)?;
    }
    Ok(())
}

/// Whether the thread gave up or found no memory.
fn fell_short(ending: &Option<End>) -> bool
    ensures { result ≡ fell_short ending.now }
{
    matches!(ending, Some(End::GaveUp | End::NoMemory))
}

fn any_fell_short(endings: &[Option<End>]) -> bool
    ensures { result ≡ list_any fell_short endings.now }
{
    endings.iter().any(fell_short)
}

/// The status of the program once the history is written.
fn endings_status(endings: &[Option<End>]) -> u8
    ensures { result ≡ endings_status endings.now }
{
    if any_fell_short(endings) { 4 } else { 0 }
}

/// Says on the errors which threads gave up or found no memory, and answers the program's status.
pub fn tell_endings<E: Write>(errors: &mut E, endings: &[Option<End>]) -> u8
    ensures { Says (ending_lines 0 endings.now) (endings_status endings.now) result (E.contents errors.old) (E.contents
        errors.new) }
{
    status_after(put_endings(errors, endings), endings_status(endings))
}
