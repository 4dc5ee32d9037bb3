//! The text of a history row by row.

ghost use Rattle.std.specs.Prelude.{◌≡◌, List, flat_map};
ghost use Rattle.tx_history.specs.Histories.{history_text};
ghost use Rattle.tx_history.specs.Pages.{Spells};
ghost use Rattle.tx_history.specs.Rows.{AreRowsOf, RowFits, row_lines};
ghost use Rattle.tx_history.specs.Spelling.{Puts};
ghost use Rattle.tx_history.specs.declared.history.History.{History};

use crate::attempts::put_attempt;
use crate::history::Version;
use crate::page::Page;
use crate::rows::{put_first, put_last};
use std::io;
use std::io::Write;
use tx_attempts::Attempt;

/// What some lines of a history's text tell. A history has one `Start`, a `Tried` for each attempt, and one `Last`, in this
/// order.
#[derive(Clone, Copy)]
pub enum Row<'a> {
    /// The lines before the first attempt: those of the version, and the shared memory before the run.
    Start(Version, &'a [u8]),
    /// The lines of an attempt.
    Tried(&'a Attempt),
    /// The last line: the sequence clock, and the shared memory after the run.
    Last(u64, &'a [u8]),
}

/// The lines of a row.
fn put_row<W: Write>(page: &mut Page<'_, W>, row: &Row<'_>)
    ensures { Spells W.contents page.old page.new (row_lines row.now) (RowFits row.now) }
{
    match *row {
        Row::Start(version, memory) => put_first(page, version, memory),
        Row::Tried(attempt) => put_attempt(page, attempt),
        Row::Last(clock, bytes) => put_last(page, clock, bytes),
    }
}

/// Writes the lines of a row. Where a write fails, what the writer took is a beginning of them, and it is not asked again.
/// Takes no memory.
pub fn write_row<W: Write>(writer: &mut W, row: &Row<'_>) -> io::Result<()>
    ensures written { Puts (W.contents writer.old) (W.contents writer.new) result (row_lines row.now) }
    ensures fits { RowFits row.now }
{
    let mut page = Page::empty(writer);
    put_row(&mut page, row);
    page.close()
}

/// The lines of a history's rows, one after the other, are its text. Does nothing.
pub fn rows_in_order()
    ensures { (h : History) (rows : List Row) → AreRowsOf h rows → flat_map row_lines rows ≡ history_text h }
{}
