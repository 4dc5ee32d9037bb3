//! What is shown of a table.

ghost use Rattle.std.specs.Prelude.{◌≡◌, ◌==◌};
ghost use Rattle.std.specs.List.{list_any};
ghost use Rattle.step_table.specs.Table.{shows};

use crate::event::Event;
use arrayvec::ArrayVec;
use itm_types::MAX_ACTORS;

/// The threads that have a column, from the left.
pub type Columns = ArrayVec<u8, MAX_ACTORS>;

/// What is shown of a table: the columns of these threads, and of their events those with these numbers.
#[derive(Drop)]
pub struct View {
    pub columns: Columns,
    /// The first number that is shown.
    pub from: u64,
    /// The last one.
    pub to: u64,
}

/// Whether the thread has a column.
fn has_column(columns: &[u8], thread: u8) -> bool
    ensures { result ≡ list_any (λ column. column == thread) columns.now }
{
    columns.iter().any(|column| *column == thread)
}

/// Whether the event has a line.
pub fn shows(view: &View, event: Event) -> bool
    ensures { result ≡ shows view.now event }
{
    view.from <= event.number
        && event.number <= view.to
        && has_column(view.columns.as_slice(), event.thread)
}
