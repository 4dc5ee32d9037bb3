//! What is chosen of a run.

ghost use Rattle.std.specs.Prelude.{◌≡◌, ◌≤◌};
ghost use Rattle.std.specs.List.{range_with_len};
ghost use Rattle.itmsteps.specs.Choices.{columns_of, view_of};

use itm_types::MAX_ACTORS;
use step_table::{Columns, View};

/// What is shown of a run.
#[derive(Drop)]
pub(crate) struct Choice {
    /// The threads that have a column; all, where none are named.
    pub(crate) threads: Option<Columns>,
    /// The first number that is shown.
    pub(crate) from: u64,
    /// The last one.
    pub(crate) to: u64,
    /// A picture, and no table.
    pub(crate) svg: bool,
    /// The file is a history, and no script.
    pub(crate) history: bool,
}

/// All threads of a program, by number.
fn all_threads(threads: usize) -> Columns
    requires { threads ≤ MAX_ACTORS }
    ensures { result.items ≡ range_with_len 0 threads }
{
    let mut columns = Columns::new();
    for thread in 0..threads {
        columns.push(thread as u8);
    }
    columns
}

/// The threads that have a column, of so many.
fn columns_of(named: Option<Columns>, threads: usize) -> Columns
    requires { threads ≤ MAX_ACTORS }
    ensures { result ≡ columns_of named threads }
{
    match named {
        Some(columns) => columns,
        None => all_threads(threads),
    }
}

/// What is shown of the table of a program with so many threads.
pub(crate) fn view_of(choice: Choice, threads: usize) -> View
    requires { threads ≤ MAX_ACTORS }
    ensures { result ≡ view_of choice threads }
{
    let Choice {
        threads: named,
        from,
        to,
        svg: _,
        history: _,
    } = choice;
    View {
        columns: columns_of(named, threads),
        from,
        to,
    }
}
