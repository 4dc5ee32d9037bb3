//! Which threads have a lane.

ghost use Rattle.std.specs.Prelude.{◌≡◌, ◌++◌, ◌<◌, IfOk, OnOk};
ghost use Rattle.history_picture.specs.Columns.{columns_of, has_thread, one_thread};

use std::alloc::{AllocError, Global};
use tx_attempts::Attempt;
use tx_history::History;

/// Whether one of the attempts is the thread's.
fn has_thread(attempts: &[Attempt], thread: u8) -> bool
    ensures { result ≡ has_thread thread attempts.now }
{
    for attempt in attempts {
        if attempt.thread == thread {
            return true;
        }
    }
    false
}

/// Adds the thread, if it has an attempt.
fn add_thread(columns: &mut Vec<u8>, attempts: &[Attempt], thread: usize) -> Result<(), AllocError>
    requires { thread < 256 }
    ensures { OnOk result (columns.new.items ≡ columns.old.items ++ one_thread attempts.now thread) }
{
    if has_thread(attempts, thread as u8) {
        columns.push(thread as u8)?;
    }
    Ok(())
}

/// The threads that have an attempt, in order.
pub fn columns_of(alloc: Global, history: &History) -> Result<Vec<u8>, AllocError>
    ensures { IfOk result (λ columns. columns.items ≡ columns_of history.now) }
{
    let mut columns = Vec::new(alloc);
    let attempts = history.attempts.as_slice();
    let count = usize::from(history.version.thread_limit()) + 1;
    for thread in 0..count {
        add_thread(&mut columns, attempts, thread)?;
    }
    Ok(columns)
}
