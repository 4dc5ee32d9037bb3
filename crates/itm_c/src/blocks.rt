//! Blocks: their begins and ends.

ghost use Rattle.std.specs.Prelude.{false};
ghost use Rattle.itm_c.specs.Kept.{IsThread};
ghost use Rattle.itm_c.specs.Told.{Answers, Tells};

use crate::handle::Handle;
use crate::kept::Kept;
use itm_types::{Call, Props};

/// Begins a block, or one within the open one.
#[unsafe(no_mangle)]
pub extern "C" fn itm_c_begin(
    thread: &mut Handle,
    no_abort: bool,
    no_irrevocable: bool,
    goes_irrevocable: bool,
    again: bool,
) -> u32
    requires thread { IsThread thread.old.kept }
    ensures thread { IsThread thread.new.kept }
    ensures told { Tells thread.old.kept (Call.Begin (record { no_abort = no_abort; no_irrevocable = no_irrevocable; goes_irrevocable = goes_irrevocable }) 0) again result thread.new.kept }
{
    let props = Props {
        no_abort,
        no_irrevocable,
        goes_irrevocable,
    };
    match thread.kept_mut() {
        Kept::Client(client) => client.begin(props, again),
        _ => unreachable!(),
    }
}

/// Ends the innermost block; with the outermost one the transaction commits.
#[unsafe(no_mangle)]
pub extern "C" fn itm_c_commit(thread: &mut Handle) -> u32
    requires thread { IsThread thread.old.kept }
    ensures thread { IsThread thread.new.kept }
    ensures answered { Answers thread.old.kept Call.Commit result thread.new.kept }
{
    match thread.kept_mut() {
        Kept::Client(client) => client.commit(),
        _ => unreachable!(),
    }
}

/// Cancels the innermost block, or with `outer` all.
#[unsafe(no_mangle)]
pub extern "C" fn itm_c_cancel(thread: &mut Handle, outer: bool) -> u32
    requires thread { IsThread thread.old.kept }
    ensures thread { IsThread thread.new.kept }
    ensures answered { Answers thread.old.kept (Call.Abort outer) result thread.new.kept }
{
    match thread.kept_mut() {
        Kept::Client(client) => client.cancel(outer),
        _ => unreachable!(),
    }
}

/// The transaction becomes irrevocable.
#[unsafe(no_mangle)]
pub extern "C" fn itm_c_irrevocable(thread: &mut Handle) -> u32
    requires thread { IsThread thread.old.kept }
    ensures thread { IsThread thread.new.kept }
    ensures told { Tells thread.old.kept (Call.Mode 0) false result thread.new.kept }
{
    match thread.kept_mut() {
        Kept::Client(client) => client.call(&Call::Mode { room: 0 }),
        _ => unreachable!(),
    }
}
