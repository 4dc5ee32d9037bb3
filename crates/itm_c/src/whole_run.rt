//! Whole runs of one thread: what each call asks of its caller follows from what the calls before it told.

ghost use Rattle.std.specs.Prelude.{◌≡◌, length, slice_index};
ghost use Rattle.std.specs.Arc.{arc_value};
ghost use Rattle.shared_words.specs.Passes.{view_of};
ghost use Rattle.itm_c.specs.Codes.{is_done};
ghost use Rattle.itm_c.specs.Kept.{HoldsRoot, IsThread, IsWords, StaysOver};
ghost use Rattle.itm_c.specs.Seats.{IsUnused};

use crate::accesses::itm_c_write8;
use crate::blocks::{itm_c_begin, itm_c_commit};
use crate::cells::Cells;
use crate::code::DONE;
use crate::handle::Handle;
use crate::seats::{itm_c_close, itm_c_enter, itm_c_leave, itm_c_open};
use std::alloc::Global;

/// Opens words, lets a thread enter and leave, and closes them: then the cells are as they were, where they lay.
pub fn untouched(alloc: Global, cells: Cells, out: &mut Cells) -> u32
    requires { slice_index cells.items 0 ≡ 0 }
    ensures { result ≡ is_done → (out.new.items ≡ cells.items) × (out.new.at ≡ cells.at) }
{
    let mut words = Handle::empty(alloc);
    let opened = itm_c_open(alloc, cells, &mut words);
    if opened != DONE {
        return opened;
    }
    enter_and_leave(alloc, &mut words);
    itm_c_close(alloc, &mut words, out)
}

/// A thread enters, if there is memory for it, and leaves.
fn enter_and_leave(alloc: Global, words: &mut Handle)
    requires { IsWords words.old.kept }
    ensures words { IsWords words.new.kept }
    ensures unused { HoldsRoot (λ r. HoldsRoot (λ s. (arc_value s.words ≡ arc_value r.words) × IsUnused (view_of r.pass) (view_of s.pass)) words.new.kept) words.old.kept }
{
    let mut thread = Handle::empty(alloc);
    let entered = itm_c_enter(alloc, words, &mut thread);
    if entered != DONE {
        return;
    }
    let left = itm_c_leave(alloc, words, &mut thread);
    // a thread that has just entered is in no transaction
    if left != DONE {
        unreachable!();
    }
}

/// Opens words, lets a thread try to store a number, and closes them: then the cells are so many as they were, where they lay.
pub fn stored(alloc: Global, cells: Cells, at: u64, value: u64, out: &mut Cells) -> u32
    requires { slice_index cells.items 0 ≡ 0 }
    ensures { result ≡ is_done → (length out.new.items ≡ length cells.items) × (out.new.at ≡ cells.at) }
{
    let mut words = Handle::empty(alloc);
    let opened = itm_c_open(alloc, cells, &mut words);
    if opened != DONE {
        return opened;
    }
    enter_and_store(alloc, &mut words, at, value);
    itm_c_close(alloc, &mut words, out)
}

/// A thread enters, if there is memory for it, tries once to store a number, and leaves.
fn enter_and_store(alloc: Global, words: &mut Handle, at: u64, value: u64)
    requires { IsWords words.old.kept }
    ensures words { IsWords words.new.kept }
    ensures same { HoldsRoot (λ r. HoldsRoot (λ s. arc_value s.words ≡ arc_value r.words) words.new.kept) words.old.kept }
{
    let mut thread = Handle::empty(alloc);
    if itm_c_enter(alloc, words, &mut thread) != DONE {
        return;
    }
    try_to_store(&mut thread, at, value);
    itm_c_leave(alloc, words, &mut thread);
}

/// Tries once to store a number.
fn try_to_store(thread: &mut Handle, at: u64, value: u64)
    requires { IsThread thread.old.kept }
    ensures thread { IsThread thread.new.kept }
    ensures same { StaysOver thread.old.kept thread.new.kept }
{
    itm_c_begin(thread, false, false, false, false);
    itm_c_write8(thread, at, value);
    itm_c_commit(thread);
}
