//! The words are opened and closed, and threads enter and leave.

ghost use Rattle.std.specs.Prelude.{◌≡◌, ◌≢◌, ◌⊎◌, ◌↔◌, true, None, IsSome, IfSome, length, slice_index};
ghost use Rattle.std.specs.Arc.{arc_value};
ghost use Rattle.shared_words.specs.Passes.{IsWrongCount, view_of};
ghost use Rattle.itm_c.specs.Codes.{is_done, is_held, is_out_of_range, no_memory, no_seat, still_entered};
ghost use Rattle.itm_c.specs.Kept.{HoldsClient, HoldsRoot, IsThread, IsWords, KeepsClient, KeepsRoot};
ghost use Rattle.itm_c.specs.Seats.{Closes, Enters, IsOpened, IsRefused, Leaves};

use crate::cells::Cells;
use crate::code::{DONE, HELD, MEMORY, STILL_ENTERED};
use crate::handle::Handle;
use crate::kept::Kept;
use crate::root::Root;
use std::alloc::Global;

/// Words where their cells lie.
#[unsafe(no_mangle)]
pub extern "C" fn itm_c_open(alloc: Global, cells: Cells, out: &mut Handle) -> u32
    requires clock { slice_index cells.items 0 ≡ 0 }
    ensures made { IsSome out.new.kept ↔ (result ≡ is_done) }
    ensures opened { IfSome out.new.kept (KeepsRoot (IsOpened cells)) }
    ensures count { (result ≡ is_out_of_range) ↔ IsWrongCount (length cells.items) }
    ensures codes { (result ≡ is_done) ⊎ (result ≡ is_out_of_range) ⊎ (result ≡ no_memory) }
{
    *out = Handle::empty(alloc);
    match Root::open(alloc, cells) {
        Ok(root) => match Box::new(alloc, Kept::Root(root)) {
            Ok(kept) => {
                out.put(kept);
                DONE
            }
            Err(_) => MEMORY,
        },
        Err(code) => code,
    }
}

/// A thread over the words.
#[tactic(auto, using(crate::proofs::Rejoined::left_again))]
#[unsafe(no_mangle)]
pub extern "C" fn itm_c_enter(alloc: Global, words: &mut Handle, out: &mut Handle) -> u32
    requires words { IsWords words.old.kept }
    ensures words { IsWords words.new.kept }
    ensures made { IsSome out.new.kept ↔ (result ≡ is_done) }
    ensures entered { HoldsRoot (λ r. HoldsRoot (λ s. IfSome out.new.kept (KeepsClient (Enters r s))) words.new.kept) words.old.kept }
    ensures refused { HoldsRoot (λ r. HoldsRoot (λ s. IsRefused r s out.new.kept) words.new.kept) words.old.kept }
    ensures codes { (result ≡ is_done) ⊎ (result ≡ no_seat) ⊎ (result ≡ no_memory) }
    ensures seats { HoldsRoot (λ r. (result ≡ no_seat) ↔ ((view_of r.pass).share ≡ 1)) words.old.kept }
{
    *out = Handle::empty(alloc);
    match words.kept_mut() {
        Kept::Root(root) => match root.enter(alloc) {
            Ok(client) => match Box::new(alloc, Kept::Client(client)) {
                Ok(kept) => {
                    out.put(kept);
                    DONE
                }
                Err(refused) => {
                    root.take_back(refused.value);
                    MEMORY
                }
            },
            Err(code) => code,
        },
        _ => unreachable!(),
    }
}

/// Gives the thread's memory back, and its seat to the words.
#[unsafe(no_mangle)]
pub extern "C" fn itm_c_leave(alloc: Global, words: &mut Handle, thread: &mut Handle) -> u32
    requires words { IsWords words.old.kept }
    requires thread { IsThread thread.old.kept }
    requires same { HoldsRoot (λ r. HoldsClient (λ c. arc_value c.words ≡ arc_value r.words) thread.old.kept) words.old.kept }
    ensures words { IsWords words.new.kept }
    ensures codes { (result ≡ is_done) ⊎ (result ≡ is_held) }
    ensures held { HoldsClient (λ c. (result ≡ is_held) ↔ (c.thread.engine.irrevocable ≡ true)) thread.old.kept }
    ensures stays { result ≡ is_held → (thread.new.kept ≡ thread.old.kept) × (words.new.kept ≡ words.old.kept) }
    ensures left { result ≡ is_done → (thread.new.kept ≡ None) × HoldsRoot (λ r. HoldsClient (λ c. HoldsRoot (Leaves r c) words.new.kept) thread.old.kept) words.old.kept }
{
    if holds_clock(thread) {
        return HELD;
    }
    let kept = Box::into_inner(thread.take(alloc));
    match words.kept_mut() {
        Kept::Root(root) => root.take_back(kept),
        _ => unreachable!(),
    }
    DONE
}

/// Gives the words up, and the cells are C's again where they lie, once each thread that entered has left. Else nothing is
/// changed.
#[unsafe(no_mangle)]
pub extern "C" fn itm_c_close(alloc: Global, words: &mut Handle, out: &mut Cells) -> u32
    requires words { IsWords words.old.kept }
    ensures codes { (result ≡ is_done) ⊎ (result ≡ still_entered) }
    ensures closed { result ≡ is_done → (words.new.kept ≡ None) × HoldsRoot (λ r. Closes r out.new) words.old.kept }
    ensures stays { result ≡ still_entered → (words.new.kept ≡ words.old.kept) × (out.new ≡ out.old) }
{
    match words.kept_mut().close() {
        Some(cells) => {
            *out = cells;
            drop(words.take(alloc));
            DONE
        }
        None => STILL_ENTERED,
    }
}

/// The thread's transaction is irrevocable.
fn holds_clock(thread: &mut Handle) -> bool
    requires thread { IsThread thread.old.kept }
    ensures held { HoldsClient (λ c. result ≡ c.thread.engine.irrevocable) thread.old.kept }
    ensures same { thread.new.kept ≡ thread.old.kept }
{
    match thread.kept_mut() {
        Kept::Client(client) => client.holds_clock(),
        _ => unreachable!(),
    }
}
