//! Cells where they lie in a vector's block.

ghost use Rattle.std.specs.Prelude.{◌≡◌, ℕ, ◌<◌, List, [], ◌∷◌, length, drop};
ghost use Rattle.std.specs.Borrow.{u64};
ghost use Rattle.std.specs.Vec.{with_items};
ghost use base.Fml.{ftrue, fex, fall, fwand, fsep, feq};
ghost use denote.RawPtr.{Ptr};
ghost use Rattle.atomic_table.specs.Table.{Final, Seen};
ghost use Rattle.atomic_table.specs.Seated.{strip};
ghost use Rattle.shared_words.specs.InPlace.{Extent, extent_code};
ghost use Rattle.shared_words.specs.Good.{Good};
ghost use Rattle.shared_words.specs.Rule.{AreGood};
ghost use Rattle.shared_words.specs.Views.{opening};

use crate::initial::InitialWords;
use crate::rule::CellRule;
use crate::view::View;
use atomic_table::{Seat, Shared};
use std::alloc::Allocator;
use std::marker::{Model, Move, Owns, PhantomData};

/// Cells under the rule.
pub(crate) type SharedCells = Shared<u8, View, InitialWords, CellRule>;

/// Cells side by side, which nothing else can reach. It has no bytes.
pub(crate) struct Row {
    pub(crate) ghost ptr: { Ptr },
    pub(crate) ghost items: { List ℕ },
}

impl Model for Row {
    ghost also_owns = { λ r. strip u64 r.ptr r.items };
}

/// A vector whose cells are out as a `Row`.
pub(crate) struct Hollow<A: Allocator> {
    vec: Vec<u64, A>,
}

impl<A: Allocator> Owns for Hollow<A> {
    ghost Value = { Extent };

    ghost coded = { extent_code };

    ghost shr_at = { λ _ _ _. ftrue };
}

impl<A: Allocator> Move for Hollow<A> {
    ghost own_val = { λ e vs. fex Inside (λ v. fsep (feq Extent (record { ptr = v.vec.ptr; len = v.vec.len }) e) (fall (List ℕ) (λ xs. fwand (fsep (feq ℕ (length xs) e.len) (strip u64 e.ptr xs)) (Fields.own_val (record { vec = with_items v.vec xs }) vs)))) };
}

// A `&` to it shows nothing.
unsafe impl<A: Allocator + Send> Send for Hollow<A> {}

unsafe impl<A: Allocator> Sync for Hollow<A> {}

/// Takes the cells out of a vector, where they are.
pub(crate) fn detach<A: Allocator>(vec: Vec<u64, A>) -> (Row, Hollow<A>)
    requires { 0 < vec.len }
    ensures { (result.0.ptr ≡ vec.ptr) × (result.0.items ≡ vec.items) × (result.1.ptr ≡ vec.ptr) × (result.1.len ≡ vec.len) }
{
    (Row {}, Hollow { vec })
}

/// Gives a vector its cells back.
pub(crate) fn attach<A: Allocator>(row: Row, hollow: Hollow<A>) -> Vec<u64, A>
    requires { (row.ptr ≡ hollow.ptr) × (length row.items ≡ hollow.len) }
    ensures { (result.items ≡ row.items) × (result.ptr ≡ hollow.ptr) }
{
    let Row {} = row;
    let Hollow { vec } = hollow;
    vec
}

// A `Shared` has these fields, and no other.
#[derive(Clone, Copy)]
struct Hand {
    words: *mut u64,
    slots: *mut u8,
    marker: PhantomData<()>,
}

// And a `Seat` this one.
#[derive(Clone, Copy)]
struct Token {
    marker: PhantomData<()>,
}

/// Puts the cells under the rule where they lie, and gives the one seat that there is.
pub(crate) fn deal(ptr: *mut u64, row: Row) -> (SharedCells, Seat<u8, View>)
    requires here { row.ptr ≡ ptr }
    requires good { Good row.items (opening (drop 1 row.items) ∷ []) }
    ensures place { result.0.words ≡ ptr }
    ensures counts { (result.0.table_id.words ≡ length row.items) × (result.0.table_id.slots ≡ 0) }
    ensures seat { (result.1.table_id ≡ result.0.table_id) × (result.1.me ≡ (opening (drop 1 row.items), [])) }
{
    let Row {} = row;
    let hand = Hand {
        words: ptr,
        slots: ptr as *mut u8,
        marker: PhantomData,
    };
    let token = Token {
        marker: PhantomData,
    };
    unsafe {
        (
            (&raw const hand as *const SharedCells).read(),
            (&raw const token as *const Seat<u8, View>).read(),
        )
    }
}

/// Takes the cells from under the rule, where they lie, in a state that has the seat's view.
pub(crate) fn gather_with(shared: SharedCells, seat: &mut Seat<u8, View>) -> Row
    requires { seat.old.table_id ≡ shared.table_id }
    ensures place { (result.ptr ≡ shared.words) × (length result.items ≡ shared.table_id.words) }
    ensures values { (xs : List ℕ) × Final (Seen AreGood seat.old.id seat.old.me.0) result.items xs }
{
    let mut none = 0u64;
    let at = &raw mut none;
    let mut hand = Hand {
        words: at,
        slots: at as *mut u8,
        marker: PhantomData,
    };
    unsafe {
        (&raw mut hand as *mut SharedCells).write(shared);
    }
    Row {}
}

/// The same with no seat, and of the values nothing is said.
pub(crate) fn gather(shared: SharedCells) -> Row
    ensures { (result.ptr ≡ shared.words) × (length result.items ≡ shared.table_id.words) }
{
    let mut none = 0u64;
    let at = &raw mut none;
    let mut hand = Hand {
        words: at,
        slots: at as *mut u8,
        marker: PhantomData,
    };
    unsafe {
        (&raw mut hand as *mut SharedCells).write(shared);
    }
    Row {}
}
