//! Old pieces of the memory, of which the journal has each at most once for a block. So its length is bounded by the
//! memory's, however often a block writes the same bytes.

ghost use Rattle.std.specs.Prelude.{◌≡◌, ◌≤◌, ◌<◌, ◌+◌, ◌*◌, IsOk, OnOk, OnErr, [], length, drop, take, reverse, vec_len, vec_capacity};
ghost use Rattle.itm_model.specs.Pieces.{AreAmong, AreCovered, AreHandedOn, AreLinked, AreNewest, IsIndexed, handed_on, newest_in, piece_of, top_of};
ghost use Rattle.itm_model.specs.Undoing.{KeepsOld};

use crate::bytes::{WIDEST, part_at};
use crate::journal::{Mark, Old};
use std::alloc::AllocError;

/// How many entries the journal had at the begin of the innermost block.
pub(crate) fn innermost_at(marks: &[Mark]) -> usize
    ensures { result ≡ top_of (reverse marks.now) }
{
    match marks {
        [] => 0,
        [.., last] => last.at,
    }
}

/// Which piece an entry is of.
fn piece_of(old: &Old) -> usize
    ensures { result ≡ piece_of old.now }
{
    old.place as usize / WIDEST
}

/// Keeps each piece that has one of these bytes, unless it has an entry since there were `top`. To keep none takes
/// no memory.
pub(crate) fn keep_pieces(
    bytes: &[u8],
    journal: &mut Vec<Old>,
    newest: &mut Vec<usize>,
    top: usize,
    place: u64,
    size: u64,
) -> Result<(), AllocError>
    requires range { place + size ≤ length bytes.now }
    requires top { top ≤ length journal.old.items }
    requires indexed { IsIndexed (length bytes.now) journal.old.items newest.old.items }
    ensures keeps { OnOk result (KeepsOld top bytes.now journal.old.items journal.new.items newest.new.items) }
    ensures covered { OnOk result (AreCovered (drop top journal.new.items) place size) }
    ensures none { size ≡ 0 → IsOk result }
    ensures err { OnErr result (journal.new.items ≡ journal.old.items) }
    ensures err_newest { OnErr result (newest.new.items ≡ newest.old.items) }
{
    if size == 0 {
        return Ok(());
    }
    let first = place as usize / WIDEST;
    let end = (place as usize + size as usize).div_ceil(WIDEST);
    journal.reserve(end - first)?;
    for piece in first..end {
        keep_piece(bytes, journal, newest, top, piece);
    }
    Ok(())
}

/// Keeps a piece, unless it has an entry since there were `top`.
fn keep_piece(
    bytes: &[u8],
    journal: &mut Vec<Old>,
    newest: &mut Vec<usize>,
    top: usize,
    piece: usize,
)
    requires piece { 32 * piece < length bytes.now }
    requires top { top ≤ length journal.old.items }
    requires room { vec_len journal.old < vec_capacity journal.old }
    requires indexed { IsIndexed (length bytes.now) journal.old.items newest.old.items }
    ensures keeps { KeepsOld top bytes.now journal.old.items journal.new.items newest.new.items }
    ensures kept { top < newest_in journal.new.items piece }
    ensures one { vec_len journal.new ≤ vec_len journal.old + 1 }
    ensures capacity { vec_capacity journal.new ≡ vec_capacity journal.old }
{
    let earlier = newest[piece];
    if earlier > top {
        return;
    }
    let start = piece * WIDEST;
    let kept = part_at(bytes, start, usize::min(bytes.len() - start, WIDEST));
    journal.push_reserved(Old {
        place: start as u64,
        bytes: kept,
        earlier,
    });
    newest[piece] = journal.len();
}

/// The table forgets the entries since the journal had `at`.
pub(crate) fn forget(journal: &[Old], newest: &mut Vec<usize>, at: usize)
    requires at { at ≤ length journal.now }
    requires linked { AreLinked [] journal.now }
    requires newest { AreNewest journal.now newest.old.items }
    requires among { AreAmong (length newest.old.items) journal.now }
    ensures newest { AreNewest (take at journal.now) newest.new.items }
    ensures count { length newest.new.items ≡ length newest.old.items }
{
    let mut left = journal.len();
    while left > at {
        left -= 1;
        let old = &journal[left];
        newest[piece_of(old)] = old.earlier;
    }
}

/// A block that began with `at` entries leaves its own to the one around it, which began with `top`: those of the
/// pieces that the one around has not kept.
pub(crate) fn hand_on(journal: &mut Vec<Old>, newest: &mut Vec<usize>, top: usize, at: usize)
    requires at { at ≤ length journal.old.items }
    requires linked { AreLinked [] journal.old.items }
    requires newest { AreNewest journal.old.items newest.old.items }
    requires among { AreAmong (length newest.old.items) journal.old.items }
    ensures handed { journal.new.items ≡ handed_on top (take at journal.old.items) (drop at journal.old.items) }
    ensures newest { AreNewest journal.new.items newest.new.items }
    ensures count { length newest.new.items ≡ length newest.old.items }
{
    forget(journal, newest, at);
    let mut to = at;
    for from in at..journal.len() {
        to = hand_on_one(journal, newest, top, to, from);
    }
    journal.truncate(to);
}

/// The entry at `from` follows the first `to`, unless its piece has one since there were `top`. How many there are
/// then.
fn hand_on_one(
    journal: &mut Vec<Old>,
    newest: &mut Vec<usize>,
    top: usize,
    to: usize,
    from: usize,
) -> usize
    requires from { from < length journal.old.items }
    requires so_far { AreHandedOn to from journal.old.items newest.old.items }
    ensures handed { handed_on top (take result journal.new.items) (drop (from + 1) journal.new.items)
        ≡ handed_on top (take to journal.old.items) (drop from journal.old.items) }
    ensures so_far { AreHandedOn result (from + 1) journal.new.items newest.new.items }
    ensures len { length journal.new.items ≡ length journal.old.items }
    ensures count { length newest.new.items ≡ length newest.old.items }
{
    let piece = piece_of(&journal[from]);
    let before = newest[piece];
    if before > top {
        return to;
    }
    journal.swap(to, from);
    journal[to].earlier = before;
    newest[piece] = to + 1;
    to + 1
}
