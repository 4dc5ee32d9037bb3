//! Why a call is refused.

ghost use Rattle.std.specs.Prelude.{not, ◌≡◌, nat_lt, length, true};
ghost use Rattle.itm_model.specs.Machine.{abort_for, begin_for, copy_ranges, in_arena, in_shared, is_clear, keeps_any, keeps_innermost, keeps_revocable, needs_open, ranges, refusal, source_range, standing, target_range, unless};

use super::Plain;
use crate::bytes::is_in_range;
use itm_types::{Call, CopyPair, Copying, Props, Refusal};

impl Plain {
    /// Why the call is refused, if it is.
    pub(super) fn refusal(&self, call: &Call) -> Option<Refusal>
        ensures { result ≡ refusal self.now.deepest self.now.state call.now }
    {
        self.standing(call).or(self.ranges(call))
    }

    /// Why no such call is served with these blocks open, if it is not.
    fn standing(&self, call: &Call) -> Option<Refusal>
        ensures { result ≡ standing self.now.deepest self.now.state call.now }
    {
        match call {
            Call::Begin { props, .. } => self.no_begin(*props),
            Call::InTransaction | Call::Load { .. } | Call::Save { .. } => None,
            Call::Abort { outer } => self.outside().or(self.no_abort(*outer)),
            Call::Mode { .. } => self.outside().or(self.no_mode()),
            Call::Commit
            | Call::Read { .. }
            | Call::Write { .. }
            | Call::Log { .. }
            | Call::LogBytes { .. }
            | Call::Copy(_)
            | Call::Fill { .. }
            | Call::CommitAction(_)
            | Call::UndoAction(_) => self.outside(),
        }
    }

    /// Why the call's bytes are not to be had, if they are not.
    fn ranges(&self, call: &Call) -> Option<Refusal>
        ensures { result ≡ ranges self.now.state call.now }
    {
        match call {
            Call::Read { width, at, .. } => self.out_of_range(*at, u64::from(width.size())),
            Call::Write { at, value, .. } => self.out_of_range(*at, u64::from(value.width.size())),
            Call::Log { width, at } => self.out_of_arena(*at, u64::from(width.size())),
            Call::LogBytes { at, size } => self.out_of_arena(*at, *size),
            Call::Copy(copying) => self.copy_ranges(copying),
            Call::Fill { to, size, .. } => self.out_of_range(*to, *size),
            Call::Load { width, at } => self.out_of_arena(*at, u64::from(width.size())),
            Call::Save { at, value } => self.out_of_arena(*at, u64::from(value.width.size())),
            Call::Begin { .. }
            | Call::Commit
            | Call::Abort { .. }
            | Call::Mode { .. }
            | Call::InTransaction
            | Call::CommitAction(_)
            | Call::UndoAction(_) => None,
        }
    }

    /// Why a copy's bytes are not to be had, if they are not.
    fn copy_ranges(&self, copying: &Copying) -> Option<Refusal>
        ensures { result ≡ copy_ranges self.now.state copying.now }
    {
        let rest = self.source(copying).or(overlap(copying));
        self.target(copying).or(rest)
    }

    /// Why the bytes that a copy writes are not to be had, if they are not.
    fn target(&self, copying: &Copying) -> Option<Refusal>
        ensures { result ≡ target_range self.now.state copying.now.pair copying.now.to copying.now.size }
    {
        match copying.pair {
            CopyPair::In(_) => self.out_of_arena(copying.to, copying.size),
            CopyPair::Out(_) | CopyPair::Within(..) => self.out_of_range(copying.to, copying.size),
        }
    }

    /// Why the bytes that a copy reads are not to be had, if they are not.
    fn source(&self, copying: &Copying) -> Option<Refusal>
        ensures { result ≡ source_range self.now.state copying.now.pair copying.now.from copying.now.size }
    {
        match copying.pair {
            CopyPair::Out(_) => self.out_of_arena(copying.from, copying.size),
            CopyPair::In(_) | CopyPair::Within(..) => self.out_of_range(copying.from, copying.size),
        }
    }

    /// Why a block with these properties does not begin, if it does not.
    fn no_begin(&self, props: Props) -> Option<Refusal>
        ensures { result ≡ begin_for self.now.deepest self.now.state props }
    {
        if props.goes_irrevocable && (props.no_irrevocable || self.keeps_revocable()) {
            Some(Refusal::NoIrrevocable)
        } else {
            self.too_deep()
        }
    }

    /// One more block is too many.
    fn too_deep(&self) -> Option<Refusal>
        ensures { result ≡ unless (nat_lt (length self.now.state.blocks) self.now.deepest) Refusal.TooDeep }
    {
        if self.depth() < usize::from(self.deepest.blocks) {
            None
        } else {
            Some(Refusal::TooDeep)
        }
    }

    /// No transaction is open.
    fn outside(&self) -> Option<Refusal>
        ensures { result ≡ needs_open self.now.state }
    {
        if self.depth() == 0 {
            Some(Refusal::Outside)
        } else {
            None
        }
    }

    /// An abort would cancel a block that is not to be cancelled, or an irrevocable transaction.
    fn no_abort(&self, outer: bool) -> Option<Refusal>
        ensures { result ≡ abort_for self.now.state outer }
    {
        let keeps = if outer {
            self.keeps_any()
        } else {
            self.keeps_innermost()
        };
        if keeps {
            Some(Refusal::NoAbort)
        } else if self.irrevocable {
            Some(Refusal::IsIrrevocable)
        } else {
            None
        }
    }

    /// A block is open within which the transaction does not become irrevocable.
    fn no_mode(&self) -> Option<Refusal>
        ensures { result ≡ unless (not (keeps_revocable self.now.state.blocks)) Refusal.NoIrrevocable }
    {
        if self.keeps_revocable() {
            Some(Refusal::NoIrrevocable)
        } else {
            None
        }
    }

    /// Whether an open block is not to be cancelled.
    fn keeps_any(&self) -> bool
        ensures { result ≡ keeps_any self.now.state.blocks }
    {
        self.marks.iter().any(|mark| mark.props.no_abort)
    }

    /// Whether the innermost block is not to be cancelled.
    fn keeps_innermost(&self) -> bool
        ensures { result ≡ keeps_innermost self.now.state.blocks }
    {
        self.marks.last().is_some_and(|mark| mark.props.no_abort)
    }

    /// Whether the transaction does not become irrevocable within an open block.
    fn keeps_revocable(&self) -> bool
        ensures { result ≡ keeps_revocable self.now.state.blocks }
    {
        self.marks.iter().any(|mark| mark.props.no_irrevocable)
    }

    /// So many bytes leave the memory.
    fn out_of_range(&self, place: u64, size: u64) -> Option<Refusal>
        ensures { result ≡ in_shared self.now.state place size }
    {
        if is_in_range(&self.memory, place, size) {
            None
        } else {
            Some(Refusal::OutOfRange)
        }
    }

    /// So many bytes leave the arena.
    fn out_of_arena(&self, place: u64, size: u64) -> Option<Refusal>
        ensures { result ≡ in_arena self.now.state place size }
    {
        if is_in_range(&self.arena, place, size) {
            None
        } else {
            Some(Refusal::OutOfArena)
        }
    }
}

/// The two shared ranges of a copy that does not move have a byte in common.
fn overlap(copying: &Copying) -> Option<Refusal>
    ensures { result ≡ unless (is_clear copying.now) Refusal.Overlap }
{
    let shared = matches!(copying.pair, CopyPair::Within(..));
    let common = copying.to.abs_diff(copying.from) < copying.size;
    if shared && common && !copying.moves {
        Some(Refusal::Overlap)
    } else {
        None
    }
}
