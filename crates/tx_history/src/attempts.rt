//! The lines of attempts.

ghost use Rattle.std.specs.Prelude.{◌≡◌, ◌++◌, All, [], codes, flat_map};
ghost use Rattle.hex.specs.Hex.{IsBytes};
ghost use Rattle.tx_history.specs.Bounds.{AgainFits, AttemptFits, EntryFits, IsWord, RanFits};
ghost use Rattle.tx_history.specs.Pages.{Carries, Spells};
ghost use Rattle.tx_history.specs.Histories.{outcome_name, try_text, props_end, head_line, arena_line, call_line, call_lines, restart_line, undone_line, again_lines, kind_text, ran_line, attempt_lines};

use crate::bodies::{function_number, put_body, put_reply};
use crate::page::Page;
use crate::pieces::Piece;
use itm_types::{ActionKind, Props, Ran};
use script_fields::props_text;
use std::io::Write;
use tx_attempts::{Again, Attempt, CallRecord, Outcome};

/// Writes a blank and the outcome. Each text stands in the code, so that it is copied with no loop.
fn put_outcome<W: Write>(page: &mut Page<'_, W>, outcome: Outcome)
    ensures { Carries W.contents page.old page.new (codes " " ++ outcome_name outcome) }
{
    match outcome {
        Outcome::Committed => page.text(b" committed"),
        Outcome::ReadOnly => page.text(b" readonly"),
        Outcome::Cancelled => page.text(b" cancelled"),
        Outcome::Conflict => page.text(b" conflict"),
        Outcome::Full => page.text(b" full"),
        Outcome::NoMemory => page.text(b" nomemory"),
        Outcome::Unfinished => page.text(b" unfinished"),
    }
}

fn put_try<W: Write>(page: &mut Page<'_, W>, attempt: &Attempt)
    ensures { Spells W.contents page.old page.new (try_text attempt.now) (IsWord attempt.now.at) }
{
    page.text(b"attempt");
    page.blank_number(u64::from(attempt.thread));
    page.blank_number(u64::from(attempt.nth));
    page.blank_number(attempt.at);
    put_outcome(page, attempt.outcome);
}

fn put_props<W: Write>(page: &mut Page<'_, W>, props: Props)
    ensures { Carries W.contents page.old page.new (props_end props) }
{
    match props {
        // most blocks have none
        Props {
            no_abort: false,
            no_irrevocable: false,
            goes_irrevocable: false,
        } => page.text(b" -\n"),
        _ => {
            page.text(b" ");
            page.bytes(props_text(props).as_bytes());
            page.text(b"\n");
        }
    }
}

fn put_head<W: Write>(page: &mut Page<'_, W>, attempt: &Attempt)
    ensures { Spells W.contents page.old page.new (head_line attempt.now) (IsWord attempt.now.at) }
{
    put_try(page, attempt);
    put_props(page, attempt.props);
}

#[tactic(auto, unfolding(crate::specs::Histories::arena_line), using(crate::proofs::PagedTexts::carries_as))]
fn put_arena<W: Write>(page: &mut Page<'_, W>, bytes: &[u8])
    ensures { Spells W.contents page.old page.new (arena_line bytes.now) (IsBytes bytes.now) }
{
    if bytes.is_empty() {
        page.text(b"arena -\n");
    } else {
        page.put(&[
            Piece::Text(b"arena "),
            Piece::Hex(bytes),
            Piece::Text(b"\n"),
        ]);
    }
}

pub fn put_call<W: Write>(page: &mut Page<'_, W>, entry: &CallRecord)
    ensures { Spells W.contents page.old page.new (call_line entry.now) (EntryFits entry.now) }
{
    page.text(b"call ");
    put_body(page, &entry.call);
    put_reply(page, &entry.reply);
}

fn put_calls<W: Write>(page: &mut Page<'_, W>, calls: &[CallRecord])
    ensures { Spells W.contents page.old page.new (flat_map call_line calls.now) (All EntryFits calls.now) }
{
    for entry in calls {
        put_call(page, entry);
    }
}

/// The arena from which a block ran again.
#[tactic(auto, unfolding(crate::specs::Histories::restart_line), using(crate::proofs::PagedTexts::carries_as))]
fn put_restart<W: Write>(page: &mut Page<'_, W>, bytes: &[u8])
    ensures { Spells W.contents page.old page.new (restart_line bytes.now) (IsBytes bytes.now) }
{
    if bytes.is_empty() {
        page.text(b"restart -\n");
    } else {
        page.put(&[
            Piece::Text(b"restart "),
            Piece::Hex(bytes),
            Piece::Text(b"\n"),
        ]);
    }
}

/// An action that had run in a block before it ran again.
#[tactic(auto, unfolding(crate::specs::Histories::undone_line), using(crate::proofs::PagedTexts::carries_as))]
fn put_undone<W: Write>(page: &mut Page<'_, W>, undone: Ran)
    ensures { Spells W.contents page.old page.new (undone_line undone) (RanFits undone) }
{
    page.put(&[
        Piece::Text(b"undone "),
        Piece::Number(function_number(undone.action.fun)),
        Piece::Text(b" "),
        Piece::Number(undone.action.arg),
        Piece::Text(b"\n"),
    ]);
}

fn put_all_undone<W: Write>(page: &mut Page<'_, W>, all: &[Ran])
    ensures { Spells W.contents page.old page.new (flat_map undone_line all.now) (All RanFits all.now) }
{
    for ran in all {
        put_undone(page, *ran);
    }
}

/// That a block ran again.
#[inline(never)]
fn put_again<W: Write>(page: &mut Page<'_, W>, again: &Again)
    ensures { Spells W.contents page.old page.new (again_lines again.now) (AgainFits again.now) }
{
    put_restart(page, again.arena.as_slice());
    put_all_undone(page, again.undone.as_slice());
}

/// The calls, and within them the blocks that ran again.
fn put_body_lines<W: Write>(page: &mut Page<'_, W>, calls: &[CallRecord], restarts: &[Again])
    ensures { Spells W.contents page.old page.new
        (call_lines 0 calls.now restarts.now) (All EntryFits calls.now × All AgainFits restarts.now) }
{
    let mut told = 0;
    let mut left = calls;
    for again in restarts {
        let count = again.kept.saturating_sub(told).min(left.len());
        let (first, later) = left.split_at(count);
        put_calls(page, first);
        put_again(page, again);
        told = again.kept;
        left = later;
    }
    put_calls(page, left);
}

fn kind_text(kind: ActionKind) -> &'static [u8]
    ensures { result.now ≡ kind_text kind }
{
    match kind {
        ActionKind::Commit => b"commit",
        ActionKind::Undo => b"undo",
    }
}

/// An action that has run.
#[tactic(auto, unfolding(crate::specs::Histories::ran_line), using(crate::proofs::PagedTexts::carries_as))]
fn put_ran<W: Write>(page: &mut Page<'_, W>, ran: Ran)
    ensures { Spells W.contents page.old page.new (ran_line ran) (RanFits ran) }
{
    page.put(&[
        Piece::Text(b"ran "),
        Piece::Text(kind_text(ran.kind)),
        Piece::Text(b" "),
        Piece::Number(function_number(ran.action.fun)),
        Piece::Text(b" "),
        Piece::Number(ran.action.arg),
        Piece::Text(b"\n"),
    ]);
}

pub fn put_all_ran<W: Write>(page: &mut Page<'_, W>, all: &[Ran])
    ensures { Spells W.contents page.old page.new (flat_map ran_line all.now) (All RanFits all.now) }
{
    for ran in all {
        put_ran(page, *ran);
    }
}

pub fn put_attempt<W: Write>(page: &mut Page<'_, W>, attempt: &Attempt)
    ensures { Spells W.contents page.old page.new (attempt_lines attempt.now) (AttemptFits attempt.now) }
{
    put_head(page, attempt);
    put_arena(page, attempt.arena.as_slice());
    put_body_lines(page, attempt.calls.as_slice(), attempt.restarts.as_slice());
    put_all_ran(page, attempt.ran.as_slice());
    page.text(b"end\n");
}

/// The lines of attempts.
pub fn put_attempts<W: Write>(page: &mut Page<'_, W>, attempts: &[Attempt])
    ensures { Spells W.contents page.old page.new (flat_map attempt_lines attempts.now) (All AttemptFits attempts.now) }
{
    for attempt in attempts {
        put_attempt(page, attempt);
    }
}

/// Writes the lines of an attempt, and gives the writer the last page of them.
pub fn write_attempt<W: Write>(page: &mut Page<'_, W>, attempt: &Attempt)
    ensures spells { Spells W.contents page.old page.new (attempt_lines attempt.now) (AttemptFits attempt.now) }
    ensures empty { page.new.bytes.items ≡ [] }
{
    put_attempt(page, attempt);
    page.flush();
}
