//! Whole texts.

ghost use Rattle.std.specs.Prelude.{◌≡◌, ◌++◌, codes, IfOk, IfErr, List, ℕ, Ok};
ghost use Rattle.tx_history.specs.Bounds.{AreLimited, HistoryFits};
ghost use Rattle.tx_history.specs.Histories.{history_text};
ghost use Rattle.tx_history.specs.Legal.{IsLegal};
ghost use Rattle.history_reader.specs.EarlyVersions.{first_of, second_of};
ghost use Rattle.history_reader.specs.LegalTexts.{IsLegalText};
ghost use Rattle.history_reader.specs.Reading.{whole, end_of, Fails, Gives, RunsOut, IsAnswer, read_of};
ghost use Rattle.history_reader.specs.Tellable.{IsHistory};
ghost use Rattle.history_reader.specs.declared.fault.ReadKind.TheVariants.{Memory};

use crate::fault::{ReadFault, ReadKind};
use crate::fields::first_line;
use crate::lines::read_line;
use crate::state::{Place, State};
use std::alloc::Global;
use tx_attempts::Attempts;
use tx_history::History;

/// The history, once its last line was read.
fn whole(alloc: Global, state: State) -> Result<History, ReadKind>
    ensures { result ≡ whole state.place state }
{
    let State {
        place,
        version,
        memory,
        mut attempts,
        bytes,
        ..
    } = state;
    match place {
        Place::AtEnd(clock) => Ok(History {
            version,
            memory,
            attempts: Attempts::new(attempts.take(alloc)),
            clock,
            bytes,
        }),
        _ => Err(ReadKind::Cut),
    }
}

/// What stands behind the last line feed: nothing, or a line that is cut.
#[tactic(auto, unfolding(crate::specs::Reading::end_of))]
fn end_of(alloc: Global, state: State, rest: &[u8]) -> Result<History, ReadKind>
    ensures { result ≡ end_of state rest.now }
{
    if rest.is_empty() {
        whole(alloc, state)
    } else {
        Err(ReadKind::Cut)
    }
}

/// The lines, one after the other; `number` is the line that was read last.
#[tactic(auto, unfolding(crate::specs::Reading::read_of), using(crate::proofs::RoundTrips::ReadLines::none_read, crate::proofs::RoundTrips::ReadLines::read_on, crate::proofs::RoundTrips::ReadLines::ahead_on, crate::proofs::RoundTrips::ReadLines::stopped, crate::proofs::RoundTrips::ReadLines::runs_out, crate::proofs::RoundTrips::ReadLines::ends, crate::proofs::RoundTrips::ReadLines::ends_without))]
fn read_lines(alloc: Global, text: &[u8], number: &mut usize) -> Result<History, ReadKind>
    requires { number.old ≡ 0 }
    ensures read { Gives number.new result (read_of text.now) }
    ensures refused { IfErr result (λ kind. kind ≡ Memory → RunsOut text.now number.new) }
{
    let mut state = State::new(alloc);
    let mut rest = text;
    while let Some((line, after)) = first_line(rest) {
        *number += 1;
        read_line(alloc, &mut state, line)?;
        rest = after;
    }
    *number += 1;
    end_of(alloc, state, rest)
}

/// The history that the text is, or its first fault.
///
/// The first line says which version it is, and that decides which lines may stand and how large everything may be. Lines
/// are read in order, and the first that is at fault decides: `Header` in line 1, `Line` where its form is none that may
/// stand there, else `Size` where a number or a length is none that may be. Where the text ends within a line
/// or before one that was due, that line is `Cut`. Where memory is refused, the fault is `Memory` in the line that was
/// read.
///
/// A text that is read is the one spelling of its history, and the spelling of each history that a text can tell is read
/// as that history.
#[tactic(auto, using(crate::proofs::Exactness::Texts::read_exact))]
pub fn read(alloc: Global, text: &[u8]) -> Result<History, ReadFault>
    ensures value { IsAnswer result text.now }
    ensures exact { IfOk result (λ h. history_text h ≡ text.now) }
    ensures tellable { IfOk result (λ h. IsHistory h) }
    ensures again { (h : History) → IsHistory h → text.now ≡ history_text h → read_of text.now ≡ Ok h }
{
    let mut number = 0;
    match read_lines(alloc, text, &mut number) {
        Ok(history) => Ok(history),
        Err(kind) => Err(ReadFault { line: number, kind }),
    }
}

/// The text of a legal history is read as a legal one, where each number and byte that it tells is one of its type, as of
/// every history that is written, and its sizes and counts are within the limits of a run. Does nothing.
pub fn legal_texts()
    ensures { (h : History) → IsLegal h → HistoryFits h → AreLimited h → IsLegalText (history_text h) }
{}

/// What a text of the first version says is what it said before there were others: the same history, or the same fault in the
/// same line. Does nothing.
pub fn first_version()
    ensures { (rest : List ℕ) → read_of (codes "itm-history 1\n" ++ rest) ≡ first_of (codes "itm-history 1\n" ++ rest) }
{}

/// And what a text of the second version says is what it said before there was a third. Does nothing.
pub fn second_version()
    ensures { (rest : List ℕ) → read_of (codes "itm-history 2\n" ++ rest) ≡ second_of (codes "itm-history 2\n" ++ rest) }
{}
