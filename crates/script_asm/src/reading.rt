//! Scripts line by line.

ghost use Rattle.std.specs.Prelude.{◌≡◌, MatchOption, false, true};
ghost use Rattle.std.specs.List.{list_all};
ghost use Rattle.script_fields.specs.Text.{is_allowed, without_comment};
ghost use Rattle.script_asm.specs.Assembly.{meaning, end_of};
ghost use Rattle.script_asm.specs.PlainTexts.{is_plain, is_plain_or_feed};
ghost use Rattle.script_asm.specs.Wants.{Steps};

use crate::mnemonics::word_of;
use crate::obeying::obey;
use crate::placement::may_stand;
use crate::state::State;
use crate::stop::{Stop, fault};
use script_fields::{AsmFault, FaultKind, code_part, first_field, has_allowed};
use script_program::Program;
use std::alloc::Global;

/// Whether a text has no comment, and no other bytes than visible ones, spaces and line feeds. Each byte is looked at
/// whatever the others are, so that the compiler can take many at a time.
pub fn is_plain(text: &[u8]) -> bool
    ensures { result ≡ list_all is_plain_or_feed text.now }
{
    let mut plain = true;
    for b in text {
        plain &= *b == b'\n' || (b' ' <= *b && *b <= b'~' && *b != b';');
    }
    plain
}

/// The line without its comment, where that holds only bytes that it may hold; a line that is plain is known to.
#[tactic(auto, using(crate::proofs::PlainLines::all_allowed, crate::proofs::PlainLines::no_comment))]
fn code_of(line: &[u8], plain: bool) -> Option<&[u8]>
    requires { plain ≡ true → list_all is_plain line.now ≡ true }
    ensures { MatchOption result (list_all is_allowed (without_comment line.now) ≡ false)
        (λ code. (code.now ≡ without_comment line.now) × (list_all is_allowed code.now ≡ true)) }
{
    if plain {
        return Some(line);
    }
    let code = code_part(line);
    if has_allowed(code) { Some(code) } else { None }
}

/// Reads one more line, which may be known to be plain.
#[tactic(auto, unfolding(crate::specs::Assembly::meaning))]
pub fn read_line(
    alloc: Global,
    state: &mut State,
    number: usize,
    line: &[u8],
    plain: bool,
) -> Result<(), Stop>
    requires { plain ≡ true → list_all is_plain line.now ≡ true }
    ensures { Steps result state.old state.new (meaning state.old number line.now) }
{
    let Some(code) = code_of(line, plain) else {
        return fault(number, FaultKind::Character);
    };
    let Some((first, rest)) = first_field(code) else {
        return Ok(());
    };
    let Some(word) = word_of(first) else {
        return fault(number, FaultKind::Unknown);
    };
    if !may_stand(state, word) {
        return fault(number, FaultKind::Misplaced);
    }
    obey(alloc, state, number, word, rest)
}

/// The program, where nothing is left open or out.
#[tactic(auto, unfolding(crate::specs::Assembly::end_of))]
pub fn finish(state: State) -> Result<Program, AsmFault>
    ensures { result ≡ end_of state }
{
    if let Some(line) = state.levels.innermost_line() {
        return Err(AsmFault {
            line,
            kind: FaultKind::Unbalanced,
        });
    }
    let State {
        memory,
        limits,
        schedule,
        threads,
        ..
    } = state;
    match memory {
        Some(opening) if threads.has_begun() => match schedule.stray(threads.count()) {
            Some(line) => Err(AsmFault {
                line,
                kind: FaultKind::Range,
            }),
            None => Ok(Program::new(
                opening,
                limits.arena(),
                limits.limits(),
                schedule.into_items(),
                threads,
            )),
        },
        _ => Err(AsmFault {
            line: 0,
            kind: FaultKind::Misplaced,
        }),
    }
}
