//! Where lines may stand.

ghost use Rattle.std.specs.Prelude.{◌≡◌};
ghost use Rattle.script_asm.specs.Groups.{innermost, is_second};
ghost use Rattle.script_asm.specs.Placement.{code_may_stand, may_stand};

use crate::groups::Group;
use crate::mnemonics::{Mnemonic, Word};
use crate::state::State;

fn code_may_stand(state: &State, mnemonic: Mnemonic) -> bool
    ensures { result ≡ code_may_stand state.now mnemonic }
{
    let begun = state.threads.has_begun();
    match mnemonic {
        Mnemonic::Else => match state.levels.innermost() {
            Some(Group::Second) => false,
            _ => begun,
        },
        _ => begun,
    }
}

/// Whether a line with this word may stand here.
pub fn may_stand(state: &State, word: Word) -> bool
    ensures { result ≡ may_stand state.now word }
{
    let begun = state.threads.has_begun();
    match word {
        Word::Memory => state.memory.is_none() && !begun,
        Word::Init => state.memory.is_some() && !begun,
        Word::Arena => !state.limits.has_arena() && !begun,
        Word::Patience => !state.limits.has_patience() && !begun,
        Word::Retries => !state.limits.has_retries() && !begun,
        Word::Commits => !state.limits.has_commits() && !begun,
        Word::Restarts => !state.limits.has_restarts() && !begun,
        Word::Depth => !state.limits.has_depth() && !begun,
        Word::Schedule => !begun,
        Word::Thread => state.memory.is_some(),
        Word::Repeat | Word::EndRepeat => begun,
        Word::Code(mnemonic) => code_may_stand(state, mnemonic),
    }
}
