//! Whether a thread's instructions are done or passed over.

ghost use Rattle.std.specs.Prelude.{◌≡◌, ◌^◌, ◌<◌, ◌≤◌, ◌+◌};

use script_program::Instruction;

/// What happens to the next instruction of local work.
#[derive(Clone, Copy)]
pub enum Stage {
    /// It is done.
    Runs,
    /// It is passed over, as all up to the `else` or the end of a group, within which so many groups have begun.
    ToElse(usize),
    /// It is passed over, as all up to the end of a group, within which so many groups have begun.
    ToEnd(usize),
}

impl Stage {
    ghost use Rattle.script_vm.specs.Work.{stage_past, groups_in};

    /// What happens after an instruction that is passed over.
    pub fn past(self, instruction: &Instruction) -> Stage
        requires { groups_in self + 1 < 2 ^ 64 }
        ensures stage { result ≡ stage_past self instruction.now }
        ensures groups { groups_in result ≤ groups_in self + 1 }
    {
        match (self, instruction) {
            (Stage::ToElse(groups), Instruction::IfNotZero { .. }) => Stage::ToElse(groups + 1),
            (Stage::ToElse(0), Instruction::Else | Instruction::EndIf) => Stage::Runs,
            (Stage::ToElse(groups), Instruction::EndIf) => Stage::ToElse(groups - 1),
            (Stage::ToEnd(groups), Instruction::IfNotZero { .. }) => Stage::ToEnd(groups + 1),
            (Stage::ToEnd(0), Instruction::EndIf) => Stage::Runs,
            (Stage::ToEnd(groups), Instruction::EndIf) => Stage::ToEnd(groups - 1),
            (stage, _) => stage,
        }
    }
}
