//! Where blocks end.

ghost use Rattle.std.specs.Prelude.{◌≡◌, ◌+◌, ◌^◌, ◌<◌, ◌≤◌, length};
ghost use Rattle.script_vm.specs.Threads.{open_past, room, past_block};

use script_program::Instruction;

/// How many of so many blocks are still to be closed once an instruction is passed over.
fn open_past(instruction: &Instruction, left: usize) -> usize
    requires { left + 1 < 2 ^ 64 }
    ensures { result ≡ open_past instruction.now left }
{
    match instruction {
        Instruction::Begin { .. } => left + 1,
        Instruction::Commit => left.saturating_sub(1),
        _ => left,
    }
}

/// What stands after the commit that closes the enclosing block of this number, the innermost one being the first.
pub fn past_block(number: usize, code: &[Instruction]) -> &[Instruction]
    requires { number + length code.now < 2 ^ 32 }
    ensures value { result.now ≡ past_block number code.now }
    ensures shorter { length result.now ≤ length code.now }
{
    let (_, rest) = code.split_at(room(number, code));
    rest
}

/// How many instructions stand up to that commit, the commit too.
pub fn room(number: usize, code: &[Instruction]) -> usize
    requires { number + length code.now < 2 ^ 32 }
    ensures value { result ≡ room number code.now }
    ensures within { result ≤ length code.now }
{
    let mut left = number;
    let mut rest = code;
    while let Some((first, more)) = rest.split_first() {
        if left == 0 {
            break;
        }
        left = open_past(first, left);
        rest = more;
    }
    code.len() - rest.len()
}
