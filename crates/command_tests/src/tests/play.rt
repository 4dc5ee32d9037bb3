//! A run whose history is written as it goes. Its players and its writer share a count of replies, so it is seen what came
//! first.

ghost use Rattle.std.specs.Prelude.{◌≡◌, ◌<◌, IfOk, length};
ghost use Rattle.script_program.specs.Listing.{threads_of};
ghost use Rattle.script_vm.specs.Threads.{depth_of};

use crate::counted::{Counted, Parting};
use norec_world::{Bytes, Setup, World};
use run_commands::play;
use script_asm::{AsmFault, assemble};
use script_program::{Item, Program};
use script_vm::Script;
use std::alloc::{AllocError, Global};
use std::cell::Cell;
use std::process::Abort;
use std::test::*;
use tx_history::{Stream, Version};

/// Two threads that add one to the same word, each in one block of four calls.
const TWO_COUNTERS: &[u8] = b".memory 8
.thread 2
set r1 1
_ITM_beginTransaction r0 -
_ITM_RU8 r2 0
add r2 r2 r1
_ITM_WU8 0 r2
_ITM_commitTransaction
";

/// Four replies to thread 1, three to the first try of thread 0, and four to its second.
const REPLIES: u32 = 11;

/// What has been written before the last reply.
const BEFORE: &[u8] = b"itm-history 1
memory 0000000000000000
attempt 1 1 0 committed -
arena -
call _ITM_RU8 0 = 0000000000000000
call _ITM_WU8 0 0100000000000000 = ok
call _ITM_commitTransaction = ok
end
attempt 0 1 0 conflict -
arena -
call _ITM_RU8 0 = 0000000000000000
call _ITM_WU8 0 0100000000000000 = ok
end
";

/// What is written after it.
const AFTER: &[u8] = b"attempt 0 2 1 committed -
arena -
call _ITM_RU8 0 = 0100000000000000
call _ITM_WU8 0 0200000000000000 = ok
call _ITM_commitTransaction = ok
end
final 4 0200000000000000
";

/// The program of a script.
fn program(alloc: Global, text: &[u8]) -> Result<Program, AsmFault> {
    assemble(alloc, text)
}

/// A thread of the program before its first call.
fn player<'p>(
    alloc: Global,
    program: &'p Program,
    thread: usize,
    replies: &'p Cell<u32>,
) -> Result<Counted<'p>, AllocError>
    requires { thread < length (threads_of program.now) }
    ensures { IfOk result (λ c. depth_of c ≡ 0) }
{
    Ok(Counted::new(Script::new(alloc, program, thread)?, replies))
}

/// The program's world before the first event, with the replies to its two threads counted.
fn begin<'p>(
    alloc: Global,
    program: &'p Program,
    replies: &'p Cell<u32>,
) -> Result<World<Counted<'p>>, AllocError>
    requires { length (threads_of program.now) ≡ 2 }
    ensures { IfOk result (λ w. length w.actors ≡ 2) }
{
    let mut players = Vec::new(alloc);
    players.push(player(alloc, program, 0, replies)?)?;
    players.push(player(alloc, program, 1, replies)?)?;
    let mut bytes = vec![in alloc; 0; program.size()]?;
    program.opening(&mut bytes);
    let setup = Setup {
        bytes: Bytes::new(bytes),
        arena: program.arena() as u32,
        limits: program.limits(),
    };
    World::new(alloc, setup, players)
}

/// Thread 1 commits between the read of thread 0 and its commit, which is tried again: whether the history was written.
fn is_played(alloc: Global, world: &mut World<Counted<'_>>, writer: &mut Parting<'_>) -> bool
    requires { length world.old.actors ≡ 2 }
{
    let items = [Item::Take(0, 3), Item::Take(1, 6), Item::Out(0)];
    let mut stream = Stream::new(writer);
    play(alloc, world, &items, Version::One, &mut stream).is_ok()
}

/// The attempts that have ended before the last reply are written before it.
fn expect_parts(rt: &impl Abort, alloc: Global, program: &Program)
    requires { length (threads_of program.now) ≡ 2 }
{
    let replies = Cell::new(0);
    let mut world = begin(alloc, program, &replies).expect(rt, "memory");
    let mut writer = Parting {
        before: Vec::new(alloc),
        after: Vec::new(alloc),
        replies: &replies,
        last: REPLIES,
    };
    assert!(rt; is_played(alloc, &mut world, &mut writer));
    assert_eq!(rt; replies.get(), REPLIES);
    assert_eq!(rt; writer.before.as_slice(), BEFORE);
    assert_eq!(rt; writer.after.as_slice(), AFTER);
}

#[test]
fn first_attempt_before_the_last_answer(rt: HostRuntime) {
    let program = program(rt.alloc(), TWO_COUNTERS).expect(&rt, "the script");
    assert_eq!(rt; program.threads(), 2);
    expect_parts(&rt, rt.alloc(), &program);
}
