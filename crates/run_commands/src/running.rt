//! Programs that are run: a world of their threads, and the schedule.

ghost use Rattle.std.specs.Prelude.{◌≡◌, ◌≤◌, IfOk, length};
ghost use Rattle.script_program.specs.Sizes.{IsSize};
ghost use Rattle.script_program.specs.Listing.{opening_of};
ghost use Rattle.report_rules.specs.Limits.{IsLimitedListing};
ghost use Rattle.run_commands.specs.Scheduled.{Begins, each_out, endings_of, players_of};

use crate::endings::Endings;
use itm_types::MAX_ACTORS;
use norec_world::{Bytes, Setup, World};
use script_program::{Item, Program};
use script_vm::Script;
use std::alloc::{AllocError, Global};

/// The memory that a program begins with.
fn opening(alloc: Global, program: &Program) -> Result<Vec<u8>, AllocError>
    ensures bytes { IfOk result (λ bytes. bytes.items ≡ opening_of program.now) }
    ensures sized { IfOk result (λ bytes. IsSize (length bytes.items)) }
    ensures size { IfOk result (λ bytes. length bytes.items ≡ program.now.memory.size) }
{
    let mut bytes = vec![in alloc; 0; program.size()]?;
    program.opening(&mut bytes);
    Ok(bytes)
}

/// The players of a program's threads, by number.
fn players<'p>(alloc: Global, program: &'p Program) -> Result<Vec<Script<'p>>, AllocError>
    ensures players { IfOk result (λ players. players.items ≡ players_of program.now) }
    ensures some { IfOk result (λ players. 1 ≤ length players.items) }
    ensures few { IfOk result (λ players. length players.items ≤ MAX_ACTORS) }
{
    let mut players = Vec::new(alloc);
    for thread in 0..program.threads() {
        players.push(Script::new(alloc, program, thread)?)?;
    }
    Ok(players)
}

/// A program's world before the first event.
pub fn begin<'p>(alloc: Global, program: &'p Program) -> Result<World<Script<'p>>, AllocError>
    ensures begins { IfOk result (λ w. Begins program.now w) }
    ensures limits { IfOk result (λ w. IsLimitedListing program.now) }
{
    let players = players(alloc, program)?;
    let memory = opening(alloc, program)?;
    let setup = Setup {
        bytes: Bytes::new(memory),
        arena: program.arena() as u32,
        limits: program.limits(),
    };
    World::new(alloc, setup, players)
}

/// Each thread to its end, by number.
pub fn each_out(alloc: Global, threads: usize) -> Result<Vec<Item>, AllocError>
    requires { threads ≤ MAX_ACTORS }
    ensures { IfOk result (λ items. items.items ≡ each_out threads) }
{
    let mut items = Vec::new(alloc);
    for thread in 0..threads {
        items.push(Item::Out(thread as u8))?;
    }
    Ok(items)
}

/// How the threads of a world stand, by number.
pub fn endings(world: &World<Script<'_>>, threads: usize) -> Endings
    requires { threads ≤ MAX_ACTORS }
    ensures { result.items ≡ endings_of threads world.now }
{
    let mut endings = Endings::new();
    for thread in 0..threads {
        endings.push(world.ending(thread as u8));
    }
    endings
}
