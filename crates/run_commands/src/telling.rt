//! Attempts of a world on their way to a stream.

ghost use Rattle.std.specs.Prelude.{◌≡◌, ◌≤◌, ◌++◌, All, None, drop, flat_map, length};
ghost use Rattle.hex.specs.Hex.{IsBytes};
ghost use Rattle.norec_world.specs.Listed.{left_of};
ghost use Rattle.world_rules.specs.Stages.{opens};
ghost use Rattle.world_rules.specs.World.{memory_of};
ghost use Rattle.tx_history.specs.Bounds.{AttemptFits, IsWord};
ghost use Rattle.tx_history.specs.Histories.{attempt_lines, last_line};
ghost use Rattle.tx_history.specs.Streams.{Sends, fault_of, lines_so_far};

use norec_world::{Attempts, World};
use std::io;
use std::io::Write;
use tx_attempts::Attempt;
use tx_history::{Stream, Version};
use tx_player::Player;

/// Writes the lines of the attempts. Where a write fails, answers its error; so do the functions below.
fn put_attempts<W: Write>(stream: &mut Stream<'_, W>, attempts: &[Attempt]) -> io::Result<()>
    requires { fault_of stream.old ≡ None }
    ensures { Sends W.contents stream.old stream.new (flat_map attempt_lines attempts.now)
        (All AttemptFits attempts.now) result }
{
    for attempt in attempts {
        stream.attempt(attempt)?;
    }
    Ok(())
}

/// Writes the lines of those that are left of a world's attempts.
fn put_left<P: Player, W: Write>(
    attempts: Attempts<'_, P>,
    stream: &mut Stream<'_, W>,
) -> io::Result<()>
    requires { fault_of stream.old ≡ None }
    ensures { Sends W.contents stream.old stream.new (flat_map attempt_lines (left_of attempts.entry))
        (All AttemptFits (left_of attempts.entry)) result }
{
    for attempt in attempts {
        stream.attempt(attempt)?;
    }
    Ok(())
}

/// Writes the lines of the attempts that have ended, but for the first ones.
pub(crate) fn put_ended<P: Player, W: Write>(
    world: &World<P>,
    stream: &mut Stream<'_, W>,
    first: usize,
) -> io::Result<()>
    requires fresh { fault_of stream.old ≡ None }
    requires first { first ≤ length world.now.attempts.ended }
    ensures { Sends W.contents stream.old stream.new (flat_map attempt_lines (drop first world.now.attempts.ended))
        (All AttemptFits (drop first world.now.attempts.ended)) result }
{
    put_attempts(stream, world.ended_from(first))
}

/// Writes the lines before the first event: those before the first attempt, and those of attempts that have ended already.
pub(crate) fn open_history<P: Player, W: Write>(
    world: &World<P>,
    version: Version,
    stream: &mut Stream<'_, W>,
) -> io::Result<()>
    ensures { Sends W.contents stream.old stream.new (lines_so_far version world.now.base world.now.attempts.ended)
        (IsBytes world.now.base × All AttemptFits world.now.attempts.ended) result }
{
    stream.open(version, world.base())?;
    put_ended(world, stream, 0)
}

/// Writes the lines of the attempts that are open, and the last one.
pub(crate) fn close_history<P: Player, W: Write>(
    world: &World<P>,
    stream: &mut Stream<'_, W>,
) -> io::Result<()>
    requires { fault_of stream.old ≡ None }
    ensures { Sends W.contents stream.old stream.new
        (flat_map attempt_lines (opens world.now.actors) ++ last_line world.now.cells.clock (memory_of world.now))
        (All AttemptFits (opens world.now.actors) × IsWord world.now.cells.clock × IsBytes (memory_of world.now)) result }
{
    put_left(world.open_attempts(), stream)?;
    stream.finish(world.clock(), world.bytes())
}
