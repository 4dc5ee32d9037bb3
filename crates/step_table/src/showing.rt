//! Worlds whose events are taken item by item, and whose table is written as they are taken.

ghost use Rattle.std.specs.Prelude.{◌≡◌, ◌<◌, All, IfOk, IsSome, OnOk, Some, false, length};
ghost use Rattle.std.specs.Option.{option_map};
ghost use Rattle.world_rules.specs.Progress.{LeavesLess};
ghost use Rattle.world_rules.specs.World.{attempt_at, operation_at, waits_at};
ghost use Rattle.script_program.specs.declared.schedule.Item.TheVariants.{Out, Take};
ghost use Rattle.script_program.specs.Listing.{thread_of};
ghost use Rattle.step_table.specs.Rows.{ItemFirst, ItemRows, RowsOf, ScheduleFirst, ScheduleRows, SoMany};
ghost use Rattle.step_table.specs.Shown.{Shows};
ghost use Rattle.step_table.specs.Table.{lines_text, table_text};

use crate::came::came_of;
use crate::event::Event;
use crate::lines::{put_head, put_line};
use crate::view::View;
use norec_world::{Operation, World};
use script_program::Item;
use std::alloc::Global;
use std::io;
use std::io::Write;
use tx_player::Player;

/// The operation that the thread waits for, and what it finds.
pub fn next_of<P: Player>(world: &World<P>, thread: u8) -> Operation
    requires { IsSome (waits_at world.now thread) }
    ensures { Some result ≡ operation_at world.now thread }
{
    match world.next_operation(thread) {
        Some(operation) => operation,
        None => unreachable!(),
    }
}

/// How many calls of the thread's open attempt have a reply, where it has one.
pub fn calls_of<P: Player>(world: &World<P>, thread: u8) -> Option<usize>
    ensures { result ≡ option_map (λ a. length a.calls.list) (attempt_at world.now thread) }
{
    match world.open_attempt(thread) {
        Some(attempt) => Some(attempt.calls.as_slice().len()),
        None => None,
    }
}

/// One event of the thread, and its line; tells whether the same call goes on. Where a write fails, answers its error; so do
/// the functions below, which then take no further event.
fn take_event<P: Player, W: Write>(
    alloc: Global,
    world: &mut World<P>,
    thread: u8,
    view: &View,
    writer: &mut W,
) -> io::Result<bool>
    requires { IsSome (waits_at world.old thread) }
    ensures shows { Shows (SoMany P.Player thread 1) (SoMany P.Player thread 1) (lines_text view.now)
        world.old world.new (W.contents writer.old) (W.contents writer.new) result }
    ensures less { IfOk result (λ goes_on. LeavesLess P.Player thread goes_on world.old world.new) }
    ensures actors { length world.new.actors ≡ length world.old.actors }
{
    let operation = next_of(world, thread);
    let had = calls_of(world, thread);
    let first = world.ended();
    let told = world.event_told(alloc, thread);
    let number = world.events();
    let clock = world.clock();
    let event = Event {
        number,
        thread,
        operation,
        clock,
    };
    let came = came_of(world, thread, operation.step, told, had, first);
    put_line(writer, view, event, &came)?;
    Ok(told.goes_on)
}

/// The events of the thread's call in progress.
fn finish_call<P: Player, W: Write>(
    alloc: Global,
    world: &mut World<P>,
    thread: u8,
    view: &View,
    writer: &mut W,
) -> io::Result<()>
    requires { IsSome (waits_at world.old thread) }
    ensures shows { Shows (RowsOf P.Player thread) (RowsOf P.Player thread) (lines_text view.now)
        world.old world.new (W.contents writer.old) (W.contents writer.new) result }
    ensures less { OnOk result (LeavesLess P.Player thread false world.old world.new) }
    ensures actors { length world.new.actors ≡ length world.old.actors }
{
    let mut goes_on = true;
    while goes_on {
        goes_on = take_event(alloc, world, thread, view, writer)?;
    }
    Ok(())
}

/// Events of the thread until it has ended.
fn run_out<P: Player, W: Write>(
    alloc: Global,
    world: &mut World<P>,
    thread: u8,
    view: &View,
    writer: &mut W,
) -> io::Result<()>
    requires { thread < length world.old.actors }
    ensures shows { Shows (ItemRows P.Player (Out thread)) (ItemFirst P.Player (Out thread)) (lines_text view.now)
        world.old world.new (W.contents writer.old) (W.contents writer.new) result }
    ensures actors { length world.new.actors ≡ length world.old.actors }
{
    while world.is_waiting(thread) {
        finish_call(alloc, world, thread, view, writer)?;
    }
    Ok(())
}

/// So many events of the thread, or as many as it takes until it has ended.
fn take_events<P: Player, W: Write>(
    alloc: Global,
    world: &mut World<P>,
    thread: u8,
    count: u32,
    view: &View,
    writer: &mut W,
) -> io::Result<()>
    requires { thread < length world.old.actors }
    ensures shows { Shows (ItemRows P.Player (Take thread count)) (ItemFirst P.Player (Take thread count)) (lines_text view.now)
        world.old world.new (W.contents writer.old) (W.contents writer.new) result }
    ensures actors { length world.new.actors ≡ length world.old.actors }
{
    for _taken in 0..count {
        if !world.is_waiting(thread) {
            return Ok(());
        }
        take_event(alloc, world, thread, view, writer)?;
    }
    Ok(())
}

/// What one item of a schedule asks for.
fn take_item<P: Player, W: Write>(
    alloc: Global,
    world: &mut World<P>,
    item: Item,
    view: &View,
    writer: &mut W,
) -> io::Result<()>
    requires { thread_of item < length world.old.actors }
    ensures shows { Shows (ItemRows P.Player item) (ItemFirst P.Player item) (lines_text view.now)
        world.old world.new (W.contents writer.old) (W.contents writer.new) result }
    ensures actors { length world.new.actors ≡ length world.old.actors }
{
    match item {
        Item::Take(thread, count) => take_events(alloc, world, thread, count, view, writer),
        Item::Out(thread) => run_out(alloc, world, thread, view, writer),
    }
}

/// One item after the other.
fn take_items<P: Player, W: Write>(
    alloc: Global,
    world: &mut World<P>,
    items: &[Item],
    view: &View,
    writer: &mut W,
) -> io::Result<()>
    requires { All (λ i. thread_of i < length world.old.actors) items.now }
    ensures { Shows (ScheduleRows P.Player items.now) (ScheduleFirst P.Player items.now) (lines_text view.now)
        world.old world.new (W.contents writer.old) (W.contents writer.new) result }
{
    for item in items {
        take_item(alloc, world, *item, view, writer)?;
    }
    Ok(())
}

/// What the items of a schedule ask for, one after the other, and the table of these events: its head, and then a line for each
/// event that is shown, right after the event. Each item is of a thread that there is. Where a write fails, no further event is
/// taken, and its error is answered.
pub fn show<P: Player, W: Write>(
    alloc: Global,
    world: &mut World<P>,
    items: &[Item],
    view: &View,
    writer: &mut W,
) -> io::Result<()>
    requires { All (λ i. thread_of i < length world.old.actors) items.now }
    ensures { Shows (ScheduleRows P.Player items.now) (ScheduleFirst P.Player items.now) (table_text view.now)
        world.old world.new (W.contents writer.old) (W.contents writer.new) result }
{
    put_head(writer, view)?;
    take_items(alloc, world, items, view, writer)
}
