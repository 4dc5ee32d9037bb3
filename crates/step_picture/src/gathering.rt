//! Worlds whose events are taken item by item, and what is drawn of them.

ghost use Rattle.std.specs.Prelude.{◌≡◌, ◌<◌, ◌++◌, All, IfOk, IsSome, OnErr, OnOk, false, length, true};
ghost use Rattle.world_rules.specs.Progress.{LeavesLess};
ghost use Rattle.world_rules.specs.World.{waits_at};
ghost use Rattle.script_program.specs.declared.schedule.Item.TheVariants.{Out, Take};
ghost use Rattle.script_program.specs.Listing.{thread_of};
ghost use Rattle.step_table.specs.Rows.{ItemFirst, ItemRows, RowsOf, ScheduleFirst, ScheduleRows, SoMany};
ghost use Rattle.step_table.specs.Table.{shows};
ghost use Rattle.step_picture.specs.Gathered.{Gathers};
ghost use Rattle.step_picture.specs.Marks.{kept};

use crate::mark::Mark;
use crate::marks::{calls_after, came_of};
use norec_world::World;
use script_program::Item;
use std::alloc::{AllocError, Global};
use step_table::{Event, View, calls_of, next_of, shows};
use tx_player::Player;

/// Keeps what is drawn of an event that is shown.
fn keep(view: &View, mark: Mark, marks: &mut Vec<Mark>) -> Result<(), AllocError>
    ensures kept { OnOk result (marks.new.items ≡ marks.old.items ++ kept view.now mark) }
    ensures refused { OnErr result ((shows view.now mark.event ≡ true) × (marks.new.items ≡ marks.old.items)) }
{
    if !shows(view, mark.event) {
        return Ok(());
    }
    marks.push(mark)?;
    Ok(())
}

/// One event of the thread, and its mark; tells whether the same call goes on. Where memory is refused for the mark, tells so;
/// so do the functions below, which then take no further event.
fn gather_event<P: Player>(
    alloc: Global,
    world: &mut World<P>,
    thread: u8,
    view: &View,
    marks: &mut Vec<Mark>,
) -> Result<bool, AllocError>
    requires { IsSome (waits_at world.old thread) }
    ensures gathers { Gathers view.now (SoMany P.Player thread 1) (SoMany P.Player thread 1)
        world.old world.new marks.old.items marks.new.items result }
    ensures less { IfOk result (λ goes_on. LeavesLess P.Player thread goes_on world.old world.new) }
    ensures actors { length world.new.actors ≡ length world.old.actors }
{
    let operation = next_of(world, thread);
    let had = calls_of(world, thread);
    let first = world.ended();
    let told = world.event_told(alloc, thread);
    let number = world.events();
    let clock = world.clock();
    let event = Event {
        number,
        thread,
        operation,
        clock,
    };
    let came = came_of(world, thread, told, had, first);
    let in_attempt = had.is_some();
    let calls = calls_after(world, thread);
    let mark = Mark {
        event,
        in_attempt,
        calls,
        came,
    };
    keep(view, mark, marks)?;
    Ok(told.goes_on)
}

/// The events of the thread's call in progress.
fn gather_call<P: Player>(
    alloc: Global,
    world: &mut World<P>,
    thread: u8,
    view: &View,
    marks: &mut Vec<Mark>,
) -> Result<(), AllocError>
    requires { IsSome (waits_at world.old thread) }
    ensures gathers { Gathers view.now (RowsOf P.Player thread) (RowsOf P.Player thread)
        world.old world.new marks.old.items marks.new.items result }
    ensures less { OnOk result (LeavesLess P.Player thread false world.old world.new) }
    ensures actors { length world.new.actors ≡ length world.old.actors }
{
    let mut goes_on = true;
    while goes_on {
        goes_on = gather_event(alloc, world, thread, view, marks)?;
    }
    Ok(())
}

/// Events of the thread until it has ended.
fn gather_out<P: Player>(
    alloc: Global,
    world: &mut World<P>,
    thread: u8,
    view: &View,
    marks: &mut Vec<Mark>,
) -> Result<(), AllocError>
    requires { thread < length world.old.actors }
    ensures gathers { Gathers view.now (ItemRows P.Player (Out thread)) (ItemFirst P.Player (Out thread))
        world.old world.new marks.old.items marks.new.items result }
    ensures actors { length world.new.actors ≡ length world.old.actors }
{
    while world.is_waiting(thread) {
        gather_call(alloc, world, thread, view, marks)?;
    }
    Ok(())
}

/// So many events of the thread, or as many as it takes until it has ended.
fn gather_events<P: Player>(
    alloc: Global,
    world: &mut World<P>,
    thread: u8,
    count: u32,
    view: &View,
    marks: &mut Vec<Mark>,
) -> Result<(), AllocError>
    requires { thread < length world.old.actors }
    ensures gathers { Gathers view.now (ItemRows P.Player (Take thread count)) (ItemFirst P.Player (Take thread count))
        world.old world.new marks.old.items marks.new.items result }
    ensures actors { length world.new.actors ≡ length world.old.actors }
{
    for _taken in 0..count {
        if !world.is_waiting(thread) {
            return Ok(());
        }
        gather_event(alloc, world, thread, view, marks)?;
    }
    Ok(())
}

/// What one item of a schedule asks for.
fn gather_item<P: Player>(
    alloc: Global,
    world: &mut World<P>,
    item: Item,
    view: &View,
    marks: &mut Vec<Mark>,
) -> Result<(), AllocError>
    requires { thread_of item < length world.old.actors }
    ensures gathers { Gathers view.now (ItemRows P.Player item) (ItemFirst P.Player item)
        world.old world.new marks.old.items marks.new.items result }
    ensures actors { length world.new.actors ≡ length world.old.actors }
{
    match item {
        Item::Take(thread, count) => gather_events(alloc, world, thread, count, view, marks),
        Item::Out(thread) => gather_out(alloc, world, thread, view, marks),
    }
}

/// What the items of a schedule ask for, one after the other, and behind what is in `marks` those of the events that are shown.
/// Each item is of a thread that there is. Where memory is refused for a mark, the event that it is of is the last one taken,
/// and the marks of those before it stay.
pub fn gather<P: Player>(
    alloc: Global,
    world: &mut World<P>,
    items: &[Item],
    view: &View,
    marks: &mut Vec<Mark>,
) -> Result<(), AllocError>
    requires { All (λ i. thread_of i < length world.old.actors) items.now }
    ensures { Gathers view.now (ScheduleRows P.Player items.now) (ScheduleFirst P.Player items.now)
        world.old world.new marks.old.items marks.new.items result }
{
    for item in items {
        gather_item(alloc, world, *item, view, marks)?;
    }
    Ok(())
}
