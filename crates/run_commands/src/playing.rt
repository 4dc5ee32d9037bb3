//! Worlds whose events are taken item by item, and whose history is written as they are taken.

ghost use Rattle.std.specs.Prelude.{◌≡◌, ◌<◌, All, IfOk, IsSome, None, OnOk, false, length};
ghost use Rattle.world_rules.specs.Progress.{LeavesLess};
ghost use Rattle.world_rules.specs.World.{ending_at, event_result, waits_at};
ghost use Rattle.world_rules.specs.WorldEvents.{Goes};
ghost use Rattle.script_program.specs.declared.schedule.Item.TheVariants.{Out, Take};
ghost use Rattle.script_program.specs.Listing.{thread_of};
ghost use Rattle.tx_history.specs.Bounds.{HistoryFits};
ghost use Rattle.tx_history.specs.Histories.{history_text};
ghost use Rattle.tx_history.specs.Streams.{Sends, fault_of, stream_state};
ghost use Rattle.run_commands.specs.Items.{ItemBegins, ItemLeads, ItemsBegin, ItemsLead};
ghost use Rattle.world_laws.specs.Told.{told_of};
ghost use Rattle.run_commands.specs.Plays.{IsPlayed, Performs, SendsEnded};

use crate::telling::{close_history, open_history, put_ended};
use norec_world::World;
use script_program::Item;
use std::alloc::Global;
use std::io;
use std::io::Write;
use tx_history::{Stream, Version};
use tx_player::Player;

/// One event of the thread, and the lines of what it ended; tells whether the same call goes on. Where a write fails,
/// answers its error; so do the functions below, which then take no further event. Its code stands where it is called, as do
/// those of one item: an answer of it has room for an error, which would be cleared and copied for each event.
#[inline(always)]
fn take_event<P: Player, W: Write>(
    alloc: Global,
    world: &mut World<P>,
    thread: u8,
    stream: &mut Stream<'_, W>,
) -> io::Result<bool>
    requires waits { IsSome (waits_at world.old thread) }
    requires fresh { fault_of stream.old ≡ None }
    ensures goes { Goes P.Player thread world.old (event_result (ending_at world.new thread)) world.new }
    ensures less { IfOk result (λ goes_on. LeavesLess P.Player thread goes_on world.old world.new) }
    ensures sends { SendsEnded W.contents world.old world.new stream.old stream.new result }
{
    let first = world.ended();
    let goes_on = world.event(alloc, thread);
    // nearly every event ends none
    if world.ended() == first {
        return Ok(goes_on);
    }
    put_ended(world, stream, first)?;
    Ok(goes_on)
}

/// The events of the thread's call in progress, and the lines of what the last of them ended: the others end no attempt.
fn finish_call<P: Player, W: Write>(
    alloc: Global,
    world: &mut World<P>,
    thread: u8,
    stream: &mut Stream<'_, W>,
) -> io::Result<()>
    requires waits { IsSome (waits_at world.old thread) }
    requires fresh { fault_of stream.old ≡ None }
    ensures performs { Performs P.Player W.contents (ItemBegins P.Player (Out thread))
        (ItemBegins P.Player (Out thread)) world.old world.new stream.old stream.new result }
    ensures less { OnOk result (LeavesLess P.Player thread false world.old world.new) }
{
    let first = world.ended();
    let _taken = world.finish_call(alloc, thread);
    // most calls end none
    if world.ended() == first {
        return Ok(());
    }
    put_ended(world, stream, first)
}

/// Events of the thread until it has ended.
fn run_out<P: Player, W: Write>(
    alloc: Global,
    world: &mut World<P>,
    thread: u8,
    stream: &mut Stream<'_, W>,
) -> io::Result<()>
    requires there { thread < length world.old.actors }
    requires fresh { fault_of stream.old ≡ None }
    ensures { Performs P.Player W.contents (ItemLeads P.Player (Out thread)) (ItemBegins P.Player (Out thread))
        world.old world.new stream.old stream.new result }
{
    while world.is_waiting(thread) {
        finish_call(alloc, world, thread, stream)?;
    }
    Ok(())
}

/// So many events of the thread, or as many as it takes until it has ended.
#[inline(always)]
fn take_events<P: Player, W: Write>(
    alloc: Global,
    world: &mut World<P>,
    thread: u8,
    count: u32,
    stream: &mut Stream<'_, W>,
) -> io::Result<()>
    requires there { thread < length world.old.actors }
    requires fresh { fault_of stream.old ≡ None }
    ensures { Performs P.Player W.contents (ItemLeads P.Player (Take thread count))
        (ItemBegins P.Player (Take thread count)) world.old world.new stream.old stream.new result }
{
    for _taken in 0..count {
        if !world.is_waiting(thread) {
            return Ok(());
        }
        take_event(alloc, world, thread, stream)?;
    }
    Ok(())
}

/// What one item of a schedule asks for.
#[inline(always)]
fn take_item<P: Player, W: Write>(
    alloc: Global,
    world: &mut World<P>,
    item: Item,
    stream: &mut Stream<'_, W>,
) -> io::Result<()>
    requires there { thread_of item < length world.old.actors }
    requires fresh { fault_of stream.old ≡ None }
    ensures { Performs P.Player W.contents (ItemLeads P.Player item) (ItemBegins P.Player item)
        world.old world.new stream.old stream.new result }
{
    match item {
        Item::Take(thread, count) => take_events(alloc, world, thread, count, stream),
        Item::Out(thread) => run_out(alloc, world, thread, stream),
    }
}

/// One item after the other.
fn take_items<P: Player, W: Write>(
    alloc: Global,
    world: &mut World<P>,
    items: &[Item],
    stream: &mut Stream<'_, W>,
) -> io::Result<()>
    requires there { All (λ i. thread_of i < length world.old.actors) items.now }
    requires fresh { fault_of stream.old ≡ None }
    ensures { Performs P.Player W.contents (ItemsLead P.Player items.now) (ItemsBegin P.Player items.now)
        world.old world.new stream.old stream.new result }
{
    for item in items {
        take_item(alloc, world, *item, stream)?;
    }
    Ok(())
}

/// What the items of a schedule ask for, one after the other, and the history of the world as it goes: the lines before the
/// first event, with those of attempts that have ended already; those of each attempt right after the event that ended it;
/// and at the end those of the open ones and the last one. Each item is of a thread that there is. Where a write fails, or
/// had failed before, no further event is taken, and its error is answered. The history is told in this version.
pub fn play<P: Player, W: Write>(
    alloc: Global,
    world: &mut World<P>,
    items: &[Item],
    version: Version,
    stream: &mut Stream<'_, W>,
) -> io::Result<()>
    requires { All (λ i. thread_of i < length world.old.actors) items.now }
    ensures sends { Sends W.contents stream.old stream.new (history_text (told_of version world.new))
        (HistoryFits (told_of version world.new)) result }
    ensures played { IsPlayed P.Player version items.now
        world.old world.new (stream_state W.contents stream.old).written (stream_state W.contents stream.new).written result }
    ensures base { world.new.base ≡ world.old.base }
{
    // (what holds of every world: the last fields of `played`)
    let _events = world.events();
    open_history(world, version, stream)?;
    let taken = take_items(alloc, world, items, stream);
    let _events_taken = world.events();
    taken?;
    close_history(world, stream)
}
