//! The table or the picture of a script's run.

ghost use Rattle.std.specs.Prelude.{◌≡◌, ◌<◌, ℕ, List, All, IfErr, IfSome, Ok, length, true};
ghost use Rattle.run_commands.specs.Scheduled.{Begins, schedule_of};
ghost use Rattle.script_asm.specs.Assembly.{program_of};
ghost use Rattle.script_program.specs.Listing.{thread_of, threads_of};
ghost use Rattle.text_commands.specs.Answers.{Outputs};
ghost use Rattle.text_commands.specs.declared.failure.Failure.TheVariants.{Writing};
ghost use Rattle.script_vm.specs.Threads.{thread_rules};
ghost use Rattle.step_table.specs.Rows.{ScheduleFirst, ScheduleRows};
ghost use Rattle.step_table.specs.Shown.{Shows};
ghost use Rattle.step_table.specs.Table.{table_text};
ghost use Rattle.tx_history.specs.Spelling.{Writes};
ghost use Rattle.step_picture.specs.Picture.{picture_text};
ghost use Rattle.itmsteps.specs.Doing.{Answered, showing};
ghost use Rattle.itmsteps.specs.Told.{Tells};

use crate::choice::{Choice, view_of};
use crate::failure::tell;
use norec_world::World;
use run_commands::{begin, each_out};
use script_asm::AsmFault;
use script_program::{Item, Program};
use script_vm::Script;
use std::alloc::Global;
use std::io;
use std::io::{Read, Write};
use step_picture::{Mark, gather, put_picture};
use step_table::{View, show};
use text_commands::{Failure, read_program};

/// Takes the events of the items, writes their table, and hands on what the writer holds back.
fn put_table<W: Write>(
    alloc: Global,
    world: &mut World<Script<'_>>,
    items: &[Item],
    view: &View,
    writer: &mut W,
) -> io::Result<()>
    requires { All (λ i. thread_of i < length world.old.actors) items.now }
    ensures { Shows (ScheduleRows thread_rules items.now) (ScheduleFirst thread_rules items.now) (table_text view.now)
        world.old world.new (W.contents writer.old) (W.contents writer.new) result }
{
    show(alloc, world, items, view, writer)?;
    writer.flush()
}

/// Takes the events of the items and writes their table, or says that it could not be written.
fn write_table<W: Write>(
    alloc: Global,
    world: &mut World<Script<'_>>,
    items: &[Item],
    view: &View,
    writer: &mut W,
) -> Result<(), Failure<AsmFault>>
    requires { All (λ i. thread_of i < length world.old.actors) items.now }
    ensures shows { Shows (ScheduleRows thread_rules items.now) (ScheduleFirst thread_rules items.now) (table_text view.now)
        world.old world.new (W.contents writer.old) (W.contents writer.new) result }
    ensures failure { IfErr result (λ failure. failure ≡ Writing) }
{
    put_table(alloc, world, items, view, writer).map_err(|_| Failure::Writing)
}

/// Writes a picture, and hands on what the writer holds back.
fn put_drawing<W: Write>(columns: &[u8], marks: &[Mark], writer: &mut W) -> io::Result<()>
    ensures { Writes (W.contents writer.old) (W.contents writer.new) result (picture_text columns.now marks.now) }
{
    put_picture(writer, columns, marks)?;
    writer.flush()
}

/// Writes a picture, or says that it could not be written.
fn write_picture<W: Write>(
    columns: &[u8],
    marks: &[Mark],
    writer: &mut W,
) -> Result<(), Failure<AsmFault>>
    ensures drawn { Writes (W.contents writer.old) (W.contents writer.new) result (picture_text columns.now marks.now) }
    ensures failure { IfErr result (λ failure. failure ≡ Writing) }
{
    put_drawing(columns, marks, writer).map_err(|_| Failure::Writing)
}

/// Takes the events of the items, and draws them then. Where memory is refused for what is drawn of one, it is the last.
fn draw<W: Write>(
    alloc: Global,
    world: &mut World<Script<'_>>,
    items: &[Item],
    view: &View,
    writer: &mut W,
) -> Result<(), Failure<AsmFault>>
    requires { All (λ i. thread_of i < length world.old.actors) items.now }
    ensures { Tells true view.now items.now world.old world.new (W.contents writer.old) (W.contents writer.new) result }
{
    let mut marks = Vec::new(alloc);
    gather(alloc, world, items, view, &mut marks)?;
    write_picture(view.columns.as_slice(), &marks, writer)
}

/// Takes the events of the items, and writes their picture or their table.
fn show_world<W: Write>(
    alloc: Global,
    world: &mut World<Script<'_>>,
    items: &[Item],
    svg: bool,
    view: &View,
    writer: &mut W,
) -> Result<(), Failure<AsmFault>>
    requires { All (λ i. thread_of i < length world.old.actors) items.now }
    ensures { Tells svg view.now items.now world.old world.new (W.contents writer.old) (W.contents writer.new) result }
{
    if svg {
        return draw(alloc, world, items, view, writer);
    }
    write_table(alloc, world, items, view, writer)
}

/// Runs a program by these items, which are its schedule, and shows the run.
fn show_items<W: Write>(
    alloc: Global,
    program: &Program,
    mut world: World<Script<'_>>,
    items: &[Item],
    choice: Choice,
    writer: &mut W,
) -> Result<(), Failure<AsmFault>>
    requires begins { Begins program.now world }
    requires items { items.now ≡ schedule_of program.now }
    requires there { All (λ i. thread_of i < length (threads_of program.now)) items.now }
    ensures { Outputs (showing choice) result (Ok program.now) (W.contents writer.old) (W.contents writer.new) }
{
    let svg = choice.svg;
    let view = view_of(choice, program.threads());
    show_world(alloc, &mut world, items, svg, &view, writer)
}

/// Runs a program by its schedule, or, where it has none, each of its threads to its end, and shows the run.
fn show_program<W: Write>(
    alloc: Global,
    program: &Program,
    choice: Choice,
    writer: &mut W,
) -> Result<(), Failure<AsmFault>>
    ensures { Outputs (showing choice) result (Ok program.now) (W.contents writer.old) (W.contents writer.new) }
{
    let world = begin(alloc, program)?;
    let items = program.schedule();
    if items.is_empty() {
        let each = each_out(alloc, program.threads())?;
        show_items(alloc, program, world, &each, choice, writer)
    } else {
        show_items(alloc, program, world, items, choice, writer)
    }
}

/// Reads a script, runs it and shows the run.
fn show_script<R: Read, W: Write>(
    alloc: Global,
    reader: &mut R,
    choice: Choice,
    writer: &mut W,
) -> Result<(), Failure<AsmFault>>
    ensures { (text : List ℕ) × IfSome (R.remaining reader.old) (λ all. text ≡ all)
        × Outputs (showing choice) result (program_of text) (W.contents writer.old) (W.contents writer.new) }
{
    let program = read_program(alloc, reader)?;
    show_program(alloc, &program, choice, writer)
}

/// Reads a script, runs its schedule, writes the table of its events as they are taken, or their picture once they all are, and
/// answers the status of the program: 0 where that is written, 2 where the text is no script, 4 where memory was refused, and 5 where reading or writing
/// failed, which ends the run. The errors get a line where the status is not 0.
pub(crate) fn steps<R: Read, W: Write, E: Write>(
    alloc: Global,
    reader: &mut R,
    choice: Choice,
    writer: &mut W,
    errors: &mut E,
) -> u8
    ensures { (text : List ℕ) × IfSome (R.remaining reader.old) (λ all. text ≡ all)
        × Answered choice text result (W.contents writer.old) (W.contents writer.new) (E.contents errors.old) (E.contents errors.new) }
{
    match show_script(alloc, reader, choice, writer) {
        Ok(()) => 0,
        Err(failure) => tell(errors, &failure),
    }
}
