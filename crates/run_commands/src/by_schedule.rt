//! Scripts that are run, and what they are answered.

ghost use Rattle.std.specs.Prelude.{◌≡◌, ◌+◌, ◌<◌, ℕ, List, All, IfErr, IfSome, Ok, OnOk, length};
ghost use Rattle.tx_history.specs.Spelling.{Writes};
ghost use Rattle.script_asm.specs.Assembly.{program_of};
ghost use Rattle.script_vm.specs.Threads.{thread_rules};
ghost use Rattle.tx_history.specs.Bounds.{HistoryFits};
ghost use Rattle.tx_history.specs.Histories.{history_text};
ghost use Rattle.report_rules.specs.Limits.{IsLimitedListing};
ghost use Rattle.text_commands.specs.declared.failure.Failure.TheVariants.{Writing};
ghost use Rattle.text_commands.specs.Input.{IsFront};
ghost use Rattle.text_commands.specs.Answers.{Answers, Outputs};
ghost use Rattle.script_laws.specs.Assembled.{HasNestedCode};
ghost use Rattle.script_program.specs.Listing.{thread_of, threads_of};
ghost use Rattle.world_laws.specs.Told.{told_of};
ghost use Rattle.run_commands.specs.Plays.{IsPlayed};
ghost use Rattle.run_commands.specs.Running.{running};
ghost use Rattle.run_commands.specs.Scheduled.{Begins, schedule_of};

use crate::endings::{Endings, tell_endings};
use crate::playing::play;
use crate::running::{begin, each_out, endings};
use norec_world::World;
use script_asm::AsmFault;
use script_program::{Item, MAX_TEXT, Program};
use script_vm::Script;
use std::alloc::Global;
use std::io;
use std::io::{Read, Write};
use text_commands::{Failure, read_program};
use tx_history::{Stream, Version};
use tx_host::version_of;

/// Takes the events of the items, writes the history as they are taken, and hands on what the writer holds back.
fn put_run<W: Write>(
    alloc: Global,
    world: &mut World<Script<'_>>,
    items: &[Item],
    version: Version,
    writer: &mut W,
) -> io::Result<()>
    requires { All (λ i. thread_of i < length world.old.actors) items.now }
    ensures text { Writes (W.contents writer.old) (W.contents writer.new) result (history_text (told_of version world.new)) }
    ensures fits { OnOk result (HistoryFits (told_of version world.new)) }
    ensures played { IsPlayed thread_rules version items.now
        world.old world.new (W.contents writer.old) (W.contents writer.new) result }
{
    let mut stream = Stream::new(writer);
    play(alloc, world, items, version, &mut stream)?;
    writer.flush()
}

/// Takes the events of the items and writes the history, or says that it could not be written.
fn write_run<W: Write>(
    alloc: Global,
    world: &mut World<Script<'_>>,
    items: &[Item],
    version: Version,
    writer: &mut W,
) -> Result<(), Failure<AsmFault>>
    requires { All (λ i. thread_of i < length world.old.actors) items.now }
    ensures text { Writes (W.contents writer.old) (W.contents writer.new) result (history_text (told_of version world.new)) }
    ensures failure { IfErr result (λ failure. failure ≡ Writing) }
    ensures fits { OnOk result (HistoryFits (told_of version world.new)) }
    ensures played { IsPlayed thread_rules version items.now
        world.old world.new (W.contents writer.old) (W.contents writer.new) result }
{
    put_run(alloc, world, items, version, writer).map_err(|_| Failure::Writing)
}

/// Runs a program by these items, which are its schedule, and writes its history.
fn run_items<W: Write>(
    alloc: Global,
    program: &Program,
    mut world: World<Script<'_>>,
    items: &[Item],
    writer: &mut W,
) -> Result<Endings, Failure<AsmFault>>
    requires nested { HasNestedCode program.now }
    requires begins { Begins program.now world }
    requires limits { IsLimitedListing program.now }
    requires items { items.now ≡ schedule_of program.now }
    requires there { All (λ i. thread_of i < length (threads_of program.now)) items.now }
    ensures { Outputs running result (Ok program.now) (W.contents writer.old) (W.contents writer.new) }
{
    let version = version_of(program);
    write_run(alloc, &mut world, items, version, writer)?;
    Ok(endings(&world, program.threads()))
}

/// Runs a program by its schedule, or, where it has none, each of its threads to its end, and writes its history.
fn run_program<W: Write>(
    alloc: Global,
    program: &Program,
    writer: &mut W,
) -> Result<Endings, Failure<AsmFault>>
    requires { HasNestedCode program.now }
    ensures { Outputs running result (Ok program.now) (W.contents writer.old) (W.contents writer.new) }
{
    let world = begin(alloc, program)?;
    let items = program.schedule();
    if items.is_empty() {
        let each = each_out(alloc, program.threads())?;
        run_items(alloc, program, world, &each, writer)
    } else {
        run_items(alloc, program, world, items, writer)
    }
}

/// Reads a script, runs it and writes its history.
fn run<R: Read, W: Write>(
    alloc: Global,
    reader: &mut R,
    writer: &mut W,
) -> Result<Endings, Failure<AsmFault>>
    ensures output { (text : List ℕ) × IfSome (R.remaining reader.old) (λ all. text ≡ all)
        × Outputs running result (program_of text) (W.contents writer.old) (W.contents writer.new) }
    ensures few { IsFront (R.remaining reader.old) (R.remaining reader.new) (MAX_TEXT + 1) }
{
    let program = read_program(alloc, reader)?;
    run_program(alloc, &program, writer)
}

/// Reads a script, runs its schedule, writes the history as its events are taken, and answers the status of the
/// program: 0 where all went well, 2 where the text is no script, 4 where a thread gave up or memory was refused, and 5
/// where reading or writing failed, which ends the run. The errors get a line where the status is not 0, and where
/// threads gave up or found no memory, one for each of them, by number.
pub fn sched<R: Read, W: Write, E: Write>(
    alloc: Global,
    reader: &mut R,
    writer: &mut W,
    errors: &mut E,
) -> u8
    ensures answer { (text : List ℕ) × IfSome (R.remaining reader.old) (λ all. text ≡ all)
        × Answers running result (program_of text) (W.contents writer.old) (W.contents writer.new) (E.contents
        errors.old) (E.contents errors.new) }
    ensures few { IsFront (R.remaining reader.old) (R.remaining reader.new) (MAX_TEXT + 1) }
{
    match run(alloc, reader, writer) {
        Ok(endings) => tell_endings(errors, endings.as_slice()),
        Err(failure) => failure.tell(errors),
    }
}
