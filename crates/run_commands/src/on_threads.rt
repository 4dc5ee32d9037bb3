//! Scripts that are run on threads of their own, and what they are answered.

ghost use Rattle.std.specs.Prelude.{◌≡◌, ◌+◌, ◌≤◌, ℕ, List, Some, IfErr, IfOk, IfSome, Ok, length, map};
ghost use Rattle.script_asm.specs.Assembly.{program_of};
ghost use Rattle.script_laws.specs.Assembled.{HasNestedCode};
ghost use Rattle.script_program.specs.Listing.{Listing, threads_of};
ghost use Rattle.text_commands.specs.declared.failure.Failure.TheVariants.{Writing};
ghost use Rattle.text_commands.specs.Input.{IsFront};
ghost use Rattle.text_commands.specs.Answers.{Answers, Outputs};
ghost use Rattle.tx_history.specs.Bounds.{HistoryFits};
ghost use Rattle.tx_history.specs.Histories.{history_text};
ghost use Rattle.tx_history.specs.Spelling.{Writes};
ghost use Rattle.run_commands.specs.Threading.{TellsRun, failure_of, threading};

use crate::endings::{Endings, tell_endings};
use script_asm::AsmFault;
use script_program::{MAX_TEXT, Program};
use std::alloc::Global;
use std::io;
use std::io::{Read, Write};
use std::sync::Wait;
use std::thread::Threads;
use text_commands::{Failure, read_program};
use tx_history::{History, write_history};
use tx_host::{HostFault, Report, run_threads};
use tx_runs::End;
use tx_worker::{Open, Quiet};

/// Why there is no history.
fn failure_of(fault: HostFault) -> Failure<AsmFault>
    requires { fault ≡ HostFault.Held → ⊥ }
    ensures { result ≡ failure_of fault }
{
    match fault {
        HostFault::NoMemory => Failure::NoMemory,
        HostFault::NoThread => Failure::NoThread,
        HostFault::Held => unreachable!(),
    }
}

/// Writes a history, and hands on what the writer holds back.
fn put_history<W: Write>(writer: &mut W, history: &History) -> io::Result<()>
    ensures text { Writes (W.contents writer.old) (W.contents writer.new) result (history_text history.now) }
    ensures fits { HistoryFits history.now }
{
    write_history(
        writer,
        history.version,
        history.memory.as_slice(),
        history.attempts.as_slice(),
        history.clock,
        history.bytes.as_slice(),
    )?;
    writer.flush()
}

/// How the threads of a program stand, which have ended so.
fn endings(program: &Program, ends: &[End]) -> Endings
    requires { length ends.now ≡ length (threads_of program.now) }
    ensures { result.items ≡ map Some ends.now }
{
    let mut endings = Endings::new();
    for thread in 0..program.threads() {
        endings.push(Some(ends[thread]));
    }
    endings
}

/// Writes a history, or says that it could not be written.
fn write_run<W: Write>(writer: &mut W, history: &History) -> Result<(), Failure<AsmFault>>
    ensures text { Writes (W.contents writer.old) (W.contents writer.new) result (history_text history.now) }
    ensures failure { IfErr result (λ failure. failure ≡ Writing) }
    ensures fits { HistoryFits history.now }
{
    put_history(writer, history).map_err(|_| Failure::Writing)
}

/// Tells of a run of the program: writes its history, and hands on how each of its threads ended. Of one that gave no report
/// it says why, and writes nothing.
pub fn tell_run<W: Write>(
    program: &Program,
    run: Result<Report, HostFault>,
    writer: &mut W,
) -> Result<Endings, Failure<AsmFault>>
    requires count { IfOk run (λ report. length report.ends.items ≡ length (threads_of program.now)) }
    requires free { IfErr run (λ fault. fault ≡ HostFault.Held → ⊥) }
    ensures { TellsRun run result (W.contents writer.old) (W.contents writer.new) }
{
    let report = match run {
        Ok(report) => report,
        Err(fault) => return Err(failure_of(fault)),
    };
    write_run(writer, &report.history)?;
    Ok(endings(program, &report.ends))
}

/// Runs a program on threads and writes its history. Its code is nested, so no thread ends while it holds the clock.
fn play<T: Threads + Wait, W: Write>(
    rt: &T,
    alloc: Global,
    program: &Program,
    writer: &mut W,
) -> Result<Endings, Failure<AsmFault>>
    requires { HasNestedCode program.now }
    ensures { Outputs threading result (Ok program.now) (W.contents writer.old) (W.contents writer.new) }
{
    tell_run(
        program,
        run_threads(rt, alloc, program, &Open, &Quiet),
        writer,
    )
}

/// Reads a script, runs it on threads and writes its history.
fn run<T: Threads + Wait, R: Read, W: Write>(
    rt: &T,
    alloc: Global,
    reader: &mut R,
    writer: &mut W,
) -> Result<Endings, Failure<AsmFault>>
    ensures output { (text : List ℕ) × IfSome (R.remaining reader.old) (λ all. text ≡ all)
        × Outputs threading result (program_of text) (W.contents writer.old) (W.contents writer.new) }
    ensures few { IsFront (R.remaining reader.old) (R.remaining reader.new) (MAX_TEXT + 1) }
{
    let program = read_program(alloc, reader)?;
    play(rt, alloc, &program, writer)
}

/// Reads a script, runs each of its threads on a thread of its own, writes the history, the attempts by thread, and answers
/// the status of the program: 0 where all went well, 2 where the text is no script, 4 where a thread gave up, or memory or
/// a thread was refused, and 5 where reading or writing failed. The errors get a line where the status is not 0, and where
/// threads gave up or found no memory, one for each of them, by number. The script's schedule is not followed.
pub fn threads<T: Threads + Wait, R: Read, W: Write, E: Write>(
    rt: &T,
    alloc: Global,
    reader: &mut R,
    writer: &mut W,
    errors: &mut E,
) -> u8
    ensures answer { (text : List ℕ) × IfSome (R.remaining reader.old) (λ all. text ≡ all)
        × Answers threading result (program_of text) (W.contents writer.old) (W.contents writer.new) (E.contents
        errors.old) (E.contents errors.new) }
    ensures few { IsFront (R.remaining reader.old) (R.remaining reader.new) (MAX_TEXT + 1) }
{
    match run(rt, alloc, reader, writer) {
        Ok(endings) => tell_endings(errors, endings.as_slice()),
        Err(failure) => failure.tell(errors),
    }
}
