//! The program's words.

ghost use Rattle.std.specs.Prelude.{◌≡◌, ℕ, List, IfErr, IfOk, IfSome, OnErr};
ghost use Rattle.itmrun.specs.declared.command.Task.{Task};
ghost use Rattle.itmrun.specs.Doing.{Answered, Does, Runs, fault_line, fault_status, usage_line, word_of};
ghost use Rattle.tx_history.specs.Spelling.{Puts};
ghost use Rattle.text_commands.specs.Answers.{Says};
ghost use Rattle.text_commands.specs.Lines.{failure_line, failure_status, script_line};

use clap::error::ErrorKind;
use clap::{Arg, ArgAction, ArgMatches, Command};
use run_commands::{sched, threads};
use script_asm::AsmFault;
use std::alloc::{AllocError, Global};
use std::io::{Read, Write};
use std::rt::{Env, Files};
use std::sync::Wait;
use std::thread::Threads;
use std::{env, fs, io};
use text_commands::{Failure, asm, check, status_after};
use thiserror::Error;
use tx_history::{Piece, put_pieces};

/// Why the program's words say nothing that can be done.
#[derive(Clone, Copy, Debug, Error)]
enum CommandFault {
    /// They are not one command and one file.
    #[error("usage: itmrun asm|sched|threads|check FILE")]
    Usage,
    /// Memory was refused.
    #[error("no memory")]
    Memory,
}

/// What is done with a text.
#[derive(Clone, Copy)]
enum Task {
    /// Of a script: the canonical script of its program is written.
    Asm,
    /// Of a script: its schedule is run, and the history is written.
    Sched,
    /// Of a script: each of its threads is run on a thread of its own, and the history is written.
    Threads,
    /// Of a history: the verdict is written.
    Check,
}

/// Says on the errors why no text came to a command, and answers the program's status.
fn tell_no_text<E: Write>(errors: &mut E, failure: Failure<AsmFault>) -> u8
    ensures { Says (failure_line script_line failure) (failure_status failure) result (E.contents errors.old) (E.contents
        errors.new) }
{
    failure.tell(errors)
}

/// Writes the line on how the program is used.
fn put_usage<E: Write>(errors: &mut E) -> io::Result<()>
    ensures { Puts (E.contents errors.old) (E.contents errors.new) result usage_line }
{
    put_pieces(
        errors,
        &[Piece::Text(b"itmrun: usage: itmrun asm|sched|threads|check FILE\n")],
    )
}

/// Says on the errors how the program is used, and answers its status.
fn tell_usage<E: Write>(errors: &mut E) -> u8
    ensures { Says usage_line 1 result (E.contents errors.old) (E.contents errors.new) }
{
    status_after(put_usage(errors), 1)
}

/// Says why the words say nothing that can be done, and answers the program's status.
fn tell<E: Write>(errors: &mut E, fault: CommandFault) -> u8
    ensures { Says (fault_line fault) (fault_status fault) result (E.contents errors.old) (E.contents errors.new) }
{
    match fault {
        CommandFault::Usage => tell_usage(errors),
        CommandFault::Memory => tell_no_text(errors, Failure::NoMemory),
    }
}

/// The program's words, its own name first.
fn words_of<R: Env + AllocGlobal>(rt: &R) -> Result<Vec<String>, CommandFault> {
    match env::args(rt) {
        Ok(words) => words.collect(rt.alloc()).map_err(|_| CommandFault::Memory),
        Err(error) => match error.kind() {
            io::ErrorKind::OutOfMemory => Err(CommandFault::Memory),
            _ => Err(CommandFault::Usage),
        },
    }
}

/// A place for one word, which has to be there.
fn place<'a>(alloc: Global, name: &'a str) -> Arg<'a> {
    Arg::new(alloc, name).required(true).action(ArgAction::Set)
}

/// The two places that a command line has: for a command and for a file.
fn command_line<'a>(alloc: Global) -> Result<Command<'a>, AllocError> {
    Command::new(alloc, "itmrun")
        .disable_help_flag(true)
        .disable_version_flag(true)
        .arg(place(alloc, "command"))?
        .arg(place(alloc, "file"))
}

/// What stands in the places of a command line.
fn places_of<'a>(alloc: Global, words: &'a [String]) -> Result<ArgMatches<'a>, CommandFault> {
    let line = command_line(alloc).map_err(|_| CommandFault::Memory)?;
    line.try_get_matches_from(words)
        .map_err(|error| fault_of(error.kind()))
}

/// Why the words are no command line.
fn fault_of(kind: ErrorKind) -> CommandFault {
    match kind {
        ErrorKind::OutOfMemory => CommandFault::Memory,
        _ => CommandFault::Usage,
    }
}

/// What a command asks for.
#[tactic(auto, unfolding(crate::specs::Doing::word_of))]
fn task_of(command: &str) -> Result<Task, CommandFault>
    ensures word { IfOk result (λ task. command.now ≡ word_of task) }
    ensures none { IfErr result (λ fault. (task : Task) → command.now ≡ word_of task → ⊥) }
{
    match command {
        "asm" => Ok(Task::Asm),
        "sched" => Ok(Task::Sched),
        "threads" => Ok(Task::Threads),
        "check" => Ok(Task::Check),
        _ => Err(CommandFault::Usage),
    }
}

/// The task and the file of `asm FILE`, `sched FILE`, `threads FILE` or `check FILE`.
fn order_of<'a>(alloc: Global, words: &'a [String]) -> Result<(Task, &'a str), CommandFault> {
    let places = places_of(alloc, words)?;
    let command = places.get_str("command").ok_or(CommandFault::Usage)?;
    let file = places.get_str("file").ok_or(CommandFault::Usage)?;
    Ok((task_of(command)?, file))
}

/// Does the task with the text of a reader, and writes to standard output.
fn do_task<T: Print + AllocGlobal + Threads + Wait, R: Read, E: Write>(
    rt: &T,
    task: Task,
    reader: &mut R,
    errors: &mut E,
) -> u8
    ensures { (text : List ℕ) × IfSome (R.remaining reader.old) (λ all. text ≡ all)
        × Answered task text result (E.contents errors.old) (E.contents errors.new) }
{
    // the commands write in pages, and a reader of a pipe is to have each attempt at once: so nothing is held back here
    let mut writer = io::writer(rt);
    match task {
        Task::Asm => asm(rt.alloc(), reader, &mut writer, errors),
        Task::Sched => sched(rt.alloc(), reader, &mut writer, errors),
        Task::Threads => threads(rt, rt.alloc(), reader, &mut writer, errors),
        Task::Check => check(rt.alloc(), reader, &mut writer, errors),
    }
}

/// Does the task with the text of a file, or of the input.
fn do_file<T: Files + Input + Print + AllocGlobal + Threads + Wait, E: Write>(
    rt: &T,
    task: Task,
    path: &str,
    errors: &mut E,
) -> u8
    ensures { Does task result (E.contents errors.old) (E.contents errors.new) }
{
    if path == "-" {
        return do_task(rt, task, &mut rt.reader(), errors);
    }
    match fs::open(rt, path) {
        Ok(mut file) => do_task(rt, task, &mut file, errors),
        Err(_) => tell_no_text(errors, Failure::Reading),
    }
}

/// Does what the words ask for, and answers the program's status.
fn obey<T: Files + Input + Print + AllocGlobal + Threads + Wait, E: Write>(
    rt: &T,
    words: &[String],
    errors: &mut E,
) -> Result<u8, CommandFault>
    ensures done { IfOk result (λ status. (task : Task) × Does task status (E.contents errors.old) (E.contents errors.new)) }
    ensures quiet { OnErr result (errors.new ≡ errors.old) }
{
    let (task, path) = order_of(rt.alloc(), words)?;
    Ok(do_file(rt, task, path, errors))
}

/// Does what the program's words say, and answers its status.
pub fn run<T: Env + Files + Input + Print + AllocGlobal + Threads + Wait, E: Write>(
    rt: &T,
    errors: &mut E,
) -> u8
    ensures { Runs result (E.contents errors.old) (E.contents errors.new) }
{
    let words = match words_of(rt) {
        Ok(words) => words,
        Err(fault) => return tell(errors, fault),
    };
    match obey(rt, &words, errors) {
        Ok(status) => status,
        Err(fault) => tell(errors, fault),
    }
}
