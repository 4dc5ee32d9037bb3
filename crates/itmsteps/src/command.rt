//! The program's words.

ghost use Rattle.std.specs.Prelude.{◌≡◌, ℕ, List, IfOk, IfSome, OnErr};
ghost use Rattle.text_commands.specs.Answers.{Says};
ghost use Rattle.text_commands.specs.Lines.{failure_status};
ghost use Rattle.tx_history.specs.Spelling.{Puts};
ghost use Rattle.itmsteps.specs.declared.choice.Choice.{Choice};
ghost use Rattle.itmsteps.specs.Doing.{Does, Done, Runs, failure_line, fault_line, fault_status, usage_line};

use crate::choice::Choice;
use crate::failure::tell as tell_failure;
use crate::histories::draw_text;
use crate::showing::steps;
use clap::error::ErrorKind;
use clap::{Arg, ArgAction, ArgMatches, Command};
use script_asm::AsmFault;
use std::alloc::{AllocError, Global};
use std::io::{BufWriter, Read, Write};
use std::rt::{Env, Files};
use std::{env, fs, io};
use step_table::Columns;
use text_commands::{Failure, status_after};
use thiserror::Error;
use tx_history::{Piece, put_pieces};

/// Why the program's words say nothing that can be done.
#[derive(Clone, Copy, Debug, Error)]
enum CommandFault {
    /// They are not one file with these options.
    #[error("usage: itmsteps [--threads N,N..] [--from N] [--to N] [--svg] FILE, or itmsteps --history --svg FILE")]
    Usage,
    /// Memory was refused.
    #[error("no memory")]
    Memory,
}

/// Writes the line on how the program is used.
fn put_usage<E: Write>(errors: &mut E) -> io::Result<()>
    ensures { Puts (E.contents errors.old) (E.contents errors.new) result usage_line }
{
    put_pieces(
        errors,
        &[Piece::Text(
            b"itmsteps: usage: itmsteps [--threads N,N..] [--from N] [--to N] [--svg] FILE, or itmsteps --history --svg FILE\n",
        )],
    )
}

/// Says on the errors how the program is used, and answers its status.
fn tell_usage<E: Write>(errors: &mut E) -> u8
    ensures { Says usage_line 1 result (E.contents errors.old) (E.contents errors.new) }
{
    status_after(put_usage(errors), 1)
}

/// Says on the errors why there is no text, and answers the program's status.
fn tell_no_text<E: Write>(errors: &mut E, failure: Failure<AsmFault>) -> u8
    ensures { Says (failure_line failure) (failure_status failure) result (E.contents errors.old) (E.contents errors.new) }
{
    tell_failure(errors, &failure)
}

/// Says why the words say nothing that can be done, and answers the program's status.
fn tell<E: Write>(errors: &mut E, fault: CommandFault) -> u8
    ensures { Says (fault_line fault) (fault_status fault) result (E.contents errors.old) (E.contents errors.new) }
{
    match fault {
        CommandFault::Usage => tell_usage(errors),
        CommandFault::Memory => tell_no_text(errors, Failure::NoMemory),
    }
}

/// The program's words, its own name first.
fn words_of<R: Env + AllocGlobal>(rt: &R) -> Result<Vec<String>, CommandFault> {
    match env::args(rt) {
        Ok(words) => words.collect(rt.alloc()).map_err(|_| CommandFault::Memory),
        Err(error) => match error.kind() {
            io::ErrorKind::OutOfMemory => Err(CommandFault::Memory),
            _ => Err(CommandFault::Usage),
        },
    }
}

/// An option that has a word of its own.
fn option<'a>(alloc: Global, name: &'a str) -> Arg<'a> {
    Arg::new(alloc, name).long(name).action(ArgAction::Set)
}

/// An option with no word of its own.
fn flag<'a>(alloc: Global, name: &'a str) -> Arg<'a> {
    Arg::new(alloc, name).long(name).action(ArgAction::SetTrue)
}

/// The options, and the place for a file.
fn command_line<'a>(alloc: Global) -> Result<Command<'a>, AllocError> {
    Command::new(alloc, "itmsteps")
        .disable_help_flag(true)
        .disable_version_flag(true)
        .arg(option(alloc, "threads"))?
        .arg(option(alloc, "from"))?
        .arg(option(alloc, "to"))?
        .arg(flag(alloc, "svg"))?
        .arg(flag(alloc, "history"))?
        .arg(
            Arg::new(alloc, "file")
                .required(true)
                .action(ArgAction::Set),
        )
}

/// Why the words are no command line.
fn fault_of(kind: ErrorKind) -> CommandFault {
    match kind {
        ErrorKind::OutOfMemory => CommandFault::Memory,
        _ => CommandFault::Usage,
    }
}

/// What stands behind the options and in the place.
fn places_of<'a>(alloc: Global, words: &'a [String]) -> Result<ArgMatches<'a>, CommandFault> {
    let line = command_line(alloc).map_err(|_| CommandFault::Memory)?;
    line.try_get_matches_from(words)
        .map_err(|error| fault_of(error.kind()))
}

/// The number of a word, or this one, where there is no word.
fn number_of(word: Option<&str>, none: u64) -> Result<u64, CommandFault> {
    match word {
        None => Ok(none),
        Some(word) => word.parse::<u64>().map_err(|_| CommandFault::Usage),
    }
}

/// The threads of a word, with commas between them.
fn threads_of(word: &str) -> Result<Columns, CommandFault> {
    let mut threads = Columns::new();
    for part in word.split(',') {
        let thread = part.parse::<u8>().map_err(|_| CommandFault::Usage)?;
        if threads.try_push(thread).is_err() {
            return Err(CommandFault::Usage);
        }
    }
    Ok(threads)
}

/// Whether the file is a history. Of one there is a picture of all of it.
fn is_history(places: &ArgMatches<'_>) -> Result<bool, CommandFault> {
    if !places.get_flag("history") {
        return Ok(false);
    }
    let whole = places.get_str("threads").is_none()
        && places.get_str("from").is_none()
        && places.get_str("to").is_none();
    if whole && places.get_flag("svg") {
        Ok(true)
    } else {
        Err(CommandFault::Usage)
    }
}

/// What is chosen, and the file.
fn order_of<'a>(alloc: Global, words: &'a [String]) -> Result<(Choice, &'a str), CommandFault> {
    let places = places_of(alloc, words)?;
    let threads = match places.get_str("threads") {
        None => None,
        Some(word) => Some(threads_of(word)?),
    };
    let from = number_of(places.get_str("from"), 0)?;
    let to = number_of(places.get_str("to"), u64::MAX)?;
    let file = places.get_str("file").ok_or(CommandFault::Usage)?;
    let svg = places.get_flag("svg");
    let history = is_history(&places)?;
    Ok((
        Choice {
            threads,
            from,
            to,
            svg,
            history,
        },
        file,
    ))
}

/// Writes what is chosen: the picture of a reader's history, or the table or picture of its script.
fn show_text<R: Read, W: Write, E: Write>(
    alloc: Global,
    choice: Choice,
    reader: &mut R,
    writer: &mut W,
    errors: &mut E,
) -> u8
    ensures { (text : List ℕ) × IfSome (R.remaining reader.old) (λ all. text ≡ all)
        × Done choice.history choice text result (W.contents writer.old) (W.contents writer.new) (E.contents errors.old) (E.contents errors.new) }
{
    if choice.history {
        return draw_text(alloc, reader, writer, errors);
    }
    steps(alloc, reader, choice, writer, errors)
}

/// Writes what is chosen of a reader's text to standard output.
fn do_text<T: Print + AllocGlobal, R: Read, E: Write>(
    rt: &T,
    choice: Choice,
    reader: &mut R,
    errors: &mut E,
) -> u8
    ensures { (text : List ℕ) × IfSome (R.remaining reader.old) (λ all. text ≡ all) × Does choice text result (E.contents errors.old) (E.contents errors.new) }
{
    let Ok(mut writer) = BufWriter::new(rt.alloc(), io::writer(rt)) else {
        return tell_no_text(errors, Failure::NoMemory);
    };
    show_text(rt.alloc(), choice, reader, &mut writer, errors)
}

/// Writes what is chosen of the text in a file, or of the input.
fn do_file<T: Files + Input + Print + AllocGlobal, E: Write>(
    rt: &T,
    choice: Choice,
    path: &str,
    errors: &mut E,
) -> u8
    ensures { (text : List ℕ) × Does choice text result (E.contents errors.old) (E.contents errors.new) }
{
    if path == "-" {
        return do_text(rt, choice, &mut rt.reader(), errors);
    }
    match fs::open(rt, path) {
        Ok(mut file) => do_text(rt, choice, &mut file, errors),
        Err(_) => tell_no_text(errors, Failure::Reading),
    }
}

/// Does what the words ask for, and answers the program's status.
fn obey<T: Env + Files + Input + Print + AllocGlobal, E: Write>(
    rt: &T,
    words: &[String],
    errors: &mut E,
) -> Result<u8, CommandFault>
    ensures done { IfOk result (λ status. (choice : Choice) × (text : List ℕ) × Does choice text status (E.contents errors.old) (E.contents errors.new)) }
    ensures quiet { OnErr result (errors.new ≡ errors.old) }
{
    match order_of(rt.alloc(), words) {
        Ok((choice, path)) => Ok(do_file(rt, choice, path, errors)),
        Err(fault) => Err(fault),
    }
}

/// Does what the program's words say, and answers its status.
pub fn run<T: Env + Files + Input + Print + AllocGlobal, E: Write>(rt: &T, errors: &mut E) -> u8
    ensures { Runs result (E.contents errors.old) (E.contents errors.new) }
{
    let words = match words_of(rt) {
        Ok(words) => words,
        Err(fault) => return tell(errors, fault),
    };
    match obey(rt, &words, errors) {
        Ok(status) => status,
        Err(fault) => tell(errors, fault),
    }
}
