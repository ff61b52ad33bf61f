//! The words of the program.

ghost use Rattle.std.specs.Prelude.{IfOk};
ghost use Rattle.tool_words.specs.Invocations.{IsSaid};
ghost use Rattle.tool_words.specs.Requests.{texts};

use crate::command::Command as Called;
use crate::invocation::{invocation_of, named_by, word, words_from};
use crate::log_commands::{COMPARE, QUESTIONS, TASKS};
use crate::parts::Parts;
use crate::pleas::{asks_for_text, is_grouped, is_help, is_version};
use crate::proof_commands::{COMPARISONS, ENCODINGS, LOG_ID_OF, PROVE, VERIFY};
use crate::request::Said;
use crate::table::{command_with, with_commands};
use crate::version::VERSION;
use clap::Command;
use clap::error::ErrorKind;
use std::alloc::{AllocError, Global};
use warg_printable::printed;

const ABOUT: &str = "Checks the logs of a package registry, and answers from them";

const AFTER: &str = "A log is a file of lines, each a signed record in hex. Comments, which begin
with #, are passed over, and so is a blank last line. - is standard input.
Options may stand anywhere behind the command; -- ends them.

Status: 0 yes, 1 a negative answer, whose text is on standard output, 2 wrong
words or unreadable input, 3 a failed read or write, out of memory, or busy.";

// What is said of words of which no more is known.
const CLASH: &str = "these words can't stand together";

// The program's command line, for the texts of its help and of faults.
fn program<'a>(alloc: Global) -> Result<Command<'a>, AllocError> {
    let program = Command::new(alloc, "weoldrin")
        .version(VERSION)
        .about(ABOUT)
        .after_help(AFTER)
        .arg_required_else_help(true);
    let program = with_commands(alloc, program, QUESTIONS)?.subcommand(command_with(
        alloc,
        &COMPARE,
        COMPARISONS,
    )?)?;
    let program = with_commands(alloc, program, TASKS)?;
    let log_id = Command::new(alloc, "log-id").about(
        "Prints the id that a log has in a registry, by its name",
    );
    let prove = Command::new(alloc, "prove").about(
        "Prints a registry's checkpoint, or a proof under it",
    );
    let verify = Command::new(alloc, "verify").about(
        "Says whether a checkpoint is signed, or a proof under it holds",
    );
    let program = program
        .subcommand(with_commands(alloc, log_id, LOG_ID_OF)?)?
        .subcommand(with_commands(alloc, prove, PROVE)?)?
        .subcommand(with_commands(alloc, verify, VERIFY)?)?;
    with_commands(alloc, program, ENCODINGS)
}

// What clap says of words, and whether that is a fault; nothing where it takes them.
fn told(alloc: Global, words: &[&str]) -> Result<Option<(String, bool)>, AllocError> {
    match program(alloc)?.try_get_matches_from(words) {
        Ok(_) => Ok(None),
        Err(error) => {
            if error.kind() == ErrorKind::OutOfMemory {
                return Err(AllocError);
            }
            let text = error.to_string(alloc)?;
            Ok(Some((text, error.use_stderr())))
        }
    }
}

// The help of what words ask help for.
fn help(alloc: Global, words: &[&str]) -> Result<String, AllocError> {
    let first = word(words, 1);
    let second = word(words, 2);
    let mut asked = Vec::new(alloc);
    asked.push("weoldrin")?;
    if first == "help" {
        if words.len() > 2 {
            asked.push(second)?;
        }
        if words.len() > 3 {
            asked.push(word(words, 3))?;
        }
    } else if !is_help(first) {
        asked.push(first)?;
        if is_grouped(Called::of(first, second)) {
            asked.push(second)?;
        }
    }
    asked.push("--help")?;
    match told(alloc, asked.as_slice())? {
        Some((text, _)) => Ok(text),
        None => String::from_str(alloc, ABOUT),
    }
}

// The text that words ask for.
fn text(alloc: Global, words: &[&str]) -> Result<String, AllocError> {
    if is_version(word(words, 1)) {
        String::from_str(alloc, VERSION)
    } else {
        help(alloc, words)
    }
}

// Why words are none of the table's, where clap would take them.
fn clash(alloc: Global, words: &[&str]) -> Result<&'static str, AllocError> {
    let Some(called) = Called::of(word(words, 1), word(words, 2)) else {
        return Ok(CLASH);
    };
    match Parts::of(alloc, called, words_from(words, named_by(called)))? {
        Some(parts) => Ok(parts.clash(called).unwrap_or(CLASH)),
        None => Ok(CLASH),
    }
}

// The words as they are printed, so that no sentence on them is taken for lines of its own, or for a word to the terminal.
fn printed_words(alloc: Global, words: &[&str]) -> Result<Vec<String>, AllocError> {
    let mut shown = Vec::new(alloc);
    for word in words {
        shown.push(printed(alloc, word)?)?;
    }
    Ok(shown)
}

// What clap says of words as they are printed.
fn told_of_printed(alloc: Global, shown: &[String]) -> Result<Option<(String, bool)>, AllocError> {
    let mut texts = Vec::new(alloc);
    for word in shown {
        texts.push(word.as_str())?;
    }
    told(alloc, texts.as_slice())
}

// What is wrong with words: what clap says, or, where it would take them, why they are none.
fn fault(alloc: Global, words: &[&str]) -> Result<String, AllocError> {
    let shown = printed_words(alloc, words)?;
    match told_of_printed(alloc, shown.as_slice())? {
        Some((text, true)) => Ok(text),
        _ => {
            let why = clash(alloc, words)?;
            format!(in alloc; "error: {why}\n\nFor more information, try '--help'.\n")
        }
    }
}

/// What the words say. The first is the program's name.
pub fn parse_words<'a>(alloc: Global, words: &'a [&'a str]) -> Result<Said<'a>, AllocError>
    ensures { IfOk result (IsSaid (texts words.now)) }
{
    if let Some(invocation) = invocation_of(alloc, words)? {
        return Ok(Said::Invocation(invocation));
    }
    if asks_for_text(words) {
        Ok(Said::Help(text(alloc, words)?))
    } else {
        Ok(Said::Fault(fault(alloc, words)?))
    }
}
