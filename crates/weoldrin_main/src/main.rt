//! Prints what `weoldrin` answers to its words and its files.
#![tactic(auto)]

mod disk;
mod held;
mod put;
mod streams;

use disk::Disk;
use std::alloc::{AllocError, Global};
use std::env::{Env, VarError};
use std::io::{ErrorKind, IsTerminal, Write};
use std::process::ExitCode;
use std::{env, io};
use streams::closed_streams;
use warg_protocol::Timestamp;
use weoldrin::{CommandOutput, Parsed, coloured, invocation_answer, parse_words};

/// The status of trouble.
const TROUBLE: u8 = 3;

// The program's name, by which its help speaks of it, and the words after it.
fn words(rt: &(impl Alloc<A = Global> + Env)) -> io::Result<Vec<String>> {
    let mut words = Vec::new(rt.alloc());
    words.push(String::from_str(rt.alloc(), "weoldrin")?)?;
    for word in env::args(rt)?.skip(1) {
        words.push(word)?;
    }
    Ok(words)
}

// What the words are answered.
fn answered(
    rt: &HostRuntime,
    words: &[&str],
    disk: &mut Disk<'_>,
) -> Result<CommandOutput, AllocError> {
    let alloc = rt.alloc();
    match parse_words(alloc, words)? {
        Parsed::Invocation(mut invocation) => {
            invocation.tell_time(Timestamp::now(rt).ok());
            disk.set_limit(invocation.limit);
            let answer = invocation_answer(alloc, &invocation, disk);
            disk.clear_progress();
            answer
        }
        Parsed::Output(answer) => Ok(answer),
    }
}

// Whether the user has asked for answers without colour: `NO_COLOR` has a text.
fn is_plain(rt: &(impl Alloc<A = Global> + Env)) -> Result<bool, AllocError> {
    match env::var(rt, "NO_COLOR") {
        Ok(text) => Ok(!text.is_empty()),
        Err(VarError::NotPresent) => Ok(false),
        Err(VarError::NotUnicode) => Ok(true),
        Err(VarError::OutOfMemory) => Err(AllocError),
    }
}

// The answer as it is printed to standard output.
fn shown(rt: &HostRuntime, answer: CommandOutput) -> Result<CommandOutput, AllocError> {
    coloured(rt.alloc(), rt.stdout().is_terminal(), is_plain(rt)?, answer)
}

// Says what went wrong, and where records were added, that they stand all the same.
fn trouble(rt: &HostRuntime, disk: &Disk<'_>, fault: &str) -> u8 {
    let mut error = rt.stderr();
    let end = if disk.has_put() {
        "; the records were added, and stand in the log's file\n"
    } else {
        "\n"
    };
    for part in ["weoldrin: ", fault, end] {
        let _ = error.write_all(part.as_bytes());
    }
    TROUBLE
}

// Writes the answer, and gives the exit status. A reader that went away wants no more, so that is no trouble.
fn print(rt: &HostRuntime, disk: &Disk<'_>, answer: &CommandOutput) -> u8 {
    let _ = rt.stderr().write_all(answer.error_text.as_bytes());
    match rt.stdout().write_all(answer.text.as_bytes()) {
        Ok(()) => answer.status,
        Err(error) if error.kind() == ErrorKind::BrokenPipe => answer.status,
        Err(_) => trouble(rt, disk, "standard output could not be written"),
    }
}

// Answers the words, and gives the exit status.
fn run(rt: &HostRuntime, words: &[String]) -> u8 {
    let mut disk = Disk::new(rt);
    let texts: Result<Vec<&str>, AllocError> = words
        .iter()
        .map(|word| word.as_str())
        .collect(rt.alloc());
    let answer = texts.and_then(|texts| answered(rt, texts.as_slice(), &mut disk));
    match answer.and_then(|answer| shown(rt, answer)) {
        Ok(answer) => print(rt, &disk, &answer),
        Err(AllocError) => trouble(rt, &disk, "out of memory"),
    }
}

fn main(rt: HostRuntime) -> ExitCode {
    let _closed = closed_streams(&rt);
    let status = match words(&rt) {
        Ok(words) => run(&rt, words.as_slice()),
        Err(fault) if fault.kind() == ErrorKind::InvalidData => {
            let _ = rt.eprintln("weoldrin: an argument is no UTF-8");
            2
        }
        Err(_) => {
            let _ = rt.eprintln("weoldrin: out of memory");
            TROUBLE
        }
    };
    ExitCode::from(status)
}
