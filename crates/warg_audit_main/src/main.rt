//! Prints what `warg_audit` answers to its words and its input.
#![tactic(auto)]

use std::alloc::Global;
use std::env::Env;
use std::io::{ErrorKind, Read, Write};
use std::process::ExitCode;
use std::{env, io};
use warg_audit::{Input, OUT_OF_MEMORY, Output, USAGE, audit, parse_information};

// The arguments after the program's name.
fn words(rt: &(impl Alloc<A = Global> + Env)) -> io::Result<Vec<String>> {
    let mut words = Vec::new(rt.alloc());
    for word in env::args(rt)?.skip(1) {
        words.push(word)?;
    }
    Ok(words)
}

// Prints a text that takes no memory, and gives the exit status.
fn print<W: Write>(output: &mut Output<W>, text: &str, status: u8) -> u8 {
    match output.write_all(text.as_bytes()) {
        Ok(()) => status,
        Err(_) => 3,
    }
}

// Answers the words, and gives the exit status.
fn answer<R: Read + Drop, W: Write>(
    alloc: Global,
    words: &[String],
    input: R,
    output: &mut Output<W>,
) -> u8 {
    match parse_information(words) {
        Some(information) => print(output, information.text(), 0),
        None => audit(alloc, words, &mut Input::new(input), output),
    }
}

fn main(rt: HostRuntime) -> ExitCode {
    let mut output = Output::new(rt.stdout());
    let status = match words(&rt) {
        Ok(words) => answer(rt.alloc(), words.as_slice(), rt.stdin(), &mut output),
        Err(fault) => match fault.kind() {
            // an argument is not UTF-8
            ErrorKind::InvalidData => print(&mut output, USAGE, 2),
            _ => print(&mut output, OUT_OF_MEMORY, 3),
        },
    };
    if output.errors() > 0 {
        let _ = rt.eprintln("warg_audit: standard output could not be written");
    }
    ExitCode::from(status)
}
