//! Asking the program.
use conformance_logs::scripts::inputs_of;
use std::alloc::Global;
use std::io::{Read, Write};
use std::test::Fail;
use warg_audit::{Input, Output, audit};
use warg_protocol::package::LogState;

/// What is asked of an input, what is printed, and the exit status.
#[derive(Clone, Copy)]
pub(crate) struct Row<'b> {
    pub(crate) words: &'b [&'b str],
    pub(crate) input: &'b [u8],
    pub(crate) printed: &'b str,
    pub(crate) status: u8,
}

/// The words that ask for the id of a package record.
pub(crate) const ID_WORDS: &[&str] = &["id", "package"];

/// The words that ask for the verdict on a package log.
pub(crate) const LOG_WORDS: &[&str] = &["package"];

/// The id of an empty package record.
pub(crate) fn id_row() -> Row<'static> {
    Row {
        words: ID_WORDS,
        input: b"0a021a00\n",
        printed: "sha256:0dc9969d2a2f84e5467b2f6003184c25d0f354a251864e0646e97436da784001\n",
        status: 0,
    }
}

/// The lines of a package log: Init and a grant by alice, a release by bob, a revoke and a yank by alice.
pub(crate) fn log(alloc: Global) -> Result<String, Fail> {
    let lines = "
        alice 1.0: init alice, grant bob release yank
        bob 2.0: release 1.1.0 \0\x01\x02\x03
        alice 3.0: revoke bob release yank, yank 1.1.0
    ";
    let inputs = match inputs_of::<LogState>(alloc, lines) {
        Ok(inputs) => inputs,
        Err(fail) => return Err(Fail::new(fail.as_str())),
    };
    let mut log = String::new(alloc);
    for input in inputs.iter() {
        log.push_str(hex::encode(alloc, input.as_slice())?.as_str())?;
        log.push('\n')?;
    }
    Ok(log)
}

/// The verdict on that log.
pub(crate) fn log_row<'b>(log: &'b str) -> Row<'b> {
    Row {
        words: LOG_WORDS,
        input: log.as_bytes(),
        printed: "ok 3 sha256:88e63a3e22d45d5304a601e1f3f96e4c8edb3772b5250b528a833bfbf3c3c718\n1.1.0 yanked\n",
        status: 0,
    }
}

/// The exit status.
pub(crate) fn status<R: Read, W: Write>(
    alloc: Global,
    words: &[&str],
    input: &mut Input<R>,
    output: &mut Output<W>,
) -> Result<u8, Fail> {
    let mut texts = Vec::new(alloc);
    for word in words {
        texts.push(String::from_str(alloc, *word)?)?;
    }
    Ok(audit(alloc, texts.as_slice(), input, output))
}

/// Whether this is printed of what the reader gives, with this exit status.
pub(crate) fn answers<R: Read + Drop>(
    alloc: Global,
    words: &[&str],
    reader: R,
    printed: &str,
    wanted: u8,
) -> Result<bool, Fail> {
    let mut output = Output::new(Vec::new(alloc));
    let mut input = Input::new(reader);
    let found = status(alloc, words, &mut input, &mut output)?;
    Ok(found == wanted && output.into_inner().as_slice() == printed.as_bytes())
}
