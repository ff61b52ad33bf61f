//! Commands as tables, for their help: each word and option of a command, and the command line that clap makes of them.

use clap::{Arg, ArgAction, Command};
use std::alloc::{AllocError, Global};

const KINDS: &[&str] = &["package", "operator"];

/// How a word is given.
#[derive(Clone, Copy)]
pub(crate) enum Form {
    /// It has to be there.
    Required,
    /// It has to be there, and is a kind of log.
    Kind,
    /// It is a file's path, and standard input's where it is left out.
    Input,
    /// There is any number of it.
    Many,
}

/// A word of a command.
#[derive(Clone, Copy)]
pub(crate) struct Word {
    pub(crate) name: &'static str,
    pub(crate) form: Form,
    pub(crate) help: &'static str,
}

/// An option of a command.
#[derive(Clone, Copy)]
pub(crate) struct Choice {
    pub(crate) name: &'static str,
    /// What its value is called, if it takes one.
    pub(crate) value: Option<&'static str>,
    pub(crate) help: &'static str,
}

/// A command, with an example behind its help.
#[derive(Clone, Copy)]
pub(crate) struct Row {
    pub(crate) name: &'static str,
    pub(crate) about: &'static str,
    pub(crate) example: &'static str,
    pub(crate) words: &'static [Word],
    pub(crate) choices: &'static [Choice],
}

/// Answers in JSON.
pub(crate) const JSON: Choice = Choice {
    name: "json",
    value: None,
    help: "Answers in JSON, an object a line",
};

/// How long files may be.
pub(crate) const LIMIT: Choice = Choice {
    name: "limit",
    value: Some("BYTES"),
    help: "How many bytes a file may have, 16777216 where this is not given",
};

fn arg_of<'a>(alloc: Global, word: &Word) -> Arg<'a> {
    let arg = Arg::new(alloc, word.name).help(word.help);
    match word.form {
        Form::Required => arg.required(true),
        Form::Kind => arg.required(true).value_parser(KINDS),
        Form::Input => arg.default_value("-"),
        Form::Many => arg.num_args(0..),
    }
}

fn option_of<'a>(alloc: Global, choice: &Choice) -> Arg<'a> {
    let arg = Arg::new(alloc, choice.name)
        .long(choice.name)
        .help(choice.help);
    match choice.value {
        Some(name) => arg.value_name(name),
        None => arg.action(ArgAction::SetTrue),
    }
}

fn command_of<'a>(alloc: Global, row: &Row) -> Result<Command<'a>, AllocError> {
    let mut command = Command::new(alloc, row.name)
        .about(row.about)
        .after_help(row.example);
    for choice in row.choices {
        command = command.arg(option_of(alloc, choice))?;
    }
    for word in row.words {
        command = command.arg(arg_of(alloc, word))?;
    }
    Ok(command)
}

/// The command of a row, with those of the table below it, any of which may stand in place of its words.
pub(crate) fn command_with<'a>(
    alloc: Global,
    row: &Row,
    below: &[Row],
) -> Result<Command<'a>, AllocError> {
    let mut command = command_of(alloc, row)?.args_conflicts_with_subcommands(true);
    for row in below {
        command = command.subcommand(command_of(alloc, row)?)?;
    }
    Ok(command)
}

/// The command with those of the table below it, one of which has to be there.
pub(crate) fn with_commands<'a>(
    alloc: Global,
    command: Command<'a>,
    rows: &[Row],
) -> Result<Command<'a>, AllocError> {
    let mut command = command.subcommand_required(true);
    for row in rows {
        command = command.subcommand(command_of(alloc, row)?)?;
    }
    Ok(command)
}
