//! The names of keys that a file lists, and the answers that have them.

ghost use Rattle.std.specs.Prelude.{◌≡◌, IfErr, IfOk, IsErr, Ok, string_bytes};
ghost use Rattle.warg_audit.specs.Files.Answers.{output_data, IfOutput, IsUnusable};
ghost use Rattle.warg_audit.specs.declared.files.command_error.CommandError.TheVariants as command_error;
ghost use Rattle.tool_layout.specs.Names.{names_of};
ghost use Rattle.tool_layout.specs.declared.error.NameFault.TheVariants as fault;
ghost use Rattle.weoldrin.specs.Looks.{AreNamesIn, IsUnnamed, ListNoNames};
ghost use Rattle.weoldrin.specs.Requests.{InvocationLeaves, IsInvocationAnswer};

use crate::verified::{answer_in, render_error_output};
use std::alloc::{AllocError, Global};
use std::str;
use tool_layout::{Look, NameFault, Names, NamesParseError};
use tool_words::Invocation;
use warg_audit::files::command_error::{CommandError, unusable};
use warg_audit::files::command_output::CommandOutput;
use warg_audit::files::input::{Input, Store, file_error, line_sentence, read_input};

fn name_sentence(alloc: Global, path: &str, error: NamesParseError) -> Result<String, AllocError> {
    let fault = format!(in alloc; "{}", error.fault)?;
    line_sentence(alloc, path, error.line.saturating_sub(1), fault.as_str())
}

// The error of a command for a line that says no name.
fn name_error(alloc: Global, path: &str, error: NamesParseError) -> CommandError
    ensures unusable { IfOutput IsUnusable result }
    ensures memory { error.fault ≡ fault.OutOfMemory → result ≡ command_error.OutOfMemory }
{
    if error.fault == NameFault::OutOfMemory {
        return CommandError::OutOfMemory;
    }
    unusable(alloc, name_sentence(alloc, path, error))
}

// The names that a text lists.
fn names_of(alloc: Global, path: &str, text: &str) -> Result<Names, CommandError>
    ensures ok { IfOk result (λ names. names_of text.now ≡ Ok names) }
    ensures err { IfErr result (IfOutput (λ told.
        IsErr (names_of text.now) × IsUnusable told)) }
{
    match Names::parse(alloc, text) {
        Ok(names) => Ok(names),
        Err(error) => Err(name_error(alloc, path, error)),
    }
}

// The names that a file lists.
fn names_of_file(alloc: Global, input: &Input<'_>) -> Result<Names, CommandError>
    ensures ok { IfOk result (λ names. names_of input.now.bytes.items ≡ Ok names) }
    ensures err { IfErr result (IfOutput (λ told.
        ListNoNames input.now.bytes.items × IsUnusable told)) }
{
    match str::from_utf8(input.bytes.as_slice()) {
        Ok(text) => names_of(alloc, input.path, text),
        Err(_) => Err(file_error(alloc, input.path, "it is no UTF-8")),
    }
}

// The names that the file of this path lists.
fn read_names<S: Store>(alloc: Global, path: &str, store: &mut S) -> Result<Names, CommandError>
    ensures ok { IfOk result (AreNamesIn (S.files store.old) path.now) }
    ensures err { IfErr result (IfOutput (IsUnnamed (S.files store.old) path.now)) }
    ensures kept { S.files store.new ≡ S.files store.old }
{
    match read_input(alloc, store, path) {
        Ok(input) => names_of_file(alloc, &input),
        Err(error) => Err(error),
    }
}

/// What the invocation is answered, with the names and under the verifier that it names, from the bytes of the files
/// that it names.
pub fn invocation_answer<S: Store>(
    alloc: Global,
    invocation: &Invocation<'_>,
    store: &mut S,
) -> Result<CommandOutput, AllocError>
    ensures answered { IfOk result (λ answer. IsInvocationAnswer (S.files store.old)
        (S.files store.new) invocation.now (string_bytes answer.error_text)
        (output_data answer)) }

    // What files hold is changed by records that are added alone, also where memory runs out.
    ensures files { InvocationLeaves (S.files store.old) (S.files store.new) invocation.now }
{
    let full = invocation.full;
    match invocation.names {
        None => {
            let names = Names::new(alloc);
            answer_in(alloc, invocation, &Look { full, names }, store)
        }
        Some(path) => match read_names(alloc, path, store) {
            Ok(names) => answer_in(alloc, invocation, &Look { full, names }, store),
            Err(error) => render_error_output(alloc, invocation, error),
        },
    }
}
