//! The verifier of a request: the schemes that it asks for, or what a file says was verified.

ghost use Rattle.std.specs.Prelude.{◌≡◌, IfOk, IfErr, string_bytes};
ghost use Rattle.std.specs.Str.Lines.{lines};
ghost use Rattle.warg_claims.specs.Verified.Texts.{IsReadFrom};
ghost use Rattle.warg_claims.specs.declared.verified.error.ClaimParseError.TheVariants.{OutOfMemory};
ghost use Rattle.warg_audit.specs.Files.Answers.{output_data, IfOutput, IsUnusable};
ghost use Rattle.warg_audit.specs.declared.files.command_error.CommandError.TheVariants as end;
ghost use Rattle.tool_checkpoints.specs.Words.{IsIn, IsUnsaid, IsUnsaidIn};
ghost use Rattle.weoldrin.specs.Requests.{AnswerLeaves, IsAnswerIn, IsErrorRendered, IsResponseTo};
ghost use Rattle.weoldrin.specs.Requests.{RequestLeaves, SaysClaims};
ghost use Rattle.weoldrin.specs.Schemes.{asked_belongs};

use crate::commands::{render, respond};
use crate::schemes::KnownSchemes;
use std::alloc::{AllocError, Global};
use std::str;
use tool_layout::Look;
use tool_words::Invocation;
use warg_audit::files::command_error::{CommandError, unusable};
use warg_audit::files::command_output::CommandOutput;
use warg_audit::files::input::{Input, Store, file_error, line_sentence, read_input};
use warg_claims::verified::{ClaimParseError, Verified, VerifiedParseError};
use warg_protocol::p256::KnownKeys;

fn claim_sentence(
    alloc: Global,
    path: &str,
    error: VerifiedParseError,
) -> Result<String, AllocError> {
    let fault = format!(in alloc; "no claim: {}", error.fault)?;
    line_sentence(alloc, path, error.line, fault.as_str())
}

// The error of a command for a line that says no claim.
fn claim_error(alloc: Global, path: &str, error: VerifiedParseError) -> CommandError
    ensures unusable { IfOutput IsUnusable result }
    ensures memory { error.fault ≡ OutOfMemory → result ≡ end.OutOfMemory }
{
    if error.fault == ClaimParseError::OutOfMemory {
        return CommandError::OutOfMemory;
    }
    unusable(alloc, claim_sentence(alloc, path, error))
}

// The claims that a text lists.
fn verified_of(alloc: Global, path: &str, text: &str) -> Result<Verified, CommandError>
    ensures ok { IfOk result (IsReadFrom (lines text.now)) }
    ensures err { IfErr result (IfOutput (IsUnsaid (IsReadFrom (lines text.now)))) }
{
    match Verified::parse(alloc, text) {
        Ok(verified) => Ok(verified),
        Err(error) => Err(claim_error(alloc, path, error)),
    }
}

// The claims that a file lists.
fn verified_of_file(alloc: Global, input: &Input<'_>) -> Result<Verified, CommandError>
    ensures ok { IfOk result (SaysClaims input.now.bytes.items) }
    ensures err { IfErr result (IfOutput (IsUnsaid (SaysClaims input.now.bytes.items))) }
{
    match str::from_utf8(input.bytes.as_slice()) {
        Ok(text) => verified_of(alloc, input.path, text),
        Err(_) => Err(file_error(alloc, input.path, "it is no UTF-8")),
    }
}

// The claims that the file of this path lists.
fn read_verified<S: Store>(
    alloc: Global,
    path: &str,
    store: &mut S,
) -> Result<Verified, CommandError>
    ensures ok { IfOk result (IsIn (S.files store.old) path.now SaysClaims) }
    ensures err { IfErr result (IfOutput
        (IsUnsaidIn (S.files store.old) path.now SaysClaims)) }
    ensures kept { S.files store.new ≡ S.files store.old }
{
    match read_input(alloc, store, path) {
        Ok(input) => verified_of_file(alloc, &input),
        Err(error) => Err(error),
    }
}

/// The error of a command that can't use a file, as the invocation wants its answer.
pub(crate) fn render_error_output(
    alloc: Global,
    invocation: &Invocation<'_>,
    error: CommandError,
) -> Result<CommandOutput, AllocError>
    ensures { IfOk result (λ it. IsErrorRendered invocation.now.json invocation.now.command.now
        error (string_bytes it.error_text) (output_data it)) }
{
    match error {
        CommandError::Output(answer) => render(alloc, invocation.json, invocation.command, answer),
        CommandError::OutOfMemory => Err(AllocError),
    }
}

// What the invocation is answered by the schemes that it asks for.
fn known_answer<S: Store>(
    alloc: Global,
    invocation: &Invocation<'_>,
    look: &Look,
    store: &mut S,
) -> Result<CommandOutput, AllocError>
    ensures answered { IfOk result (λ answer. IsResponseTo look.now
        (asked_belongs invocation.now.toy) (S.files store.old) (S.files store.new) invocation.now
        (string_bytes answer.error_text) (output_data answer)) }
    ensures files { RequestLeaves (asked_belongs invocation.now.toy) (S.files store.old)
        (S.files store.new) invocation.now.request }
{
    if invocation.toy {
        respond(alloc, &KnownSchemes::new(alloc), invocation, look, store)
    } else {
        respond(alloc, &KnownKeys::new(alloc), invocation, look, store)
    }
}

/// What the invocation is answered in a look, under the verifier that it names.
pub(crate) fn answer_in<S: Store>(
    alloc: Global,
    invocation: &Invocation<'_>,
    look: &Look,
    store: &mut S,
) -> Result<CommandOutput, AllocError>
    ensures answered { IfOk result (λ answer. IsAnswerIn look.now (S.files store.old)
        (S.files store.new) invocation.now (string_bytes answer.error_text)
        (output_data answer)) }
    ensures files { AnswerLeaves (S.files store.old) (S.files store.new) invocation.now }
{
    match invocation.verified {
        None => known_answer(alloc, invocation, look, store),
        Some(path) => match read_verified(alloc, path, store) {
            Ok(verified) => respond(alloc, &verified, invocation, look, store),
            Err(error) => render_error_output(alloc, invocation, error),
        },
    }
}
