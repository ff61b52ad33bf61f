//! The words of the program, with what those are answered that ask for nothing.

ghost use Rattle.std.specs.Prelude.{IfOk, string_bytes};
ghost use Rattle.warg_audit.specs.Files.Answers.{output_data, IsUnusable};
ghost use Rattle.tool_words.specs.Invocations.{asks_for_json, named_command};
ghost use Rattle.tool_words.specs.Requests.{texts};
ghost use Rattle.weoldrin.specs.AtOnce.{IsParsed};
ghost use Rattle.weoldrin.specs.Looks.{as_it_is};
ghost use Rattle.weoldrin.specs.Requests.{IsRenderedAs};

use crate::commands::render;
use std::alloc::{AllocError, Global};
use tool_words::{Invocation, Said, asks_for_json, named_command};
use warg_audit::files::command_output::{CommandOutput, UNUSABLE};

/// What the words say: a request, or what is answered at once, as help.
#[derive(Debug, Drop)]
pub enum Parsed<'a> {
    /// Something is asked.
    Invocation(Invocation<'a>),
    /// The words are answered by themselves.
    Output(CommandOutput),
}

// What is answered to wrong words: what is wrong with them, in JSON too if they ask for it.
fn wrong_answer(alloc: Global, words: &[&str], fault: String) -> Result<CommandOutput, AllocError>
    ensures { IfOk result (λ answer. IsRenderedAs (asks_for_json (texts words.now))
        (named_command (texts words.now)) as_it_is IsUnusable
        (string_bytes answer.error_text) (output_data answer)) }
{
    let answer = CommandOutput::fault(alloc, fault, UNUSABLE);
    render(alloc, asks_for_json(words), named_command(words), answer)
}

/// What the words ask for. The first is the program's name.
pub fn parse_words<'a>(alloc: Global, words: &'a [&'a str]) -> Result<Parsed<'a>, AllocError>
    ensures { IfOk result (IsParsed (texts words.now)) }
{
    match tool_words::parse_words(alloc, words)? {
        Said::Invocation(invocation) => Ok(Parsed::Invocation(invocation)),
        Said::Help(text) => Ok(Parsed::Output(CommandOutput::new(alloc, text, 0))),
        Said::Fault(text) => Ok(Parsed::Output(wrong_answer(alloc, words, text)?)),
    }
}
