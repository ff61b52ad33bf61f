//! Answers laid out for people: names and short ids in what `show` and `chain` print, and colours on a terminal.

ghost use Rattle.std.specs.Prelude.{◌≡◌, IfOk, string_bytes};
ghost use Rattle.warg_audit.specs.Files.Answers.{output_data};
ghost use Rattle.weoldrin.specs.Looks.{coloured, laid_out, layout_of, layout_of_question};

use std::alloc::{AllocError, Global};
use tool_layout::{Look, chain_layout, log_layout, painted};
use tool_words::{LogQuery, Request};
use warg_audit::files::command_output::CommandOutput;

// The text that a question is answered, laid out.
fn question_layout(
    alloc: Global,
    look: &Look,
    question: &LogQuery<'_>,
    text: String,
) -> Result<String, AllocError>
    ensures { IfOk result (λ laid. string_bytes laid ≡
        layout_of_question question.now look.now (string_bytes text)) }
{
    match question {
        LogQuery::Chain { .. } => chain_layout(alloc, look, text.as_str()),
        LogQuery::State { .. }
        | LogQuery::Resume { .. }
        | LogQuery::Head { .. }
        | LogQuery::ResumedHead { .. }
        | LogQuery::Permissions { .. }
        | LogQuery::Compare { .. } => Ok(text),
    }
}

// The text that a request is answered, laid out.
fn layout(
    alloc: Global,
    look: &Look,
    request: &Request<'_>,
    text: String,
) -> Result<String, AllocError>
    ensures { IfOk result (λ laid. string_bytes laid ≡
        layout_of request.now look.now (string_bytes text)) }
{
    match request {
        Request::Show { .. } => log_layout(alloc, look, text.as_str()),
        Request::Ask { question, .. } => question_layout(alloc, look, question, text),
        Request::Id { .. }
        | Request::Audit { .. }
        | Request::Audits { .. }
        | Request::Latest { .. }
        | Request::LogId { .. }
        | Request::Leaf { .. }
        | Request::Prove { .. }
        | Request::Verify { .. }
        | Request::Compare { .. }
        | Request::Checkpoint { .. }
        | Request::Do { .. } => Ok(text),
    }
}

/// What a request is answered, laid out for people.
pub(crate) fn laid_out(
    alloc: Global,
    look: &Look,
    request: &Request<'_>,
    answer: CommandOutput,
) -> Result<CommandOutput, AllocError>
    ensures laid { IfOk result (λ it. output_data it ≡
        laid_out (layout_of request.now look.now) (output_data answer)) }
    ensures told { IfOk result (λ it. it.error_text ≡ answer.error_text) }
{
    Ok(CommandOutput {
        text: layout(alloc, look, request, answer.text)?,
        error_text: answer.error_text,
        status: answer.status,
    })
}

/// The answer as it is printed: in colour on a terminal, unless its user has asked for none.
pub fn coloured(
    alloc: Global,
    is_on_terminal: bool,
    is_plain: bool,
    answer: CommandOutput,
) -> Result<CommandOutput, AllocError>
    ensures shown { IfOk result (λ it. output_data it ≡
        coloured is_on_terminal is_plain (output_data answer)) }
    ensures told { IfOk result (λ it. it.error_text ≡ answer.error_text) }
{
    if is_on_terminal && !is_plain {
        Ok(CommandOutput {
            text: painted(alloc, answer.text.as_str())?,
            error_text: answer.error_text,
            status: answer.status,
        })
    } else {
        Ok(answer)
    }
}
