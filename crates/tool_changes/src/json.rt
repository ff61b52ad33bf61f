//! Answers as lines of JSON, an object a line.

ghost use Rattle.std.specs.Prelude.{◌≡◌, IfOk, string_bytes};
ghost use Rattle.std.specs.Str.Lines.{lines};
ghost use Rattle.warg_audit.specs.Files.Answers.{output_data};
ghost use Rattle.tool_layout.specs.Members.Objects.{line_object, message_object, path_object};
ghost use Rattle.tool_changes.specs.JsonLines.{IsInJson, IsJsonText, line_objects};
ghost use Rattle.tool_changes.specs.LineForms.{line_forms};

use crate::line_forms::line_forms;
use crate::many_audits::first_line;
use std::alloc::{AllocError, Global};
use tool_layout::members::{line_object, message_object, path_object};
use warg_audit::files::command_output::CommandOutput;

// The object of a line that a command prints.
fn object_of_line(
    alloc: Global,
    command: &str,
    status: u8,
    line: &str,
) -> Result<String, AllocError>
    ensures { IfOk result (λ object. string_bytes object ≡
        line_object (line_forms command.now) command.now status line.now) }
{
    line_object(alloc, line_forms(command), command, status, line)
}

/// The object of a line on the file of a path.
pub(crate) fn object_of_path(
    alloc: Global,
    command: &str,
    path: &str,
    status: u8,
    line: &str,
) -> Result<String, AllocError>
    ensures { IfOk result (λ object. string_bytes object ≡
        path_object (line_forms command.now) command.now path.now status line.now) }
{
    path_object(alloc, line_forms(command), command, path, status, line)
}

// The object of each line of an answer's text.
fn line_objects(alloc: Global, command: &str, status: u8, text: &str) -> Result<String, AllocError>
    ensures { IfOk result (λ objects. string_bytes objects ≡
        line_objects command.now status (lines text.now)) }
{
    let mut objects = String::new(alloc);
    for line in text.lines() {
        let object = object_of_line(alloc, command, status, line)?;
        objects.push_str(object.as_str())?;
    }
    Ok(objects)
}

// The objects of an answer.
fn json_text(alloc: Global, command: &str, answer: &CommandOutput) -> Result<String, AllocError>
    ensures { IfOk result (λ text. IsJsonText command.now
        (output_data answer.now) (string_bytes answer.now.error_text) (string_bytes text)) }
{
    let text = answer.text.as_str();
    if text.is_empty() {
        let sentence = first_line(answer.error_text.as_str());
        message_object(alloc, command, answer.status, sentence)
    } else {
        line_objects(alloc, command, answer.status, text)
    }
}

/// The answer in JSON: an object for each of its lines; where it has none, one whose message is the first line that it
/// tells on standard error.
pub fn json_answer(
    alloc: Global,
    command: &str,
    answer: CommandOutput,
) -> Result<CommandOutput, AllocError>
    ensures given { IfOk result (λ json. IsInJson command.now (output_data answer)
        (string_bytes answer.error_text) (output_data json)) }
    ensures told { IfOk result (λ json. json.error_text ≡ answer.error_text) }
{
    Ok(CommandOutput {
        text: json_text(alloc, command, &answer)?,
        error_text: answer.error_text,
        status: answer.status,
    })
}
