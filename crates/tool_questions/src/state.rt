//! `state`: the state that a log adds up to, as JSON.

ghost use Rattle.warg_audit.specs.Files.Answers.{Answers};
ghost use Rattle.tool_questions.specs.Questions.{IsStateText};
ghost use Rattle.warg_audit.specs.Files.RecordLines.{record_lines};
ghost use Rattle.tool_answers.specs.Texts.{json_text, saved_text};
ghost use Rattle.warg_audit.specs.ReportWords.{ForDisplay};
ghost use Rattle.tool_answers.specs.Verdicts.{IsPrintedOf};
ghost use Rattle.std.specs.Prelude.{◌≡◌};

use std::alloc::Global;
use tool_answers::kind::ToolLog;
use tool_answers::limit::within;
use tool_answers::loading::load_state;
use warg_audit::files::command_error::CommandError;
use warg_audit::files::command_output::CommandOutput;
use warg_audit::files::input::Input;
use warg_printable::json_printed;
use warg_protocol::JsonError;
use warg_protocol::signing::Verifier;

/// The state's JSON on one line, with no hidden character in it. There is none where a time lies before the epoch.
pub(crate) fn json_answer<L: ToolLog>(
    alloc: Global,
    limit: u64,
    state: &L,
) -> Result<CommandOutput, CommandError>
    ensures { Answers (λ printed. printed ≡ json_text limit (L.json_of state.now)) result }
{
    match state.json_text(alloc) {
        Ok(text) => {
            let mut printed = json_printed(alloc, text.as_str())?;
            printed.push('\n')?;
            Ok(within(alloc, limit, CommandOutput::new(alloc, printed, 0))?)
        }
        Err(JsonError::OutOfMemory) => Err(CommandError::OutOfMemory),
        Err(_) => Ok(CommandOutput::fixed(alloc, "no json TimeBeforeEpoch\n", 1)?),
    }
}

/// The state of the log in a file.
pub fn state_answer<L: ToolLog, V: Verifier>(
    alloc: Global,
    verifier: &V,
    limit: u64,
    input: Input<'_>,
) -> Result<CommandOutput, CommandError>
    ensures { ForDisplay L.log L.Record.reading L.report (λ log.
        Answers (IsPrintedOf log (V.belongs verifier.now)
        (IsStateText log L.view (saved_text limit L.json_of))
        (record_lines input.entry.bytes.items)) result) }
{
    match load_state::<L, V>(alloc, verifier, input) {
        Ok((state, _)) => json_answer(alloc, limit, &state),
        Err(error) => Err(error),
    }
}
