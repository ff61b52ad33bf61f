//! The sides of a comparison.

ghost use Rattle.std.specs.Prelude.{◌≡◌, IfOk, IfErr};
ghost use Rattle.warg_protocol.specs.Logs.{envelopes};
ghost use Rattle.warg_audit.specs.Printouts.{OutputData};
ghost use Rattle.warg_audit.specs.Files.Answers.{output_data, IfOutput, IsSideError};
ghost use Rattle.warg_audit.specs.Files.RecordLines.{record_lines};
ghost use Rattle.warg_audit.specs.Files.Texts.{side_text};
ghost use Rattle.warg_audit.specs.ReportWords.{ForDisplay};
ghost use Rattle.tool_answers.specs.Verdicts.{AreEnvelopesOf, IsNegative};

use crate::kind::ToolLog;
use crate::loading::load_log;
use std::alloc::{AllocError, Global};
use warg_audit::files::command_error::CommandError;
use warg_audit::files::command_output::CommandOutput;
use warg_audit::files::input::Input;
use warg_protocol::AuditedLog;
use warg_protocol::signing::Verifier;

// The answer to a side that is no lawful log, with its name in front.
fn side_answer(
    alloc: Global,
    name: &str,
    answer: CommandOutput,
) -> Result<CommandOutput, AllocError>
    ensures { IfOk result (λ named. output_data named ≡ side_text name.now (output_data answer)) }
{
    Ok(CommandOutput {
        text: format!(in alloc; "{name}: {}", answer.text.as_str())?,
        error_text: answer.error_text,
        status: answer.status,
    })
}

// The error of a command for want of a side.
fn side_error(alloc: Global, name: &str, error: CommandError) -> CommandError
    ensures { IsSideError name.now error result }
{
    match error {
        CommandError::Output(answer) => match side_answer(alloc, name, answer) {
            Ok(answer) => CommandError::Output(answer),
            Err(_) => CommandError::OutOfMemory,
        },
        CommandError::OutOfMemory => CommandError::OutOfMemory,
    }
}

/// The log of a side; what is answered where it is no lawful one has the side's name in front.
pub fn side<L: ToolLog, V: Verifier + Drop>(
    alloc: Global,
    verifier: V,
    name: &str,
    input: Input<'_>,
) -> Result<AuditedLog<L, V>, CommandError>
    ensures lawful { ForDisplay L.log L.Record.reading L.report (λ log.
        IfOk result (λ kept. AreEnvelopesOf log
        (V.belongs verifier) (record_lines input.entry.bytes.items) (envelopes kept.records))) }
    ensures err { ForDisplay L.log L.Record.reading L.report (λ log.
        IfErr result (IfOutput (λ printed. (it : OutputData) × (IsNegative log (V.belongs verifier)
        (record_lines input.entry.bytes.items) it × (printed ≡ side_text name.now it))))) }
{
    match load_log::<L, V>(alloc, verifier, input) {
        Ok(log) => Ok(log),
        Err(error) => Err(side_error(alloc, name, error)),
    }
}
