//! Why a command ends before its own answer.

ghost use Rattle.warg_audit.specs.Files.Answers.{IfOutput, IsSettled, IsUnusable};

use crate::files::command_output::{CommandOutput, UNUSABLE};
use std::alloc::{AllocError, AllocFailed, Global};

/// Why a command ends before its own answer.
#[derive(Debug, Drop)]
pub enum CommandError {
    /// This is answered instead: a file can't be read, a log is refused, or a word is none.
    Output(CommandOutput),
    /// Memory was refused.
    OutOfMemory,
}

impl From<AllocError> for CommandError {
    ghost use Rattle.std.specs.Prelude.{◌≡◌};
    ghost use Rattle.warg_audit.specs.declared.files.command_error.CommandError.TheVariants.{OutOfMemory};

    ghost from_gives = { λ _ error. error ≡ OutOfMemory };

    fn from(_error: AllocError) -> CommandError {
        CommandError::OutOfMemory
    }
}

impl<T: Drop> From<AllocFailed<T>> for CommandError {
    ghost use Rattle.std.specs.Prelude.{◌≡◌};
    ghost use Rattle.warg_audit.specs.declared.files.command_error.CommandError.TheVariants.{OutOfMemory};

    ghost from_gives = { λ _ error. error ≡ OutOfMemory };

    fn from(_error: AllocFailed<T>) -> CommandError {
        CommandError::OutOfMemory
    }
}

/// The error of a command that can't use its words or files, for what the sentence says.
pub fn unusable(alloc: Global, sentence: Result<String, AllocError>) -> CommandError
    ensures { IfOutput IsUnusable result }
{
    match sentence {
        Ok(sentence) => CommandError::Output(CommandOutput::fault(alloc, sentence, UNUSABLE)),
        Err(_) => CommandError::OutOfMemory,
    }
}

/// The answer of a command, as its result or as its error.
pub fn into_output(
    outcome: Result<CommandOutput, CommandError>,
) -> Result<CommandOutput, AllocError>
    ensures { IsSettled outcome result }
{
    match outcome {
        Ok(answer) | Err(CommandError::Output(answer)) => Ok(answer),
        Err(CommandError::OutOfMemory) => Err(AllocError),
    }
}
