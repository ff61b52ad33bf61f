//! `log-id`: the id of a log by its name.

ghost use Rattle.std.specs.Prelude.{◌≡◌, ℕ, List, IfOk, IfErr};
ghost use Rattle.warg_crypto.specs.HashText.{hash_text, sha256_hash_of};
ghost use Rattle.warg_registry.specs.KebabNames.{IsPackageText};
ghost use Rattle.warg_registry.specs.LogIds.{operator_log_message, package_log_message};
ghost use Rattle.warg_audit.specs.Files.Answers.{output_data, Answers, IfOutput, IsUnusable};
ghost use Rattle.warg_audit.specs.Files.Texts.{line, yes};
ghost use Rattle.tool_checkpoints.specs.LogIdTexts.{Hashes, IsLogIdAnswer};
ghost use Rattle.tool_checkpoints.specs.Words.{IsUnsaid};

use crate::read_words::word_error;
use std::alloc::{AllocError, Global};
use tool_words::NamedLog;
use warg_audit::files::command_error::CommandError;
use warg_audit::files::command_output::CommandOutput;
use warg_crypto::hash::Sha256;
use warg_registry::{LogId, PackageName, PackageNameError};

// The id of the log of the package that a word names.
fn package_log_id(alloc: Global, word: &str) -> Result<LogId, CommandError>
    ensures ok { IfOk result (λ id. IsPackageText word.now ×
        (hash_text id.hash ≡ hash_text (sha256_hash_of (package_log_message word.now)))) }
    ensures err { IfErr result (IfOutput (λ printed. (IsPackageText word.now → ⊥) ×
        IsUnusable printed)) }
{
    match PackageName::parse(alloc, word) {
        Ok(name) => Ok(LogId::package_log::<Sha256>(&name)),
        Err(PackageNameError::InvalidPackageName { .. }) => {
            Err(word_error(alloc, word, "name of a package"))
        }
        Err(PackageNameError::OutOfMemory) => Err(CommandError::OutOfMemory),
    }
}

// The id of the operators' log.
fn operator_log_id() -> LogId
    ensures { hash_text result.hash ≡ hash_text (sha256_hash_of operator_log_message) }
{
    LogId::operator_log::<Sha256>()
}

// The id of a log.
fn id_of(alloc: Global, log: &NamedLog<'_>) -> Result<LogId, CommandError>
    ensures ok { IfOk result (λ id. (message : List ℕ) × Hashes log.now message ×
        (hash_text id.hash ≡ hash_text (sha256_hash_of message))) }
    ensures err { IfErr result (IfOutput (IsUnsaid (Hashes log.now))) }
{
    match log {
        NamedLog::Package { name } => package_log_id(alloc, name),
        NamedLog::Operator => Ok(operator_log_id()),
    }
}

// An id on a line.
fn id_answer(alloc: Global, id: &LogId) -> Result<CommandOutput, AllocError>
    ensures { IfOk result (λ answer. output_data answer ≡ yes (line (hash_text id.now.hash))) }
{
    Ok(CommandOutput::new(alloc, format!(in alloc; "{id}\n")?, 0))
}

/// The id of a log.
pub fn log_id_answer(alloc: Global, log: &NamedLog<'_>) -> Result<CommandOutput, CommandError>
    ensures { Answers (IsLogIdAnswer log.now) result }
{
    match id_of(alloc, log) {
        Ok(id) => Ok(id_answer(alloc, &id)?),
        Err(error) => Err(error),
    }
}
