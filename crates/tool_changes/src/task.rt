//! The commands that list what is to be verified, make records, and add to logs.

ghost use Rattle.std.specs.Prelude.{◌≡◌};
ghost use Rattle.warg_envelope.specs.ReadingWords.{envelope_in};
ghost use Rattle.warg_audit.specs.Files.Answers.{Answers};
ghost use Rattle.tool_changes.specs.ClaimTexts.{IsClaimsAnswer};
ghost use Rattle.tool_changes.specs.MadeRecords.{IsMade};
ghost use Rattle.tool_changes.specs.Tasks.{IsTaskAnswer, Leaves};
ghost use Rattle.warg_audit.specs.Files.Unusable.{IsOfLines};
ghost use Rattle.warg_audit.specs.ReportWords.{ForDisplay};

use crate::append::append_answer;
use crate::claim_lines::claims_answer;
use crate::make::EntryFromWords;
use crate::making::make_answer;
use std::alloc::Global;
use tool_answers::kind::ToolLog;
use tool_words::{NewRecord, Task};
use warg_audit::files::command_error::CommandError;
use warg_audit::files::command_output::CommandOutput;
use warg_audit::files::input::{Store, read_input, read_log};
use warg_protocol::signing::Verifier;
use warg_replay::external::ExternallyVerified;

// The claims of the log in a file.
fn claims_of_file<L: ToolLog + ExternallyVerified, S: Store>(
    alloc: Global,
    limit: u64,
    log: &str,
    store: &mut S,
) -> Result<CommandOutput, CommandError>
    ensures answered { Answers (IsOfLines (S.files store.old) log.now
        (IsClaimsAnswer limit L.kind (envelope_in L.Record.reading))) result }
    ensures kept { S.files store.new ≡ S.files store.old }
{
    match read_input(alloc, store, log) {
        Ok(input) => claims_answer::<L>(alloc, limit, input),
        Err(error) => Err(error),
    }
}

// The record that comes next in the log in a file.
fn made_for_file<L: ToolLog + EntryFromWords, V: Verifier, S: Store>(
    alloc: Global,
    verifier: &V,
    log: &str,
    draft: &NewRecord<'_>,
    store: &mut S,
) -> Result<CommandOutput, CommandError>
    ensures answered { ForDisplay L.log L.Record.reading L.report (λ shown.
        Answers (IsMade L.says L.lacks L.content L.prefix shown draft.now
        (V.belongs verifier.now) (S.files store.old) log.now) result) }
    ensures kept { S.files store.new ≡ S.files store.old }
{
    match read_log(alloc, store, log) {
        Ok(input) => make_answer::<L, V>(alloc, verifier, input, draft),
        Err(error) => Err(error),
    }
}

/// What is answered when the task is done.
pub fn task_answer<L: ToolLog + ExternallyVerified + EntryFromWords, V: Verifier, S: Store>(
    alloc: Global,
    verifier: &V,
    task: &Task<'_>,
    store: &mut S,
) -> Result<CommandOutput, CommandError>
    ensures answered { ForDisplay L.log L.Record.reading L.report (λ shown.
        Answers (IsTaskAnswer L.says L.lacks L.content L.prefix shown
        (V.belongs verifier.now) (S.files store.old) (S.files store.new) task.now) result) }
    ensures files { ForDisplay L.log L.Record.reading L.report (λ shown.
        Leaves shown (V.belongs verifier.now) (S.files store.old) (S.files store.new) task.now) }
{
    match task {
        Task::Claims { log, limit } => claims_of_file::<L, S>(alloc, *limit, log, store),
        Task::Make { log, draft } => {
            made_for_file::<L, V, S>(alloc, verifier, log, draft, store)
        }
        Task::Append { log, lines, limit } => {
            append_answer::<L, V, S>(alloc, verifier, log, lines, *limit, store)
        }
    }
}
