//! `head` and `resumed-head`: the last record of a log, and how many records there are.

ghost use Rattle.std.specs.Prelude.{◌≡◌, IfOk, Option, Some, string_bytes};
ghost use Rattle.std.specs.Fmt.{decimal};
ghost use Rattle.warg_log.specs.declared.head.Head.{Head as OfHead};
ghost use Rattle.warg_protocol.specs.Records.{hash_text};
ghost use Rattle.warg_audit.specs.Files.Answers.{output_data, Answers};
ghost use Rattle.warg_audit.specs.Files.RecordLines.{record_lines};
ghost use Rattle.warg_audit.specs.ReportWords.{ForDisplay};
ghost use Rattle.tool_answers.specs.Verdicts.{IsPrintedOf};
ghost use Rattle.tool_questions.specs.HeadTexts.{count_text, head_line, IsHeadLine, IsHeadText, IsResumedHead, IsTotal};
ghost use Rattle.tool_questions.specs.Resumption.{IsResumed};

use crate::resume::resumed;
use std::alloc::{AllocError, Global};
use tool_answers::kind::ToolLog;
use tool_answers::loading::load_state;
use tool_answers::wording::time_words;
use warg_audit::files::command_error::CommandError;
use warg_audit::files::command_output::CommandOutput;
use warg_audit::files::input::Input;
use warg_printable::printed_line;
use warg_protocol::package::Head;
use warg_protocol::signing::Verifier;
use warg_protocol::{operator, package};

/// A state of a log that tells its last record.
pub trait HeadedLog: ToolLog {
    // The last record of the log of a state.
    ghost last: { Self → Option OfHead };

    /// The last record, if there is one.
    fn last(&self) -> &Option<Head>
        ensures { result.now ≡ last self.now };
}

impl HeadedLog for package::LogState {
    ghost use Rattle.warg_protocol.specs.Package.{view_of};

    ghost last = { λ state. (view_of state).head };

    fn last(&self) -> &Option<Head> {
        self.head()
    }
}

impl HeadedLog for operator::LogState {
    ghost use Rattle.warg_protocol.specs.Operator.{view_of};

    ghost last = { λ state. (view_of state).head };

    fn last(&self) -> &Option<Head> {
        self.head()
    }
}

// How many records there are, in words.
fn count_text(alloc: Global, count: Option<u64>) -> Result<String, AllocError>
    ensures { IfOk result (λ text. string_bytes text ≡ count_text count) }
{
    match count {
        Some(count) => format!(in alloc; "{count}"),
        None => String::from_str(alloc, "unknown"),
    }
}

// The line of a last record, by the words of its time and of how many there are.
fn head_line(alloc: Global, head: &Head, time: &str, count: &str) -> Result<String, AllocError>
    ensures { IfOk result (λ line. string_bytes line ≡ head_line (hash_text head.now.digest.hash)
        time.now (decimal head.now.version) count.now) }
{
    let id = head.digest;
    let version = head.version;
    let said = format!(in alloc; "{id} {time} {version} {count}")?;
    printed_line(alloc, said.as_str())
}

// The answer of a last record.
fn headed_answer(
    alloc: Global,
    head: &Head,
    count: Option<u64>,
) -> Result<CommandOutput, AllocError>
    ensures { IfOk result (λ answer. IsHeadLine (Some head.now) count (output_data answer)) }
{
    let time = time_words(alloc, head.timestamp)?;
    let count = count_text(alloc, count)?;
    let line = head_line(alloc, head, time.as_str(), count.as_str())?;
    Ok(CommandOutput::new(alloc, line, 0))
}

// The answer of a last record, if there is one.
fn last_answer(
    alloc: Global,
    last: &Option<Head>,
    count: Option<u64>,
) -> Result<CommandOutput, AllocError>
    ensures { IfOk result (λ answer. IsHeadLine last.now count (output_data answer)) }
{
    match last {
        Some(head) => headed_answer(alloc, head, count),
        None => CommandOutput::fixed(alloc, "none\n", 1),
    }
}

/// The last record of the log in a file, and how many records it has.
pub fn head_answer<L: HeadedLog, V: Verifier>(
    alloc: Global,
    verifier: &V,
    input: Input<'_>,
) -> Result<CommandOutput, CommandError>
    ensures { ForDisplay L.log L.Record.reading L.report (λ log. Answers
        (IsPrintedOf log (V.belongs verifier.now) (IsHeadText log L.view L.last)
        (record_lines input.entry.bytes.items)) result) }
{
    match load_state::<L, V>(alloc, verifier, input) {
        Ok((state, count)) => Ok(last_answer(alloc, state.last(), Some(count as u64))?),
        Err(error) => Err(error),
    }
}

// How many records there are with so many more, where that is known.
fn total(count: Option<u64>, more: usize) -> Option<u64>
    ensures { IsTotal count more result }
{
    match count {
        Some(count) => count.checked_add(more as u64),
        None => None,
    }
}

/// The last record of the log that a saved state and the records in a file lead to, and how many records it has.
pub fn resumed_head_answer<L: HeadedLog, V: Verifier>(
    alloc: Global,
    verifier: &V,
    count: Option<u64>,
    saved: Input<'_>,
    input: Input<'_>,
) -> Result<CommandOutput, CommandError>
    ensures { ForDisplay L.log L.Record.reading L.report (λ log. Answers
        (IsResumed log (V.belongs verifier.now) L.view (IsResumedHead L.last count)
        L.state_of saved.entry.bytes.items (record_lines input.entry.bytes.items)) result) }
{
    match resumed::<L, V>(alloc, verifier, saved, input) {
        Ok((state, more)) => Ok(last_answer(alloc, state.last(), total(count, more))?),
        Err(error) => Err(error),
    }
}
