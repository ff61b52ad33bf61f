//! `compare`: how a log compares with an older copy of it.

ghost use Rattle.std.specs.Prelude.{◌≡◌, ◌<◌, ◌++◌, All, List, ℕ, codes, length, string_bytes, IfOk};
ghost use Rattle.std.specs.Fmt.{decimal};
ghost use Rattle.std.specs.Option.{option_copied};
ghost use Rattle.warg_protocol.specs.Logs.{ContentsMatchBytes, contents, envelopes};
ghost use Rattle.warg_audit.specs.Files.Answers.{output_data, Answers};
ghost use Rattle.tool_questions.specs.Questions.{IsCompared, IsComparedWith, IsComparisonOf};
ghost use Rattle.warg_audit.specs.Files.RecordLines.{record_lines};
ghost use Rattle.tool_answers.specs.Texts.{IsComparisonPrinted, IsForkText, PartsWithin};
ghost use Rattle.warg_audit.specs.LogAnswers.{head_text};
ghost use Rattle.warg_audit.specs.ReportWords.{ForDisplay};
ghost use Rattle.tool_answers.specs.Verdicts.{envelopes_of};

use std::alloc::{AllocError, Global};
use tool_answers::kind::ToolLog;
use tool_answers::loading::Lent;
use tool_answers::parting::{collision_text, fork_text, record_of_side};
use tool_answers::side::side;
use warg_audit::files::command_error::CommandError;
use warg_audit::files::command_output::CommandOutput;
use warg_audit::files::input::Input;
use warg_protocol::registry::RecordId;
use warg_protocol::signing::Verifier;
use warg_protocol::{AuditedRecords, Comparison, ProtoEnvelope};

// That a log is the same as its older copy, on a line: how many records it has, and its head.
fn same_text(alloc: Global, count: usize, head: Option<&RecordId>) -> Result<String, AllocError>
    ensures { IfOk result (λ text. string_bytes text ≡ codes "same " ++ (decimal count ++
        (codes " " ++ (head_text (option_copied head.entry) ++ codes "\n")))) }
{
    match head {
        Some(id) => format!(in alloc; "same {count} {id}\n"),
        None => format!(in alloc; "same {count} none\n"),
    }
}

// Where two logs fork: the line that says so, and those of both records there.
fn forked_text<L: ToolLog>(
    alloc: Global,
    place: usize,
    old: &[ProtoEnvelope<L::Record>],
    new: &[ProtoEnvelope<L::Record>],
) -> Result<String, AllocError>
    requires old_within { place < length (contents (envelopes old.now)) }
    requires new_within { place < length (contents (envelopes new.now)) }
    requires old_honest { All (ContentsMatchBytes L.Record.read L.Record.meaning) old.now }
    requires new_honest { All (ContentsMatchBytes L.Record.read L.Record.meaning) new.now }
    ensures { IfOk result (λ text. IsForkText L.says_words L.kind.id (envelopes old.now)
        (envelopes new.now) place (string_bytes text)) }
{
    let mut text = fork_text::<L>(alloc, place, old, new)?;
    let of_old = record_of_side::<L>(alloc, "old", old, place)?;
    let of_new = record_of_side::<L>(alloc, "new", new, place)?;
    text.push_str(of_old.as_str())?;
    text.push_str(of_new.as_str())?;
    Ok(text)
}

// The answer to a comparison of a log with an older copy, which has this head, by their records.
fn comparison_answer<L: ToolLog>(
    alloc: Global,
    comparison: Comparison,
    head: Option<&RecordId>,
    old: &[ProtoEnvelope<L::Record>],
    new: &[ProtoEnvelope<L::Record>],
) -> Result<CommandOutput, AllocError>
    requires within { PartsWithin (contents (envelopes old.now))
        (contents (envelopes new.now)) comparison }
    requires old_honest { All (ContentsMatchBytes L.Record.read L.Record.meaning) old.now }
    requires new_honest { All (ContentsMatchBytes L.Record.read L.Record.meaning) new.now }
    ensures { IfOk result (λ answer. IsComparisonPrinted L.says_words L.kind.id
        (option_copied head.entry) (envelopes old.now) (envelopes new.now) comparison
        (output_data answer)) }
{
    let (before, after) = (old.len(), new.len());
    match comparison {
        Comparison::Same => {
            let text = same_text(alloc, before, head)?;
            Ok(CommandOutput::new(alloc, text, 0))
        }
        Comparison::LeftIsPrefix { .. } => {
            let text = format!(in alloc; "goes on {before} {after}\n")?;
            Ok(CommandOutput::new(alloc, text, 0))
        }
        Comparison::RightIsPrefix { .. } => {
            let text = format!(in alloc; "rolled back {before} {after}\n")?;
            Ok(CommandOutput::new(alloc, text, 1))
        }
        Comparison::Fork { at } => {
            let text = forked_text::<L>(alloc, at, old, new)?;
            Ok(CommandOutput::new(alloc, text, 1))
        }
        Comparison::Collision { left, right } => {
            let text = collision_text::<L>(alloc, left, right, old)?;
            Ok(CommandOutput::new(alloc, text, 1))
        }
    }
}

// The answer to the records of two copies of a log, the older ones first.
fn compared<L: ToolLog>(
    alloc: Global,
    old: &AuditedRecords<L>,
    new: &AuditedRecords<L>,
) -> Result<CommandOutput, CommandError>
    ensures { Answers (IsComparisonOf L.says_words L.kind (envelopes old.now)
        (envelopes new.now)) result }
{
    let comparison = old.compare(new);
    let (here, there) = (old.records(), new.records());
    Ok(comparison_answer::<L>(alloc, comparison, old.head(), here, there)?)
}

// The answer by the newer copy, where the older one is a lawful log, of which only the records are kept.
fn compared_with<L: ToolLog, V: Verifier + Drop>(
    alloc: Global,
    old: &AuditedRecords<L>,
    verifier: V,
    new: Input<'_>,
) -> Result<CommandOutput, CommandError>
    ensures { ForDisplay L.log L.Record.reading L.report (λ log. (here : List (List ℕ)) →
        envelopes old.now ≡ envelopes_of log here → Answers (IsComparedWith log L.says_words
        (V.belongs verifier) here (record_lines new.entry.bytes.items)) result) }
{
    match side::<L, V>(alloc, verifier, "new", new) {
        Ok(new) => {
            let records = new.into_records();
            compared(alloc, old, &records)
        }
        Err(error) => Err(error),
    }
}

/// How the log in a file compares with an older copy in another.
pub fn compare_answer<L: ToolLog, V: Verifier>(
    alloc: Global,
    verifier: &V,
    old: Input<'_>,
    new: Input<'_>,
) -> Result<CommandOutput, CommandError>
    ensures { ForDisplay L.log L.Record.reading L.report (λ log.
        Answers (IsCompared log L.says_words (V.belongs verifier.now)
        (record_lines old.entry.bytes.items) (record_lines new.entry.bytes.items)) result) }
{
    match side::<L, Lent<'_, V>>(alloc, Lent(verifier), "old", old) {
        Ok(old) => {
            let records = old.into_records();
            compared_with(alloc, &records, Lent(verifier), new)
        }
        Err(error) => Err(error),
    }
}
