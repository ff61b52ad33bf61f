//! `show`: a log in words.

ghost use Rattle.std.specs.Prelude.{◌≡◌, List, ℕ, IfOk, OnOk, map, string_bytes};
ghost use Rattle.std.specs.Option.{option_copied};
ghost use Rattle.std.specs.Vec.{vec_items};
ghost use Rattle.warg_protocol.specs.Logs.{envelopes};
ghost use Rattle.warg_audit.specs.Files.Answers.{output_data, Answers};
ghost use Rattle.warg_audit.specs.Files.RecordLines.{record_lines};
ghost use Rattle.tool_answers.specs.ShownWords.{IsGrownBy};
ghost use Rattle.tool_questions.specs.Show.ShownLogs.{AreEnvelopeLines, IsLogText, IsPlacedLine, cause_words};
ghost use Rattle.tool_questions.specs.Show.ShownLogs.{entry_line, head_line, place_and_id};
ghost use Rattle.tool_questions.specs.Show.ShowWords.{AreShownLines, IsCut, IsCutPrinted, IsReason, IsShownLog};
ghost use Rattle.warg_audit.specs.Files.Texts.{yes};
ghost use Rattle.warg_audit.specs.Files.Unusable.{IsOfLines};
ghost use Rattle.warg_audit.specs.ReportWords.{ForDisplay, ForRunError};

use crate::show::advice::advice;
use crate::show::reason::reason_of;
use std::alloc::{AllocError, Global};
use tool_answers::kind::ToolLog;
use tool_answers::loading::{Lent, file_inputs};
use warg_audit::files::command_error::CommandError;
use warg_audit::files::command_output::CommandOutput;
use warg_audit::files::input::{Input, Store, read_input};
use warg_audit::{cause_name, refused_reply};
use warg_printable::{printed_line, push_printed_line};
use warg_protocol::registry::RecordId;
use warg_protocol::signing::Verifier;
use warg_protocol::{AuditedLog, ProtoEnvelope, RunError};

// The line of the entry that an offence is of, if it is of one.
fn entry_line(alloc: Global, entry: Option<usize>) -> Result<String, AllocError>
    ensures { IfOk result (λ line. string_bytes line ≡ entry_line entry) }
{
    match entry {
        Some(entry) => {
            let said = format!(in alloc; "entry: {entry}")?;
            printed_line(alloc, said.as_str())
        }
        None => Ok(String::new(alloc)),
    }
}

// Why a record is refused, by its parts.
fn cause_words(
    alloc: Global,
    why: &str,
    entry: Option<usize>,
    advice: &str,
) -> Result<String, AllocError>
    ensures { IfOk result (λ text. string_bytes text ≡ cause_words why.now entry advice.now) }
{
    let why = format!(in alloc; "why: {why}")?;
    let advice = format!(in alloc; "try: {advice}")?;
    let mut text = printed_line(alloc, why.as_str())?;
    text.push_str(entry_line(alloc, entry)?.as_str())?;
    text.push_str(printed_line(alloc, advice.as_str())?.as_str())?;
    Ok(text)
}

// Why the next record is refused: the audit's line, and the cause in words. Refused memory is no cause.
fn run_error_text<L: ToolLog>(
    alloc: Global,
    state: &L,
    input: &[u8],
    error: &RunError<L::Error>,
) -> Result<String, AllocError>
    ensures { ForDisplay L.log L.Record.reading L.report (λ log.
        IfOk result (λ text. ForRunError L.log L.Record.reading error.now (λ belongs seen inputs.
        IsReason L.log L.Record.reading L.tool L.tells_entry log belongs seen inputs
        (L.view state.now) input.now error.now.index (string_bytes text)))) }
{
    let Some(name) = cause_name::<L>(&error.cause) else {
        return Err(AllocError);
    };
    let reply = refused_reply(alloc, error.index, name)?;
    let reason = reason_of(alloc, state, input, &error.cause)?;
    let words = cause_words(alloc, reason.sentence.as_str(), reason.entry, advice(name))?;
    let mut all = String::from_str(alloc, reply.text())?;
    all.push_str(words.as_str())?;
    Ok(all)
}

// The place of a record and its id, with a space behind each.
fn place_and_id(alloc: Global, place: usize, id: &RecordId) -> Result<String, AllocError>
    ensures { IfOk result (λ text. string_bytes text ≡ place_and_id place id.now) }
{
    format!(in alloc; "{place} {id} ")
}

// Appends the line of a record: its place, its id, and what is said of it.
fn push_record_line<L: ToolLog>(
    alloc: Global,
    place: usize,
    envelope: &ProtoEnvelope<L::Record>,
    text: &mut String,
) -> Result<(), AllocError>
    ensures { OnOk result (IsGrownBy (IsPlacedLine L.kind.id L.words_of place envelope.now)
        (string_bytes text.old) (string_bytes text.new)) }
{
    let mut line = place_and_id(alloc, place, &L::record_id(envelope))?;
    L::push_record(alloc, envelope, &mut line)?;
    push_printed_line(line.as_str(), text)
}

// A line for each record, its place first, and its id.
fn records_text<L: ToolLog>(
    alloc: Global,
    records: &[ProtoEnvelope<L::Record>],
) -> Result<String, AllocError>
    ensures { IfOk result (λ text. AreEnvelopeLines L.kind.id L.words_of records.now
        (string_bytes text)) }
{
    let mut text = String::new(alloc);
    for (place, envelope) in records.iter().enumerate() {
        push_record_line::<L>(alloc, place, envelope, &mut text)?;
    }
    Ok(text)
}

// The line of a head.
fn head_line(alloc: Global, head: Option<&RecordId>) -> Result<String, AllocError>
    ensures { IfOk result (λ line. string_bytes line ≡ head_line (option_copied head.entry)) }
{
    match head {
        Some(id) => {
            let said = format!(in alloc; "head {id}")?;
            printed_line(alloc, said.as_str())
        }
        None => printed_line(alloc, "head none"),
    }
}

// The text of a lawful log: its records, its head, and its state.
fn log_text<L: ToolLog, V: Verifier + Drop>(
    alloc: Global,
    log: &AuditedLog<L, V>,
) -> Result<String, AllocError>
    ensures { IfOk result (λ text. IsLogText L.kind.id L.says_words
        (L.kind.head (L.kind.view_of (envelopes log.now.records))) L.shows
        (envelopes log.now.records) (string_bytes text)) }
{
    let mut text = records_text::<L>(alloc, log.records())?;
    let head = head_line(alloc, log.head())?;
    text.push_str(head.as_str())?;
    log.state().push_state(alloc, &mut text)?;
    Ok(text)
}

// The records before the one that is refused, and why it is.
fn cut_text<L: ToolLog, V: Verifier + Drop>(
    alloc: Global,
    log: &AuditedLog<L, V>,
    input: &[u8],
    error: &RunError<L::Error>,
) -> Result<String, AllocError>
    ensures { ForDisplay L.log L.Record.reading L.report (λ shown.
        IfOk result (λ text. ForRunError L.log L.Record.reading error.now (λ belongs seen inputs.
        IsCut L.log L.Record.reading L.tool L.tells_entry shown belongs seen inputs
        (envelopes log.now.records) input.now error.now.index (string_bytes text)))) }
{
    let mut text = records_text::<L>(alloc, log.records())?;
    let refused = run_error_text(alloc, log.state(), input, error)?;
    text.push_str(refused.as_str())?;
    Ok(text)
}

// The answer to a lawful log.
fn lawful_answer<L: ToolLog, V: Verifier + Drop>(
    alloc: Global,
    log: &AuditedLog<L, V>,
) -> Result<CommandOutput, AllocError>
    ensures { IfOk result (λ answer. (text : List ℕ) × IsLogText L.kind.id L.says_words
        (L.kind.head (L.kind.view_of (envelopes log.now.records))) L.shows
        (envelopes log.now.records) text × (output_data answer ≡ yes text)) }
{
    let text = log_text(alloc, log)?;
    Ok(CommandOutput::new(alloc, text, 0))
}

// The answer to inputs of which one is refused, by the log of those before it.
fn refused_answer<L: ToolLog, V: Verifier + Drop>(
    alloc: Global,
    log: &AuditedLog<L, V>,
    input: &[u8],
    error: &RunError<L::Error>,
) -> Result<CommandOutput, AllocError>
    ensures { ForDisplay L.log L.Record.reading L.report (λ shown.
        IfOk result (λ answer. ForRunError L.log L.Record.reading error.now (λ belongs seen all.
        IsCutPrinted L.log L.Record.reading L.tool L.tells_entry shown belongs seen all
        (envelopes log.now.records) input.now error.now.index (output_data answer)))) }
{
    let text = cut_text(alloc, log, input, error)?;
    Ok(CommandOutput::new(alloc, text, 1))
}

// The answer to the inputs of a log.
fn inputs_answer<L: ToolLog, V: Verifier + Drop>(
    alloc: Global,
    verifier: V,
    inputs: &[Vec<u8>],
) -> Result<CommandOutput, AllocError>
    ensures { ForDisplay L.log L.Record.reading L.report (λ log. IfOk result (λ answer.
        IsShownLog L.log L.Record.reading L.tool L.tells_entry log
        (V.belongs verifier) (map vec_items inputs.now) (output_data answer))) }
{
    let mut log = AuditedLog::<L, V>::new(alloc, verifier)?;
    match log.append_all(inputs) {
        Ok(()) => lawful_answer(alloc, &log),
        Err(error) => match inputs.get(error.index) {
            Some(input) => refused_answer(alloc, &log, input.as_slice(), &error),
            None => Err(AllocError),
        },
    }
}

/// The log in a file, in words.
pub fn show_answer<L: ToolLog, V: Verifier>(
    alloc: Global,
    verifier: &V,
    input: Input<'_>,
) -> Result<CommandOutput, CommandError>
    ensures { ForDisplay L.log L.Record.reading L.report (λ log.
        Answers (AreShownLines L.log L.Record.reading L.tool L.tells_entry log
        (V.belongs verifier.now) (record_lines input.entry.bytes.items)) result) }
{
    match file_inputs(alloc, input.path, input.bytes) {
        Ok(inputs) => Ok(inputs_answer::<L, Lent<'_, V>>(
            alloc,
            Lent(verifier),
            inputs.as_slice(),
        )?),
        Err(error) => Err(error),
    }
}

/// The log in a file in words; of a refused one, the records before the first that is refused, and why that is.
pub fn show_of_file<L: ToolLog, V: Verifier, S: Store>(
    alloc: Global,
    verifier: &V,
    path: &str,
    store: &mut S,
) -> Result<CommandOutput, CommandError>
    ensures answered { ForDisplay L.log L.Record.reading L.report (λ log.
        Answers (IsOfLines (S.files store.old) path.now (AreShownLines L.log
        L.Record.reading L.tool L.tells_entry log (V.belongs verifier.now))) result) }
    ensures kept { S.files store.new ≡ S.files store.old }
{
    match read_input(alloc, store, path) {
        Ok(input) => show_answer::<L, V>(alloc, verifier, input),
        Err(error) => Err(error),
    }
}
