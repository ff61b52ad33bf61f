//! `resume`: the state after more records, from a saved one.

ghost use Rattle.std.specs.Prelude.{◌≡◌, ℕ, List, length, map, Ok, IfOk, IfErr};
ghost use Rattle.std.specs.Vec.{vec_items};
ghost use Rattle.warg_audit.specs.Files.Lines.{inputs_of};
ghost use Rattle.warg_protocol.specs.Json.{JsonTextError as OfJsonTextError};
ghost use Rattle.warg_saved_states.specs.JsonText.{ReturnsOfText};
ghost use Rattle.warg_saved_states.specs.declared.error.JsonTextError.TheVariants as text;
ghost use Rattle.warg_audit.specs.Files.Answers.{output_data, Answers, IfOutput};
ghost use Rattle.tool_questions.specs.Resumption.{IsNext, IsNextText, IsNoLead, IsNoNext, IsResumed, LeadTo, read_state};
ghost use Rattle.warg_audit.specs.Files.RecordLines.{record_lines};
ghost use Rattle.tool_questions.specs.StateFaults.{bad_state, case_name, state_fault_name, value_name};
ghost use Rattle.tool_answers.specs.Texts.{saved_text};
ghost use Rattle.warg_audit.specs.ReportWords.{ForDisplay};

use crate::state::json_answer;
use std::alloc::{AllocError, Global};
use std::str;
use tool_answers::kind::ToolLog;
use tool_answers::loading::{file_inputs, refused};
use warg_audit::files::command_error::CommandError;
use warg_audit::files::command_output::{CommandOutput, UNUSABLE};
use warg_audit::files::input::{Input, sentence};
use warg_protocol::signing::Verifier;
use warg_protocol::{Incoherence, JsonError, JsonTextError, run_from};

fn case_name(case: Incoherence) -> &'static str
    ensures { result.now ≡ case_name case }
{
    match case {
        Incoherence::AlgorithmWithoutHead => "Value.Incoherent.AlgorithmWithoutHead",
        Incoherence::HeadWithoutAlgorithm => "Value.Incoherent.HeadWithoutAlgorithm",
        Incoherence::StateWithoutInit => "Value.Incoherent.StateWithoutInit",
        Incoherence::ReleaseUnderOtherVersion => "Value.Incoherent.ReleaseUnderOtherVersion",
        Incoherence::KeyUnderOtherFingerprint => "Value.Incoherent.KeyUnderOtherFingerprint",
        Incoherence::InvalidNamespace => "Value.Incoherent.InvalidNamespace",
        Incoherence::PermissionsWithoutKey => "Value.Incoherent.PermissionsWithoutKey",
        Incoherence::UnsupportedVersion => "Value.Incoherent.UnsupportedVersion",
    }
}

fn value_name(fault: JsonError) -> &'static str
    ensures { result.now ≡ value_name fault }
{
    match fault {
        JsonError::WrongType => "Value.WrongType",
        JsonError::Missing => "Value.Missing",
        JsonError::BadText => "Value.BadText",
        JsonError::TimeBeforeEpoch => "Value.TimeBeforeEpoch",
        JsonError::TimeOutOfRange => "Value.TimeOutOfRange",
        JsonError::Incoherent(case) => case_name(case),
        JsonError::OutOfMemory => "OutOfMemory",
    }
}

// The names of the fault's cases, from the outside in, with dots between them.
fn fault_name(fault: JsonTextError) -> &'static str
    ensures { result.now ≡ state_fault_name fault }
{
    match fault {
        JsonTextError::NotJson => "NotJson",
        JsonTextError::Value(fault) => value_name(fault),
        JsonTextError::OutOfMemory => "OutOfMemory",
    }
}

// The answer to a file that holds no state.
fn bad_state(alloc: Global, path: &str, fault: JsonTextError) -> Result<CommandOutput, AllocError>
    ensures { IfOk result (λ answer. output_data answer ≡ bad_state fault) }
{
    let name = fault_name(fault);
    let text = format!(in alloc; "bad state {name}\n")?;
    let sentence = sentence(alloc, path, "not a saved state of this kind of log")?;
    Ok(CommandOutput::new(alloc, text, UNUSABLE).with_sentence(sentence))
}

// The state of a file's bytes.
fn read_state<L: ToolLog>(alloc: Global, bytes: &[u8]) -> Result<L, JsonTextError>
    ensures { ReturnsOfText (λ state. state) result (read_state L.state_of bytes.now) }
{
    match str::from_utf8(bytes) {
        Ok(text) => L::of_json_text(alloc, text),
        Err(_) => Err(JsonTextError::NotJson),
    }
}

// The answer to a file that holds no state, as the error of a command.
fn bad_state_error(alloc: Global, path: &str, fault: JsonTextError) -> CommandError
    ensures { IfOutput (λ printed. printed ≡ bad_state fault) result }
{
    match bad_state(alloc, path, fault) {
        Ok(answer) => CommandError::Output(answer),
        Err(_) => CommandError::OutOfMemory,
    }
}

// Why a file holds no state, as the error of a command.
fn state_error(alloc: Global, path: &str, fault: JsonTextError) -> CommandError
    ensures told { IfOutput (λ printed. printed ≡ bad_state fault) result }
    ensures memory { fault ≡ text.OutOfMemory → result ≡ CommandError.OutOfMemory }
{
    match fault {
        JsonTextError::OutOfMemory => CommandError::OutOfMemory,
        _ => bad_state_error(alloc, path, fault),
    }
}

// The state of a file.
fn saved_state<L: ToolLog>(alloc: Global, input: &Input<'_>) -> Result<L, CommandError>
    ensures ok { IfOk result (λ state. read_state L.state_of input.now.bytes.items ≡ Ok state) }
    ensures err { IfErr result (IfOutput (λ printed. (fault : OfJsonTextError) ×
        ((read_state L.state_of input.now.bytes.items ≡ Err fault) ×
        (printed ≡ bad_state fault)))) }
{
    match read_state::<L>(alloc, input.bytes.as_slice()) {
        Ok(state) => Ok(state),
        Err(fault) => Err(state_error(alloc, input.path, fault)),
    }
}

// The state after the records that inputs are.
fn state_after_inputs<L: ToolLog, V: Verifier>(
    alloc: Global,
    verifier: &V,
    state: L,
    path: &str,
    inputs: &[Vec<u8>],
) -> Result<L, CommandError>
    ensures ok { ForDisplay L.log L.Record.reading L.report (λ log.
        (lines : List (List ℕ)) → inputs_of lines ≡ Ok (map vec_items inputs.now) →
        IfOk result (λ next. LeadTo log (V.belongs verifier.now) L.view state lines next
        (length inputs.now))) }
    ensures err { ForDisplay L.log L.Record.reading L.report (λ log.
        (lines : List (List ℕ)) → inputs_of lines ≡ Ok (map vec_items inputs.now) →
        IfErr result (IfOutput (IsNoLead log (V.belongs verifier.now) L.view state lines))) }
{
    match run_from(alloc, state, verifier, inputs) {
        Ok(next) => Ok(next),
        Err(error) => Err(refused::<L>(alloc, path, &error)),
    }
}

// The state after the records that inputs are, and how many these are.
fn counted_after<L: ToolLog, V: Verifier>(
    alloc: Global,
    verifier: &V,
    state: L,
    path: &str,
    inputs: &[Vec<u8>],
) -> Result<(L, usize), CommandError>
    ensures ok { ForDisplay L.log L.Record.reading L.report (λ log.
        (lines : List (List ℕ)) → inputs_of lines ≡ Ok (map vec_items inputs.now) →
        IfOk result (λ gone. LeadTo log (V.belongs verifier.now) L.view state lines gone.0
        gone.1)) }
    ensures err { ForDisplay L.log L.Record.reading L.report (λ log.
        (lines : List (List ℕ)) → inputs_of lines ≡ Ok (map vec_items inputs.now) →
        IfErr result (IfOutput (IsNoLead log (V.belongs verifier.now) L.view state lines))) }
{
    match state_after_inputs(alloc, verifier, state, path, inputs) {
        Ok(next) => Ok((next, inputs.len())),
        Err(error) => Err(error),
    }
}

// The state after the records in a file, and how many these are.
fn state_after<L: ToolLog, V: Verifier>(
    alloc: Global,
    verifier: &V,
    state: L,
    input: Input<'_>,
) -> Result<(L, usize), CommandError>
    ensures ok { ForDisplay L.log L.Record.reading L.report (λ log. IfOk result (λ gone.
        LeadTo log (V.belongs verifier.now) L.view state (record_lines input.entry.bytes.items)
        gone.0 gone.1)) }
    ensures err { ForDisplay L.log L.Record.reading L.report (λ log. IfErr result (IfOutput
        (IsNoLead log (V.belongs verifier.now) L.view state
        (record_lines input.entry.bytes.items)))) }
{
    match file_inputs(alloc, input.path, input.bytes) {
        Ok(inputs) => counted_after(alloc, verifier, state, input.path, inputs.as_slice()),
        Err(error) => Err(error),
    }
}

/// The state after the records in a file, from the one in another, and how many these records are.
pub(crate) fn resumed<L: ToolLog, V: Verifier>(
    alloc: Global,
    verifier: &V,
    saved: Input<'_>,
    input: Input<'_>,
) -> Result<(L, usize), CommandError>
    ensures ok { ForDisplay L.log L.Record.reading L.report (λ log. IfOk result (λ gone.
        IsNext log (V.belongs verifier.now) L.view L.state_of saved.entry.bytes.items
        (record_lines input.entry.bytes.items) gone.0 gone.1)) }
    ensures err { ForDisplay L.log L.Record.reading L.report (λ log. IfErr result (IfOutput
        (IsNoNext log (V.belongs verifier.now) L.view L.state_of saved.entry.bytes.items
        (record_lines input.entry.bytes.items)))) }
{
    match saved_state::<L>(alloc, &saved) {
        Ok(state) => state_after(alloc, verifier, state, input),
        Err(error) => Err(error),
    }
}

/// The state after the records in a file, from the one in another.
pub fn resume_answer<L: ToolLog, V: Verifier>(
    alloc: Global,
    verifier: &V,
    limit: u64,
    saved: Input<'_>,
    input: Input<'_>,
) -> Result<CommandOutput, CommandError>
    ensures { ForDisplay L.log L.Record.reading L.report (λ log. Answers
        (IsResumed log (V.belongs verifier.now) L.view
        (IsNextText (saved_text limit L.json_of)) L.state_of
        saved.entry.bytes.items (record_lines input.entry.bytes.items)) result) }
{
    match resumed::<L, V>(alloc, verifier, saved, input) {
        Ok((state, _)) => json_answer(alloc, limit, &state),
        Err(error) => Err(error),
    }
}
