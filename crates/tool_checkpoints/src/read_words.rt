//! Ids, numbers, checkpoints and proofs, by words and files.

ghost use Rattle.std.specs.Prelude.{◌≡◌, ◌↔◌, Ok, Err, Some, None, IfOk, IfErr, IsOk, IsUtf8};
ghost use Rattle.std.specs.Str.{trim_end};
ghost use Rattle.warg_transparency.specs.Texts.{log_proof_of, map_proof_of};
ghost use Rattle.warg_transparency.specs.declared.error.ProofTextError.TheVariants.{OutOfMemory};
ghost use Rattle.warg_audit.specs.Files.Answers.{IfOutput, IsUnusable};
ghost use Rattle.warg_audit.specs.declared.files.command_error.CommandError.TheVariants as end;
ghost use Rattle.serde_json.specs.Read.{read};
ghost use Rattle.serde_json.specs.View.{view};
ghost use Rattle.warg_registry.specs.RegistryJson.{checkpoint_in};
ghost use Rattle.warg_saved_states.specs.Asked.{IsAskedOfText};
ghost use Rattle.tool_checkpoints.specs.Proofs.{checkpoint_members, IsCheckpoint, IsLeafOf, IsLogProof, IsMapProof};
ghost use Rattle.tool_checkpoints.specs.Words.{IsIn, IsLogWord, IsNumber, IsRecordWord, IsUnsaid, IsUnsaidIn};

use serde_json::Value;
use std::alloc::Global;
use std::str::FromStr;
use warg_audit::files::command_error::{CommandError, unusable};
use warg_audit::files::input::{Input, Store, file_error, read_input};
use warg_crypto::json::JsonValue;
use warg_log_records::RecordId;
use warg_printable::printed_line;
use warg_registry::{Checkpoint, LogId, LogLeaf};
use warg_saved_states::{JsonTextError, read_asked};
use warg_transparency::{LogProof, MapProof, ProofTextError};

/// The error of a command for a word that is none of its kind.
pub(crate) fn word_error(alloc: Global, word: &str, kind: &str) -> CommandError
    ensures { IfOutput IsUnusable result }
{
    let sentence = match format!(in alloc; "weoldrin: \"{word}\" is no {kind}") {
        Ok(said) => printed_line(alloc, said.as_str()),
        Err(error) => Err(error),
    };
    unusable(alloc, sentence)
}

// The value that the word says, of what the kind names.
fn value_of<T: FromStr + Drop>(alloc: Global, word: &str, kind: &str) -> Result<T, CommandError>
where
    T::Err: Drop,
    ensures ok { IfOk result (λ value. T.from_str_gives word.now (Ok value)) }
    ensures err { IfErr result (IfOutput IsUnusable) }
    ensures refused { IfErr result (IfOutput (λ _. (error : T.Err) ×
        T.from_str_gives word.now (Err error))) }
{
    match word.parse::<T>() {
        Ok(value) => Ok(value),
        Err(_) => Err(word_error(alloc, word, kind)),
    }
}

/// The number that a word says, of what the kind names.
pub(crate) fn number_of(alloc: Global, word: &str, kind: &str) -> Result<u64, CommandError>
    ensures ok { IfOk result (IsNumber word.now) }
    ensures err { IfErr result (IfOutput (IsUnsaid (IsNumber word.now))) }
{
    value_of::<u64>(alloc, word, kind)
}

/// The id of a log that a word says.
pub(crate) fn log_id_of(alloc: Global, word: &str) -> Result<LogId, CommandError>
    ensures ok { IfOk result (IsLogWord word.now) }
    ensures err { IfErr result (IfOutput (IsUnsaid (IsLogWord word.now))) }
{
    value_of::<LogId>(alloc, word, "id of a log")
}

/// The id of a record that a word says.
pub(crate) fn record_id_of(alloc: Global, word: &str) -> Result<RecordId, CommandError>
    ensures ok { IfOk result (IsRecordWord word.now) }
    ensures err { IfErr result (IfOutput (IsUnsaid (IsRecordWord word.now))) }
{
    value_of::<RecordId>(alloc, word, "id of a record")
}

/// The leaf that the ids of a log and of a record say.
pub(crate) fn leaf_of(alloc: Global, log_id: &str, record_id: &str) -> Result<LogLeaf, CommandError>
    ensures ok { IfOk result (IsLeafOf log_id.now record_id.now) }
    ensures err { IfErr result (IfOutput (IsUnsaid (IsLeafOf log_id.now record_id.now))) }
{
    let log_id = log_id_of(alloc, log_id)?;
    let record_id = record_id_of(alloc, record_id)?;
    Ok(LogLeaf { log_id, record_id })
}

// What a checkpoint is read of, of the JSON that the file holds. What else the file has is passed over.
fn json_of(alloc: Global, input: &Input<'_>) -> Result<Value, CommandError>
    ensures ok { IfOk result (λ value. IsUtf8 input.now.bytes.items
        × IsAskedOfText checkpoint_members 1 input.now.bytes.items (view value)) }
    ensures err { IfErr result (IfOutput (λ printed.
        (IsUtf8 input.now.bytes.items → read input.now.bytes.items ≡ None)
        × IsUnusable printed)) }
{
    let Ok(text) = str::from_utf8(input.bytes.as_slice()) else {
        return Err(file_error(alloc, input.path, "it holds no JSON"));
    };
    match read_asked(alloc, text, &["logRoot", "logLength", "mapRoot"], 1) {
        Ok(value) => Ok(value),
        Err(JsonTextError::OutOfMemory) => Err(CommandError::OutOfMemory),
        Err(JsonTextError::NotJson | JsonTextError::Value(_)) => {
            Err(file_error(alloc, input.path, "it holds no JSON"))
        }
    }
}

// The checkpoint that JSON is. It is found without memory, which the sentence alone takes.
fn checkpoint_of(alloc: Global, path: &str, value: &Value) -> Result<Checkpoint, CommandError>
    ensures found { IsOk result ↔ IsOk (checkpoint_in (view value.now)) }
    ensures ok { IfOk result (λ checkpoint. checkpoint_in (view value.now) ≡ Ok checkpoint) }
    ensures err { IfErr result (IfOutput (IsUnsaid (λ checkpoint.
        checkpoint_in (view value.now) ≡ Ok checkpoint))) }
{
    match Checkpoint::from_value(alloc, value) {
        Ok(checkpoint) => Ok(checkpoint),
        Err(_) => Err(file_error(alloc, path, "it holds no checkpoint")),
    }
}

// The checkpoint whose JSON the file holds.
fn checkpoint_of_file(alloc: Global, input: &Input<'_>) -> Result<Checkpoint, CommandError>
    ensures ok { IfOk result (IsCheckpoint input.now.bytes.items) }
    ensures err { IfErr result (IfOutput (IsUnsaid
        (IsCheckpoint input.now.bytes.items))) }
{
    match json_of(alloc, input) {
        Ok(value) => checkpoint_of(alloc, input.path, &value),
        Err(error) => Err(error),
    }
}

/// The checkpoint in the file of this path.
pub(crate) fn read_checkpoint<S: Store>(
    alloc: Global,
    path: &str,
    store: &mut S,
) -> Result<Checkpoint, CommandError>
    ensures ok { IfOk result (IsIn (S.files store.old) path.now IsCheckpoint) }
    ensures err { IfErr result (IfOutput
        (IsUnsaidIn (S.files store.old) path.now IsCheckpoint)) }
    ensures kept { S.files store.new ≡ S.files store.old }
{
    match read_input(alloc, store, path) {
        Ok(input) => checkpoint_of_file(alloc, &input),
        Err(error) => Err(error),
    }
}

// The text of the file, without the end of its line.
fn text_of<'a>(alloc: Global, input: &'a Input<'_>) -> Result<&'a str, CommandError>
    ensures ok { IfOk result (λ text. IsUtf8 input.now.bytes.items
        × (text.now ≡ trim_end input.now.bytes.items)) }
    ensures err { IfErr result (IfOutput (λ printed.
        (IsUtf8 input.now.bytes.items → ⊥) × IsUnusable printed)) }
{
    match str::from_utf8(input.bytes.as_slice()) {
        Ok(text) => Ok(text.trim_end()),
        Err(_) => Err(file_error(alloc, input.path, "it is no text")),
    }
}

// The error of a command for a text that is no proof.
fn proof_error(alloc: Global, path: &str, fault: ProofTextError) -> CommandError
    ensures unusable { IfOutput IsUnusable result }
    ensures memory { fault ≡ OutOfMemory → result ≡ end.OutOfMemory }
{
    if fault == ProofTextError::OutOfMemory {
        return CommandError::OutOfMemory;
    }
    match format!(in alloc; "it holds no proof: {fault}") {
        Ok(text) => file_error(alloc, path, text.as_str()),
        Err(_) => CommandError::OutOfMemory,
    }
}

// The proof on a log that the text is of.
fn log_proof_of(alloc: Global, path: &str, text: &str) -> Result<LogProof, CommandError>
    ensures ok { IfOk result (λ proof. log_proof_of text.now ≡ Ok proof) }
    ensures err { IfErr result (IfOutput (IsUnsaid (λ proof.
        log_proof_of text.now ≡ Ok proof))) }
{
    match LogProof::parse(alloc, text) {
        Ok(proof) => Ok(proof),
        Err(fault) => Err(proof_error(alloc, path, fault)),
    }
}

// The proof on a log whose text the file holds.
fn log_proof_of_file(alloc: Global, input: &Input<'_>) -> Result<LogProof, CommandError>
    ensures ok { IfOk result (IsLogProof input.now.bytes.items) }
    ensures err { IfErr result (IfOutput (IsUnsaid (IsLogProof input.now.bytes.items))) }
{
    match text_of(alloc, input) {
        Ok(text) => log_proof_of(alloc, input.path, text),
        Err(error) => Err(error),
    }
}

/// The proof on a log in the file of this path.
pub(crate) fn read_log_proof<S: Store>(
    alloc: Global,
    path: &str,
    store: &mut S,
) -> Result<LogProof, CommandError>
    ensures ok { IfOk result (IsIn (S.files store.old) path.now IsLogProof) }
    ensures err { IfErr result (IfOutput
        (IsUnsaidIn (S.files store.old) path.now IsLogProof)) }
    ensures kept { S.files store.new ≡ S.files store.old }
{
    match read_input(alloc, store, path) {
        Ok(input) => log_proof_of_file(alloc, &input),
        Err(error) => Err(error),
    }
}

// The proof on a map that the text is of.
fn map_proof_of(alloc: Global, path: &str, text: &str) -> Result<MapProof, CommandError>
    ensures ok { IfOk result (λ proof. map_proof_of text.now ≡ Ok proof) }
    ensures err { IfErr result (IfOutput (IsUnsaid (λ proof.
        map_proof_of text.now ≡ Ok proof))) }
{
    match MapProof::parse(alloc, text) {
        Ok(proof) => Ok(proof),
        Err(fault) => Err(proof_error(alloc, path, fault)),
    }
}

// The proof on a map whose text the file holds.
fn map_proof_of_file(alloc: Global, input: &Input<'_>) -> Result<MapProof, CommandError>
    ensures ok { IfOk result (IsMapProof input.now.bytes.items) }
    ensures err { IfErr result (IfOutput (IsUnsaid (IsMapProof input.now.bytes.items))) }
{
    match text_of(alloc, input) {
        Ok(text) => map_proof_of(alloc, input.path, text),
        Err(error) => Err(error),
    }
}

/// The proof on a map in the file of this path.
pub(crate) fn read_map_proof<S: Store>(
    alloc: Global,
    path: &str,
    store: &mut S,
) -> Result<MapProof, CommandError>
    ensures ok { IfOk result (IsIn (S.files store.old) path.now IsMapProof) }
    ensures err { IfErr result (IfOutput
        (IsUnsaidIn (S.files store.old) path.now IsMapProof)) }
    ensures kept { S.files store.new ≡ S.files store.old }
{
    match read_input(alloc, store, path) {
        Ok(input) => map_proof_of_file(alloc, &input),
        Err(error) => Err(error),
    }
}
