//! `message` and `verify checkpoint`: what is signed of a checkpoint, and whether a key signed it that may.

ghost use Rattle.std.specs.Prelude.{◌≡◌, IfOk, IfErr, OnOk, IsUtf8};
ghost use Rattle.std.specs.Option.{option_copied};
ghost use Rattle.hex.specs.Hex.{encode_lower, IsBytes};
ghost use Rattle.serde_json.specs.Read.{read};
ghost use Rattle.serde_json.specs.View.{view};
ghost use Rattle.warg_protocol.specs.Operator.{view_of};
ghost use Rattle.warg_saved_states.specs.Asked.{IsAskedOfText};
ghost use Rattle.warg_audit.specs.LogKinds.{operator_log};
ghost use Rattle.warg_audit.specs.Files.Answers.{output_data, Answers, IfOutput, IsUnusable};
ghost use Rattle.warg_audit.specs.Files.RecordLines.{record_lines};
ghost use Rattle.warg_audit.specs.Files.Texts.{line, yes};
ghost use Rattle.warg_audit.specs.Files.Unusable.{IsOfLines};
ghost use Rattle.warg_audit.specs.declared.files.command_error.CommandError.TheVariants as end;
ghost use Rattle.warg_crypto.specs.declared.json.error.JsonError.TheVariants.{OutOfMemory};
ghost use Rattle.tool_answers.specs.Verdicts.{IsPrintedOf};
ghost use Rattle.tool_checkpoints.specs.CheckpointAnswers.{checkpoint_message, found_text, IsCheckpointAnswer};
ghost use Rattle.tool_checkpoints.specs.CheckpointAnswers.{IsMessageAnswer, IsSignatureAnswer};
ghost use Rattle.tool_checkpoints.specs.CheckpointAnswers.{IsSignatureOf, IsSigned, key_text, signature_text};
ghost use Rattle.tool_checkpoints.specs.CheckpointAnswers.{signed_members, takes, Tells};
ghost use Rattle.tool_checkpoints.specs.Words.{IsIn, IsUnsaid, IsUnsaidIn};

use crate::hex_line::hex_line;
use crate::read_words::{number_of, read_checkpoint};
use serde_json::Value;
use std::alloc::{AllocError, Global};
use tool_answers::loading::load_state;
use tool_words::{CheckpointQuery, Schemes};
use warg_audit::files::command_error::CommandError;
use warg_audit::files::command_output::CommandOutput;
use warg_audit::files::input::{Input, Store, file_error, read_input};
use warg_crypto::json::{JsonError, JsonValue};
use warg_crypto::signing::{PublicKey, SignatureError, Verifier, signed_message};
use warg_crypto::{Encode, Signable};
use warg_envelope::SerdeEnvelope;
use warg_protocol::operator::LogState;
use warg_registry::TimestampedCheckpoint;
use warg_saved_states::{JsonTextError, read_asked};

/// A checkpoint at a time, under a signature.
pub(crate) type Signed = SerdeEnvelope<TimestampedCheckpoint>;

// What is signed of a checkpoint.
fn message_of(alloc: Global, checkpoint: &TimestampedCheckpoint) -> Result<Vec<u8>, AllocError>
    ensures { IfOk result (λ v. v.items ≡ checkpoint_message checkpoint.now) }
{
    let content = checkpoint.encode(alloc)?;
    signed_message(
        alloc,
        TimestampedCheckpoint::signing_prefix(),
        content.as_slice(),
    )
}

// The same on a line, in hex.
fn message_line(
    alloc: Global,
    checkpoint: &TimestampedCheckpoint,
) -> Result<CommandOutput, AllocError>
    ensures is { IfOk result (λ answer. output_data answer ≡
        yes (line (encode_lower (checkpoint_message checkpoint.now)))) }
    ensures are_bytes { OnOk result (IsBytes (checkpoint_message checkpoint.now)) }
{
    let message = message_of(alloc, checkpoint)?;
    hex_line(alloc, message.as_slice())
}

// What is signed of the checkpoint in a file at the time that a word says.
fn message_answer<S: Store>(
    alloc: Global,
    checkpoint: &str,
    time: &str,
    store: &mut S,
) -> Result<CommandOutput, CommandError>
    ensures answered { Answers (IsMessageAnswer (S.files store.old) checkpoint.now time.now)
        result }
    ensures kept { S.files store.new ≡ S.files store.old }
{
    let timestamp = number_of(alloc, time, "number of seconds")?;
    let checkpoint = read_checkpoint(alloc, checkpoint, store)?;
    let checkpoint = TimestampedCheckpoint {
        checkpoint,
        timestamp,
    };
    Ok(message_line(alloc, &checkpoint)?)
}

// What a signed checkpoint is read of, of the JSON that the file holds. What else the file has is passed over.
fn json_of(alloc: Global, input: &Input<'_>) -> Result<Value, CommandError>
    ensures ok { IfOk result (λ value. IsUtf8 input.now.bytes.items
        × IsAskedOfText signed_members 2 input.now.bytes.items (view value)) }
    ensures err { IfErr result (IfOutput (λ printed.
        (IsUtf8 input.now.bytes.items → read input.now.bytes.items ≡ None)
        × IsUnusable printed)) }
{
    let Ok(text) = str::from_utf8(input.bytes.as_slice()) else {
        return Err(file_error(alloc, input.path, "it holds no JSON"));
    };
    match read_asked(
        alloc,
        text,
        &[
            "contents",
            "logRoot",
            "logLength",
            "mapRoot",
            "timestamp",
            "keyId",
            "signature",
        ],
        2,
    ) {
        Ok(value) => Ok(value),
        Err(JsonTextError::OutOfMemory) => Err(CommandError::OutOfMemory),
        Err(JsonTextError::NotJson | JsonTextError::Value(_)) => {
            Err(file_error(alloc, input.path, "it holds no JSON"))
        }
    }
}

// The error of a command for JSON that is no signed checkpoint.
fn signed_error(alloc: Global, path: &str, fault: JsonError) -> CommandError
    ensures unusable { IfOutput IsUnusable result }
    ensures memory { fault ≡ OutOfMemory → result ≡ end.OutOfMemory }
{
    if fault == JsonError::OutOfMemory {
        return CommandError::OutOfMemory;
    }
    file_error(alloc, path, "it holds no signed checkpoint")
}

// The signed checkpoint that JSON is.
fn signed_of(alloc: Global, path: &str, value: &Value) -> Result<Signed, CommandError>
    ensures ok { IfOk result (Tells (view value.now)) }
    ensures err { IfErr result (IfOutput (IsUnsaid (Tells (view value.now)))) }
{
    match Signed::from_value(alloc, value) {
        Ok(signed) => Ok(signed),
        Err(fault) => Err(signed_error(alloc, path, fault)),
    }
}

// The signed checkpoint whose JSON the file holds.
fn signed_of_file(alloc: Global, input: &Input<'_>) -> Result<Signed, CommandError>
    ensures ok { IfOk result (IsSigned input.now.bytes.items) }
    ensures err { IfErr result (IfOutput (IsUnsaid (IsSigned input.now.bytes.items))) }
{
    match json_of(alloc, input) {
        Ok(value) => signed_of(alloc, input.path, &value),
        Err(error) => Err(error),
    }
}

/// The signed checkpoint in the file of this path.
pub(crate) fn read_signed<S: Store>(
    alloc: Global,
    path: &str,
    store: &mut S,
) -> Result<Signed, CommandError>
    ensures ok { IfOk result (IsIn (S.files store.old) path.now IsSigned) }
    ensures err { IfErr result (IfOutput (IsUnsaidIn (S.files store.old) path.now IsSigned)) }
    ensures kept { S.files store.new ≡ S.files store.old }
{
    match read_input(alloc, store, path) {
        Ok(input) => signed_of_file(alloc, &input),
        Err(error) => Err(error),
    }
}

// Whether signatures under a key are taken whose scheme has this name.
fn takes(schemes: Schemes, name: &str) -> bool
    ensures { result ≡ takes schemes name.now }
{
    match schemes {
        Schemes::Any => true,
        Schemes::WithToy => name == "toy" || name == "ecdsa-p256",
        Schemes::Known => name == "ecdsa-p256",
    }
}

// Whether the signature belongs to the checkpoint under the key.
fn belongs<V: Verifier>(
    alloc: Global,
    verifier: &V,
    key: &PublicKey,
    signed: &Signed,
) -> Result<bool, AllocError>
    ensures { IfOk result (λ it. it ≡ V.belongs verifier.now key.now
        (checkpoint_message signed.now.contents) signed.now.signature) }
{
    let message = message_of(alloc, signed.contents())?;
    match verifier.verify(alloc, key, message.as_slice(), signed.signature()) {
        Ok(()) => Ok(true),
        Err(SignatureError::Refused) => Ok(false),
        Err(SignatureError::OutOfMemory) => Err(AllocError),
    }
}

// The verdict under the key that may sign.
fn key_verdict<V: Verifier>(
    alloc: Global,
    verifier: &V,
    schemes: Schemes,
    key: &PublicKey,
    signed: &Signed,
) -> Result<CommandOutput, AllocError>
    ensures { IfOk result (λ answer. output_data answer ≡
        key_text schemes (V.belongs verifier.now) key.now signed.now) }
{
    if !takes(schemes, key.algorithm()) {
        return CommandOutput::fixed(alloc, "other scheme\n", 1);
    }
    if belongs(alloc, verifier, key, signed)? {
        CommandOutput::fixed(alloc, "holds\n", 0)
    } else {
        CommandOutput::fixed(alloc, "does not belong\n", 1)
    }
}

// The same where there may be no such key.
fn found_verdict<V: Verifier>(
    alloc: Global,
    verifier: &V,
    schemes: Schemes,
    key: Option<&PublicKey>,
    signed: &Signed,
) -> Result<CommandOutput, AllocError>
    ensures { IfOk result (λ answer. output_data answer ≡
        found_text schemes (V.belongs verifier.now) (option_copied key.entry) signed.now) }
{
    match key {
        Some(key) => key_verdict(alloc, verifier, schemes, key, signed),
        None => CommandOutput::fixed(alloc, "may not sign\n", 1),
    }
}

// The verdict by the state of the operators' log.
fn state_verdict<V: Verifier>(
    alloc: Global,
    verifier: &V,
    schemes: Schemes,
    state: &LogState,
    signed: &Signed,
) -> Result<CommandOutput, AllocError>
    ensures { IfOk result (λ answer. output_data answer ≡
        signature_text schemes (V.belongs verifier.now) (view_of state.now) signed.now) }
{
    let key_id = signed.key_id();
    if !state.key_has_permission_to_sign_checkpoints(key_id) {
        return CommandOutput::fixed(alloc, "may not sign\n", 1);
    }
    found_verdict(alloc, verifier, schemes, state.public_key(key_id), signed)
}

// The verdict by the operators' log in a file.
fn log_verdict<V: Verifier>(
    alloc: Global,
    verifier: &V,
    schemes: Schemes,
    signed: &Signed,
    input: Input<'_>,
) -> Result<CommandOutput, CommandError>
    ensures { Answers (IsPrintedOf operator_log (V.belongs verifier.now)
        (IsSignatureOf schemes (V.belongs verifier.now) signed.now)
        (record_lines input.entry.bytes.items)) result }
{
    match load_state::<LogState, V>(alloc, verifier, input) {
        Ok((state, _)) => Ok(state_verdict(alloc, verifier, schemes, &state, signed)?),
        Err(error) => Err(error),
    }
}

// The same by the log's path.
fn verdict_in_file<V: Verifier, S: Store>(
    alloc: Global,
    verifier: &V,
    schemes: Schemes,
    signed: &Signed,
    log: &str,
    store: &mut S,
) -> Result<CommandOutput, CommandError>
    ensures answered { Answers (IsOfLines (S.files store.old) log.now (IsPrintedOf operator_log
        (V.belongs verifier.now) (IsSignatureOf schemes (V.belongs verifier.now) signed.now)))
        result }
    ensures kept { S.files store.new ≡ S.files store.old }
{
    match read_input(alloc, store, log) {
        Ok(input) => log_verdict(alloc, verifier, schemes, signed, input),
        Err(error) => Err(error),
    }
}

// Whether the checkpoint in a file is signed by a key that the operators' log in another lets sign.
fn signature_answer<V: Verifier, S: Store>(
    alloc: Global,
    verifier: &V,
    schemes: Schemes,
    checkpoint: &str,
    log: &str,
    store: &mut S,
) -> Result<CommandOutput, CommandError>
    ensures answered { Answers (IsSignatureAnswer (S.files store.old) (V.belongs verifier.now)
        checkpoint.now log.now schemes) result }
    ensures kept { S.files store.new ≡ S.files store.old }
{
    match read_signed(alloc, checkpoint, store) {
        Ok(signed) => verdict_in_file(alloc, verifier, schemes, &signed, log, store),
        Err(error) => Err(error),
    }
}

/// The answer to what is asked of a checkpoint, from the files that are named.
pub fn checkpoint_answer<V: Verifier, S: Store>(
    alloc: Global,
    verifier: &V,
    query: &CheckpointQuery<'_>,
    store: &mut S,
) -> Result<CommandOutput, CommandError>
    ensures answered { Answers (IsCheckpointAnswer (S.files store.old) (V.belongs verifier.now)
        query.now) result }
    ensures kept { S.files store.new ≡ S.files store.old }
{
    match query {
        CheckpointQuery::Message { checkpoint, time } => {
            message_answer(alloc, checkpoint, time, store)
        }
        CheckpointQuery::Signature {
            checkpoint,
            log,
            schemes,
        } => signature_answer(alloc, verifier, *schemes, checkpoint, log, store),
    }
}
