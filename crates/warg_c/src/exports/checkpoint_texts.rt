//! Signed checkpoints of a registry as texts of JSON, as a registry answers them: `contents` with `logRoot`, `logLength`, `mapRoot` and
//! `timestamp`, and beside it `keyId` and `signature`.
ghost use Rattle.std.specs.Prelude.{◌≡◌, ◌≢◌, ◌≤◌, ◌⊎◌, ◌++◌, [], ◌∷◌, Ok, Err, IfOk, IfErr, OnOk};
ghost use Rattle.std.specs.Prelude.{length, take, drop, string_bytes};
ghost use Rattle.std.specs.Str.{IsUtf8};
ghost use Rattle.serde_json.specs.View.{view};
ghost use Rattle.warg_crypto.specs.HashText.{hash_of, hash_text};
ghost use Rattle.warg_saved_states.specs.Asked.{IsAskedOfText};
ghost use Rattle.warg_saved_states.specs.declared.error.JsonTextError.TheVariants as fault;
ghost use Rattle.warg_c.specs.CheckpointTexts.{IsNoSigned, IsNoSigner, IsSignedBy, IsSignedFault, IsTextOf};
ghost use Rattle.warg_c.specs.CheckpointTexts.{IsWrittenAs, SaysNoSigned, TakesSigned, Tells, TellsText};
ghost use Rattle.warg_c.specs.CheckpointTexts.{signed_in_text, signed_members, signed_parts};
ghost use Rattle.warg_c.specs.declared.call_error.CallError.TheVariants.{OutOfMemory};
ghost use Rattle.warg_c.specs.Statuses.{WARG_OK, WARG_OUT_OF_MEMORY, WARG_TOO_SMALL, WARG_BAD_ARGUMENT};
ghost use Rattle.warg_c.specs.Statuses.{IsOneOf, Unless};
ghost use Rattle.warg_c.specs.Texts.{ErrorsAs, NeedsRoom};

use crate::argument::key_id_of;
use crate::call_error::{CallError, status};
use crate::exports::checkpoints::checkpoint_in;
use crate::exports::saving::refuse_saved;
use crate::given::finish;
use crate::question::{parse_signature, signature_text};
use serde_json::Value;
use std::alloc::{AllocError, Global};
use warg_crypto::hash::AnyHash;
use warg_crypto::json::JsonValue;
use warg_crypto::laws::hash_reads_back;
use warg_envelope::SerdeEnvelope;
use warg_registry::TimestampedCheckpoint;
use warg_saved_states::{JsonTextError, read_asked};

// A checkpoint at a time, under a signature.
type Signed = SerdeEnvelope<TimestampedCheckpoint>;

/// A signed checkpoint. Its texts stand one behind the other: the root of the registry's log, the root of its map, the id of the key that is said
/// to have signed, and the signature.
#[repr(C)]
#[derive(Clone, Copy)]
pub struct ShownCheckpoint {
    /// The length of the registry's log in leaves.
    pub log_length: u64,
    /// The time in whole seconds since 1970.
    pub timestamp: u64,
    pub log_root_len: usize,
    pub map_root_len: usize,
    pub key_id_len: usize,
    pub signature_len: usize,
}

// The signed checkpoint that a call says.
fn signed_in(
    alloc: Global,
    checkpoint: TimestampedCheckpoint,
    key_id: &[u8],
    signature: &[u8],
) -> Result<Signed, CallError>
    ensures ok { IfOk result (λ it. (it.contents ≡ checkpoint) ×
        IsSignedBy key_id.now signature.now (signed_parts it)) }
    ensures err { IfErr result (ErrorsAs (IsUtf8 key_id.now) ⊥
        (IsNoSigner key_id.now signature.now)) }
{
    let key_id = key_id_of(alloc, key_id)?;
    let signature = parse_signature(alloc, signature)?;
    Ok(Signed::from_parts_unchecked(checkpoint, key_id, signature))
}

// The JSON of a signed checkpoint as a text, which is read as it.
fn json_of(alloc: Global, signed: &Signed) -> Result<Vec<u8>, CallError>
    ensures ok { IfOk result (λ v. IsWrittenAs (signed_parts signed.now) v.items) }
    ensures err { IfErr result (λ f. f ≡ OutOfMemory) }
{
    let Ok(value) = signed.to_value(alloc) else {
        return Err(CallError::OutOfMemory);
    };
    let text = value.to_string(alloc)?;
    Ok(text.into_bytes())
}

fn text_in(
    alloc: Global,
    log_length: u64,
    log_root: &[u8],
    map_root: &[u8],
    timestamp: u64,
    key_id: &[u8],
    signature: &[u8],
) -> Result<Vec<u8>, CallError>
    ensures ok { IfOk result (λ v. IsTextOf log_length log_root.now map_root.now timestamp
        key_id.now signature.now v.items) }
    ensures err { IfErr result (ErrorsAs (TakesSigned log_root.now map_root.now key_id.now) ⊥
        (SaysNoSigned log_root.now map_root.now key_id.now signature.now)) }
{
    let checkpoint = checkpoint_in(log_length, log_root, map_root, timestamp)?;
    let signed = signed_in(alloc, checkpoint, key_id, signature)?;
    json_of(alloc, &signed)
}

/// The JSON text of a signed checkpoint. `key_id` and `signature` are the texts that stand beside the checkpoint; nothing is verified.
///   WARG_BAD_ARGUMENT: the text of a root is none of a hash, the key id is no UTF-8, or the signature's text can't be read; nothing is told of it.
///   WARG_OUT_OF_MEMORY: nothing is said; the roots are hashes, and the key id is UTF-8.
#[unsafe(no_mangle)]
pub extern "C" fn warg_checkpoint_text(
    alloc: Global,
    log_length: u64,
    log_root: &[u8],
    map_root: &[u8],
    timestamp: u64,
    key_id: &[u8],
    signature: &[u8],
    text: &mut [u8],
    used: &mut usize,
) -> u32
    ensures statuses { IsOneOf (WARG_OK ∷ WARG_OUT_OF_MEMORY ∷ WARG_TOO_SMALL ∷
        WARG_BAD_ARGUMENT ∷ []) result }
    ensures ok { result ≡ WARG_OK → IsTextOf log_length log_root.now map_root.now timestamp
        key_id.now signature.now (take used.new text.new) }
    ensures out_of_memory { result ≡ WARG_OUT_OF_MEMORY →
        TakesSigned log_root.now map_root.now key_id.now }
    ensures too_small { result ≡ WARG_TOO_SMALL → NeedsRoom
        (IsTextOf log_length log_root.now map_root.now timestamp key_id.now signature.now)
        used.new text.old }
    ensures bad_argument { result ≡ WARG_BAD_ARGUMENT →
        SaysNoSigned log_root.now map_root.now key_id.now signature.now }
    ensures buffer { result ≢ WARG_OK → text.new ≡ text.old }
    ensures used { Unless (WARG_OK ∷ WARG_TOO_SMALL ∷ []) result (used.new ≡ 0) }
    ensures behind { drop used.new text.new ≡ drop used.new text.old }
    ensures within { result ≢ WARG_TOO_SMALL → used.new ≤ length text.new }
{
    let outcome = text_in(
        alloc, log_length, log_root, map_root, timestamp, key_id, signature,
    );
    finish(outcome, text, used)
}

// What a signed checkpoint is read of, of the JSON of a text. What else the text has is passed over.
fn json_in(alloc: Global, text: &str) -> Result<Value, JsonTextError>
    ensures ok { IfOk result (λ v. IsAskedOfText signed_members 2 text.now (view v)) }
    ensures err { IfErr result (λ e. (e ≡ fault.OutOfMemory) ⊎ (signed_in_text text.now ≡ Err e)) }
{
    read_asked(
        alloc,
        text,
        &[
            "contents",
            "logRoot",
            "logLength",
            "mapRoot",
            "timestamp",
            "keyId",
            "signature",
        ],
        2,
    )
}

// The signed checkpoint whose JSON a text is.
fn read_signed(alloc: Global, text: &str) -> Result<Signed, JsonTextError>
    ensures ok { IfOk result (λ it. signed_in_text text.now ≡ Ok (signed_parts it)) }
    ensures err { IfErr result (λ e. (e ≡ fault.OutOfMemory) ⊎ (signed_in_text text.now ≡ Err e)) }
{
    let value = json_in(alloc, text)?;
    match Signed::from_value(alloc, &value) {
        Ok(signed) => Ok(signed),
        Err(fault) => Err(JsonTextError::from(fault)),
    }
}

// The text of a hash, which reads back as that hash.
fn root_text(alloc: Global, root: &AnyHash) -> Result<String, AllocError>
    ensures text { IfOk result (λ text. string_bytes text ≡ hash_text root.now) }
    ensures back { OnOk result (hash_of (hash_text root.now) ≡ Ok root.now) }
{
    hash_reads_back();
    let _bytes = root.bytes();
    root.to_text(alloc)
}

// Four texts one behind the other.
fn join(
    alloc: Global,
    log_root: &[u8],
    map_root: &[u8],
    key_id: &[u8],
    signature: &[u8],
) -> Result<Vec<u8>, AllocError>
    ensures { IfOk result (λ v. v.items ≡ ((log_root.now ++ map_root.now) ++ key_id.now) ++
        signature.now) }
{
    let mut text = Vec::new(alloc);
    text.extend_from_slice(log_root)?;
    text.extend_from_slice(map_root)?;
    text.extend_from_slice(key_id)?;
    text.extend_from_slice(signature)?;
    Ok(text)
}

// The texts of a signed checkpoint one behind the other, and what else it says.
fn spell(alloc: Global, signed: &Signed) -> Result<(Vec<u8>, ShownCheckpoint), AllocError>
    ensures { IfOk result (λ p. Tells (signed_parts signed.now) p.1 p.0.items) }
{
    let checkpoint = &signed.contents().checkpoint;
    let log_root = root_text(alloc, &checkpoint.log_root)?;
    let map_root = root_text(alloc, &checkpoint.map_root)?;
    let signature = signature_text(alloc, signed.signature())?;
    let (log_root, map_root) = (log_root.as_bytes(), map_root.as_bytes());
    let (key_id, signature) = (signed.key_id().as_str().as_bytes(), signature.as_bytes());
    let text = join(alloc, log_root, map_root, key_id, signature)?;
    let shown = ShownCheckpoint {
        log_length: checkpoint.log_length as u64,
        timestamp: signed.contents().timestamp,
        log_root_len: log_root.len(),
        map_root_len: map_root.len(),
        key_id_len: key_id.len(),
        signature_len: signature.len(),
    };
    Ok((text, shown))
}

// The same of the signed checkpoint whose JSON bytes are.
fn parts_in(alloc: Global, json: &[u8]) -> Result<(Vec<u8>, ShownCheckpoint), JsonTextError>
    ensures ok { IfOk result (λ p. TellsText json.now p.1 p.0.items) }
    ensures err { IfErr result (λ e. (e ≡ fault.OutOfMemory) ⊎ IsSignedFault json.now e) }
{
    let Ok(text) = str::from_utf8(json) else {
        return Err(JsonTextError::NotJson);
    };
    let signed = read_signed(alloc, text)?;
    match spell(alloc, &signed) {
        Ok(parts) => Ok(parts),
        Err(_) => Err(JsonTextError::OutOfMemory),
    }
}

/// Reads the JSON text of a signed checkpoint. What else it has is passed over; nothing is verified. What was read may be given to
/// `warg_verify_checkpoint`, and a text that `warg_checkpoint_text` wrote is read as what it was written of.
///   WARG_BAD_ARGUMENT: the text is no signed checkpoint (NotJson, WrongType, Missing, BadText).
#[unsafe(no_mangle)]
pub extern "C" fn warg_read_checkpoint(
    alloc: Global,
    json: &[u8],
    text: &mut [u8],
    used: &mut usize,
    checkpoint: &mut ShownCheckpoint,
) -> u32
    ensures statuses { IsOneOf (WARG_OK ∷ WARG_OUT_OF_MEMORY ∷ WARG_TOO_SMALL ∷
        WARG_BAD_ARGUMENT ∷ []) result }
    ensures ok { result ≡ WARG_OK → TellsText json.now checkpoint.new (take used.new text.new) }
    ensures too_small { result ≡ WARG_TOO_SMALL → NeedsRoom
        (TellsText json.now checkpoint.new) used.new text.old }
    ensures bad_argument { result ≡ WARG_BAD_ARGUMENT → IsNoSigned json.now used.new text.new }
    ensures buffer { Unless (WARG_OK ∷ WARG_BAD_ARGUMENT ∷ []) result (text.new ≡ text.old) }
    ensures used { Unless (WARG_OK ∷ WARG_TOO_SMALL ∷ WARG_BAD_ARGUMENT ∷ []) result
        (used.new ≡ 0) }
    ensures kept { Unless (WARG_OK ∷ WARG_TOO_SMALL ∷ []) result
        (checkpoint.new ≡ checkpoint.old) }
    ensures behind { drop used.new text.new ≡ drop used.new text.old }
    ensures within { result ≢ WARG_TOO_SMALL → used.new ≤ length text.new }
{
    *used = 0;
    match parts_in(alloc, json) {
        Ok((parts, shown)) => {
            *checkpoint = shown;
            finish(Ok(parts), text, used)
        }
        Err(error) => status(Err(refuse_saved(error, text, used))),
    }
}
