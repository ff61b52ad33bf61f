//! Signed checkpoints of a registry. What a checkpoint says is given by itself: the length of the registry's log in leaves, the texts of the
//! roots of its log and of its map, and the time in whole seconds since 1970.
ghost use Rattle.std.specs.Prelude.{◌≡◌, ◌≢◌, ◌≤◌, ◌⊎◌, ◌↔◌, [], ◌∷◌, None, IfOk, IfErr, OnOk};
ghost use Rattle.std.specs.Prelude.{IsSomeAnd, true, length, take, drop};
ghost use Rattle.warg_operator_log.specs.State.{view_of};
ghost use Rattle.warg_c.specs.CheckpointAnswers.{CheckpointErrors, IsJudgedBy, IsJudgedUnder, IsMessage, IsMessageOf};
ghost use Rattle.warg_c.specs.CheckpointAnswers.{JudgesCheckpoint, KeyErrors, OfCheckpoint, SaysCheckpoint};
ghost use Rattle.warg_c.specs.CheckpointAnswers.{SaysNoCheckpoint, StateErrors};
ghost use Rattle.warg_c.specs.declared.call_error.CallError.TheVariants.{BadArgument, OutOfMemory, Refused, UnknownAlgorithm};
ghost use Rattle.warg_c.specs.ProofAnswers.{AreTwoHashes};
ghost use Rattle.warg_c.specs.Statuses.{WARG_OK, WARG_NOT_OPEN, WARG_OUT_OF_MEMORY, WARG_TOO_SMALL, WARG_REFUSED};
ghost use Rattle.warg_c.specs.Statuses.{WARG_BAD_ARGUMENT, WARG_UNKNOWN_ALGORITHM, IsOneOf, Unless};
ghost use Rattle.warg_c.specs.Texts.{ErrorsAs, NeedsRoom};

use crate::any_log::AnyLog;
use crate::argument::key_id_of;
use crate::call_error::{CallError, status};
use crate::given::finish;
use crate::handle::WargLog;
use crate::proof_text::hash_in;
use crate::question::{is_p256_key, parse_signature};
use std::alloc::{AllocError, Global};
use warg_crypto::signing::{KeyID, PublicKey, SignatureError, Verifier, signed_message};
use warg_crypto::{Encode, Signable};
use warg_operator_log::LogState;
use warg_p256::P256Verifier;
use warg_registry::{Checkpoint, TimestampedCheckpoint};

/// The checkpoint that a call says.
pub(crate) fn checkpoint_in(
    log_length: u64,
    log_root: &[u8],
    map_root: &[u8],
    timestamp: u64,
) -> Result<TimestampedCheckpoint, CallError>
    ensures ok { IfOk result (SaysCheckpoint log_length log_root.now map_root.now timestamp) }
    ensures err { IfErr result (ErrorsAs ⊥ ⊥ (SaysNoCheckpoint log_root.now map_root.now)) }
{
    let log_root = hash_in(log_root)?;
    let map_root = hash_in(map_root)?;
    let checkpoint = Checkpoint {
        log_root,
        log_length: log_length as usize,
        map_root,
    };
    Ok(TimestampedCheckpoint {
        checkpoint,
        timestamp,
    })
}

// What is signed of a checkpoint.
fn message_of(alloc: Global, checkpoint: &TimestampedCheckpoint) -> Result<Vec<u8>, AllocError>
    ensures { IfOk result (λ v. IsMessage v.items checkpoint.now) }
{
    let content = checkpoint.encode(alloc)?;
    signed_message(
        alloc,
        TimestampedCheckpoint::signing_prefix(),
        content.as_slice(),
    )
}

fn message_in(
    alloc: Global,
    log_length: u64,
    log_root: &[u8],
    map_root: &[u8],
    timestamp: u64,
) -> Result<Vec<u8>, CallError>
    ensures ok { IfOk result (λ v. IsMessageOf log_length log_root.now map_root.now timestamp
        v.items) }
    ensures err { IfErr result (ErrorsAs (AreTwoHashes log_root.now map_root.now) ⊥
        (SaysNoCheckpoint log_root.now map_root.now)) }
{
    let checkpoint = checkpoint_in(log_length, log_root, map_root, timestamp)?;
    match message_of(alloc, &checkpoint) {
        Ok(message) => Ok(message),
        Err(_) => Err(CallError::OutOfMemory),
    }
}

/// The message that the key of a registry signs of a checkpoint, as `warg_verify` takes it.
///   WARG_BAD_ARGUMENT: the text of a root is none of a hash; nothing is told of it.
#[unsafe(no_mangle)]
pub extern "C" fn warg_checkpoint_message(
    alloc: Global,
    log_length: u64,
    log_root: &[u8],
    map_root: &[u8],
    timestamp: u64,
    bytes: &mut [u8],
    used: &mut usize,
) -> u32
    ensures statuses { IsOneOf (WARG_OK ∷ WARG_OUT_OF_MEMORY ∷ WARG_TOO_SMALL ∷
        WARG_BAD_ARGUMENT ∷ []) result }
    ensures ok { result ≡ WARG_OK → IsMessageOf log_length log_root.now map_root.now timestamp
        (take used.new bytes.new) }
    ensures out_of_memory { result ≡ WARG_OUT_OF_MEMORY → AreTwoHashes log_root.now map_root.now }
    ensures too_small { result ≡ WARG_TOO_SMALL → NeedsRoom
        (IsMessageOf log_length log_root.now map_root.now timestamp) used.new bytes.old }
    ensures bad_argument { result ≡ WARG_BAD_ARGUMENT →
        SaysNoCheckpoint log_root.now map_root.now }
    ensures buffer { result ≢ WARG_OK → bytes.new ≡ bytes.old }
    ensures used { Unless (WARG_OK ∷ WARG_TOO_SMALL ∷ []) result (used.new ≡ 0) }
    ensures behind { drop used.new bytes.new ≡ drop used.new bytes.old }
    ensures within { result ≢ WARG_TOO_SMALL → used.new ≤ length bytes.new }
{
    let outcome = message_in(alloc, log_length, log_root, map_root, timestamp);
    finish(outcome, bytes, used)
}

// Whether a signature belongs to the checkpoint under the key.
fn verify_under(
    alloc: Global,
    key: &PublicKey,
    checkpoint: &TimestampedCheckpoint,
    signature: &[u8],
) -> Result<(), CallError>
    ensures ok { OnOk result (IsJudgedUnder key.now signature.now true checkpoint.now) }
    ensures err { IfErr result (KeyErrors key.now signature.now checkpoint.now) }
{
    if !is_p256_key(key) {
        return Err(CallError::UnknownAlgorithm);
    }
    let signature = parse_signature(alloc, signature)?;
    let message = message_of(alloc, checkpoint)?;
    match P256Verifier.verify(alloc, key, message.as_slice(), &signature) {
        Ok(()) => Ok(()),
        Err(SignatureError::OutOfMemory) => Err(CallError::OutOfMemory),
        Err(SignatureError::Refused) => Err(CallError::Refused),
    }
}

// Whether a key that the state lets sign has signed the checkpoint.
fn verify_by(
    alloc: Global,
    state: &LogState,
    key_id: &[u8],
    checkpoint: &TimestampedCheckpoint,
    signature: &[u8],
) -> Result<(), CallError>
    ensures ok { OnOk result (IsJudgedBy (view_of state.now) key_id.now
        signature.now true checkpoint.now) }
    ensures err { IfErr result (StateErrors (view_of state.now) key_id.now
        signature.now checkpoint.now) }
{
    let key_id = key_id_of(alloc, key_id)?;
    if !state.key_has_permission_to_sign_checkpoints(&key_id) {
        return Err(CallError::Refused);
    }
    let Some(key) = state.public_key(&key_id) else {
        return Err(CallError::Refused);
    };
    verify_under(alloc, key, checkpoint, signature)
}

fn verify_in(
    alloc: Global,
    held: &AnyLog,
    key_id: &[u8],
    checkpoint: &TimestampedCheckpoint,
    signature: &[u8],
) -> Result<(), CallError>
    ensures ok { OnOk result (JudgesCheckpoint held.now key_id.now signature.now true
        checkpoint.now) }
    ensures err { IfErr result (CheckpointErrors held.now key_id.now signature.now
        checkpoint.now) }
{
    match held {
        AnyLog::Package(_) => Err(CallError::BadArgument),
        AnyLog::Operator(log) => verify_by(alloc, log.state(), key_id, checkpoint, signature),
    }
}

/// Whether a checkpoint is signed by a key that the log of a registry's operators lets sign: one that holds `commit`. `key_id` and `signature` are
/// the texts that stand beside the checkpoint. WARG_OK if it is.
///   WARG_REFUSED: the log does not let the key sign, or the signature does not belong.
///   WARG_BAD_ARGUMENT: the text of a root is none of a hash, the key id is no UTF-8, the signature's text can't be read, or the log is one of a
///     package; nothing is told of it.
///   WARG_OUT_OF_MEMORY: nothing is said; the roots are hashes, the log is one of operators, and the key id is UTF-8.
///   WARG_UNKNOWN_ALGORITHM: the key that may sign is none of `ecdsa-p256`. Verify the message of `warg_checkpoint_message` yourself then.
#[unsafe(no_mangle)]
pub extern "C" fn warg_verify_checkpoint(
    alloc: Global,
    log: &mut WargLog,
    log_length: u64,
    log_root: &[u8],
    map_root: &[u8],
    timestamp: u64,
    key_id: &[u8],
    signature: &[u8],
) -> u32
    ensures statuses { IsOneOf (WARG_OK ∷ WARG_NOT_OPEN ∷ WARG_OUT_OF_MEMORY ∷ WARG_REFUSED ∷
        WARG_BAD_ARGUMENT ∷ WARG_UNKNOWN_ALGORITHM ∷ []) result }
    ensures not_open { (result ≡ WARG_NOT_OPEN) ↔ (log.old.owned.kept ≡ None) }
    ensures ok { result ≡ WARG_OK → IsSomeAnd log.old.owned.kept (λ held.
        OfCheckpoint log_length log_root.now map_root.now timestamp
        (JudgesCheckpoint held key_id.now signature.now true)) }
    ensures out_of_memory { result ≡ WARG_OUT_OF_MEMORY → IsSomeAnd log.old.owned.kept (λ held.
        OfCheckpoint log_length log_root.now map_root.now timestamp
        (λ c. CheckpointErrors held key_id.now signature.now c OutOfMemory)) }
    ensures refused { result ≡ WARG_REFUSED → IsSomeAnd log.old.owned.kept (λ held.
        OfCheckpoint log_length log_root.now map_root.now timestamp
        (λ c. CheckpointErrors held key_id.now signature.now c Refused)) }
    ensures bad_argument { result ≡ WARG_BAD_ARGUMENT → IsSomeAnd log.old.owned.kept (λ held.
        SaysNoCheckpoint log_root.now map_root.now ⊎
        OfCheckpoint log_length log_root.now map_root.now timestamp
        (λ c. CheckpointErrors held key_id.now signature.now c BadArgument)) }
    ensures unknown_algorithm { result ≡ WARG_UNKNOWN_ALGORITHM → IsSomeAnd log.old.owned.kept
        (λ held. OfCheckpoint log_length log_root.now map_root.now timestamp
        (λ c. CheckpointErrors held key_id.now signature.now c UnknownAlgorithm)) }
    ensures unchanged { log.new.owned.kept ≡ log.old.owned.kept }
{
    let Some(held) = log.take(alloc) else {
        return status(Err(CallError::NotOpen));
    };
    let outcome = match checkpoint_in(log_length, log_root, map_root, timestamp) {
        Ok(checkpoint) => verify_in(alloc, &held, key_id, &checkpoint, signature),
        Err(call_error) => Err(call_error),
    };
    log.put(held);
    status(outcome)
}
