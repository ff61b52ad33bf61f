//! Proofs under the trees of a registry, as texts of base64. Each is one that `warg_verify_inclusion`,
//! `warg_verify_consistency`, `warg_verify_presence` or `warg_verify_absence` takes under the roots and the length of
//! the moment.
ghost use Rattle.std.specs.Prelude.{◌≡◌, ◌≢◌, ◌<◌, ◌≤◌, ◌↔◌, [], ◌∷◌, None, Ok, IfOk, IfErr, IsOk, IsSomeAnd};
ghost use Rattle.std.specs.Prelude.{length, take, drop};
ghost use Rattle.warg_crypto.specs.HashText.{hash_of};
ghost use Rattle.warg_transparency.specs.Texts.{log_proof_of, log_proof_text};
ghost use Rattle.warg_c.specs.ProofAnswers.{IsNoText};
ghost use Rattle.warg_c.specs.Registries.{TellsConsistency, TellsHead, TellsHeadOf, TellsInclusion, head_text};
ghost use Rattle.warg_c.specs.Statuses.{WARG_OK, WARG_NOT_OPEN, WARG_OUT_OF_MEMORY, WARG_TOO_SMALL, WARG_NONE};
ghost use Rattle.warg_c.specs.Statuses.{WARG_BAD_ARGUMENT, IsOneOf, Unless};
ghost use Rattle.warg_c.specs.Texts.{Always, ErrorsAs, NeedsRoom};

use crate::call_error::{CallError, status};
use crate::exports::registries::joined;
use crate::given::{finish, finish_shown};
use crate::proof_text::hash_in;
use crate::registry::Registry;
use crate::registry_handle::WargRegistry;
use std::alloc::{AllocError, Global};
use warg_log_records::RecordId;
use warg_registry::LogId;
use warg_transparency::LogProof;

/// How many bytes are the text of the id of a log's last record, 0 where it has none, and the text of the proof behind
/// it.
#[repr(C)]
#[derive(Clone, Copy)]
pub struct HeadLengths {
    pub record_id_len: usize,
    pub proof_len: usize,
}

// The text of a proof on a log, if there is one.
fn proof_text(alloc: Global, found: Option<LogProof>) -> Result<Vec<u8>, CallError>
    ensures ok { IfOk result (λ v. IsSomeAnd found (λ path. (v.items ≡ log_proof_text path) ×
        (log_proof_of v.items ≡ Ok path))) }
    ensures err { IfErr result (ErrorsAs Always (found ≡ None) ⊥) }
{
    let Some(proof) = found else {
        return Err(CallError::Absent);
    };
    match proof.to_text(alloc) {
        Ok(text) => Ok(text.into_bytes()),
        Err(_) => Err(CallError::OutOfMemory),
    }
}

// The text of the proof of the leaf at the place.
fn inclusion(alloc: Global, held: &Registry, place: u64) -> Result<Vec<u8>, CallError>
    ensures ok { IfOk result (λ v. TellsInclusion held.now.trees place v.items) }
    ensures err { IfErr result (ErrorsAs (place < length held.now.trees)
        (length held.now.trees ≤ place) ⊥) }
{
    if place >= held.trees.len() as u64 {
        return Err(CallError::Absent);
    }
    match held.trees.inclusion(place) {
        Ok(found) => proof_text(alloc, found),
        Err(_) => Err(CallError::OutOfMemory),
    }
}

/// The proof that the leaf at a place is in the log of all leaves of the moment, as `warg_verify_inclusion` takes it.
///   WARG_NONE: there is no leaf at this place.
#[unsafe(no_mangle)]
pub extern "C" fn warg_registry_inclusion(
    alloc: Global,
    registry: &mut WargRegistry,
    place: u64,
    text: &mut [u8],
    used: &mut usize,
) -> u32
    ensures statuses { IsOneOf (WARG_OK ∷ WARG_NOT_OPEN ∷ WARG_OUT_OF_MEMORY ∷ WARG_TOO_SMALL ∷
        WARG_NONE ∷ []) result }
    ensures not_open { (result ≡ WARG_NOT_OPEN) ↔ (registry.old.owned.kept ≡ None) }
    ensures ok { result ≡ WARG_OK → IsSomeAnd registry.old.owned.kept (λ held.
        TellsInclusion held.trees place (take used.new text.new)) }
    ensures out_of_memory { result ≡ WARG_OUT_OF_MEMORY → IsSomeAnd registry.old.owned.kept
        (λ held. place < length held.trees) }
    ensures too_small { result ≡ WARG_TOO_SMALL → IsSomeAnd registry.old.owned.kept (λ held.
        NeedsRoom (TellsInclusion held.trees place) used.new text.old) }
    ensures none { result ≡ WARG_NONE → IsSomeAnd registry.old.owned.kept (λ held.
        length held.trees ≤ place) }
    ensures unchanged { registry.new.owned.kept ≡ registry.old.owned.kept }
    ensures buffer { result ≢ WARG_OK → text.new ≡ text.old }
    ensures used { Unless (WARG_OK ∷ WARG_TOO_SMALL ∷ []) result (used.new ≡ 0) }
    ensures behind { drop used.new text.new ≡ drop used.new text.old }
    ensures within { result ≢ WARG_TOO_SMALL → used.new ≤ length text.new }
{
    *used = 0;
    let Some(held) = registry.take(alloc) else {
        return status(Err(CallError::NotOpen));
    };
    let outcome = inclusion(alloc, &held, place);
    registry.put(held);
    finish(outcome, text, used)
}

// The text of the proof that the log goes on from its first leaves.
fn consistency(alloc: Global, held: &Registry, first: u64) -> Result<Vec<u8>, CallError>
    ensures ok { IfOk result (λ v. TellsConsistency held.now.trees first v.items) }
    ensures err { IfErr result (ErrorsAs (first ≤ length held.now.trees)
        (length held.now.trees < first) ⊥) }
{
    if first > held.trees.len() as u64 {
        return Err(CallError::Absent);
    }
    match held.trees.consistency(first) {
        Ok(found) => proof_text(alloc, found),
        Err(_) => Err(CallError::OutOfMemory),
    }
}

/// The proof that the log of all leaves of the moment begins with the one of its first `first_length` leaves, as
/// `warg_verify_consistency` takes it.
///   WARG_NONE: there are not that many leaves.
#[unsafe(no_mangle)]
pub extern "C" fn warg_registry_consistency(
    alloc: Global,
    registry: &mut WargRegistry,
    first_length: u64,
    text: &mut [u8],
    used: &mut usize,
) -> u32
    ensures statuses { IsOneOf (WARG_OK ∷ WARG_NOT_OPEN ∷ WARG_OUT_OF_MEMORY ∷ WARG_TOO_SMALL ∷
        WARG_NONE ∷ []) result }
    ensures not_open { (result ≡ WARG_NOT_OPEN) ↔ (registry.old.owned.kept ≡ None) }
    ensures ok { result ≡ WARG_OK → IsSomeAnd registry.old.owned.kept (λ held.
        TellsConsistency held.trees first_length (take used.new text.new)) }
    ensures out_of_memory { result ≡ WARG_OUT_OF_MEMORY → IsSomeAnd registry.old.owned.kept
        (λ held. first_length ≤ length held.trees) }
    ensures too_small { result ≡ WARG_TOO_SMALL → IsSomeAnd registry.old.owned.kept (λ held.
        NeedsRoom (TellsConsistency held.trees first_length) used.new text.old) }
    ensures none { result ≡ WARG_NONE → IsSomeAnd registry.old.owned.kept (λ held.
        length held.trees < first_length) }
    ensures unchanged { registry.new.owned.kept ≡ registry.old.owned.kept }
    ensures buffer { result ≢ WARG_OK → text.new ≡ text.old }
    ensures used { Unless (WARG_OK ∷ WARG_TOO_SMALL ∷ []) result (used.new ≡ 0) }
    ensures behind { drop used.new text.new ≡ drop used.new text.old }
    ensures within { result ≢ WARG_TOO_SMALL → used.new ≤ length text.new }
{
    *used = 0;
    let Some(held) = registry.take(alloc) else {
        return status(Err(CallError::NotOpen));
    };
    let outcome = consistency(alloc, &held, first_length);
    registry.put(held);
    finish(outcome, text, used)
}

// The text of the id of a head: of none it is empty.
fn head_text(alloc: Global, head: Option<RecordId>) -> Result<Vec<u8>, AllocError>
    ensures { IfOk result (λ v. v.items ≡ head_text head) }
{
    match head {
        Some(record_id) => Ok(record_id.to_string(alloc)?.into_bytes()),
        None => Ok(Vec::new(alloc)),
    }
}

// The text of the id of the head, if the log has one, and that of the proof.
fn head_of(
    alloc: Global,
    held: &Registry,
    log_id: &LogId,
) -> Result<(Vec<u8>, HeadLengths), AllocError>
    ensures { IfOk result (λ p. TellsHead held.now.trees log_id.now p.1 p.0.items) }
{
    let head = held.trees.head(log_id);
    let id = head_text(alloc, head)?;
    let proof = held.trees.head_proof(log_id)?;
    let told = proof.to_text(alloc)?;
    let behind = told.as_bytes();
    let lengths = HeadLengths {
        record_id_len: id.as_slice().len(),
        proof_len: behind.len(),
    };
    let text = joined(id, behind)?;
    Ok((text, lengths))
}

// The same of the log whose id has this text.
fn head_in(
    alloc: Global,
    held: &Registry,
    log_id: &[u8],
) -> Result<(Vec<u8>, HeadLengths), CallError>
    ensures ok { IfOk result (λ p. TellsHeadOf held.now.trees log_id.now p.1 p.0.items) }
    ensures err { IfErr result (ErrorsAs (IsOk (hash_of log_id.now)) ⊥ (IsNoText hash_of log_id.now)) }
{
    let hash = hash_in(log_id)?;
    match head_of(alloc, held, &LogId::from(hash)) {
        Ok(told) => Ok(told),
        Err(_) => Err(CallError::OutOfMemory),
    }
}

/// The last record of a log among the leaves of the moment, and the proof of it: the text of the record's id, and
/// behind it the text of the proof, as `warg_verify_presence` takes it. Of a log that has no leaf there is no id, and
/// the proof is one that `warg_verify_absence` takes.
///   WARG_BAD_ARGUMENT: the text is none of an id; nothing is told of it.
#[unsafe(no_mangle)]
pub extern "C" fn warg_registry_head(
    alloc: Global,
    registry: &mut WargRegistry,
    log_id: &[u8],
    text: &mut [u8],
    used: &mut usize,
    head: &mut HeadLengths,
) -> u32
    ensures statuses { IsOneOf (WARG_OK ∷ WARG_NOT_OPEN ∷ WARG_OUT_OF_MEMORY ∷ WARG_TOO_SMALL ∷
        WARG_BAD_ARGUMENT ∷ []) result }
    ensures not_open { (result ≡ WARG_NOT_OPEN) ↔ (registry.old.owned.kept ≡ None) }
    ensures ok { result ≡ WARG_OK → IsSomeAnd registry.old.owned.kept (λ held.
        TellsHeadOf held.trees log_id.now head.new (take used.new text.new)) }
    ensures out_of_memory { result ≡ WARG_OUT_OF_MEMORY → IsOk (hash_of log_id.now) }
    ensures too_small { result ≡ WARG_TOO_SMALL → IsSomeAnd registry.old.owned.kept (λ held.
        NeedsRoom (TellsHeadOf held.trees log_id.now head.new) used.new text.old) }
    ensures bad_argument { result ≡ WARG_BAD_ARGUMENT → IsNoText hash_of log_id.now }
    ensures unchanged { registry.new.owned.kept ≡ registry.old.owned.kept }
    ensures buffer { result ≢ WARG_OK → text.new ≡ text.old }
    ensures used { Unless (WARG_OK ∷ WARG_TOO_SMALL ∷ []) result (used.new ≡ 0) }
    ensures behind { drop used.new text.new ≡ drop used.new text.old }
    ensures unshown { Unless (WARG_OK ∷ WARG_TOO_SMALL ∷ []) result (head.new ≡ head.old) }
    ensures within { result ≢ WARG_TOO_SMALL → used.new ≤ length text.new }
{
    *used = 0;
    let Some(held) = registry.take(alloc) else {
        return status(Err(CallError::NotOpen));
    };
    let outcome = head_in(alloc, &held, log_id);
    registry.put(held);
    finish_shown(outcome, text, used, head)
}
