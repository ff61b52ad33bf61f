//! What a registry proves of its log and its map. These are functions of their arguments alone. Roots are texts of hashes (`sha256:` and 64
//! digits of hex), ids are texts of ids, proofs are texts of base64.
//!   WARG_OK: the proof holds. What that is worth is said of each call: there, two strings collide if they differ and have one hash, and are
//!     hashed at one place on two ways to the root, the proof's and the log's or the map's own. No call knows whose root it is, nor whether
//!     a log of this root has this length: so a log's length and root have to be signed together, and the map's root with them.
//!   WARG_REFUSED: it does not hold.
//!   WARG_BAD_ARGUMENT: a text is not of its form. `warg_proof_fault` says what is wrong with a proof's.
//!   WARG_OUT_OF_MEMORY: nothing is said. The texts of the hashes are of their form.
ghost use Rattle.std.specs.Prelude.{◌≡◌, [], ◌∷◌, OnOk, IfErr};
ghost use Rattle.warg_c.specs.ProofAnswers.{AreHashes, AreTwoHashes, ShowsConsistency, ShowsInclusion, IsAbsence};
ghost use Rattle.warg_c.specs.ProofAnswers.{IsConsistency, IsInclusion, IsNoAbsence, IsNoConsistency, IsNoInclusion};
ghost use Rattle.warg_c.specs.ProofAnswers.{IsNoPresence, IsPresence, ShowsAbsence, ShowsNoConsistency};
ghost use Rattle.warg_c.specs.ProofAnswers.{ShowsNoInclusion, ShowsNoAbsence, ShowsNoPresence, ShowsPresence};
ghost use Rattle.warg_c.specs.ProofAnswers.{ProofErrors};
ghost use Rattle.warg_c.specs.Statuses.{WARG_OK, WARG_OUT_OF_MEMORY, WARG_REFUSED, WARG_BAD_ARGUMENT, IsOneOf};

use crate::call_error::{CallError, status};
use crate::proof_text::{hash_in, leaf_in, log_proof_in, map_proof_in};
use std::alloc::Global;
use warg_registry::{Checkpoint, LogId, MapLeaf};
use warg_transparency::{verify_absence, verify_consistency, verify_inclusion, verify_presence};

// A place in a log, and the log's length, in leaves.
#[derive(Clone, Copy)]
struct Place {
    index: u64,
    length: u64,
}

fn inclusion(
    alloc: Global,
    log_id: &[u8],
    record_id: &[u8],
    place: Place,
    root: &[u8],
    proof: &[u8],
) -> Result<(), CallError>
    ensures ok { OnOk result (IsInclusion log_id.now record_id.now root.now proof.now
        (ShowsInclusion place.index place.length)) }
    ensures err { IfErr result (ProofErrors
        (AreHashes log_id.now record_id.now root.now)
        (IsInclusion log_id.now record_id.now root.now proof.now
        (ShowsNoInclusion place.index place.length))
        (IsNoInclusion log_id.now record_id.now root.now proof.now)) }
{
    let leaf = leaf_in(log_id, record_id)?;
    let root = hash_in(root)?;
    let proof = log_proof_in(alloc, proof)?;
    if verify_inclusion(&leaf, place.index, place.length, proof.hashes(), &root) {
        Ok(())
    } else {
        Err(CallError::Refused)
    }
}

/// That the leaf of a log's record stands at a place of the registry's log, which has `length` leaves and this root.
///   WARG_OK: every log of this length and root has the leaf at this place, or two strings collide.
#[unsafe(no_mangle)]
pub extern "C" fn warg_verify_inclusion(
    alloc: Global,
    log_id: &[u8],
    record_id: &[u8],
    place: u64,
    length: u64,
    root: &[u8],
    proof: &[u8],
) -> u32
    ensures statuses { IsOneOf (WARG_OK ∷ WARG_OUT_OF_MEMORY ∷ WARG_REFUSED ∷
        WARG_BAD_ARGUMENT ∷ []) result }
    ensures ok { result ≡ WARG_OK →
        IsInclusion log_id.now record_id.now root.now proof.now (ShowsInclusion place length) }
    ensures out_of_memory { result ≡ WARG_OUT_OF_MEMORY →
        AreHashes log_id.now record_id.now root.now }
    ensures refused { result ≡ WARG_REFUSED →
        IsInclusion log_id.now record_id.now root.now proof.now (ShowsNoInclusion place length) }
    ensures bad_argument { result ≡ WARG_BAD_ARGUMENT →
        IsNoInclusion log_id.now record_id.now root.now proof.now }
{
    let leaf_place = Place {
        index: place,
        length,
    };
    status(inclusion(alloc, log_id, record_id, leaf_place, root, proof))
}

fn consistency(
    alloc: Global,
    old_length: u64,
    old_root: &[u8],
    new_length: u64,
    new_root: &[u8],
    proof: &[u8],
) -> Result<(), CallError>
    ensures ok { OnOk result (IsConsistency old_root.now new_root.now proof.now
        (ShowsConsistency old_length new_length)) }
    ensures err { IfErr result (ProofErrors (AreTwoHashes old_root.now new_root.now)
        (IsConsistency old_root.now new_root.now proof.now
        (ShowsNoConsistency old_length new_length))
        (IsNoConsistency old_root.now new_root.now proof.now)) }
{
    let old_root = hash_in(old_root)?;
    let new_root = hash_in(new_root)?;
    let proof = log_proof_in(alloc, proof)?;
    // Of a checkpoint's map nothing is asked here.
    let old = Checkpoint {
        log_root: old_root,
        log_length: old_length as usize,
        map_root: old_root,
    };
    let new = Checkpoint {
        log_root: new_root,
        log_length: new_length as usize,
        map_root: new_root,
    };
    if verify_consistency(&old, &new, proof.hashes()) {
        Ok(())
    } else {
        Err(CallError::Refused)
    }
}

/// That the registry's log of `new_length` leaves begins with the one of `old_length` leaves.
///   WARG_OK: every log of the new length and root begins with one of the old length and root, or two strings collide.
#[unsafe(no_mangle)]
pub extern "C" fn warg_verify_consistency(
    alloc: Global,
    old_length: u64,
    old_root: &[u8],
    new_length: u64,
    new_root: &[u8],
    proof: &[u8],
) -> u32
    ensures statuses { IsOneOf (WARG_OK ∷ WARG_OUT_OF_MEMORY ∷ WARG_REFUSED ∷
        WARG_BAD_ARGUMENT ∷ []) result }
    ensures ok { result ≡ WARG_OK →
        IsConsistency old_root.now new_root.now proof.now (ShowsConsistency old_length new_length) }
    ensures out_of_memory { result ≡ WARG_OUT_OF_MEMORY →
        AreTwoHashes old_root.now new_root.now }
    ensures refused { result ≡ WARG_REFUSED →
        IsConsistency old_root.now new_root.now proof.now
        (ShowsNoConsistency old_length new_length) }
    ensures bad_argument { result ≡ WARG_BAD_ARGUMENT →
        IsNoConsistency old_root.now new_root.now proof.now }
{
    status(consistency(alloc, old_length, old_root, new_length, new_root, proof))
}

fn presence(
    alloc: Global,
    log_id: &[u8],
    record_id: &[u8],
    root: &[u8],
    proof: &[u8],
) -> Result<(), CallError>
    ensures ok { OnOk result (IsPresence log_id.now record_id.now root.now proof.now
        ShowsPresence) }
    ensures err { IfErr result (ProofErrors
        (AreHashes log_id.now record_id.now root.now)
        (IsPresence log_id.now record_id.now root.now proof.now ShowsNoPresence)
        (IsNoPresence log_id.now record_id.now root.now proof.now)) }
{
    let leaf = leaf_in(log_id, record_id)?;
    let root = hash_in(root)?;
    let proof = map_proof_in(alloc, proof)?;
    let head = MapLeaf {
        record_id: leaf.record_id,
    };
    if verify_presence(&leaf.log_id, &head, &proof, &root) {
        Ok(())
    } else {
        Err(CallError::Refused)
    }
}

/// That the registry's map says that a log's last record is this one.
///   WARG_OK: every map of this root says so, or two strings collide.
#[unsafe(no_mangle)]
pub extern "C" fn warg_verify_presence(
    alloc: Global,
    log_id: &[u8],
    record_id: &[u8],
    root: &[u8],
    proof: &[u8],
) -> u32
    ensures statuses { IsOneOf (WARG_OK ∷ WARG_OUT_OF_MEMORY ∷ WARG_REFUSED ∷
        WARG_BAD_ARGUMENT ∷ []) result }
    ensures ok { result ≡ WARG_OK →
        IsPresence log_id.now record_id.now root.now proof.now ShowsPresence }
    ensures out_of_memory { result ≡ WARG_OUT_OF_MEMORY →
        AreHashes log_id.now record_id.now root.now }
    ensures refused { result ≡ WARG_REFUSED →
        IsPresence log_id.now record_id.now root.now proof.now ShowsNoPresence }
    ensures bad_argument { result ≡ WARG_BAD_ARGUMENT →
        IsNoPresence log_id.now record_id.now root.now proof.now }
{
    status(presence(alloc, log_id, record_id, root, proof))
}

fn absence(alloc: Global, log_id: &[u8], root: &[u8], proof: &[u8]) -> Result<(), CallError>
    ensures ok { OnOk result (IsAbsence log_id.now root.now proof.now ShowsAbsence) }
    ensures err { IfErr result (ProofErrors (AreTwoHashes log_id.now root.now)
        (IsAbsence log_id.now root.now proof.now ShowsNoAbsence)
        (IsNoAbsence log_id.now root.now proof.now)) }
{
    let log = hash_in(log_id)?;
    let root = hash_in(root)?;
    let proof = map_proof_in(alloc, proof)?;
    if verify_absence(&LogId::from(log), &proof, &root) {
        Ok(())
    } else {
        Err(CallError::Refused)
    }
}

/// That the registry's map says nothing of a log.
///   WARG_OK: no map of this root says anything of the log, or two strings collide.
#[unsafe(no_mangle)]
pub extern "C" fn warg_verify_absence(
    alloc: Global,
    log_id: &[u8],
    root: &[u8],
    proof: &[u8],
) -> u32
    ensures statuses { IsOneOf (WARG_OK ∷ WARG_OUT_OF_MEMORY ∷ WARG_REFUSED ∷
        WARG_BAD_ARGUMENT ∷ []) result }
    ensures ok { result ≡ WARG_OK →
        IsAbsence log_id.now root.now proof.now ShowsAbsence }
    ensures out_of_memory { result ≡ WARG_OUT_OF_MEMORY →
        AreTwoHashes log_id.now root.now }
    ensures refused { result ≡ WARG_REFUSED →
        IsAbsence log_id.now root.now proof.now ShowsNoAbsence }
    ensures bad_argument { result ≡ WARG_BAD_ARGUMENT →
        IsNoAbsence log_id.now root.now proof.now }
{
    status(absence(alloc, log_id, root, proof))
}
