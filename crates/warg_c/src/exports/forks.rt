//! Whether what a registry said twice goes together. These are functions of their arguments alone, as those of proofs are, and ask the registry
//! for nothing. Two clients tell a fork by them from what each was shown.
//!   WARG_OK: `comparison` says how the two compare.
//!   WARG_BAD_ARGUMENT: a text is not of its form. `warg_proof_fault` says what is wrong with a proof's.
//!   WARG_OUT_OF_MEMORY: nothing is said. The texts of the hashes before the first proof are of their form.
ghost use Rattle.std.specs.Prelude.{◌≡◌, ◌≢◌, ◌⊎◌, [], ◌∷◌, IfOk, IfErr};
ghost use Rattle.warg_c.specs.ForkAnswers.{AreCompared, AreFourHashes, AreLeavesCompared, AreNotCompared};
ghost use Rattle.warg_c.specs.ForkAnswers.{HasHashTexts, IsNoShownText, IsShownText};
ghost use Rattle.warg_c.specs.ForkAnswers.{checkpoint_number, checkpoint_said, leaf_number, shown_said};
ghost use Rattle.warg_c.specs.Statuses.{WARG_OK, WARG_OUT_OF_MEMORY, WARG_BAD_ARGUMENT, IsOneOf};
ghost use Rattle.warg_c.specs.Texts.{ErrorsAs};

use crate::call_error::{CallError, status};
use crate::given::finish_value;
use crate::proof_text::{checkpoint_in, hash_in, leaf_in, log_proof_in};
use std::alloc::Global;
use warg_registry::{Checkpoint, LogLeaf};
use warg_transparency::{
    CheckpointComparison, LeafComparison, LogProof, ShownLeaf, compare_checkpoints, compare_leaves,
};

/// A checkpoint as a call says it.
#[derive(Clone, Copy)]
pub(crate) struct CheckpointText<'a> {
    pub(crate) length: u64,
    pub(crate) log_root: &'a [u8],
    pub(crate) map_root: &'a [u8],
}

// A leaf, with the log and the proof that are to show it, as a call says them.
#[derive(Clone, Copy)]
struct LeafText<'a> {
    length: u64,
    root: &'a [u8],
    log_id: &'a [u8],
    record_id: &'a [u8],
    proof: &'a [u8],
}

// How one checkpoint of a registry compares with an older one.
fn checkpoint_number(comparison: CheckpointComparison) -> u32
    ensures { result ≡ checkpoint_number comparison }
{
    match comparison {
        // The lengths and both roots are equal.
        CheckpointComparison::Same => 0,
        // The log is longer, and the proof shows that it begins with the older one's.
        CheckpointComparison::GoesOn => 1,
        // The log is shorter than the older one's.
        CheckpointComparison::GoesBack => 2,
        // The lengths are equal and a root differs: no list of leaves has both. Two signatures show that the registry forked.
        CheckpointComparison::Fork => 3,
        // The log is longer, and the proof does not show that it begins with the older one's.
        CheckpointComparison::NotShown => 4,
    }
}

// How the leaves compare that are shown at one place of a registry's log.
fn leaf_number(comparison: LeafComparison) -> u32
    ensures { result ≡ leaf_number comparison }
{
    match comparison {
        // Both proofs hold, and the leaves are one.
        LeafComparison::Same => 0,
        // Both proofs hold, and the leaves differ: neither log begins with the other one, or two strings collide.
        LeafComparison::Fork => 1,
        // One of the proofs does not hold.
        LeafComparison::NotShown => 2,
    }
}

// How the checkpoints of these texts compare, by the proof of its text.
fn checkpoints_compared(
    alloc: Global,
    old: &CheckpointText<'_>,
    new: &CheckpointText<'_>,
    proof: &[u8],
) -> Result<u32, CallError>
    ensures ok { IfOk result (AreCompared (checkpoint_said old.now) (checkpoint_said new.now)
        proof.now) }
    ensures err { IfErr result (ErrorsAs
        (AreFourHashes (checkpoint_said old.now) (checkpoint_said new.now)) ⊥
        (AreNotCompared (checkpoint_said old.now) (checkpoint_said new.now) proof.now)) }
{
    let old = checkpoint_in(old.length, old.log_root, old.map_root)?;
    let new = checkpoint_in(new.length, new.log_root, new.map_root)?;
    let proof = log_proof_in(alloc, proof)?;
    Ok(checkpoint_number(compare_checkpoints(&old, &new, &proof)))
}

/// Compares two checkpoints of a registry, by a proof of consistency as `warg_verify_consistency` takes it. It is looked at where the newer log
/// is longer, and may be "" elsewhere. Their times are not compared.
///   WARG_OK: `comparison` is one of `enum warg_checkpoint_case`.
#[unsafe(no_mangle)]
pub extern "C" fn warg_compare_checkpoints(
    alloc: Global,
    old_length: u64,
    old_log_root: &[u8],
    old_map_root: &[u8],
    new_length: u64,
    new_log_root: &[u8],
    new_map_root: &[u8],
    proof: &[u8],
    comparison: &mut u32,
) -> u32
    ensures statuses { IsOneOf (WARG_OK ∷ WARG_OUT_OF_MEMORY ∷ WARG_BAD_ARGUMENT ∷ []) result }
    ensures ok { result ≡ WARG_OK → AreCompared (old_length, (old_log_root.now, old_map_root.now))
        (new_length, (new_log_root.now, new_map_root.now)) proof.now comparison.new }
    ensures out_of_memory { result ≡ WARG_OUT_OF_MEMORY →
        AreFourHashes (old_length, (old_log_root.now, old_map_root.now))
        (new_length, (new_log_root.now, new_map_root.now)) }
    ensures bad_argument { result ≡ WARG_BAD_ARGUMENT →
        AreNotCompared (old_length, (old_log_root.now, old_map_root.now))
        (new_length, (new_log_root.now, new_map_root.now)) proof.now }
    ensures kept { result ≢ WARG_OK → comparison.new ≡ comparison.old }
{
    let old = CheckpointText {
        length: old_length,
        log_root: old_log_root,
        map_root: old_map_root,
    };
    let new = CheckpointText {
        length: new_length,
        log_root: new_log_root,
        map_root: new_map_root,
    };
    finish_value(checkpoints_compared(alloc, &old, &new, proof), comparison)
}

// The leaf of these texts, with the checkpoint and the proof that are to show it. Of the checkpoint's map nothing is asked.
fn shown_in(
    alloc: Global,
    said: &LeafText<'_>,
) -> Result<(Checkpoint, LogLeaf, LogProof), CallError>
    ensures ok { IfOk result (λ t. IsShownText (shown_said said.now) t.0 t.1 t.2) }
    ensures err { IfErr result (ErrorsAs (HasHashTexts (shown_said said.now)) ⊥
        (IsNoShownText (shown_said said.now))) }
{
    let root = hash_in(said.root)?;
    let leaf = leaf_in(said.log_id, said.record_id)?;
    let proof = log_proof_in(alloc, said.proof)?;
    let checkpoint = Checkpoint {
        log_root: root,
        log_length: said.length as usize,
        map_root: root,
    };
    Ok((checkpoint, leaf, proof))
}

// How the leaves of these texts compare, by the proofs of theirs.
fn leaves_compared(
    alloc: Global,
    place: u64,
    old: &LeafText<'_>,
    new: &LeafText<'_>,
) -> Result<u32, CallError>
    ensures ok { IfOk result (AreLeavesCompared place (shown_said old.now) (shown_said new.now)) }
    ensures err { IfErr result (ErrorsAs (HasHashTexts (shown_said old.now)) ⊥
        (IsNoShownText (shown_said old.now) ⊎ IsNoShownText (shown_said new.now))) }
{
    let (checkpoint, leaf, proof) = shown_in(alloc, old)?;
    let (other_checkpoint, other_leaf, other_proof) = shown_in(alloc, new)?;
    let old = ShownLeaf {
        checkpoint: &checkpoint,
        leaf: &leaf,
        proof: &proof,
    };
    let new = ShownLeaf {
        checkpoint: &other_checkpoint,
        leaf: &other_leaf,
        proof: &other_proof,
    };
    Ok(leaf_number(compare_leaves(place, &old, &new)))
}

/// Compares the leaves that two clients were shown at one place of a registry's log, each by a proof of inclusion under a checkpoint of its own, as
/// `warg_verify_inclusion` takes it. The lengths may differ.
///   WARG_OK: `comparison` is one of `enum warg_leaf_case`.
#[unsafe(no_mangle)]
pub extern "C" fn warg_compare_leaves(
    alloc: Global,
    place: u64,
    old_length: u64,
    old_root: &[u8],
    old_log_id: &[u8],
    old_record_id: &[u8],
    old_proof: &[u8],
    new_length: u64,
    new_root: &[u8],
    new_log_id: &[u8],
    new_record_id: &[u8],
    new_proof: &[u8],
    comparison: &mut u32,
) -> u32
    ensures statuses { IsOneOf (WARG_OK ∷ WARG_OUT_OF_MEMORY ∷ WARG_BAD_ARGUMENT ∷ []) result }
    ensures ok { result ≡ WARG_OK → AreLeavesCompared place
        ((old_length, old_root.now), ((old_log_id.now, old_record_id.now), old_proof.now))
        ((new_length, new_root.now), ((new_log_id.now, new_record_id.now), new_proof.now))
        comparison.new }
    ensures out_of_memory { result ≡ WARG_OUT_OF_MEMORY → HasHashTexts
        ((old_length, old_root.now), ((old_log_id.now, old_record_id.now), old_proof.now)) }
    ensures bad_argument { result ≡ WARG_BAD_ARGUMENT →
        IsNoShownText
        ((old_length, old_root.now), ((old_log_id.now, old_record_id.now), old_proof.now)) ⊎
        IsNoShownText
        ((new_length, new_root.now), ((new_log_id.now, new_record_id.now), new_proof.now)) }
    ensures kept { result ≢ WARG_OK → comparison.new ≡ comparison.old }
{
    let old = LeafText {
        length: old_length,
        root: old_root,
        log_id: old_log_id,
        record_id: old_record_id,
        proof: old_proof,
    };
    let new = LeafText {
        length: new_length,
        root: new_root,
        log_id: new_log_id,
        record_id: new_record_id,
        proof: new_proof,
    };
    finish_value(leaves_compared(alloc, place, &old, &new), comparison)
}
