//! Whether what a registry showed twice under one root can both be so. These are functions of their arguments alone, as those of proofs are, and
//! ask the registry for nothing. Two clients tell a contradiction by them from what each was shown.
//!   WARG_OK: `comparison` says how the two compare. Where two strings collide, they differ and have one hash, and are hashed at one place on
//!     two ways to the root, those of the two proofs.
//!   WARG_BAD_ARGUMENT: a text is not of its form. `warg_proof_fault` says what is wrong with a proof's.
//!   WARG_OUT_OF_MEMORY: nothing is said. The texts before the first proof are of their form.
ghost use Rattle.std.specs.Prelude.{◌≡◌, ◌≢◌, [], ◌∷◌, Ok, IfOk, IfErr, IsOk};
ghost use Rattle.warg_c.specs.ContradictionAnswers.{AreBeginningsCompared, AreBeginningsNotCompared, AreHeadsCompared, AreHeadsNotCompared};
ghost use Rattle.warg_c.specs.ContradictionAnswers.{HaveBeginningHashes, HaveHeadHashes, IsAnswerText, IsBeginningText};
ghost use Rattle.warg_c.specs.ContradictionAnswers.{IsNoAnswerText, IsNoBeginningText, answer_said, beginning_number};
ghost use Rattle.warg_c.specs.ContradictionAnswers.{beginning_said, head_number, head_of};
ghost use Rattle.warg_c.specs.ProofAnswers.{AreTwoHashes, IsNoText};
ghost use Rattle.warg_c.specs.Statuses.{WARG_OK, WARG_OUT_OF_MEMORY, WARG_BAD_ARGUMENT, IsOneOf};
ghost use Rattle.warg_c.specs.Texts.{ErrorsAs};

use super::forks::CheckpointText;
use crate::call_error::{CallError, status};
use crate::given::finish_value;
use crate::proof_text::{checkpoint_in, hash_in, log_proof_in, map_proof_in};
use std::alloc::Global;
use warg_log_records::RecordId;
use warg_registry::{Checkpoint, LogId};
use warg_transparency::{
    BeginningComparison, HeadComparison, LogProof, MapProof, ShownBeginning, ShownHead,
    compare_beginnings, compare_heads,
};

// An answer about the head of a log, with its proof, as a call says them.
#[derive(Clone, Copy)]
struct AnswerText<'a> {
    record_id: &'a [u8],
    proof: &'a [u8],
}

// An older checkpoint, with the proof that the log of a newer one begins with its own, as a call says them.
#[derive(Clone, Copy)]
struct BeginningText<'a> {
    checkpoint: CheckpointText<'a>,
    proof: &'a [u8],
}

// How two answers about the head of one log compare that are shown under one root of a registry's map.
fn head_number(comparison: HeadComparison) -> u32
    ensures { result ≡ head_number comparison }
{
    match comparison {
        // Both proofs hold, and the answers are one: one head, or none.
        HeadComparison::Same => 0,
        // Both proofs hold, of two heads: two strings collide.
        HeadComparison::Two => 1,
        // Both proofs hold, of a head and of none: two strings collide.
        HeadComparison::OneAndNone => 2,
        // One of the proofs does not hold.
        HeadComparison::NotShown => 3,
    }
}

// How two checkpoints of a registry compare that the log of a newer one is shown to begin with.
fn beginning_number(comparison: BeginningComparison) -> u32
    ensures { result ≡ beginning_number comparison }
{
    match comparison {
        // Both proofs hold, and the lengths and both roots are equal.
        BeginningComparison::Same => 0,
        // Both proofs hold, the lengths and the logs' roots are equal, and the maps' roots differ: no list of leaves has both. Two signatures show
        // that the registry forked.
        BeginningComparison::Fork => 1,
        // Both proofs hold, the lengths are equal, and the logs' roots differ: two strings collide.
        BeginningComparison::Collision => 2,
        // Both proofs hold, and the lengths differ: nothing is said against the two.
        BeginningComparison::TwoLengths => 3,
        // One of the proofs does not hold.
        BeginningComparison::NotShown => 4,
    }
}

// The head of a text, or none of "".
fn head_in(text: &[u8]) -> Result<Option<RecordId>, CallError>
    ensures ok { IfOk result (λ head. head_of text.now ≡ Ok head) }
    ensures err { IfErr result (ErrorsAs ⊥ ⊥ (IsNoText head_of text.now)) }
{
    if text.is_empty() {
        return Ok(None);
    }
    let hash = hash_in(text)?;
    Ok(Some(RecordId::from(hash)))
}

// The head and the proof of these texts.
fn answer_in(
    alloc: Global,
    said: &AnswerText<'_>,
) -> Result<(Option<RecordId>, MapProof), CallError>
    ensures ok { IfOk result (λ t. IsAnswerText (answer_said said.now) t.0 t.1) }
    ensures err { IfErr result (ErrorsAs (IsOk (head_of said.now.record_id.now)) ⊥
        (IsNoAnswerText (answer_said said.now))) }
{
    let head = head_in(said.record_id)?;
    let proof = map_proof_in(alloc, said.proof)?;
    Ok((head, proof))
}

// How the answers of these texts compare, by the proofs of theirs.
fn heads_compared(
    alloc: Global,
    map_root: &[u8],
    log_id: &[u8],
    one: &AnswerText<'_>,
    other: &AnswerText<'_>,
) -> Result<u32, CallError>
    ensures ok { IfOk result (AreHeadsCompared map_root.now log_id.now (answer_said one.now)
        (answer_said other.now)) }
    ensures err { IfErr result (ErrorsAs
        (HaveHeadHashes map_root.now log_id.now (answer_said one.now)) ⊥ (AreHeadsNotCompared
        map_root.now log_id.now (answer_said one.now) (answer_said other.now))) }
{
    let root = hash_in(map_root)?;
    let log = hash_in(log_id)?;
    let (head, proof) = answer_in(alloc, one)?;
    let (other_head, other_proof) = answer_in(alloc, other)?;
    let one = ShownHead {
        head,
        proof: &proof,
    };
    let other = ShownHead {
        head: other_head,
        proof: &other_proof,
    };
    let comparison = compare_heads(&root, &LogId::from(log), &one, &other);
    Ok(head_number(comparison))
}

/// Compares two answers about the head of one log under one root of a registry's map: the id of the record that is the log's last, by a proof as
/// `warg_verify_presence` takes it, or "" where the log is to have none, by a proof as `warg_verify_absence` takes it.
///   WARG_OK: `comparison` is one of `enum warg_head_case`.
#[unsafe(no_mangle)]
pub extern "C" fn warg_compare_heads(
    alloc: Global,
    map_root: &[u8],
    log_id: &[u8],
    one_record_id: &[u8],
    one_proof: &[u8],
    other_record_id: &[u8],
    other_proof: &[u8],
    comparison: &mut u32,
) -> u32
    ensures statuses { IsOneOf (WARG_OK ∷ WARG_OUT_OF_MEMORY ∷ WARG_BAD_ARGUMENT ∷ []) result }
    ensures ok { result ≡ WARG_OK → AreHeadsCompared map_root.now log_id.now
        (one_record_id.now, one_proof.now) (other_record_id.now, other_proof.now) comparison.new }
    ensures out_of_memory { result ≡ WARG_OUT_OF_MEMORY →
        HaveHeadHashes map_root.now log_id.now (one_record_id.now, one_proof.now) }
    ensures bad_argument { result ≡ WARG_BAD_ARGUMENT → AreHeadsNotCompared map_root.now log_id.now
        (one_record_id.now, one_proof.now) (other_record_id.now, other_proof.now) }
    ensures kept { result ≢ WARG_OK → comparison.new ≡ comparison.old }
{
    let one = AnswerText {
        record_id: one_record_id,
        proof: one_proof,
    };
    let other = AnswerText {
        record_id: other_record_id,
        proof: other_proof,
    };
    finish_value(
        heads_compared(alloc, map_root, log_id, &one, &other),
        comparison,
    )
}

// The checkpoint and the proof of these texts.
fn beginning_in(
    alloc: Global,
    said: &BeginningText<'_>,
) -> Result<(Checkpoint, LogProof), CallError>
    ensures ok { IfOk result (λ t. IsBeginningText (beginning_said said.now) t.0 t.1) }
    ensures err { IfErr result (ErrorsAs (AreTwoHashes said.now.checkpoint.log_root.now
        said.now.checkpoint.map_root.now) ⊥ (IsNoBeginningText (beginning_said said.now))) }
{
    let words = said.checkpoint;
    let checkpoint = checkpoint_in(words.length, words.log_root, words.map_root)?;
    let proof = log_proof_in(alloc, said.proof)?;
    Ok((checkpoint, proof))
}

// How the checkpoints of these texts compare, by the proofs of theirs.
fn beginnings_compared(
    alloc: Global,
    new_length: u64,
    new_root: &[u8],
    one: &BeginningText<'_>,
    other: &BeginningText<'_>,
) -> Result<u32, CallError>
    ensures ok { IfOk result (AreBeginningsCompared (new_length, new_root.now)
        (beginning_said one.now) (beginning_said other.now)) }
    ensures err { IfErr result (ErrorsAs
        (HaveBeginningHashes (new_length, new_root.now) (beginning_said one.now)) ⊥
        (AreBeginningsNotCompared (new_length, new_root.now) (beginning_said one.now)
        (beginning_said other.now))) }
{
    let root = hash_in(new_root)?;
    let (checkpoint, proof) = beginning_in(alloc, one)?;
    let (other_checkpoint, other_proof) = beginning_in(alloc, other)?;
    // Of the newer checkpoint's map nothing is asked.
    let new = Checkpoint {
        log_root: root,
        log_length: new_length as usize,
        map_root: root,
    };
    let one = ShownBeginning {
        checkpoint: &checkpoint,
        proof: &proof,
    };
    let other = ShownBeginning {
        checkpoint: &other_checkpoint,
        proof: &other_proof,
    };
    Ok(beginning_number(compare_beginnings(&new, &one, &other)))
}

/// Compares two checkpoints of a registry, each with a proof as `warg_verify_consistency` takes it that the log of one newer checkpoint, which has
/// `new_length` leaves and this root, begins with its own. Their times are not compared.
///   WARG_OK: `comparison` is one of `enum warg_beginning_case`.
#[unsafe(no_mangle)]
pub extern "C" fn warg_compare_beginnings(
    alloc: Global,
    new_length: u64,
    new_root: &[u8],
    one_length: u64,
    one_log_root: &[u8],
    one_map_root: &[u8],
    one_proof: &[u8],
    other_length: u64,
    other_log_root: &[u8],
    other_map_root: &[u8],
    other_proof: &[u8],
    comparison: &mut u32,
) -> u32
    ensures statuses { IsOneOf (WARG_OK ∷ WARG_OUT_OF_MEMORY ∷ WARG_BAD_ARGUMENT ∷ []) result }
    ensures ok { result ≡ WARG_OK → AreBeginningsCompared (new_length, new_root.now)
        ((one_length, (one_log_root.now, one_map_root.now)), one_proof.now)
        ((other_length, (other_log_root.now, other_map_root.now)), other_proof.now)
        comparison.new }
    ensures out_of_memory { result ≡ WARG_OUT_OF_MEMORY →
        HaveBeginningHashes (new_length, new_root.now)
        ((one_length, (one_log_root.now, one_map_root.now)), one_proof.now) }
    ensures bad_argument { result ≡ WARG_BAD_ARGUMENT →
        AreBeginningsNotCompared (new_length, new_root.now)
        ((one_length, (one_log_root.now, one_map_root.now)), one_proof.now)
        ((other_length, (other_log_root.now, other_map_root.now)), other_proof.now) }
    ensures kept { result ≢ WARG_OK → comparison.new ≡ comparison.old }
{
    let checkpoint = CheckpointText {
        length: one_length,
        log_root: one_log_root,
        map_root: one_map_root,
    };
    let one = BeginningText {
        checkpoint,
        proof: one_proof,
    };
    let other_checkpoint = CheckpointText {
        length: other_length,
        log_root: other_log_root,
        map_root: other_map_root,
    };
    let other = BeginningText {
        checkpoint: other_checkpoint,
        proof: other_proof,
    };
    finish_value(
        beginnings_compared(alloc, new_length, new_root, &one, &other),
        comparison,
    )
}
