//! `compare checkpoints` and `compare leaves`: what two views of a registry show of one another.

ghost use Rattle.std.specs.Prelude.{◌≡◌, [], IfErr, IfOk};
ghost use Rattle.warg_audit.specs.Files.Answers.{output_data, Answers, IfOutput};
ghost use Rattle.tool_checkpoints.specs.Comparisons.{AreCompared, AreLeavesCompared, checkpoint_text};
ghost use Rattle.tool_checkpoints.specs.Comparisons.{IsByLeaf, IsCheckpointsAnswer, IsComparison};
ghost use Rattle.tool_checkpoints.specs.Comparisons.{IsLeavesAnswer, IsRead, IsViewsAnswer, leaf_text};
ghost use Rattle.tool_checkpoints.specs.Proofs.{IsLogProof};
ghost use Rattle.tool_checkpoints.specs.Words.{IsByFile};

use crate::checkpoint::read_signed;
use crate::contradictions::{beginnings_answer, heads_answer};
use crate::read_words::{leaf_of, number_of, read_log_proof};
use std::alloc::{AllocError, Global};
use tool_words::{ShownIds, Views};
use warg_audit::files::command_error::CommandError;
use warg_audit::files::command_output::CommandOutput;
use warg_audit::files::input::Store;
use warg_registry::{Checkpoint, LogLeaf};
use warg_transparency::{
    CheckpointComparison, LeafComparison, LogProof, ShownLeaf, compare_checkpoints, compare_leaves,
};

/// A leaf, with the checkpoint and the proof that are to show it.
#[derive(Debug, Drop)]
pub(crate) struct ReadLeaf {
    pub(crate) checkpoint: Checkpoint,
    pub(crate) leaf: LogLeaf,
    pub(crate) proof: LogProof,
}

// How a checkpoint compares with an older one, on a line, with the lengths of both logs.
fn checkpoint_line(
    alloc: Global,
    old: usize,
    new: usize,
    comparison: CheckpointComparison,
) -> Result<CommandOutput, AllocError>
    ensures { IfOk result (λ answer. output_data answer ≡ checkpoint_text old new comparison) }
{
    match comparison {
        CheckpointComparison::Same => {
            let text = format!(in alloc; "same {old}\n")?;
            Ok(CommandOutput::new(alloc, text, 0))
        }
        CheckpointComparison::GoesOn => {
            let text = format!(in alloc; "goes on {old} {new}\n")?;
            Ok(CommandOutput::new(alloc, text, 0))
        }
        CheckpointComparison::GoesBack => {
            let text = format!(in alloc; "rolled back {old} {new}\n")?;
            Ok(CommandOutput::new(alloc, text, 1))
        }
        CheckpointComparison::Fork => {
            let text = format!(in alloc; "fork {old}\n")?;
            Ok(CommandOutput::new(alloc, text, 1))
        }
        CheckpointComparison::NotShown => {
            let text = format!(in alloc; "not shown {old} {new}\n")?;
            Ok(CommandOutput::new(alloc, text, 1))
        }
    }
}

// How the checkpoints compare, by the proof.
fn checkpoints_line(
    alloc: Global,
    old: &Checkpoint,
    new: &Checkpoint,
    proof: &LogProof,
) -> Result<CommandOutput, AllocError>
    ensures { IfOk result (λ answer. AreCompared old.now new.now proof.now (output_data answer)) }
{
    let comparison = compare_checkpoints(old, new, proof);
    checkpoint_line(alloc, old.log_length, new.log_length, comparison)
}

// The same by no proof.
fn unproved_line(
    alloc: Global,
    old: &Checkpoint,
    new: &Checkpoint,
) -> Result<CommandOutput, AllocError>
    ensures { IfOk result (λ answer. AreCompared old.now new.now [] (output_data answer)) }
{
    let proof = LogProof::from_hashes(alloc, &[])?;
    checkpoints_line(alloc, old, new, &proof)
}

// The same by the proof in a file.
fn proved_answer<S: Store>(
    alloc: Global,
    old: &Checkpoint,
    new: &Checkpoint,
    proof: &str,
    store: &mut S,
) -> Result<CommandOutput, CommandError>
    ensures answered { Answers (IsByFile (S.files store.old) proof.now IsLogProof
        (AreCompared old.now new.now)) result }
    ensures kept { S.files store.new ≡ S.files store.old }
{
    match read_log_proof(alloc, proof, store) {
        Ok(proof) => Ok(checkpoints_line(alloc, old, new, &proof)?),
        Err(error) => Err(error),
    }
}

// The same by the proof in a file, which is read where the newer log is longer.
fn comparison_answer<S: Store>(
    alloc: Global,
    old: &Checkpoint,
    new: &Checkpoint,
    proof: &str,
    store: &mut S,
) -> Result<CommandOutput, CommandError>
    ensures answered { Answers (IsComparison (S.files store.old) proof.now old.now new.now)
        result }
    ensures kept { S.files store.new ≡ S.files store.old }
{
    if old.log_length < new.log_length {
        proved_answer(alloc, old, new, proof, store)
    } else {
        Ok(unproved_line(alloc, old, new)?)
    }
}

// How the signed checkpoints in two files compare.
fn checkpoints_answer<S: Store>(
    alloc: Global,
    old: &str,
    new: &str,
    proof: &str,
    store: &mut S,
) -> Result<CommandOutput, CommandError>
    ensures answered { Answers (IsCheckpointsAnswer (S.files store.old) old.now new.now proof.now)
        result }
    ensures kept { S.files store.new ≡ S.files store.old }
{
    let old = read_signed(alloc, old, store)?;
    let new = read_signed(alloc, new, store)?;
    let (before, after) = (old.contents().checkpoint, new.contents().checkpoint);
    comparison_answer(alloc, &before, &after, proof, store)
}

// The leaf that words say, with what files hold of it.
fn read_leaf<S: Store>(
    alloc: Global,
    ids: &ShownIds<'_>,
    store: &mut S,
) -> Result<ReadLeaf, CommandError>
    ensures ok { IfOk result (IsRead (S.files store.old) ids.now) }
    ensures err { IfErr result (IfOutput (IsByLeaf (S.files store.old) ids.now
        (λ it printed. ⊥))) }
    ensures kept { S.files store.new ≡ S.files store.old }
{
    let leaf = leaf_of(alloc, ids.leaf.log_id, ids.leaf.record_id)?;
    let signed = read_signed(alloc, ids.checkpoint, store)?;
    let proof = read_log_proof(alloc, ids.proof, store)?;
    Ok(ReadLeaf {
        checkpoint: signed.contents().checkpoint,
        leaf,
        proof,
    })
}

// How the leaves at a place compare, on a line.
fn leaf_line(alloc: Global, comparison: LeafComparison) -> Result<CommandOutput, AllocError>
    ensures { IfOk result (λ answer. output_data answer ≡ leaf_text comparison) }
{
    match comparison {
        LeafComparison::Same => CommandOutput::fixed(alloc, "same\n", 0),
        LeafComparison::Fork => CommandOutput::fixed(alloc, "fork\n", 1),
        LeafComparison::NotShown => CommandOutput::fixed(alloc, "not shown\n", 1),
    }
}

// The same by the leaves.
fn leaves_line(
    alloc: Global,
    place: u64,
    old: &ReadLeaf,
    new: &ReadLeaf,
) -> Result<CommandOutput, AllocError>
    ensures { IfOk result (λ answer. AreLeavesCompared place old.now new.now
        (output_data answer)) }
{
    let before = ShownLeaf {
        checkpoint: &old.checkpoint,
        leaf: &old.leaf,
        proof: &old.proof,
    };
    let after = ShownLeaf {
        checkpoint: &new.checkpoint,
        leaf: &new.leaf,
        proof: &new.proof,
    };
    leaf_line(alloc, compare_leaves(place, &before, &after))
}

// How the leaves at the place that a word says compare, which two signed checkpoints in files are to show.
fn leaves_answer<S: Store>(
    alloc: Global,
    place: &str,
    old: &ShownIds<'_>,
    new: &ShownIds<'_>,
    store: &mut S,
) -> Result<CommandOutput, CommandError>
    ensures answered { Answers (IsLeavesAnswer (S.files store.old) place.now old.now new.now)
        result }
    ensures kept { S.files store.new ≡ S.files store.old }
{
    let place = number_of(alloc, place, "place of a leaf")?;
    let old = read_leaf(alloc, old, store)?;
    let new = read_leaf(alloc, new, store)?;
    Ok(leaves_line(alloc, place, &old, &new)?)
}

/// How two views of a registry compare, from the files that they name.
pub fn compare_answer<S: Store>(
    alloc: Global,
    views: &Views<'_>,
    store: &mut S,
) -> Result<CommandOutput, CommandError>
    ensures answered { Answers (IsViewsAnswer (S.files store.old) views.now) result }
    ensures kept { S.files store.new ≡ S.files store.old }
{
    match views {
        Views::Checkpoints { old, new, proof } => checkpoints_answer(alloc, old, new, proof, store),
        Views::Leaves { place, old, new } => leaves_answer(alloc, place, old, new, store),
        Views::Heads {
            checkpoint,
            log_id,
            one,
            other,
        } => heads_answer(alloc, checkpoint, log_id, one, other, store),
        Views::Beginnings { one, other, new } => beginnings_answer(alloc, one, other, new, store),
    }
}
