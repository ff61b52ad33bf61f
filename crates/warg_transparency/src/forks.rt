//! Forks: what a registry said to two clients, and says of no one log. They are told by what the
//! clients hold, with no help of the registry, and take no memory.

ghost use Rattle.std.specs.Prelude.{◌≡◌, ◌<◌, ◌↔◌, IsTrue};
ghost use Rattle.warg_transparency.specs.Contradictions.{ShowsLeafAt};
ghost use Rattle.warg_transparency.specs.Forks.{AreShownAt, IsFork, IsLeafFork, IsNotShownToGoOn, IsOneLeaf, IsShownAt, IsShownToGoOn};
ghost use Rattle.warg_transparency.specs.declared.forks.CheckpointComparison.TheVariants as checkpoints;
ghost use Rattle.warg_transparency.specs.declared.forks.LeafComparison.TheVariants as leaves;

use crate::log::{verify_consistency, verify_leaf};
use crate::log_proof::LogProof;
use crate::registry_trees::leaf_range;
use warg_registry::laws::equality;
use warg_registry::{Checkpoint, LogLeaf};

/// How one checkpoint of a registry compares with an older one.
#[derive(Clone, Copy, Debug, PartialEq, Eq)]
pub enum CheckpointComparison {
    /// They are one.
    Same,
    /// The log is longer, and the proof shows that it goes on from the older one's.
    GoesOn,
    /// The log is shorter than the older one's.
    GoesBack,
    /// They are of one length and differ: no list of leaves has both.
    Fork,
    /// The log is longer, and the proof does not show that it goes on from the older one's.
    NotShown,
}

/// How the leaves that are shown at one place of a registry's log compare.
#[derive(Clone, Copy, Debug, PartialEq, Eq)]
pub enum LeafComparison {
    /// They are shown, and are one.
    Same,
    /// They are shown, and differ: no log has both, unless a hash collides.
    Fork,
    /// One of the proofs does not show its leaf.
    NotShown,
}

/// A leaf, and the proof that is to show it in the log under the checkpoint.
#[derive(Clone, Copy, Debug)]
pub struct ShownLeaf<'a> {
    /// The checkpoint.
    pub checkpoint: &'a Checkpoint,
    /// The leaf.
    pub leaf: &'a LogLeaf,
    /// The proof.
    pub proof: &'a LogProof,
}

/// Compares a checkpoint with an older one, by a proof that the log goes on from the older one's.
pub fn compare_checkpoints(
    old: &Checkpoint,
    new: &Checkpoint,
    proof: &LogProof,
) -> CheckpointComparison
    ensures same { (result ≡ checkpoints.Same) ↔ (old.now ≡ new.now) }
    ensures fork { (result ≡ checkpoints.Fork) ↔ IsFork old.now new.now }
    ensures goes_back { (result ≡ checkpoints.GoesBack) ↔
        (new.now.log_length < old.now.log_length) }
    ensures goes_on { (result ≡ checkpoints.GoesOn) ↔ IsShownToGoOn old.now new.now proof.now }
    ensures not_shown { (result ≡ checkpoints.NotShown) ↔
        IsNotShownToGoOn old.now new.now proof.now }
{
    equality();
    if old == new {
        CheckpointComparison::Same
    } else if old.log_length == new.log_length {
        CheckpointComparison::Fork
    } else if new.log_length < old.log_length {
        CheckpointComparison::GoesBack
    } else if verify_consistency(old, new, proof.hashes()) {
        CheckpointComparison::GoesOn
    } else {
        CheckpointComparison::NotShown
    }
}

// Whether the hashes show the leaf at the index under the checkpoint.
fn shows_leaf(checkpoint: &Checkpoint, index: u64, leaf: &LogLeaf, hashes: &[[u8; 32]]) -> bool
    ensures { IsTrue result ↔ ShowsLeafAt checkpoint.now index leaf.now hashes.now }
{
    leaf_range(leaf);
    verify_leaf(checkpoint, leaf, index, hashes)
}

// Whether the leaf is shown at the index under its checkpoint.
fn is_shown_at(index: u64, shown: &ShownLeaf<'_>) -> bool
    ensures { IsTrue result ↔ IsShownAt index shown.now }
{
    shows_leaf(shown.checkpoint, index, shown.leaf, shown.proof.hashes())
}

/// Compares the leaves that are shown at one place of a registry's log under two checkpoints.
pub fn compare_leaves(index: u64, old: &ShownLeaf<'_>, new: &ShownLeaf<'_>) -> LeafComparison
    ensures same { (result ≡ leaves.Same) ↔ IsOneLeaf index old.now new.now }
    ensures fork { (result ≡ leaves.Fork) ↔ IsLeafFork index old.now new.now }
    ensures not_shown { (result ≡ leaves.NotShown) ↔ (AreShownAt index old.now new.now → ⊥) }
{
    equality();
    if !is_shown_at(index, old) || !is_shown_at(index, new) {
        LeafComparison::NotShown
    } else if old.leaf == new.leaf {
        LeafComparison::Same
    } else {
        LeafComparison::Fork
    }
}
