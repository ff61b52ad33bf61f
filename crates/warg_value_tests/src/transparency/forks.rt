//! Two views of a registry of known leaves: those that agree, those that are a fork, and those of
//! which nothing is shown.

use crate::transparency::known::{leaf, trees_of};
use std::alloc::{AllocError, Global};
use std::test::Fail;
use warg_registry::{Checkpoint, LogLeaf};
use warg_transparency::{
    CheckpointComparison, LeafComparison, LogProof, RegistryTrees, ShownLeaf, compare_checkpoints,
    compare_leaves,
};

// The trees of the first leaves, where the two at the beginning have changed places. They are of two
// logs, so the map stays what it is.
fn turned_trees(alloc: Global, count: u8) -> Result<RegistryTrees, AllocError> {
    let mut trees = RegistryTrees::new(alloc)?;
    for place in [1u8, 0] {
        trees.push(&leaf(place))?;
    }
    for place in 2..count {
        trees.push(&leaf(place))?;
    }
    Ok(trees)
}

// The proof that the log of the first leaves goes on from fewer of them.
fn growth(alloc: Global, first: u64, count: u8) -> Result<LogProof, Fail> {
    let proof = trees_of(alloc, count)?.consistency(first)?;
    Ok(proof.ok_or("past the end")?)
}

// The proof of the leaf at the index.
fn place_of(trees: &RegistryTrees, index: u64) -> Result<LogProof, Fail> {
    let proof = trees.inclusion(index)?;
    Ok(proof.ok_or("past the end")?)
}

#[test]
fn a_longer_log_goes_on_if_that_is_shown(rt: HostRuntime) -> Result<(), Fail> {
    let old = trees_of(rt.alloc(), 3)?.checkpoint();
    let new = trees_of(rt.alloc(), 5)?.checkpoint();
    let turned = turned_trees(rt.alloc(), 5)?.checkpoint();
    let proof = growth(rt.alloc(), 3, 5)?;
    let other_proof = growth(rt.alloc(), 2, 5)?;
    let shown = compare_checkpoints(&old, &new, &proof);
    assert_eq!(rt; shown, CheckpointComparison::GoesOn);
    let unshown = compare_checkpoints(&old, &new, &other_proof);
    assert_eq!(rt; unshown, CheckpointComparison::NotShown);
    let other_log = compare_checkpoints(&old, &turned, &proof);
    assert_eq!(rt; other_log, CheckpointComparison::NotShown);
    let back = compare_checkpoints(&new, &old, &proof);
    assert_eq!(rt; back, CheckpointComparison::GoesBack);
    Ok(())
}

#[test]
fn checkpoints_of_one_length_are_one_or_a_fork(rt: HostRuntime) -> Result<(), Fail> {
    let one = trees_of(rt.alloc(), 5)?.checkpoint();
    let turned = turned_trees(rt.alloc(), 5)?.checkpoint();
    let proof = growth(rt.alloc(), 3, 5)?;
    let same = compare_checkpoints(&one, &one, &proof);
    assert_eq!(rt; same, CheckpointComparison::Same);
    assert_eq!(rt; turned.map_root, one.map_root);
    let other_log = compare_checkpoints(&one, &turned, &proof);
    assert_eq!(rt; other_log, CheckpointComparison::Fork);
    let other_map = Checkpoint {
        map_root: trees_of(rt.alloc(), 4)?.checkpoint().map_root,
        ..one
    };
    let other_map = compare_checkpoints(&one, &other_map, &proof);
    assert_eq!(rt; other_map, CheckpointComparison::Fork);
    Ok(())
}

// How the leaf that is shown at the beginning of the log of the first three leaves, and the other,
// that is shown at the beginning of the trees' log, compare.
fn at_the_beginning(
    alloc: Global,
    trees: &RegistryTrees,
    leaf: &LogLeaf,
    other: &LogLeaf,
) -> Result<LeafComparison, Fail> {
    let old = trees_of(alloc, 3)?;
    let old = ShownLeaf {
        checkpoint: &old.checkpoint(),
        leaf,
        proof: &place_of(&old, 0)?,
    };
    let new = ShownLeaf {
        checkpoint: &trees.checkpoint(),
        leaf: other,
        proof: &place_of(trees, 0)?,
    };
    Ok(compare_leaves(0, &old, &new))
}

#[test]
fn leaves_at_one_place_are_one_or_a_fork(rt: HostRuntime) -> Result<(), Fail> {
    let grown = trees_of(rt.alloc(), 7)?;
    let turned = turned_trees(rt.alloc(), 7)?;
    let same = at_the_beginning(rt.alloc(), &grown, &leaf(0), &leaf(0))?;
    assert_eq!(rt; same, LeafComparison::Same);
    let fork = at_the_beginning(rt.alloc(), &turned, &leaf(0), &leaf(1))?;
    assert_eq!(rt; fork, LeafComparison::Fork);
    let unshown = at_the_beginning(rt.alloc(), &turned, &leaf(0), &leaf(0))?;
    assert_eq!(rt; unshown, LeafComparison::NotShown);
    let old_unshown = at_the_beginning(rt.alloc(), &turned, &leaf(1), &leaf(1))?;
    assert_eq!(rt; old_unshown, LeafComparison::NotShown);
    Ok(())
}
