//! Answers of a registry of known leaves under one root: those that are one, and those of which
//! nothing is shown. No test has the two that collide.

use crate::transparency::known::{leaf, log_id, record_id, trees_of};
use std::alloc::{AllocError, Global};
use std::test::Fail;
use warg_crypto::hash::AnyHash;
use warg_log_records::RecordId;
use warg_registry::Checkpoint;
use warg_transparency::{
    BeginningComparison, HeadComparison, LogProof, MapProof, RegistryTrees, ShownBeginning,
    ShownHead, compare_beginnings, compare_heads,
};

// The proof of the map of the first five leaves for the log of that number: the logs 0 to 2 have a
// head, and no other one.
fn proof_of(alloc: Global, number: u8) -> Result<MapProof, AllocError> {
    trees_of(alloc, 5)?.head_proof(&log_id(number))
}

// How two answers about the log of that number compare under the root of the first five leaves, each
// with the map's proof for a log.
fn compared(
    alloc: Global,
    number: u8,
    one: (Option<RecordId>, u8),
    other: (Option<RecordId>, u8),
) -> Result<HeadComparison, AllocError> {
    let root: AnyHash = trees_of(alloc, 5)?.checkpoint().map_root;
    let shown = ShownHead {
        head: one.0,
        proof: &proof_of(alloc, one.1)?,
    };
    let other_shown = ShownHead {
        head: other.0,
        proof: &proof_of(alloc, other.1)?,
    };
    Ok(compare_heads(&root, &log_id(number), &shown, &other_shown))
}

#[test]
fn answers_that_are_shown_are_one(rt: HostRuntime) -> Result<(), Fail> {
    let head = Some(record_id(4));
    let same = compared(rt.alloc(), 1, (head, 1), (head, 1))?;
    assert_eq!(rt; same, HeadComparison::Same);
    let none = compared(rt.alloc(), 7, (None, 7), (None, 7))?;
    assert_eq!(rt; none, HeadComparison::Same);
    Ok(())
}

#[test]
fn answers_of_which_one_is_not_shown(rt: HostRuntime) -> Result<(), Fail> {
    let head = Some(record_id(4));
    let wrong = [(Some(record_id(1)), 1), (head, 0), (None, 1)];
    for other in wrong {
        let second = compared(rt.alloc(), 1, (head, 1), other)?;
        assert_eq!(rt; second, HeadComparison::NotShown);
        let first = compared(rt.alloc(), 1, other, (head, 1))?;
        assert_eq!(rt; first, HeadComparison::NotShown);
    }
    let second = compared(rt.alloc(), 7, (None, 7), (head, 7))?;
    assert_eq!(rt; second, HeadComparison::NotShown);
    let first = compared(rt.alloc(), 7, (None, 1), (None, 7))?;
    assert_eq!(rt; first, HeadComparison::NotShown);
    Ok(())
}

// The proof that the log of the first seven leaves goes on from fewer of them.
fn growth(trees: &RegistryTrees, first: u64) -> Result<LogProof, Fail> {
    let proof = trees.consistency(first)?;
    Ok(proof.ok_or("past the end")?)
}

// How two older checkpoints compare, each by the proof of the log of seven leaves for as many first
// ones.
fn beginnings(
    alloc: Global,
    one: (&Checkpoint, u64),
    other: (&Checkpoint, u64),
) -> Result<BeginningComparison, Fail> {
    let trees = trees_of(alloc, 7)?;
    let shown = ShownBeginning {
        checkpoint: one.0,
        proof: &growth(&trees, one.1)?,
    };
    let other_shown = ShownBeginning {
        checkpoint: other.0,
        proof: &growth(&trees, other.1)?,
    };
    Ok(compare_beginnings(&trees.checkpoint(), &shown, &other_shown))
}

#[test]
fn beginnings_of_one_log(rt: HostRuntime) -> Result<(), Fail> {
    let three = trees_of(rt.alloc(), 3)?.checkpoint();
    let four = trees_of(rt.alloc(), 4)?.checkpoint();
    let same = beginnings(rt.alloc(), (&three, 3), (&three, 3))?;
    assert_eq!(rt; same, BeginningComparison::Same);
    let two_lengths = beginnings(rt.alloc(), (&three, 3), (&four, 4))?;
    assert_eq!(rt; two_lengths, BeginningComparison::TwoLengths);
    let other_map = Checkpoint {
        map_root: four.map_root,
        ..three
    };
    let fork = beginnings(rt.alloc(), (&three, 3), (&other_map, 3))?;
    assert_eq!(rt; fork, BeginningComparison::Fork);
    Ok(())
}

#[test]
fn beginnings_of_which_one_is_not_shown(rt: HostRuntime) -> Result<(), Fail> {
    let three = trees_of(rt.alloc(), 3)?.checkpoint();
    let mut turned = RegistryTrees::new(rt.alloc())?;
    for place in [1u8, 0, 2] {
        turned.push(&leaf(place))?;
    }
    let other_log = turned.checkpoint();
    let second = beginnings(rt.alloc(), (&three, 3), (&other_log, 3))?;
    assert_eq!(rt; second, BeginningComparison::NotShown);
    let first = beginnings(rt.alloc(), (&other_log, 3), (&three, 3))?;
    assert_eq!(rt; first, BeginningComparison::NotShown);
    let other_proof = beginnings(rt.alloc(), (&three, 3), (&three, 2))?;
    assert_eq!(rt; other_proof, BeginningComparison::NotShown);
    Ok(())
}
