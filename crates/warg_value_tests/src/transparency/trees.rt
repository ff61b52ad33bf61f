//! The trees of known leaves: their checkpoints, their proofs, and what is left of a push that is refused memory.

use crate::transparency::known::{leaf, log_id, log_of, record_id, trees_of};
use std::test::Fail;
use warg_registry::{Checkpoint, MapLeaf};
use warg_transparency::{
    MapTree, OfTrees, RegistryTrees, verify_consistency, verify_head, verify_leaf, verify_no_head,
};

#[test]
fn the_checkpoint_is_that_of_the_log_and_of_the_last_records(rt: HostRuntime) -> Result<(), Fail> {
    let trees = trees_of(rt.alloc(), 8)?;
    let mut heads = MapTree::new(rt.alloc())?;
    for place in [5u8, 6, 7] {
        let leaf = leaf(place);
        let head = MapLeaf {
            record_id: leaf.record_id,
        };
        let _ = heads.insert(&leaf.log_id, &head)?;
    }
    let checkpoint = Checkpoint::of(&log_of(rt.alloc(), 8)?, &heads);
    assert_eq!(rt; trees.checkpoint(), checkpoint);
    assert_eq!(rt; trees.len(), 8);
    assert_eq!(rt; trees.leaves()[6], leaf(6));
    Ok(())
}

#[test]
fn each_proof_holds_under_the_checkpoint(rt: HostRuntime) -> Result<(), Fail> {
    let trees = trees_of(rt.alloc(), 7)?;
    let checkpoint = trees.checkpoint();
    for place in 0..7 {
        let proof = trees.inclusion(u64::from(place))?.ok_or("past the end")?;
        assert!(rt; verify_leaf(&checkpoint, &leaf(place), u64::from(place), proof.hashes()));
        let old = trees_of(rt.alloc(), place)?.checkpoint();
        let proof = trees.consistency(u64::from(place))?.ok_or("past the end")?;
        assert!(rt; verify_consistency(&old, &checkpoint, proof.hashes()));
    }
    for number in 0..3 {
        let proof = trees.head_proof(&log_id(number))?;
        let last = record_id([6, 4, 5][usize::from(number)]);
        assert_eq!(rt; trees.head(&log_id(number)), Some(last));
        assert!(rt; verify_head(&checkpoint, &log_id(number), &last, &proof));
    }
    let proof = trees.head_proof(&log_id(3))?;
    assert_eq!(rt; trees.head(&log_id(3)), None);
    assert!(rt; verify_no_head(&checkpoint, &log_id(3), &proof));
    Ok(())
}

#[test]
fn a_refused_push_leaves_both_trees(rt: HostRuntime) -> Result<(), Fail> {
    let mut trees = RegistryTrees::new(rt.alloc())?;
    let mut refused = 0u8;
    let mut place = 0u8;
    for _ in 0u8..12 {
        if place < 10 && refused < 2 {
            let before = trees.checkpoint();
            if trees.push(&leaf(place)).is_ok() {
                place += 1;
            } else {
                refused += 1;
                assert_eq!(rt; trees.checkpoint(), before);
                assert_eq!(rt; trees.leaves().len(), usize::from(place));
            }
        }
    }
    assert_eq!(rt; trees.checkpoint(), trees_of(rt.alloc(), 10)?.checkpoint());
    Ok(())
}
