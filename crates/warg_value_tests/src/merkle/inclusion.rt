//! Proofs that an entry is in a tree.

use crate::merkle::known::{ENTRIES, PATH_2_OF_3, PATH_5_OF_8, first, is_path, root};
use std::alloc::Global;
use std::test::Fail;
use warg_merkle::{prove_inclusion, tree_hash, verify_inclusion};

#[test]
fn roots_are_the_known_ones(rt: HostRuntime) -> Result<(), Fail> {
    for count in [0, 1, 2, 3, 5, 7, 8] {
        assert_eq!(rt; tree_hash(first(count)), root(count)?);
    }
    Ok(())
}

fn path_of(alloc: Global, index: usize, count: usize) -> Result<Vec<[u8; 32]>, Fail> {
    let entries = first(count);
    if index < entries.len() {
        Ok(prove_inclusion(alloc, entries, index)?)
    } else {
        Err(Fail::from("past the end"))
    }
}

// Whether the path of an entry in the tree of the first ones is the known one.
fn is_known(alloc: Global, index: usize, count: usize, digits: &[&str]) -> Result<bool, Fail> {
    is_path(&path_of(alloc, index, count)?, digits)
}

#[test]
fn known_paths(rt: HostRuntime) -> Result<(), Fail> {
    assert!(rt; is_known(rt.alloc(), 5, 8, PATH_5_OF_8)?);
    assert!(rt; is_known(rt.alloc(), 2, 3, PATH_2_OF_3)?);
    Ok(())
}

#[test]
fn an_entry_is_shown(rt: HostRuntime) -> Result<(), Fail> {
    let path = path_of(rt.alloc(), 5, 8)?;
    assert!(rt; verify_inclusion(ENTRIES[5], 5, 8, &path, &root(8)?));
    Ok(())
}

#[test]
fn a_leaf_that_looks_like_a_node_is_none(rt: HostRuntime) -> Result<(), Fail> {
    // The bytes that the root of two entries hashes: 0x01 and both leaves.
    let mut node = Vec::with_capacity(rt.alloc(), 65)?;
    node.push(1)?;
    node.extend_from_slice(&warg_merkle::leaf_hash(ENTRIES[0]))?;
    node.extend_from_slice(&warg_merkle::leaf_hash(ENTRIES[1]))?;
    assert!(rt; !verify_inclusion(&node, 0, 1, &[], &root(2)?));
    Ok(())
}
