//! The saved form of a registry's leaves.

use crate::transparency::known::{leaf, log_id, record_id, trees_of};
use std::test::Fail;
use warg_crypto::hash::AnyHash;
use warg_transparency::{RegistryTrees, SavedLeavesError};

#[test]
fn a_leaf_is_the_bytes_of_both_ids(rt: HostRuntime) -> Result<(), Fail> {
    let bytes = trees_of(rt.alloc(), 2)?.to_bytes(rt.alloc())?;
    let (log, record) = (log_id(1), AnyHash::from(record_id(1)));
    assert_eq!(rt; bytes.len(), 128);
    assert_eq!(rt; &bytes.as_slice()[64..96], log.as_bytes());
    assert_eq!(rt; &bytes.as_slice()[96..], record.bytes());
    Ok(())
}

#[test]
fn what_is_saved_is_read_back(rt: HostRuntime) -> Result<(), Fail> {
    for count in 0..9 {
        let trees = trees_of(rt.alloc(), count)?;
        let bytes = trees.to_bytes(rt.alloc())?;
        let mut read = RegistryTrees::from_bytes(rt.alloc(), bytes.as_slice())?;
        assert_eq!(rt; read.leaves(), trees.leaves());
        assert_eq!(rt; read.checkpoint(), trees.checkpoint());
        // They go on as those that were pushed.
        read.push(&leaf(count))?;
        assert_eq!(rt;
            read.checkpoint(),
            trees_of(rt.alloc(), count + 1)?.checkpoint()
        );
    }
    Ok(())
}

#[test]
fn a_front_of_the_leaves_is_a_registry_of_fewer(rt: HostRuntime) -> Result<(), Fail> {
    let mut bytes = trees_of(rt.alloc(), 7)?.to_bytes(rt.alloc())?;
    bytes.truncate(320);
    let read = RegistryTrees::from_bytes(rt.alloc(), bytes.as_slice())?;
    assert_eq!(rt; read.checkpoint(), trees_of(rt.alloc(), 5)?.checkpoint());
    Ok(())
}

#[test]
fn half_a_leaf_is_none(rt: HostRuntime) -> Result<(), Fail> {
    for length in [1, 32, 63, 65, 96, 127] {
        let mut bytes = trees_of(rt.alloc(), 2)?.to_bytes(rt.alloc())?;
        bytes.truncate(length);
        let read = RegistryTrees::from_bytes(rt.alloc(), bytes.as_slice());
        assert_eq!(rt; read.err(), Some(SavedLeavesError::BadLength));
    }
    Ok(())
}
