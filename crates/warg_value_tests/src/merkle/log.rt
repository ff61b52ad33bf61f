//! Logs of known entries, and all proofs of small logs.

use crate::merkle::known::{ENTRIES, PATH_2_OF_3, PATH_5_OF_8, is_path, root};
use std::alloc::{AllocError, Global};
use std::test::Fail;
use warg_merkle::merkle_log::LogTree;
use warg_merkle::{verify_consistency, verify_inclusion};

// A log of the first entries.
fn log_of(alloc: Global, count: usize) -> Result<LogTree, AllocError> {
    let mut log = LogTree::new(alloc);
    for entry in ENTRIES.iter().take(count) {
        log.push(entry)?;
    }
    Ok(log)
}

#[test]
fn roots_are_the_known_ones(rt: HostRuntime) -> Result<(), Fail> {
    for count in [0, 1, 2, 3, 5, 7, 8] {
        let log = log_of(rt.alloc(), count)?;
        assert!(rt; log.len() == count as u64 && log.is_empty() == (count == 0));
        assert_eq!(rt; log.root(), root(count)?);
    }
    Ok(())
}

fn has_path(alloc: Global, count: usize, index: u64, digits: &[&str]) -> Result<bool, Fail> {
    let log = log_of(alloc, count)?;
    let path = log.inclusion(index)?.ok_or("past the end")?;
    is_path(&path, digits)
}

#[test]
fn known_paths(rt: HostRuntime) -> Result<(), Fail> {
    assert!(rt; has_path(rt.alloc(), 8, 5, PATH_5_OF_8)?);
    assert!(rt; has_path(rt.alloc(), 3, 2, PATH_2_OF_3)?);
    Ok(())
}

fn goes_on_by(alloc: Global, count: usize, first: u64, digits: &[&str]) -> Result<bool, Fail> {
    let log = log_of(alloc, count)?;
    let path = log.consistency(first)?.ok_or("too many")?;
    is_path(&path, digits)
}

const FROM_6_TO_8: &[&str] = &[
    "0ebc5d3437fbe2db158b9f126a1d118e308181031d0a949f8dededebc558ef6a",
    "ca854ea128ed050b41b35ffc1b87b8eb2bde461e9e3b5596ece6b9d5975a0ae0",
    "d37ee418976dd95753c1c73862b9398fa2a2cf9b4ff0fdfe8b30cd95209614b7",
];

const FROM_2_TO_5: &[&str] = &[
    "5f083f0a1a33ca076a95279832580db3e0ef4584bdff1f54c8a360f50de3031e",
    "bc1a0643b12e4d2d7c77918f44e0f4f79a838b6cf9ec5b5c283e1f4d88599e6b",
];

#[test]
fn known_consistency_proofs(rt: HostRuntime) -> Result<(), Fail> {
    assert!(rt; goes_on_by(rt.alloc(), 8, 6, FROM_6_TO_8)?);
    assert!(rt; goes_on_by(rt.alloc(), 5, 2, FROM_2_TO_5)?);
    Ok(())
}

// Whether the leaf of one byte is shown at its place, and not at the next one.
fn shows(log: &LogTree, leaf: u8) -> Result<bool, Fail> {
    let place = u64::from(leaf);
    let path = log.inclusion(place)?.ok_or("past the end")?;
    let (size, root) = (log.len(), log.root());
    Ok(
        verify_inclusion(&[leaf], place, size, &path, &root)
            && !verify_inclusion(&[leaf], place + 1, size, &path, &root),
    )
}

// That each is accepted nowhere else is tested from outside, by proofs that are made elsewhere.
#[test]
fn each_leaf_is_shown_by_its_path(rt: HostRuntime) -> Result<(), Fail> {
    let mut log = LogTree::new(rt.alloc());
    for last in 0..32u8 {
        log.push(&[last])?;
        assert!(rt; log.inclusion(log.len())?.is_none());
        for leaf in 0..=last {
            assert!(rt; shows(&log, leaf)?);
        }
    }
    Ok(())
}

// Whether the log is shown to go on from its first leaves, whose root is the old one, and not the other way round.
fn goes_on(log: &LogTree, first: u64, old: &[u8; 32]) -> Result<bool, Fail> {
    let path = log.consistency(first)?.ok_or("too many")?;
    let (size, root) = (log.len(), log.root());
    let turned = verify_consistency(size, first, &path, &root, old);
    Ok(verify_consistency(first, size, &path, old, &root) && turned == (first == size))
}

#[test]
fn each_log_goes_on_from_its_first_leaves(rt: HostRuntime) -> Result<(), Fail> {
    let mut log = LogTree::new(rt.alloc());
    let mut roots = Vec::new(rt.alloc());
    roots.push(log.root())?;
    for leaf in 0..16u8 {
        log.push(&[leaf])?;
        roots.push(log.root())?;
        for (first, old) in roots.iter().enumerate() {
            assert!(rt; goes_on(&log, first as u64, old)?);
        }
    }
    Ok(())
}

#[test]
fn no_log_goes_on_from_more_leaves(rt: HostRuntime) -> Result<(), Fail> {
    let mut log = LogTree::new(rt.alloc());
    for leaf in 0..16u8 {
        log.push(&[leaf])?;
        assert!(rt; log.consistency(log.len() + 1)?.is_none());
    }
    Ok(())
}
