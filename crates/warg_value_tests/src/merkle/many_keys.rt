//! Maps of many keys: their roots as another program computed them over the whole tree, and what stands at some keys.

use crate::merkle::known::hash;
use sha2::{Digest, Sha256};
use std::alloc::{AllocError, Global};
use std::test::Fail;
use warg_merkle::map_proof::{verify_absence, verify_presence};
use warg_merkle::sparse_tree::SparseTree;

// The key of a number, which is also its value.
fn key(number: u32) -> [u8; 32] {
    Sha256::digest(number.to_le_bytes().as_slice())
}

// Puts the values of these numbers at their keys.
fn put_all(
    alloc: Global,
    map: &mut SparseTree,
    numbers: std::ops::Range<u32>,
) -> Result<(), AllocError> {
    for number in numbers {
        let value = Vec::from_slice(alloc, number.to_le_bytes().as_slice())?;
        let _ = map.insert(&key(number), value)?;
    }
    Ok(())
}

// Whether the map's proof shows the number's value.
fn has(map: &SparseTree, number: u32) -> Result<bool, AllocError> {
    let value = number.to_le_bytes();
    let proof = map.proof(&key(number))?;
    Ok(
        map.get(&key(number)) == Some(value.as_slice())
            && verify_presence(&key(number), value.as_slice(), &proof, &map.root()),
    )
}

// Whether the map's proof shows that nothing stands at the number's key.
fn lacks(map: &SparseTree, number: u32) -> Result<bool, AllocError> {
    let proof = map.proof(&key(number))?;
    Ok(map.get(&key(number)).is_none() && verify_absence(&key(number), &proof, &map.root()))
}

#[test]
fn roots_are_the_known_ones(rt: HostRuntime) -> Result<(), Fail> {
    let mut map = SparseTree::new(rt.alloc())?;
    let mut from = 0;
    for (count, digits) in [
        (
            1,
            "d5163cfdb6ae272283680b19b57cd578afb05eb651f6ddbaec2bf65a8e57d46e",
        ),
        (
            10,
            "7188c14cf427052be4d7e9bc7aa43dc67943ea9c7b728b8712b25b15e87581fa",
        ),
        (
            1000,
            "509d52fed72e36b4bffa1ff397f97d1cc7519adb3d927c09fbf18c0ff7e886b7",
        ),
        (
            10000,
            "c934fd0da31198ac6ee85d54aedf5b9466a286c326bb646cac277bc22f1edb94",
        ),
    ] {
        put_all(rt.alloc(), &mut map, from..count)?;
        from = count;
        assert!(rt; map.root() == hash(digits)?);
    }
    for number in [0, 1, 499, 5000, 9999] {
        assert!(rt; has(&map, number)? && lacks(&map, number + 10000)?);
    }
    Ok(())
}

#[test]
fn the_order_of_keys_is_no_part_of_the_map(rt: HostRuntime) -> Result<(), Fail> {
    let mut map = SparseTree::new(rt.alloc())?;
    put_all(rt.alloc(), &mut map, 500..1000)?;
    put_all(rt.alloc(), &mut map, 0..600)?;
    let root = hash("509d52fed72e36b4bffa1ff397f97d1cc7519adb3d927c09fbf18c0ff7e886b7")?;
    assert!(rt; map.root() == root);
    Ok(())
}
