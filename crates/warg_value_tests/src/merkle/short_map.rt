//! Short proofs and stored maps: roots and proofs that another program computed, and lengths of short forms.

use crate::merkle::known::hash;
use sha2::{Digest, Sha256};
use std::alloc::{AllocError, Global};
use std::test::Fail;
use warg_merkle::map_proof::{MapProof, MapProofError, verify_absence, verify_presence};
use warg_merkle::sparse_tree::SparseTree;

// The root and the short proof of what stands at "a" and at "c" in the map of "a" to `1` and "b" to `22`.
const TWO_ROOT: &str = "e4250ad8b526649ce01657a498844c6c0f48fb3b1ad1d31066440cb2f92418b6";

const OF_A: &str =
    "fffffffffffffffffffffffffffffffffffffffffffffffffffffffffffffffe2e12875a4e0e9b206d7a8bf6703beb346f19bd9e1e7f43dbad39714679e129c7";

const OF_C: &str =
    "fffffffffffffffffffffffffffffffffffffffffffffffffffffffffffffff64abea29f31b7d3572f8921eff5070c01a77d845f7303cbed8e425454f65918b194ff33bd73f7a775b9ef384f57f48c6012cc8436aa118e5912eb7fb45a9af47d";

// The hash of one byte.
fn key(byte: u8) -> [u8; 32] {
    Sha256::digest([byte].as_slice())
}

// The key that shares the first 255 bits.
fn neighbour(key: &[u8; 32]) -> [u8; 32] {
    let mut other = *key;
    other[31] ^= 1;
    other
}

// Whether no value stood there that this one takes the place of.
fn puts(
    alloc: Global,
    map: &mut SparseTree,
    key: &[u8; 32],
    value: &[u8],
) -> Result<bool, AllocError> {
    let old = map.insert(key, Vec::from_slice(alloc, value)?)?;
    Ok(old.is_none())
}

// A map of that many pairs of neighbours.
fn pairs(alloc: Global, count: u8) -> Result<SparseTree, AllocError> {
    let mut map = SparseTree::new(alloc)?;
    for byte in 0..count {
        let first = key(byte);
        puts(alloc, &mut map, &first, &[byte])?;
        puts(alloc, &mut map, &neighbour(&first), &[byte, byte])?;
    }
    Ok(map)
}

// Whether the map has the root that the digits spell.
fn has_root(map: &SparseTree, digits: &str) -> Result<bool, Fail> {
    Ok(map.root() == hash(digits)?)
}

// Whether the map's proof, read back from its short form, shows the value, and neither absence nor another value.
fn has(alloc: Global, map: &SparseTree, key: &[u8; 32], value: &[u8]) -> Result<bool, Fail> {
    let proof = MapProof::decode(alloc, map.proof(key)?.as_bytes())?;
    let root = map.root();
    Ok(
        map.get(key) == Some(value)
            && verify_presence(key, value, &proof, &root)
            && !verify_presence(key, b"another", &proof, &root)
            && !verify_absence(key, &proof, &root),
    )
}

// Whether the map's proof, read back from its short form, shows that nothing stands there, and no value.
fn lacks(alloc: Global, map: &SparseTree, key: &[u8; 32]) -> Result<bool, Fail> {
    let proof = MapProof::decode(alloc, map.proof(key)?.as_bytes())?;
    let root = map.root();
    Ok(
        map.get(key).is_none()
            && verify_absence(key, &proof, &root)
            && !verify_presence(key, b"", &proof, &root),
    )
}

// The map of "a" to `1` and "b" to `22`.
fn two(alloc: Global) -> Result<SparseTree, AllocError> {
    let mut map = SparseTree::new(alloc)?;
    puts(alloc, &mut map, &Sha256::digest(b"a"), b"1")?;
    puts(alloc, &mut map, &Sha256::digest(b"b"), b"22")?;
    Ok(map)
}

const EMPTY_ROOT: &str = "dfbe207a8b9bb8228d1b300ba7f792cb99b47a5de57a206926b4632d0f1195fe";

#[test]
fn the_empty_map(rt: HostRuntime) -> Result<(), Fail> {
    let map = SparseTree::new(rt.alloc())?;
    assert!(rt; map.is_empty() && has_root(&map, EMPTY_ROOT)?);
    assert!(rt; lacks(rt.alloc(), &map, &key(0))?);
    Ok(())
}

const ONE_ROOT: &str = "5de8c4834b8a6544cc3c7a2fd5b719f4c1aae74712bd0513c4686f157f30aac1";

#[test]
fn the_map_of_one_key(rt: HostRuntime) -> Result<(), Fail> {
    let mut map = SparseTree::new(rt.alloc())?;
    let a = Sha256::digest(b"a");
    assert!(rt; puts(rt.alloc(), &mut map, &a, b"1")? && has_root(&map, ONE_ROOT)?);
    assert!(rt; has(rt.alloc(), &map, &a, b"1")? && lacks(rt.alloc(), &map, &neighbour(&a))?);
    Ok(())
}

#[test]
fn the_map_of_two_keys(rt: HostRuntime) -> Result<(), Fail> {
    assert!(rt; has_root(&two(rt.alloc())?, TWO_ROOT)?);
    Ok(())
}

#[test]
fn maps_of_pairs(rt: HostRuntime) -> Result<(), Fail> {
    for (count, digits) in [
        (
            1,
            "4f716e215c794fd381e7ca878e300b3b57463280bf562b6d27ca32660eeac3f7",
        ),
        (
            50,
            "b4b270143541d97467f5e7cc126fee7108ae27fac99659d5187dfa7e6a6654e6",
        ),
    ] {
        assert!(rt; has_root(&pairs(rt.alloc(), count)?, digits)?);
    }
    Ok(())
}

// Whether that short form is what the map has for the key.
fn is_proof(alloc: Global, map: &SparseTree, key: &[u8; 32], digits: &str) -> Result<bool, Fail> {
    let proof = map.proof(key)?;
    Ok(proof.as_bytes() == hex::decode(alloc, digits)?.as_slice())
}

#[test]
fn proofs_are_the_known_ones(rt: HostRuntime) -> Result<(), Fail> {
    let map = two(rt.alloc())?;
    for (name, digits) in [(b"a", OF_A), (b"c", OF_C)] {
        assert!(rt; is_proof(rt.alloc(), &map, &Sha256::digest(name), digits)?);
    }
    Ok(())
}

// Whether the value that stood there is this one.
fn stood(old: Option<Vec<u8>>, value: &[u8]) -> bool {
    old.is_some_and(|old| old.as_slice() == value)
}

// Whether another value takes the place of the one there, and the map is another one then.
fn changes(alloc: Global, map: &mut SparseTree, at: u8) -> Result<bool, Fail> {
    let root = map.root();
    let old = map.insert(&key(at), Vec::from_slice(alloc, b"new")?)?;
    Ok(stood(old, &[at]) && map.root() != root && has(alloc, map, &key(at), b"new")?)
}

#[test]
fn a_new_value_takes_the_place_of_the_old(rt: HostRuntime) -> Result<(), Fail> {
    let mut map = pairs(rt.alloc(), 3)?;
    let root = map.root();
    assert!(rt; changes(rt.alloc(), &mut map, 1)?);
    assert!(rt; !puts(rt.alloc(), &mut map, &key(1), &[1])?);
    assert!(rt; map.len() == 6 && map.root() == root);
    Ok(())
}

// Why a short form is refused: that many hashes, none of an empty subtree, after bits that are all alike.
fn fault(alloc: Global, bits: u8, hashes: usize) -> Result<Option<MapProofError>, AllocError> {
    let mut bytes = Vec::from_slice(alloc, [bits; 32].as_slice())?;
    for _ in 0..hashes {
        bytes.extend_from_slice([7u8; 32].as_slice())?;
    }
    Ok(MapProof::decode(alloc, bytes.as_slice()).err())
}

#[test]
fn the_number_of_hashes_is_what_the_bits_call_for(rt: HostRuntime) -> Result<(), Fail> {
    let rows = [
        (0xff, 0, None),
        (0xff, 1, Some(MapProofError::TooLong)),
        (0, 0, Some(MapProofError::TooShort)),
        (0, 255, Some(MapProofError::TooShort)),
        (0, 256, None),
        (0, 257, Some(MapProofError::TooLong)),
    ];
    for (bits, hashes, expected) in rows {
        assert_eq!(rt; fault(rt.alloc(), bits, hashes)?, expected);
    }
    Ok(())
}

#[test]
fn lengths_are_told_to_the_byte(rt: HostRuntime) -> Result<(), Fail> {
    let rows: [(&[u8], MapProofError); 3] = [
        (b"", MapProofError::TooShort),
        (&[0xff; 31], MapProofError::TooShort),
        (&[0xff; 33], MapProofError::TooLong),
    ];
    for (bytes, expected) in rows {
        assert_eq!(rt; MapProof::decode(rt.alloc(), bytes).err(), Some(expected));
    }
    Ok(())
}
