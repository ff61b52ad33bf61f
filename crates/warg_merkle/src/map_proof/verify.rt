//! Verification of short proofs, which takes no memory.

ghost use Rattle.std.specs.Prelude.{◌≡◌, ◌<◌, ◌↔◌, List, [], ℕ, Option, IsTrue, Some, None, if◌then◌else◌, false, length, slice_index_or};
ghost use Rattle.std.specs.List.{All};
ghost use Rattle.sha2.specs.Sha256.{sha256};
ghost use Rattle.warg_merkle.specs.Trees.{Side, Left, Right, climb, step_input};
ghost use Rattle.warg_merkle.specs.SparseMap.Maps.{is_right, sides_up, map_root, Leads, IsOwn};
ghost use Rattle.warg_merkle.specs.MapProof.ShortForms.{is_left_out, others_above};

use crate::map_proof::map_proof::MapProof;
use crate::sparse_map::is_right;
use crate::{leaf_hash, node_hash};
use sha2::{Digest, Sha256};

// The hash above a hash on the key's way up and its sibling; the depth is the node's from the root.
pub(crate) fn hash_above(
    key: &[u8; 32],
    depth: usize,
    hash: &[u8; 32],
    sibling: &[u8; 32],
) -> [u8; 32]
    requires { depth < 256 }
    ensures { result ≡
        sha256 (step_input (if is_right key.now depth then Right else Left) hash.now sibling.now) }
{
    if is_right(key, depth) {
        node_hash(sibling, hash)
    } else {
        node_hash(hash, sibling)
    }
}

// The sibling at a height, and the others above it.
fn next_sibling<'a>(
    left_out: &[u8; 32],
    height: usize,
    empty: &[u8; 32],
    others: &'a [[u8; 32]],
) -> ([u8; 32], &'a [[u8; 32]])
    requires in_path { height < 256 }
    requires some { is_left_out left_out.now height ≡ false → 0 < length others.now }
    ensures sibling { result.0 ≡
        (if is_left_out left_out.now height then empty.now else slice_index_or others.now 0 []) }
    ensures above { result.1.now ≡ others_above height left_out.now others.now }
{
    if is_right(left_out, height) {
        (*empty, others)
    } else {
        (others[0], &others[1..])
    }
}

// The hash that the key's way up ends at.
fn climb(from: [u8; 32], key: &[u8; 32], proof: &MapProof) -> [u8; 32]
    ensures end { climb sha256 (sides_up 256 key.now) proof.now from ≡ Some result }
    ensures hashes { All (λ p. length p ≡ 32) proof.now }
{
    let (left_out, others) = proof.parts();
    let mut hash = from;
    let mut empty = Sha256::digest(b"");
    let mut rest = others;
    let mut height = 0;
    let mut depth = 256;
    while depth > 0 {
        depth -= 1;
        let (sibling, above) = next_sibling(left_out, height, &empty, rest);
        hash = hash_above(key, depth, &hash, &sibling);
        empty = node_hash(&empty, &empty);
        rest = above;
        height += 1;
    }
    hash
}

/// Whether the proof leads from the value at the key to the root.
pub fn verify_presence(key: &[u8; 32], value: &[u8], proof: &MapProof, root: &[u8; 32]) -> bool
    ensures exact { IsTrue result ↔ Leads sha256 (Some value.now) key.now proof.now root.now }
    ensures sound { IsTrue result → (m : List Side → Option (List ℕ)) →
        map_root sha256 256 m ≡ root.now →
        IsOwn sha256 m (Some value.now) key.now proof.now }
    ensures hashes { All (λ sibling. length sibling ≡ 32) proof.now }
{
    climb(leaf_hash(value), key, proof) == *root
}

/// Whether the proof leads from no value at the key to the root.
pub fn verify_absence(key: &[u8; 32], proof: &MapProof, root: &[u8; 32]) -> bool
    ensures exact { IsTrue result ↔ Leads sha256 None key.now proof.now root.now }
    ensures sound { IsTrue result → (m : List Side → Option (List ℕ)) →
        map_root sha256 256 m ≡ root.now →
        IsOwn sha256 m None key.now proof.now }
    ensures hashes { All (λ sibling. length sibling ≡ 32) proof.now }
{
    climb(Sha256::digest(b""), key, proof) == *root
}
