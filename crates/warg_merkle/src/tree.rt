//! The roots of lists of leaves, and the paths that prove leaves.

ghost use Rattle.std.specs.Prelude.{◌≡◌, ◌<◌, length, map, slice_index_or, IfOk, []};
ghost use Rattle.sha2.specs.Sha256.{sha256};
ghost use Rattle.warg_merkle.specs.Trees.{tree_hash, left_size, inclusion_path, Includes};

use crate::hashes::{leaf_hash, node_hash};
use sha2::{Digest, Sha256};
use std::alloc::{AllocError, Global};

// How many leaves stand in the left part of a tree: the largest power of two below their number.
fn left_size(size: usize) -> usize
    requires { 1 < size }
    ensures value { result ≡ left_size size }
    ensures some { 0 < result }
    ensures below { result < size }
{
    let mut left = 1;
    while left < size - left {
        left *= 2;
    }
    left
}

/// The root of the leaves.
pub fn tree_hash(leaves: &[&[u8]]) -> [u8; 32]
    ensures { result ≡ tree_hash sha256 (map (λ leaf. leaf.now) leaves.now) }
{
    match leaves {
        [] => Sha256::digest(b""),
        [leaf] => leaf_hash(leaf),
        _ => {
            let (left, right) = leaves.split_at(left_size(leaves.len()));
            node_hash(&tree_hash(left), &tree_hash(right))
        }
    }
}

// The siblings on the way up from the leaf at the index.
fn own_path(alloc: Global, leaves: &[&[u8]], index: usize) -> Result<Vec<[u8; 32]>, AllocError>
    requires { index < length leaves.now }
    ensures { IfOk result (λ path. path.items ≡
        inclusion_path sha256 index (map (λ leaf. leaf.now) leaves.now)) }
{
    if leaves.len() == 1 {
        return Ok(Vec::new(alloc));
    }
    let (left, right) = leaves.split_at(left_size(leaves.len()));
    if index < left.len() {
        let mut path = own_path(alloc, left, index)?;
        path.push(tree_hash(right))?;
        Ok(path)
    } else {
        let mut path = own_path(alloc, right, index - left.len())?;
        path.push(tree_hash(left))?;
        Ok(path)
    }
}

/// The path that proves the leaf at the index.
pub fn prove_inclusion(
    alloc: Global,
    leaves: &[&[u8]],
    index: usize,
) -> Result<Vec<[u8; 32]>, AllocError>
    requires { index < length leaves.now }
    ensures path { IfOk result (λ path. path.items ≡
        inclusion_path sha256 index (map (λ leaf. leaf.now) leaves.now)) }
    ensures verifies { let all = map (λ leaf. leaf.now) leaves.now in IfOk result
        (λ path. Includes sha256 (slice_index_or all index []) index (length all) path.items
        (tree_hash sha256 all)) }
{
    let size = leaves.len();
    prove!(index < size);
    own_path(alloc, leaves, index)
}
