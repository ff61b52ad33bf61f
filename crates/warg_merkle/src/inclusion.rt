//! Proofs that a leaf is in a tree.

ghost use Rattle.std.specs.Prelude.{◌≡◌, ◌≤◌, ◌↔◌, ℕ, List, IsTrue, length};
ghost use Rattle.sha2.specs.Sha256.{sha256};
ghost use Rattle.warg_merkle.specs.Trees.{Includes, IsOwn, climb, sides_within, tree_hash};

use crate::hashes::{leaf_hash, node_hash};

// The hash that the way up ends at, if the path has a sibling for each step and no more.
fn climb(from: [u8; 32], index: u64, last: u64, path: &[[u8; 32]]) -> Option<[u8; 32]>
    requires { index ≤ last }
    ensures { result ≡ climb sha256 (sides_within 64 index last) path.now from }
{
    let mut hash = from;
    let mut at = index;
    let mut end = last;
    let mut rest = path;
    while end > 0 {
        if at % 2 == 1 || at < end {
            let Some((sibling, others)) = rest.split_first() else {
                return None;
            };
            hash = if at % 2 == 1 {
                node_hash(sibling, &hash)
            } else {
                node_hash(&hash, sibling)
            };
            rest = others;
        }
        at /= 2;
        end /= 2;
    }
    if rest.is_empty() { Some(hash) } else { None }
}

/// Whether the path leads from the leaf at the index of a tree of that size to the root. One of more than 64 hashes does not.
pub fn verify_inclusion(
    leaf: &[u8],
    index: u64,
    size: u64,
    path: &[[u8; 32]],
    root: &[u8; 32],
) -> bool
    ensures exact { IsTrue result ↔ Includes sha256 leaf.now index size path.now root.now }
    ensures sound { IsTrue result → (leaves : List (List ℕ)) → length leaves ≡ size →
        tree_hash sha256 leaves ≡ root.now → IsOwn sha256 leaves leaf.now index path.now }
{
    if index >= size || path.len() > 64 {
        return false;
    }
    match climb(leaf_hash(leaf), index, size - 1, path) {
        Some(reached) => reached == *root,
        None => false,
    }
}
