//! Proofs that a tree's leaves begin with those of an older tree.

ghost use Rattle.std.specs.Prelude.{◌≡◌, ◌-◌, ◌<◌, ◌≤◌, ◌↔◌, ℕ, List, [], IsTrue, length};
ghost use Rattle.sha2.specs.Sha256.{sha256};
ghost use Rattle.warg_merkle.specs.Trees.{sides_within, tree_hash};
ghost use Rattle.warg_merkle.specs.Extensions.{start_index, sides_from_start, extension_sides, climb_both, climb_from, with_start, ExtendsNone, ExtendsAll, Extends, IsConsistent, IsBeginning};

use crate::hashes::node_hash;
use sha2::{Digest, Sha256};

// The place, on its level, of the largest whole subtree that ends at the leaf, and that of the last node there.
fn start(leaf: u64, last: u64) -> (u64, u64)
    requires { leaf ≤ last }
    ensures place { result.0 ≡ start_index 64 leaf }
    ensures order { result.0 ≤ result.1 }
    ensures sides { sides_within 64 result.0 result.1 ≡ sides_from_start 64 leaf last }
{
    let mut at = leaf;
    let mut end = last;
    while at % 2 == 1 {
        at /= 2;
        end /= 2;
    }
    (at, end)
}

// The roots of the old tree and of the new one that the way up ends at, if the path has a sibling for each step and no
// more.
fn climb_both(
    start: [u8; 32],
    index: u64,
    last: u64,
    path: &[[u8; 32]],
) -> Option<([u8; 32], [u8; 32])>
    requires { index ≤ last }
    ensures { result ≡ climb_both sha256 (sides_within 64 index last) path.now start start }
{
    let mut old = start;
    let mut new = start;
    let mut at = index;
    let mut end = last;
    let mut rest = path;
    while end > 0 {
        if at % 2 == 1 || at < end {
            let Some((sibling, others)) = rest.split_first() else {
                return None;
            };
            if at % 2 == 1 {
                old = node_hash(sibling, &old);
                new = node_hash(sibling, &new);
            } else {
                new = node_hash(&new, sibling);
            }
            rest = others;
        }
        at /= 2;
        end /= 2;
    }
    if rest.is_empty() {
        Some((old, new))
    } else {
        None
    }
}

// Both roots that the path leads to.
fn both_roots(
    first: u64,
    size: u64,
    path: &[[u8; 32]],
    old: &[u8; 32],
) -> Option<([u8; 32], [u8; 32])>
    requires some { 0 < first }
    requires more { first < size }
    ensures { result ≡ climb_from sha256 (extension_sides first size)
        (with_start sha256 first old.now path.now) }
{
    let (at, end) = start(first - 1, size - 1);
    if at == 0 {
        return climb_both(*old, at, end, path);
    }
    match path.split_first() {
        Some((start, rest)) => climb_both(*start, at, end, rest),
        None => None,
    }
}

// Whether the path leads to both roots: to the old one, of the first leaves, and to the new one, of a tree of that size.
fn extends(first: u64, size: u64, path: &[[u8; 32]], old: &[u8; 32], new: &[u8; 32]) -> bool
    requires some { 0 < first }
    requires more { first < size }
    ensures { IsTrue result ↔ Extends sha256 first size path.now old.now new.now }
{
    if path.len() > 64 {
        return false;
    }
    match both_roots(first, size, path, old) {
        Some(roots) => roots.0 == *old && roots.1 == *new,
        None => false,
    }
}

// Whether there is no hash in the path.
fn is_empty_path(path: &[[u8; 32]]) -> bool
    ensures { IsTrue result ↔ (path.now ≡ []) }
{
    path.is_empty()
}

// Whether the hashes are equal.
fn is_same_hash(left: &[u8; 32], right: &[u8; 32]) -> bool
    ensures { IsTrue result ↔ (left.now ≡ right.now) }
{
    *left == *right
}

// Whether the path is the one of no leaves: an empty one, with the root of none.
fn extends_none(size: u64, path: &[[u8; 32]], old: &[u8; 32], new: &[u8; 32]) -> bool
    ensures { IsTrue result ↔ ExtendsNone sha256 0 size path.now old.now new.now }
{
    if !is_empty_path(path) {
        return false;
    }
    if !is_same_hash(old, &Sha256::digest(b"")) {
        return false;
    }
    size > 0 || is_same_hash(old, new)
}

// Whether the path is the one of all leaves: an empty one, with one root.
fn extends_all(size: u64, path: &[[u8; 32]], old: &[u8; 32], new: &[u8; 32]) -> bool
    requires { 0 < size }
    ensures { IsTrue result ↔ ExtendsAll size size path.now old.now new.now }
{
    if !is_empty_path(path) {
        return false;
    }
    is_same_hash(old, new)
}

/// Whether the proof shows that the first leaves of a tree of that size and root have the old root. A proof of more than
/// 64 hashes shows nothing; the one for no leaves, and the one for all, is empty.
pub fn verify_consistency(
    first: u64,
    size: u64,
    path: &[[u8; 32]],
    old: &[u8; 32],
    new: &[u8; 32],
) -> bool
    ensures exact { IsTrue result ↔ IsConsistent sha256 first size path.now old.now new.now }
    ensures sound { IsTrue result → (leaves : List (List ℕ)) → length leaves ≡ size →
        tree_hash sha256 leaves ≡ new.now → IsBeginning sha256 leaves first path.now old.now }
{
    if first == 0 {
        extends_none(size, path, old, new)
    } else if first == size {
        extends_all(size, path, old, new)
    } else {
        first < size && extends(first, size, path, old, new)
    }
}
