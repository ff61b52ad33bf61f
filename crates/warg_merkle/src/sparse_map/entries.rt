//! Proofs of what stands at a key.

ghost use Rattle.std.specs.Prelude.{◌≡◌, ◌<◌, ◌↔◌, List, ℕ, Option, IsTrue, Some, None};
ghost use Rattle.sha2.specs.Sha256.{sha256};
ghost use Rattle.warg_merkle.specs.Trees.{Side, climb};
ghost use Rattle.warg_merkle.specs.SparseMap.Maps.{is_right, sides_up, map_root, Leads, IsOwn};

use crate::{leaf_hash, node_hash};
use sha2::{Digest, Sha256};

/// Whether the key goes right at that depth, counted from the root: the first bit of the first byte is at the root.
pub fn is_right(key: &[u8; 32], depth: usize) -> bool
    requires { depth < 256 }
    ensures { result ≡ is_right key.now depth }
{
    (key[depth / 8] >> (7 - depth % 8)) % 2 == 1
}

// The hash that the key's way up ends at, if the path has a sibling for each bit and no more.
fn climb(from: [u8; 32], key: &[u8; 32], path: &[[u8; 32]]) -> Option<[u8; 32]>
    ensures { result ≡ climb sha256 (sides_up 256 key.now) path.now from }
{
    let mut hash = from;
    let mut depth = 256;
    let mut rest = path;
    while depth > 0 {
        depth -= 1;
        let Some((sibling, others)) = rest.split_first() else {
            return None;
        };
        hash = if is_right(key, depth) {
            node_hash(sibling, &hash)
        } else {
            node_hash(&hash, sibling)
        };
        rest = others;
    }
    if rest.is_empty() { Some(hash) } else { None }
}

// Whether the path leads from the hash at the key to the root.
fn leads(from: [u8; 32], key: &[u8; 32], path: &[[u8; 32]], root: &[u8; 32]) -> bool
    ensures { IsTrue result ↔ (climb sha256 (sides_up 256 key.now) path.now from ≡ Some root.now) }
{
    match climb(from, key, path) {
        Some(reached) => reached == *root,
        None => false,
    }
}

/// Whether the path leads from the value at the key to the root.
pub fn verify_entry(key: &[u8; 32], value: &[u8], path: &[[u8; 32]], root: &[u8; 32]) -> bool
    ensures exact { IsTrue result ↔ Leads sha256 (Some value.now) key.now path.now root.now }
    ensures sound { IsTrue result → (m : List Side → Option (List ℕ)) → map_root sha256 256 m ≡
        root.now → IsOwn sha256 m (Some value.now) key.now path.now }
{
    leads(leaf_hash(value), key, path, root)
}

/// Whether the path leads from no value at the key to the root.
pub fn verify_absence(key: &[u8; 32], path: &[[u8; 32]], root: &[u8; 32]) -> bool
    ensures exact { IsTrue result ↔ Leads sha256 None key.now path.now root.now }
    ensures sound { IsTrue result → (m : List Side → Option (List ℕ)) → map_root sha256 256 m ≡
        root.now → IsOwn sha256 m None key.now path.now }
{
    leads(Sha256::digest(b""), key, path, root)
}
