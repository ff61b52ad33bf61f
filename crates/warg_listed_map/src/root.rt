//! The root of a map.

ghost use Rattle.std.specs.Prelude.{◌≡◌, ◌-◌, ◌≤◌, ℕ, List, Option, IfOk};
ghost use Rattle.sha2.specs.Sha256.{sha256};
ghost use Rattle.warg_merkle.specs.Trees.{Side};
ghost use Rattle.warg_merkle.specs.SparseMap.Maps.{map_root, way_down};
ghost use Rattle.warg_merkle.specs.SparseTree.Nodes.{empty_roots, way_from};
ghost use Rattle.warg_listed_map.specs.ListedMaps.{IsMapOf};

use crate::empties::empty_roots;
use crate::entry::Entry;
use crate::parting::{latest, part};
use std::alloc::{AllocError, Global};
use warg_merkle::node_hash;

// The root of the subtree at that depth.
pub(crate) fn root_at(entries: &mut [Entry], depth: usize, empties: &[[u8; 32]]) -> [u8; 32]
    requires in_tree { depth ≤ 256 }
    requires empties { empties.now ≡ empty_roots sha256 257 }
    ensures { (m : List Side → Option (List ℕ)) →
        IsMapOf (way_from (256 - depth) depth) entries.old m →
        result ≡ map_root sha256 (256 - depth) m }
{
    if entries.is_empty() {
        return empties[256 - depth];
    }
    if depth == 256 {
        return latest(entries).leaf;
    }
    let count = part(entries, depth);
    let (left, right) = entries.split_at_mut(count);
    let left = root_at(left, depth + 1, empties);
    let right = root_at(right, depth + 1, empties);
    node_hash(&left, &right)
}

/// The root of the map of these entries, whose order changes meanwhile. It takes memory for the roots of empty subtrees
/// alone, 8 KiB, and time for 256 hashes for each entry.
pub fn root_of(alloc: Global, entries: &mut [Entry]) -> Result<[u8; 32], AllocError>
    ensures { (m : List Side → Option (List ℕ)) → IsMapOf way_down entries.old m →
        IfOk result (λ root. root ≡ map_root sha256 256 m) }
{
    let empties = empty_roots(alloc)?;
    Ok(root_at(entries, 0, empties.as_slice()))
}
