//! Proofs of what stands at a key of a map.

ghost use Rattle.std.specs.Prelude.{◌≡◌, ◌-◌, ◌≤◌, ℕ, List, Option, IfOk, length};
ghost use Rattle.sha2.specs.Sha256.{sha256};
ghost use Rattle.warg_merkle.specs.Trees.{Side};
ghost use Rattle.warg_merkle.specs.SparseMap.Maps.{map_path, way_down};
ghost use Rattle.warg_merkle.specs.SparseTree.Nodes.{empty_roots, way_from};
ghost use Rattle.warg_listed_map.specs.ListedMaps.{IsMapOf};

use crate::empties::empty_roots;
use crate::entry::Entry;
use crate::parting::part;
use crate::root::root_at;
use std::alloc::{AllocError, Global};
use warg_merkle::map_proof::MapProof;
use warg_merkle::sparse_map::is_right;

// The siblings on the key's way up to that depth.
fn path_at(
    alloc: Global,
    entries: &mut [Entry],
    key: &[u8; 32],
    depth: usize,
    empties: &[[u8; 32]],
) -> Result<Vec<[u8; 32]>, AllocError>
    requires in_tree { depth ≤ 256 }
    requires empties { empties.now ≡ empty_roots sha256 257 }
    ensures long { IfOk result (λ path. length path.items ≡ 256 - depth) }
    ensures path { (m : List Side → Option (List ℕ)) →
        IsMapOf (way_from (256 - depth) depth) entries.old m →
        IfOk result (λ path. path.items ≡
        map_path sha256 m (way_from (256 - depth) depth key.now)) }
{
    if depth == 256 {
        return Ok(Vec::new(alloc));
    }
    let count = part(entries, depth);
    let (left, right) = entries.split_at_mut(count);
    if is_right(key, depth) {
        let mut path = path_at(alloc, right, key, depth + 1, empties)?;
        path.push(root_at(left, depth + 1, empties))?;
        Ok(path)
    } else {
        let mut path = path_at(alloc, left, key, depth + 1, empties)?;
        path.push(root_at(right, depth + 1, empties))?;
        Ok(path)
    }
}

// The siblings on the way up from the key.
fn path_of(
    alloc: Global,
    entries: &mut [Entry],
    key: &[u8; 32],
) -> Result<Vec<[u8; 32]>, AllocError>
    ensures long { IfOk result (λ path. length path.items ≡ 256) }
    ensures path { (m : List Side → Option (List ℕ)) → IsMapOf way_down entries.old m →
        IfOk result (λ path. path.items ≡ map_path sha256 m (way_down key.now)) }
{
    let empties = empty_roots(alloc)?;
    path_at(alloc, entries, key, 0, empties.as_slice())
}

/// The proof of what stands at the key in the map of these entries, or that nothing does. Their order changes meanwhile.
pub fn proof_of(
    alloc: Global,
    entries: &mut [Entry],
    key: &[u8; 32],
) -> Result<MapProof, AllocError>
    ensures { (m : List Side → Option (List ℕ)) → IsMapOf way_down entries.old m →
        IfOk result (λ proof. proof ≡ map_path sha256 m (way_down key.now)) }
{
    let path = path_of(alloc, entries, key)?;
    MapProof::from_path(alloc, path.as_slice())
}
