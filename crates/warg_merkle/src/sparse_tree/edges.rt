//! Edges of a map's tree: where keys part, and roots above an edge with nothing beside it.

ghost use Rattle.std.specs.Prelude.{◌≡◌, ◌-◌, ◌≤◌, drop, MatchOption};
ghost use Rattle.sha2.specs.Sha256.{sha256};
ghost use Rattle.warg_merkle.specs.SparseTree.Nodes.{empty_roots, way_from};
ghost use Rattle.warg_merkle.specs.SparseTree.Compressed.{root_above};
ghost use Rattle.warg_merkle.specs.SparseTree.Stored.{AreAlike, PartAt};

use crate::map_proof::hash_above;
use crate::sparse_map::is_right;

// The first depth from one on and before another where the keys go different sides.
pub(crate) fn parting(key: &[u8; 32], other: &[u8; 32], depth: usize, end: usize) -> Option<usize>
    requires { end ≤ 256 }
    ensures { MatchOption result (AreAlike depth end key.now other.now)
        (λ at. PartAt depth end key.now other.now at) }
{
    let mut at = depth;
    while at < end {
        if is_right(key, at) != is_right(other, at) {
            return Some(at);
        }
        at += 1;
    }
    None
}

// The root at a depth on the key's way, where this one is at a depth below and nothing is beside the way between.
pub(crate) fn root_above(
    root: [u8; 32],
    key: &[u8; 32],
    from: usize,
    depth: usize,
    empties: &[[u8; 32]],
) -> [u8; 32]
    requires above { depth ≤ from }
    requires in_tree { from ≤ 256 }
    requires empties { empties.now ≡ empty_roots sha256 257 }
    ensures { result ≡
        root_above sha256 (256 - from) (way_from (from - depth) depth key.now) root }
{
    let mut root = root;
    let mut at = from;
    while at > depth {
        at -= 1;
        root = hash_above(key, at, &root, &empties[255 - at]);
    }
    root
}

// The roots of empty subtrees from a height on and below another.
pub(crate) fn row<'a>(empties: &'a [[u8; 32]], low: usize, high: usize) -> &'a [[u8; 32]]
    requires order { low ≤ high }
    requires in_tree { high ≤ 257 }
    requires empties { empties.now ≡ empty_roots sha256 257 }
    ensures { result.now ≡ drop low (empty_roots sha256 high) }
{
    &empties[low..high]
}
