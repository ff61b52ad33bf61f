//! What the bits and the hashes of a short form have to be.

ghost use Rattle.std.specs.Prelude.{◌≡◌, ◌↔◌, ◌≤◌, IsTrue};
ghost use Rattle.sha2.specs.Sha256.{sha256};
ghost use Rattle.warg_merkle.specs.MapProof.ShortForms.{others_count, IsCanonical};

use crate::map_proof::build::is_same_hash;
use crate::node_hash;
use crate::sparse_map::is_right;
use sha2::{Digest, Sha256};

// How many siblings the bits do not leave out.
pub(crate) fn others_count(left_out: &[u8; 32]) -> usize
    ensures count { result ≡ others_count 256 0 left_out.now }
    ensures bound { result ≤ 256 }
{
    let mut count = 0;
    let mut height = 0;
    while height < 256 {
        if !is_right(left_out, height) {
            count += 1;
        }
        height += 1;
    }
    count
}

// Whether there is a hash for each sibling that is not left out and no more, and none is the root of the empty subtree of
// its height.
pub(crate) fn is_short(left_out: &[u8; 32], others: &[[u8; 32]]) -> bool
    ensures { IsTrue result ↔ IsCanonical sha256 256 0 left_out.now others.now }
{
    let mut empty = Sha256::digest(b"");
    let mut rest = others;
    let mut height = 0;
    while height < 256 {
        if !is_right(left_out, height) {
            let Some((sibling, above)) = rest.split_first() else {
                return false;
            };
            if is_same_hash(sibling, &empty) {
                return false;
            }
            rest = above;
        }
        empty = node_hash(&empty, &empty);
        height += 1;
    }
    rest.is_empty()
}
