//! The parts of a path's short form.

ghost use Rattle.std.specs.Prelude.{◌≡◌, ◌↔◌, ◌<◌, ◌++◌, ℕ, [], IsTrue, OnOk, length, slice_index_or};
ghost use Rattle.std.specs.List.{concat};
ghost use Rattle.sha2.specs.Sha256.{sha256};
ghost use Rattle.warg_merkle.specs.SparseMap.Maps.{empty_root};
ghost use Rattle.warg_merkle.specs.MapProof.ShortForms.{is_left_out, others_of};

use crate::node_hash;
use crate::sparse_map::is_right;
use sha2::{Digest, Sha256};
use std::alloc::AllocError;

// Whether the hashes are equal.
pub(crate) fn is_same_hash(left: &[u8; 32], right: &[u8; 32]) -> bool
    ensures { IsTrue result ↔ (left.now ≡ right.now) }
{
    *left == *right
}

// The bits that leave out exactly the siblings that are roots of empty subtrees.
pub(crate) fn bits_of(path: &[[u8; 32]]) -> [u8; 32]
    requires { length path.now ≡ 256 }
    ensures { (height : ℕ) → height < 256 →
        IsTrue (is_left_out result height) ↔
        (slice_index_or path.now height [] ≡ empty_root sha256 height) }
{
    let mut bits = [0u8; 32];
    let mut empty = Sha256::digest(b"");
    let mut height = 0;
    while height < 256 {
        if is_same_hash(&path[height], &empty) {
            bits[height / 8] |= 1 << (7 - height % 8);
        }
        empty = node_hash(&empty, &empty);
        height += 1;
    }
    bits
}

// Appends the siblings that the bits do not leave out.
pub(crate) fn push_others(
    bytes: &mut Vec<u8>,
    left_out: &[u8; 32],
    path: &[[u8; 32]],
) -> Result<(), AllocError>
    requires { length path.now ≡ 256 }
    ensures { OnOk result (bytes.new.items ≡
        bytes.old.items ++ concat (others_of 0 left_out.now path.now)) }
{
    let mut height = 0;
    while height < 256 {
        if !is_right(left_out, height) {
            bytes.extend_from_slice(path[height].as_slice())?;
        }
        height += 1;
    }
    Ok(())
}
