//! The roots of empty subtrees.

ghost use Rattle.std.specs.Prelude.{◌≡◌, IfOk};
ghost use Rattle.sha2.specs.Sha256.{sha256};
ghost use Rattle.warg_merkle.specs.SparseTree.Nodes.{empty_roots};

use sha2::{Digest, Sha256};
use std::alloc::{AllocError, Global};
use warg_merkle::node_hash;

// The roots of empty subtrees, by their heights up to 256.
pub(crate) fn empty_roots(alloc: Global) -> Result<Vec<[u8; 32]>, AllocError>
    ensures { IfOk result (λ roots. roots.items ≡ empty_roots sha256 257) }
{
    let mut roots = Vec::with_capacity(alloc, 257)?;
    let mut next = Sha256::digest(b"");
    let mut count = 0usize;
    while count < 257 {
        roots.push(next)?;
        next = node_hash(&next, &next);
        count += 1;
    }
    Ok(roots)
}
