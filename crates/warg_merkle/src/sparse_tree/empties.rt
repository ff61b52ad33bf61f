//! The roots of empty subtrees.

ghost use Rattle.std.specs.Prelude.{◌≡◌, IfOk};
ghost use Rattle.sha2.specs.Sha256.{sha256};
ghost use Rattle.warg_merkle.specs.SparseTree.Nodes.{empty_roots};

use crate::node_hash;
use sha2::{Digest, Sha256};
use std::alloc::{AllocError, Global};

// The roots of empty subtrees of each height up to 256.
pub(crate) fn empty_roots(alloc: Global) -> Result<Vec<[u8; 32]>, AllocError>
    ensures { IfOk result (λ roots. roots.items ≡ empty_roots sha256 257) }
{
    let mut roots = Vec::with_capacity(alloc, 257)?;
    let mut root = Sha256::digest(b"");
    let mut height = 0usize;
    while height < 257 {
        roots.push(root)?;
        root = node_hash(&root, &root);
        height += 1;
    }
    Ok(roots)
}
