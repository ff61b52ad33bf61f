//! What a tree hashes.

ghost use Rattle.std.specs.Prelude.{◌≡◌};
ghost use Rattle.sha2.specs.Sha256.{sha256};
ghost use Rattle.warg_merkle.specs.Trees.{leaf_input, node_input};

use sha2::{Digest, Sha256};

/// The hash of a leaf.
pub fn leaf_hash(leaf: &[u8]) -> [u8; 32]
    ensures { result ≡ sha256 (leaf_input leaf.now) }
{
    let mut hasher = Sha256::new();
    hasher.update([0u8].as_slice());
    hasher.update(leaf);
    hasher.finalize()
}

/// The hash of a node over two hashes.
pub fn node_hash(left: &[u8; 32], right: &[u8; 32]) -> [u8; 32]
    ensures { result ≡ sha256 (node_input left.now right.now) }
{
    let mut hasher = Sha256::new();
    hasher.update([1u8].as_slice());
    hasher.update(left.as_slice());
    hasher.update(right.as_slice());
    hasher.finalize()
}
