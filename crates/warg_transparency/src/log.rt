//! Verification of what is in a log, which takes no memory.

ghost use Rattle.std.specs.Prelude.{◌≡◌, ◌↔◌, ℕ, List, IsTrue, length};
ghost use Rattle.sha2.specs.Sha256.{sha256};
ghost use Rattle.warg_merkle.specs.Trees.{Includes, IsOwn, tree_hash};
ghost use Rattle.warg_merkle.specs.Extensions.{IsBeginning};
ghost use Rattle.warg_transparency.specs.Views.{GoesOn, IsLogOf};
ghost use Rattle.warg_registry.specs.PrefixEncodings.{log_leaf_encoding_of};

use crate::encode::{hash_bytes, log_leaf_bytes};
use warg_crypto::hash::AnyHash;
use warg_registry::{Checkpoint, LogLeaf};

/// Whether the proof, the hashes from the leaf up, leads from the leaf at the index of a log of that size to the root. One
/// of more than 64 hashes does not.
pub fn verify_inclusion(
    leaf: &LogLeaf,
    index: u64,
    size: u64,
    proof: &[[u8; 32]],
    root: &AnyHash,
) -> bool
    ensures exact { IsTrue result ↔
        Includes sha256 (log_leaf_encoding_of leaf.now) index size proof.now root.now.bytes }
    // Every list of entries of that size and root has the leaf at the index, or there is a collision.
    ensures sound { IsTrue result → (entries : List (List ℕ)) → length entries ≡ size →
        tree_hash sha256 entries ≡ root.now.bytes →
        IsOwn sha256 entries (log_leaf_encoding_of leaf.now) index proof.now }
{
    let bytes = log_leaf_bytes(leaf);
    warg_merkle::verify_inclusion(&bytes, index, size, proof, &hash_bytes(root))
}

/// Whether the proof, the hashes from the leaf up, shows that the leaf stands at the index of the log under the checkpoint.
/// One of more than 64 hashes does not.
pub fn verify_leaf(checkpoint: &Checkpoint, leaf: &LogLeaf, index: u64, proof: &[[u8; 32]]) -> bool
    ensures exact { IsTrue result ↔
        Includes sha256 (log_leaf_encoding_of leaf.now) index checkpoint.now.log_length
        proof.now checkpoint.now.log_root.bytes }
    // Every list of entries of the checkpoint's length and root has the leaf at the index, or there is a collision.
    ensures sound { IsTrue result → (entries : List (List ℕ)) → IsLogOf checkpoint.now entries →
        IsOwn sha256 entries (log_leaf_encoding_of leaf.now) index proof.now }
{
    let size = checkpoint.log_length as u64;
    verify_inclusion(leaf, index, size, proof, &checkpoint.log_root)
}

/// Whether the proof shows that the log of the new checkpoint begins with that of the old one. One of more than 64 hashes
/// does not.
pub fn verify_consistency(old: &Checkpoint, new: &Checkpoint, proof: &[[u8; 32]]) -> bool
    ensures exact { IsTrue result ↔ GoesOn old.now new.now proof.now }
    // Every list of entries of the new length and root begins with entries of the old ones, or there is a collision.
    ensures sound { IsTrue result → (entries : List (List ℕ)) → IsLogOf new.now entries →
        IsBeginning sha256 entries old.now.log_length proof.now old.now.log_root.bytes }
{
    warg_merkle::verify_consistency(
        old.log_length as u64,
        new.log_length as u64,
        proof,
        &hash_bytes(&old.log_root),
        &hash_bytes(&new.log_root),
    )
}
