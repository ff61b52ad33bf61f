//! The saved form of a registry's trees: their leaves.

ghost use Rattle.std.specs.Prelude.{◌≡◌, ◌≢◌, ◌%◌, ◌↔◌, List, Err, IfOk, length};
ghost use Rattle.warg_registry.specs.declared.leaf.LogLeaf.{LogLeaf};
ghost use Rattle.warg_transparency.specs.RegistryTrees.{HasHashes};
ghost use Rattle.warg_transparency.specs.SavedLeaves.{leaf_bytes, AreSaved};
ghost use Rattle.warg_transparency.specs.declared.error.SavedLeavesError.TheVariants as fault;

use crate::error::SavedLeavesError;
use crate::registry_trees::{RegistryTrees, leaf_range};
use std::alloc::{AllocError, Global};
use warg_crypto::hash::{AnyHash, HashAlgorithm};
use warg_log_records::RecordId;
use warg_registry::{LogId, LogLeaf};

// The hash of these bytes.
fn hash_of(bytes: &[u8]) -> AnyHash
    requires { length bytes.now ≡ 32 }
    ensures { result.bytes ≡ bytes.now }
{
    let mut array = [0u8; 32];
    array.copy_from_slice(bytes);
    AnyHash::new(HashAlgorithm::Sha256, array)
}

// The leaf of these bytes.
fn leaf_of(bytes: &[u8; 64]) -> LogLeaf
    ensures bytes { leaf_bytes result ≡ bytes.now }
    ensures hashes { HasHashes result }
{
    let (log_id, record_id) = bytes.split_at(32);
    let leaf = LogLeaf {
        log_id: LogId::from(hash_of(log_id)),
        record_id: RecordId::from(hash_of(record_id)),
    };
    leaf_range(&leaf);
    leaf
}

// The leaves of these bytes, of which 64 are one.
fn leaves_of(alloc: Global, bytes: &[u8]) -> Result<Vec<LogLeaf>, AllocError>
    requires { length bytes.now % 64 ≡ 0 }
    ensures { IfOk result (λ leaves. AreSaved leaves.items bytes.now) }
{
    let (chunks, _) = bytes.as_chunks::<64>();
    let mut leaves = Vec::with_capacity(alloc, chunks.len())?;
    for chunk in chunks {
        leaves.push(leaf_of(chunk))?;
    }
    Ok(leaves)
}

impl RegistryTrees {
    /// The saved form: for each leaf, in the order in which they were pushed, the 32 bytes of its log's id and the 32 of its
    /// record's. So it may be kept by appending 64 bytes for each leaf that is pushed.
    pub fn to_bytes(&self, alloc: Global) -> Result<Vec<u8>, AllocError>
        ensures { IfOk result (λ bytes. AreSaved self.now bytes.items) }
    {
        let leaves = self.leaves();
        let mut bytes = Vec::with_capacity(alloc, leaves.len().saturating_mul(64))?;
        for leaf in leaves {
            bytes.extend_from_slice(leaf.log_id.as_bytes())?;
            bytes.extend_from_slice(AnyHash::from(leaf.record_id).bytes())?;
        }
        Ok(bytes)
    }

    /// The trees that the saved form is of. All hashes are made anew, as by `of_leaves`: nothing but the leaves is taken
    /// from the bytes.
    pub fn from_bytes(alloc: Global, bytes: &[u8]) -> Result<RegistryTrees, SavedLeavesError>
        ensures ok { IfOk result (λ trees. AreSaved trees bytes.now) }
        ensures reads_back { (leaves : List LogLeaf) → AreSaved leaves bytes.now →
            IfOk result (λ trees. trees ≡ leaves) }
        ensures bad_length { (result ≡ Err fault.BadLength) ↔ (length bytes.now % 64 ≢ 0) }
    {
        if bytes.len() % 64 != 0 {
            return Err(SavedLeavesError::BadLength);
        }
        let leaves = leaves_of(alloc, bytes)?;
        Ok(RegistryTrees::of_leaves(alloc, leaves)?)
    }
}
