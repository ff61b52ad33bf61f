//! The trees of a registry: its log and its map.

ghost use Rattle.std.specs.Prelude.{◌≡◌, ◌<◌, ◌≤◌, ◌↔◌, ◌++◌, [], ◌∷◌, length, IsTrue, IsSome, IfOk, IfSome, OnOk, OnErr};
ghost use Rattle.std.specs.List.{All};
ghost use Rattle.sha2.specs.Sha256.{sha256};
ghost use Rattle.warg_merkle.specs.MerkleLog.Logs.{leaf_hashes};
ghost use Rattle.warg_registry.specs.PrefixEncodings.{IsHash};
ghost use Rattle.warg_transparency.specs.MapTree.{leaves_of};
ghost use Rattle.warg_transparency.specs.RegistryTrees.{HasHashes, HeadIs, IsCheckpointOf, IsMapOf};
ghost use Rattle.warg_transparency.specs.RegistryTrees.{ProvesBeginning, ProvesHead, ProvesLeaf, entries_of};

use crate::checkpoint::OfTrees;
use crate::log_proof::LogProof;
use crate::log_tree::LogTree;
use crate::map_proof::MapProof;
use crate::map_tree::MapTree;
use std::alloc::{AllocError, Global};
use std::marker::Model;
use warg_crypto::hash::AnyHash;
use warg_log_records::RecordId;
use warg_registry::{Checkpoint, LogId, LogLeaf, MapLeaf, RegistryLen};

/// The log and the map of a registry, and the leaves that they are of. In contracts it is the list of the leaves, in the
/// order in which they were pushed.
#[derive(Drop)]
pub struct RegistryTrees {
    leaves: Vec<LogLeaf>,
    log: LogTree,
    map: MapTree,
}

impl Model for RegistryTrees {
    ghost use Rattle.std.specs.Prelude.{List};
    ghost use Rattle.warg_registry.specs.declared.leaf.LogLeaf.{LogLeaf};
    ghost use Rattle.warg_transparency.specs.RegistryTrees.{leaves_code};

    ghost Value = { List LogLeaf };

    ghost coded = { leaves_code };

    ghost use Rattle.warg_transparency.specs.RegistryTrees.{AreTreesOf};
    ghost use Rattle.warg_transparency.specs.MapTree.{leaves_of};

    ghost view = { λ t. t.leaves.items };

    ghost invariant = { λ t. AreTreesOf t.leaves.items t.log (leaves_of t.map) };
}

// A hash is of 32 bytes: what its type promises, as a fact.
pub(crate) fn hash_range(hash: &AnyHash)
    ensures { IsHash hash.now }
{
    let _bytes = hash.bytes();
}

// The same of both ids of a leaf.
pub(crate) fn leaf_range(leaf: &LogLeaf)
    ensures { HasHashes leaf.now }
{
    hash_range(&AnyHash::from(leaf.log_id));
    hash_range(&AnyHash::from(leaf.record_id));
}

// The log of the leaves.
fn log_of(alloc: Global, leaves: &[LogLeaf]) -> Result<LogTree, AllocError>
    ensures { IfOk result (λ log. log ≡ leaf_hashes sha256 (entries_of leaves.now)) }
{
    let mut log = LogTree::new(alloc);
    for leaf in leaves {
        log.push(leaf)?;
    }
    Ok(log)
}

// The map of the leaves, from the last leaf on: those before the last one of a log are passed over.
fn map_of(alloc: Global, leaves: &[LogLeaf]) -> Result<MapTree, AllocError>
    ensures map { IfOk result (λ map. IsMapOf leaves.now (leaves_of map)) }
    ensures hashes { IfOk result (λ map. All HasHashes leaves.now) }
{
    let mut map = MapTree::new(alloc)?;
    let mut at = leaves.len();
    while at > 0 {
        at -= 1;
        let leaf = &leaves[at];
        leaf_range(leaf);
        if map.get(&leaf.log_id).is_none() {
            let head = MapLeaf {
                record_id: leaf.record_id,
            };
            map.insert(&leaf.log_id, &head)?;
        }
    }
    Ok(map)
}

impl RegistryTrees {
    /// The trees of no leaves. They take memory for the roots of empty subtrees.
    pub fn new(alloc: Global) -> Result<RegistryTrees, AllocError>
        ensures { IfOk result (λ trees. trees ≡ []) }
    {
        let map = MapTree::new(alloc)?;
        Ok(RegistryTrees {
            leaves: Vec::new(alloc),
            log: LogTree::new(alloc),
            map,
        })
    }

    /// The trees of these leaves, as if they had been pushed one after another. They cost two hashes for each leaf, and what
    /// an insertion into the map costs for each log: of its leaves only the last is put there.
    pub fn of_leaves(alloc: Global, leaves: Vec<LogLeaf>) -> Result<RegistryTrees, AllocError>
        ensures { IfOk result (λ trees. trees ≡ leaves.items) }
    {
        let log = log_of(alloc, leaves.as_slice())?;
        let map = map_of(alloc, leaves.as_slice())?;
        Ok(RegistryTrees { leaves, log, map })
    }

    /// How many leaves there are.
    pub fn len(&self) -> RegistryLen
        ensures { result ≡ length self.now }
    {
        self.leaves.len()
    }

    /// Whether there are no leaves.
    pub fn is_empty(&self) -> bool
        ensures { IsTrue result ↔ (self.now ≡ []) }
    {
        self.leaves.is_empty()
    }

    /// The leaves.
    pub fn leaves(&self) -> &[LogLeaf]
        ensures value { result.now ≡ self.now }
        ensures hashes { All HasHashes self.now }
    {
        self.leaves.as_slice()
    }

    /// Appends the leaf to the log, and makes its record the head of its log in the map. Where memory is refused to one of
    /// them both stay as they were.
    pub fn push(&mut self, leaf: &LogLeaf) -> Result<(), AllocError>
        ensures ok { OnOk result (self.new ≡ self.old ++ leaf.now ∷ []) }
        ensures err { OnErr result (self.new ≡ self.old) }
    {
        leaf_range(leaf);
        self.leaves.reserve(1)?;
        self.log.push(leaf)?;
        let head = MapLeaf {
            record_id: leaf.record_id,
        };
        match self.map.insert(&leaf.log_id, &head) {
            Ok(_) => {
                let _ = self.leaves.push(*leaf);
                Ok(())
            }
            Err(error) => {
                self.log.pop();
                Err(error)
            }
        }
    }

    /// The roots of both trees, and the length of the log.
    pub fn checkpoint(&self) -> Checkpoint
        ensures { IsCheckpointOf self.now result }
    {
        Checkpoint::of(&self.log, &self.map)
    }

    /// The proof that the leaf at the index is in the log, or none past the end.
    pub fn inclusion(&self, index: u64) -> Result<Option<LogProof>, AllocError>
        ensures some { IfOk result (λ found. IsSome found ↔ (index < length self.now)) }
        ensures proves { IfOk result (λ found. IfSome found (ProvesLeaf self.now index)) }
    {
        self.log.inclusion(index)
    }

    /// The proof that the log goes on from its first leaves, or none where it has not that many.
    pub fn consistency(&self, first: u64) -> Result<Option<LogProof>, AllocError>
        ensures some { IfOk result (λ found. IsSome found ↔ (first ≤ length self.now)) }
        ensures proves { IfOk result (λ found. IfSome found (ProvesBeginning self.now first)) }
    {
        self.log.consistency(first)
    }

    /// The last record of the log, if it has one.
    pub fn head(&self, log_id: &LogId) -> Option<RecordId>
        ensures { HeadIs self.now log_id.now result }
    {
        hash_range(&AnyHash::from(*log_id));
        match self.map.get(log_id) {
            Some(leaf) => {
                hash_range(&AnyHash::from(leaf.record_id));
                Some(leaf.record_id)
            }
            None => None,
        }
    }

    /// The proof of the last record of the log, or that it has none.
    pub fn head_proof(&self, log_id: &LogId) -> Result<MapProof, AllocError>
        ensures { IfOk result (ProvesHead self.now log_id.now) }
    {
        hash_range(&AnyHash::from(*log_id));
        self.map.proof(log_id)
    }
}
