//! The map of a registry.

ghost use Rattle.std.specs.Prelude.{◌≡◌, ◌↔◌, ◌+◌, List, ℕ, None, if◌then◌else◌, is_some, IsTrue, IfOk, OnOk, OnErr, option_map};
ghost use Rattle.std.specs.Option.{ForSome};
ghost use Rattle.sha2.specs.Sha256.{sha256};
ghost use Rattle.warg_merkle.specs.Trees.{Side};
ghost use Rattle.warg_merkle.specs.SparseMap.Maps.{map_root, map_path, Leads};
ghost use Rattle.warg_merkle.specs.SparseTree.SparseTree.{map_of};
ghost use Rattle.warg_merkle.specs.SparseTree.Nodes.{map_count, Sets};
ghost use Rattle.warg_registry.specs.PrefixEncodings.{map_leaf_encoding_of};
ghost use Rattle.warg_transparency.specs.MapLeaves.{IsLeafEncoding};

use crate::decode::leaf_read;
use crate::encode::{key_of, map_leaf_bytes};
use crate::map_proof::MapProof;
use std::alloc::{AllocError, Global};
use warg_crypto::hash::{AnyHash, HashAlgorithm};
use warg_registry::{LogId, MapLeaf};

/// The map of a registry: the leaf of each log, its root after each change, and proofs. An insertion costs 257 hashes and
/// fewer than 48 more, where no two ids share their first 48 bits. A log takes memory for its leaf and for one node.
#[derive(Drop)]
pub struct MapTree {
    alloc: Global,
    tree: warg_merkle::sparse_tree::SparseTree,
    ghost leaves: { (way : List Side) → ForSome (map_of tree way) IsLeafEncoding },
}

impl MapTree {
    ghost use Rattle.warg_transparency.specs.MapTree.{leaves_of, way_of};

    /// The map with nothing in it. It takes memory for the roots of empty subtrees.
    pub fn new(alloc: Global) -> Result<MapTree, AllocError>
        ensures { IfOk result (λ map. (way : List Side) → leaves_of map way ≡ None) }
    {
        let tree = warg_merkle::sparse_tree::SparseTree::new(alloc)?;
        Ok(MapTree { alloc, tree })
    }

    /// How many logs have a leaf.
    pub fn len(&self) -> usize
        ensures { result ≡ map_count 256 (leaves_of self.now) }
    {
        self.tree.len()
    }

    /// Whether no log has a leaf.
    pub fn is_empty(&self) -> bool
        ensures { IsTrue result ↔ (map_count 256 (leaves_of self.now) ≡ 0) }
    {
        self.tree.is_empty()
    }

    /// The root of the map.
    pub fn root(&self) -> AnyHash
        ensures { result.bytes ≡ map_root sha256 256 (leaves_of self.now) }
    {
        AnyHash::new(HashAlgorithm::Sha256, self.tree.root())
    }

    /// The leaf of the log.
    pub fn get(&self, log_id: &LogId) -> Option<MapLeaf>
        ensures { option_map map_leaf_encoding_of result ≡ leaves_of self.now (way_of log_id.now) }
    {
        let key = key_of(log_id);
        match self.tree.get(&key) {
            Some(bytes) => leaf_read(bytes),
            None => None,
        }
    }

    /// Puts the leaf at the log, and gives the one that stood there. It is refused where the memory is, or where the
    /// number of logs would pass `usize`; the map is then as it was.
    pub fn insert(&mut self, log_id: &LogId, leaf: &MapLeaf) -> Result<Option<MapLeaf>, AllocError>
        ensures ok { OnOk result (Sets (leaves_of self.old) (leaves_of self.new) (way_of log_id.now)
            (map_leaf_encoding_of leaf.now)) }
        ensures old { IfOk result (λ old.
            option_map map_leaf_encoding_of old ≡ leaves_of self.old (way_of log_id.now)) }
        ensures count { IfOk result (λ old. map_count 256 (leaves_of self.new) ≡
            map_count 256 (leaves_of self.old) + (if is_some old then 0 else 1)) }
        ensures err { OnErr result ((way : List Side) → leaves_of self.new way ≡
            leaves_of self.old way) }
    {
        let key = key_of(log_id);
        let bytes = Vec::from_slice(self.alloc, &map_leaf_bytes(leaf))?;
        match self.tree.insert(&key, bytes)? {
            Some(old) => Ok(leaf_read(old.as_slice())),
            None => Ok(None),
        }
    }

    /// The proof of the leaf of the log, or that it has none.
    pub fn proof(&self, log_id: &LogId) -> Result<MapProof, AllocError>
        ensures path { IfOk result (λ proof. proof ≡
            map_path sha256 (leaves_of self.now) (way_of log_id.now)) }
        ensures verifies { IfOk result
            (λ proof. Leads sha256 (leaves_of self.now (way_of log_id.now))
            log_id.now.hash.bytes proof (map_root sha256 256 (leaves_of self.now))) }
    {
        let key = key_of(log_id);
        Ok(MapProof::of_short(self.tree.proof(&key)?))
    }
}
