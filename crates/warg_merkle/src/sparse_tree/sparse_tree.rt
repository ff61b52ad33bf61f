//! The map.

ghost use Rattle.std.specs.Prelude.{◌≡◌, ◌↔◌, ◌+◌, List, None, if◌then◌else◌, is_some, IsTrue, IfOk, OnOk, OnErr, option_map};
ghost use Rattle.std.specs.Option.{option_copied};
ghost use Rattle.sha2.specs.Sha256.{sha256};
ghost use Rattle.warg_merkle.specs.Trees.{Side};
ghost use Rattle.warg_merkle.specs.SparseMap.Maps.{way_down, map_root, map_path, Leads};
ghost use Rattle.warg_merkle.specs.SparseTree.Nodes.{empty_roots, map_count, Sets};
ghost use Rattle.warg_merkle.specs.SparseTree.Stored.{IsHashed, IsHashed-prop, leaf_count};

use crate::map_proof::MapProof;
use crate::sparse_tree::empties::empty_roots;
use crate::sparse_tree::node::Node;
use std::alloc::{AllocError, Global};

/// A map from keys of 256 bits to bytes, as a sparse Merkle tree that stores a node only where the ways of two keys part.
///
/// An insertion costs the leaf's hash, 255 or 256 hashes of nodes, and those for the root of what its way leaves at a new
/// node: fewer than 48 where no two keys share their first 48 bits. A key takes memory for a leaf of 88 bytes beside its
/// value, and for one node of 136. The roots of empty subtrees take 8 KiB once.
#[derive(Drop)]
pub struct SparseTree {
    alloc: Global,
    empties: Vec<[u8; 32]>,
    node: Node,
    len: usize,
    ghost table: { empties.items ≡ empty_roots sha256 257 },
    ghost hashed: { IsHashed sha256 0 node } by { IsHashed-prop sha256 0 node },
    ghost counted: { len ≡ leaf_count node },
}

impl SparseTree {
    ghost use Rattle.warg_merkle.specs.SparseTree.SparseTree.{map_of};

    /// The map with nothing in it. It takes memory for the roots of empty subtrees.
    pub fn new(alloc: Global) -> Result<SparseTree, AllocError>
        ensures { IfOk result (λ tree. (way : List Side) → map_of tree way ≡ None) }
    {
        Ok(SparseTree {
            alloc,
            empties: empty_roots(alloc)?,
            node: Node::Empty,
            len: 0,
        })
    }

    /// How many keys have a value.
    pub fn len(&self) -> usize
        ensures { result ≡ map_count 256 (map_of self.now) }
    {
        self.len
    }

    /// Whether no key has a value.
    pub fn is_empty(&self) -> bool
        ensures { IsTrue result ↔ (map_count 256 (map_of self.now) ≡ 0) }
    {
        self.len == 0
    }

    /// The map's root.
    pub fn root(&self) -> [u8; 32]
        ensures { result ≡ map_root sha256 256 (map_of self.now) }
    {
        self.node.root(0, self.empties.as_slice())
    }

    /// The value at the key.
    pub fn get(&self, key: &[u8; 32]) -> Option<&[u8]>
        ensures { option_copied result ≡ map_of self.now (way_down key.now) }
    {
        self.node.get(key, 0)
    }

    /// Puts the value at the key, and gives the one that stood there. It is refused where the memory is, or where the
    /// number of keys would pass `usize`.
    pub fn insert(&mut self, key: &[u8; 32], value: Vec<u8>) -> Result<Option<Vec<u8>>, AllocError>
        ensures ok { OnOk result (Sets (map_of self.old) (map_of self.new)
            (way_down key.now) value.items) }
        ensures old { IfOk result (λ old. option_map (λ v. v.items) old ≡
            map_of self.old (way_down key.now)) }
        ensures count { IfOk result (λ old. map_count 256 (map_of self.new) ≡
            map_count 256 (map_of self.old) + (if is_some old then 0 else 1)) }
        ensures err { OnErr result ((way : List Side) → map_of self.new way ≡ map_of self.old way) }
    {
        if self.len == usize::MAX {
            return Err(AllocError);
        }
        let old = self
            .node
            .insert(self.alloc, key, 0, value, self.empties.as_slice())?;
        if old.is_none() {
            self.len += 1;
        }
        Ok(old)
    }

    /// The proof of what stands at the key, or that nothing does.
    pub fn proof(&self, key: &[u8; 32]) -> Result<MapProof, AllocError>
        ensures path { IfOk result (λ proof. proof ≡
            map_path sha256 (map_of self.now) (way_down key.now)) }
        ensures verifies { IfOk result (λ proof.
            Leads sha256 (map_of self.now (way_down key.now)) key.now proof
            (map_root sha256 256 (map_of self.now))) }
    {
        let path = self.node.path(self.alloc, key, 0, self.empties.as_slice())?;
        MapProof::from_path(self.alloc, path.as_slice())
    }
}
