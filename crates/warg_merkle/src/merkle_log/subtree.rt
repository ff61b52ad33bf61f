//! Subtrees of a log's tree, with the roots that the log keeps of them.

ghost use Rattle.std.specs.Prelude.{◌≡◌, ◌+◌, ◌-◌, ◌<◌, ◌≤◌, ◌++◌, take, drop, length, IfOk};
ghost use Rattle.sha2.specs.Sha256.{sha256};
ghost use Rattle.warg_merkle.specs.Trees.{left_size, tree_hash, inclusion_path};
ghost use Rattle.warg_merkle.specs.Extensions.{subproof};
ghost use Rattle.warg_merkle.specs.MerkleLog.Logs.{hash_of_nodes, whole_roots};

use crate::node_hash;
use sha2::{Digest, Sha256};
use std::alloc::{AllocError, Global};

// How many leaves stand in the left part of a tree: the largest power of two below their number.
pub fn left_size(size: usize) -> usize
    requires { 1 < size }
    ensures value { result ≡ left_size size }
    ensures some { 0 < result }
    ensures below { result < size }
{
    1 << (size - 1).ilog2()
}

// Some leaves of a log that are a subtree of its tree, or all, and the roots of the whole subtrees of these.
#[derive(Drop)]
pub struct Subtree<'a> {
    pub leaves: &'a [[u8; 32]],
    pub roots: &'a [[u8; 32]],
    ghost roots_are_own: { roots.now ≡ whole_roots (hash_of_nodes sha256) leaves.now },
}

impl<'a> Subtree<'a> {
    // The roots of the left part, and then those of the right one.
    fn roots_of_parts(&self) -> &'a [[u8; 32]]
        requires { 1 < length self.now.leaves.now }
        ensures { let size = left_size (length self.now.leaves.now) in result.now ≡
            whole_roots (hash_of_nodes sha256) (take size self.now.leaves.now) ++
            whole_roots (hash_of_nodes sha256) (drop size self.now.leaves.now) }
    {
        let size = self.leaves.len();
        if size == 2 * left_size(size) {
            &self.roots[..size - 2]
        } else {
            self.roots
        }
    }

    // The left and the right part.
    fn split(&self) -> (Subtree<'a>, Subtree<'a>)
        requires { 1 < length self.now.leaves.now }
        ensures left { result.0.leaves.now ≡
            take (left_size (length self.now.leaves.now)) self.now.leaves.now }
        ensures right { result.1.leaves.now ≡
            drop (left_size (length self.now.leaves.now)) self.now.leaves.now }
        ensures size { length result.0.leaves.now ≡ left_size (length self.now.leaves.now) }
        ensures left_some { 0 < length result.0.leaves.now }
        ensures right_some { 0 < length result.1.leaves.now }
        ensures all { length result.0.leaves.now + length result.1.leaves.now ≡
            length self.now.leaves.now }
    {
        let size = left_size(self.leaves.len());
        let (left, right) = self.leaves.split_at(size);
        let (left_roots, right_roots) = self.roots_of_parts().split_at(size - 1);
        let left = Subtree {
            leaves: left,
            roots: left_roots,
        };
        let right = Subtree {
            leaves: right,
            roots: right_roots,
        };
        (left, right)
    }

    // The root, which is the last of the roots where all is whole.
    pub fn root(&self) -> [u8; 32]
        ensures { result ≡ tree_hash (hash_of_nodes sha256) self.now.leaves.now }
    {
        match self.leaves {
            [] => Sha256::digest(b""),
            [leaf] => *leaf,
            _ => {
                let (left, right) = self.split();
                if left.leaves.len() == right.leaves.len() {
                    return self.roots[self.leaves.len() - 2];
                }
                node_hash(&left.root(), &right.root())
            }
        }
    }

    // The siblings on the way up from the leaf at the index.
    pub fn path(&self, alloc: Global, index: usize) -> Result<Vec<[u8; 32]>, AllocError>
        requires { index < length self.now.leaves.now }
        ensures { IfOk result (λ path. path.items ≡
            inclusion_path (hash_of_nodes sha256) index self.now.leaves.now) }
    {
        if self.leaves.len() == 1 {
            return Ok(Vec::new(alloc));
        }
        let (left, right) = self.split();
        if index < left.leaves.len() {
            let mut path = left.path(alloc, index)?;
            path.push(right.root())?;
            Ok(path)
        } else {
            let mut path = right.path(alloc, index - left.leaves.len())?;
            path.push(left.root())?;
            Ok(path)
        }
    }

    // The hashes that show the root of the first leaves; known: whether the reader has that root.
    pub fn subproof(
        &self,
        alloc: Global,
        first: usize,
        known: bool,
    ) -> Result<Vec<[u8; 32]>, AllocError>
        requires some { 0 < first }
        requires inside { first ≤ length self.now.leaves.now }
        ensures { IfOk result (λ path. path.items ≡
            subproof (hash_of_nodes sha256) first self.now.leaves.now known) }
    {
        if first == self.leaves.len() {
            let mut path = Vec::new(alloc);
            if !known {
                path.push(self.root())?;
            }
            return Ok(path);
        }
        let (left, right) = self.split();
        if first <= left.leaves.len() {
            let mut path = left.subproof(alloc, first, known)?;
            path.push(right.root())?;
            Ok(path)
        } else {
            let mut path = right.subproof(alloc, first - left.leaves.len(), false)?;
            path.push(left.root())?;
            Ok(path)
        }
    }
}
