//! The nodes of a map's tree: leaves, and branches where ways part.

ghost use Rattle.std.specs.Prelude.{◌≡◌, ◌≢◌, ◌+◌, ◌-◌, ◌<◌, ◌≤◌, ◌++◌, ◌∷◌, [], drop, if◌then◌else◌, IfOk, OnOk, OnErr, MatchOption, is_some, option_map};
ghost use Rattle.std.specs.Option.{option_copied};
ghost use Rattle.sha2.specs.Sha256.{sha256};
ghost use Rattle.warg_merkle.specs.Trees.{leaf_input, node_input};
ghost use Rattle.warg_merkle.specs.SparseMap.Maps.{map_path, map_root};
ghost use Rattle.warg_merkle.specs.SparseTree.Nodes.{empty_roots, way_from, Sets};
ghost use Rattle.warg_merkle.specs.SparseTree.Compressed.{root_above};
ghost use Rattle.warg_merkle.specs.SparseTree.Stored.{value_at, leaf_count, LeavesAt, Follows, IsKept, IsHashed};

use crate::sparse_map::is_right;
use crate::sparse_tree::edges::{parting, root_above, row};
use crate::{leaf_hash, node_hash};
use std::alloc::{AllocError, Global};
use std::mem;

// A subtree: an empty one has no node, and behind an edge one has its lower end alone.
#[cycle(node)]
#[derive(Drop)]
pub(crate) enum Node {
    Empty,
    Leaf(Box<Leaf>),
    Branch(Box<Branch>),
}

// A value at its key, and the root at the depth 48 with nothing beside it.
#[derive(Drop)]
pub(crate) struct Leaf {
    key: [u8; 32],
    value: Vec<u8>,
    kept: [u8; 32],
}

// The depth where ways part, a key whose way leads there, and what is on both sides, with its roots one below.
#[cycle(node)]
#[derive(Drop)]
pub(crate) struct Branch {
    key: [u8; 32],
    depth: usize,
    left_root: [u8; 32],
    right_root: [u8; 32],
    left: Node,
    right: Node,
}

impl Leaf {
    // The value at the key.
    fn new(key: &[u8; 32], value: Vec<u8>, empties: &[[u8; 32]]) -> Leaf
        requires empties { empties.now ≡ empty_roots sha256 257 }
        ensures key { result.key ≡ key.now }
        ensures value { result.value.items ≡ value.items }
        ensures kept { IsKept sha256 result.key result.value.items result.kept }
    {
        let hash = leaf_hash(value.as_slice());
        let kept = root_above(hash, key, 256, 48, empties);
        Leaf {
            key: *key,
            value,
            kept,
        }
    }

    // The root at that depth with nothing beside the leaf: from the one that it keeps, or from below it.
    fn root(&self, depth: usize, empties: &[[u8; 32]]) -> [u8; 32]
        requires in_tree { depth ≤ 256 }
        requires kept { IsKept sha256 self.now.key self.now.value.items self.now.kept }
        requires empties { empties.now ≡ empty_roots sha256 257 }
        ensures { result ≡ root_above sha256 0 (way_from (256 - depth) depth self.now.key)
            (sha256 (leaf_input self.now.value.items)) }
    {
        if depth <= 48 {
            root_above(self.kept, &self.key, 48, depth, empties)
        } else {
            let hash = leaf_hash(self.value.as_slice());
            root_above(hash, &self.key, 256, depth, empties)
        }
    }

    // Puts the value in place of the one that stands there, and gives that.
    fn put(&mut self, value: Vec<u8>, empties: &[[u8; 32]]) -> Vec<u8>
        requires empties { empties.now ≡ empty_roots sha256 257 }
        ensures key { self.new.key ≡ self.old.key }
        ensures value { self.new.value.items ≡ value.items }
        ensures kept { IsKept sha256 self.new.key self.new.value.items self.new.kept }
        ensures old { result.items ≡ self.old.value.items }
    {
        let hash = leaf_hash(value.as_slice());
        self.kept = root_above(hash, &self.key, 256, 48, empties);
        mem::replace(&mut self.value, value)
    }
}

impl Branch {
    // A branch on the key's way with nothing on its sides yet.
    fn new(key: &[u8; 32], depth: usize) -> Branch
        ensures key { result.key ≡ key.now }
        ensures depth { result.depth ≡ depth }
    {
        Branch {
            key: *key,
            depth,
            left_root: [0u8; 32],
            right_root: [0u8; 32],
            left: Node::Empty,
            right: Node::Empty,
        }
    }

    // Puts what is on both sides, with its roots.
    fn fill(&mut self, left: Node, left_root: [u8; 32], right: Node, right_root: [u8; 32])
        ensures key { self.new.key ≡ self.old.key }
        ensures depth { self.new.depth ≡ self.old.depth }
        ensures left { self.new.left ≡ left }
        ensures left_root { self.new.left_root ≡ left_root }
        ensures right { self.new.right ≡ right }
        ensures right_root { self.new.right_root ≡ right_root }
    {
        self.left = left;
        self.left_root = left_root;
        self.right = right;
        self.right_root = right_root;
    }

    // The root at that depth, with nothing beside the edge down to the branch.
    fn root(&self, depth: usize, empties: &[[u8; 32]]) -> [u8; 32]
        requires above { depth ≤ self.now.depth }
        requires in_tree { self.now.depth < 256 }
        requires empties { empties.now ≡ empty_roots sha256 257 }
        ensures { result ≡ root_above sha256 (256 - self.now.depth)
            (way_from (self.now.depth - depth) depth self.now.key)
            (sha256 (node_input self.now.left_root self.now.right_root)) }
    {
        let root = node_hash(&self.left_root, &self.right_root);
        root_above(root, &self.key, self.depth, depth, empties)
    }

    // Takes the root on the left anew.
    fn rehash_left(&mut self, empties: &[[u8; 32]])
        requires in_tree { self.old.depth < 256 }
        requires hashed { IsHashed sha256 (self.old.depth + 1) self.old.left }
        requires empties { empties.now ≡ empty_roots sha256 257 }
        ensures left_root { self.new.left_root ≡ map_root sha256 (256 - (self.old.depth + 1))
            (value_at (self.old.depth + 1) self.old.left) }
        ensures key { self.new.key ≡ self.old.key }
        ensures depth { self.new.depth ≡ self.old.depth }
        ensures right_root { self.new.right_root ≡ self.old.right_root }
        ensures left { self.new.left ≡ self.old.left }
        ensures right { self.new.right ≡ self.old.right }
    {
        self.left_root = self.left.root(self.depth + 1, empties);
    }

    // Takes the root on the right anew.
    fn rehash_right(&mut self, empties: &[[u8; 32]])
        requires in_tree { self.old.depth < 256 }
        requires hashed { IsHashed sha256 (self.old.depth + 1) self.old.right }
        requires empties { empties.now ≡ empty_roots sha256 257 }
        ensures right_root { self.new.right_root ≡ map_root sha256 (256 - (self.old.depth + 1))
            (value_at (self.old.depth + 1) self.old.right) }
        ensures key { self.new.key ≡ self.old.key }
        ensures depth { self.new.depth ≡ self.old.depth }
        ensures left_root { self.new.left_root ≡ self.old.left_root }
        ensures left { self.new.left ≡ self.old.left }
        ensures right { self.new.right ≡ self.old.right }
    {
        self.right_root = self.right.root(self.depth + 1, empties);
    }
}

// The siblings on a way up to that depth, where it left an edge there and this root is beside it.
fn path_beside(
    alloc: Global,
    root: &[u8; 32],
    at: usize,
    depth: usize,
    empties: &[[u8; 32]],
) -> Result<Vec<[u8; 32]>, AllocError>
    requires above { depth ≤ at }
    requires in_tree { at < 256 }
    requires empties { empties.now ≡ empty_roots sha256 257 }
    ensures { IfOk result (λ path. path.items ≡ empty_roots sha256 (255 - at) ++
        root.now ∷ drop (256 - at) (empty_roots sha256 (256 - depth))) }
{
    let mut path = Vec::with_capacity(alloc, 256 - depth)?;
    path.extend_from_slice(row(empties, 0, 255 - at))?;
    path.push(*root)?;
    path.extend_from_slice(row(empties, 256 - at, 256 - depth))?;
    Ok(path)
}

impl Node {
    // The root of the subtree at that depth.
    pub(crate) fn root(&self, depth: usize, empties: &[[u8; 32]]) -> [u8; 32]
        requires in_tree { depth ≤ 256 }
        requires hashed { IsHashed sha256 depth self.now }
        requires empties { empties.now ≡ empty_roots sha256 257 }
        ensures { result ≡ map_root sha256 (256 - depth) (value_at depth self.now) }
    {
        match self {
            Node::Empty => empties[256 - depth],
            Node::Leaf(leaf) => leaf.root(depth, empties),
            Node::Branch(branch) => branch.root(depth, empties),
        }
    }

    // Where the key's way leaves the edge above the node, if it does.
    fn leaves_at(&self, key: &[u8; 32], depth: usize) -> Option<usize>
        requires in_tree { depth ≤ 256 }
        requires hashed { IsHashed sha256 depth self.now }
        ensures { MatchOption result (Follows depth key.now self.now)
            (λ at. LeavesAt depth key.now self.now at) }
    {
        match self {
            Node::Empty => None,
            Node::Leaf(leaf) => parting(key, &leaf.key, depth, 256),
            Node::Branch(branch) => parting(key, &branch.key, depth, branch.depth),
        }
    }

    // The value at the key in the subtree at that depth.
    pub(crate) fn get(&self, key: &[u8; 32], depth: usize) -> Option<&[u8]>
        requires in_tree { depth ≤ 256 }
        requires hashed { IsHashed sha256 depth self.now }
        ensures { option_copied result ≡ value_at depth self.now (way_from (256 - depth) depth key.now) }
    {
        if let Some(_) = self.leaves_at(key, depth) {
            return None;
        }
        match self {
            Node::Empty => None,
            Node::Leaf(leaf) => Some(leaf.value.as_slice()),
            Node::Branch(branch) => {
                let at = branch.depth;
                if is_right(key, at) {
                    branch.right.get(key, at + 1)
                } else {
                    branch.left.get(key, at + 1)
                }
            }
        }
    }

    // The siblings on the key's way up to that depth.
    pub(crate) fn path(
        &self,
        alloc: Global,
        key: &[u8; 32],
        depth: usize,
        empties: &[[u8; 32]],
    ) -> Result<Vec<[u8; 32]>, AllocError>
        requires in_tree { depth ≤ 256 }
        requires hashed { IsHashed sha256 depth self.now }
        requires empties { empties.now ≡ empty_roots sha256 257 }
        ensures { IfOk result (λ path. path.items ≡
            map_path sha256 (value_at depth self.now) (way_from (256 - depth) depth key.now)) }
    {
        if let Some(at) = self.leaves_at(key, depth) {
            return path_beside(alloc, &self.root(at + 1, empties), at, depth, empties);
        }
        match self {
            Node::Empty => Vec::from_slice(alloc, row(empties, 0, 256 - depth)),
            Node::Leaf(_) => Vec::from_slice(alloc, row(empties, 0, 256 - depth)),
            Node::Branch(branch) => {
                let at = branch.depth;
                if is_right(key, at) {
                    let mut path = branch.right.path(alloc, key, at + 1, empties)?;
                    path.push(branch.left_root)?;
                    path.extend_from_slice(row(empties, 256 - at, 256 - depth))?;
                    Ok(path)
                } else {
                    let mut path = branch.left.path(alloc, key, at + 1, empties)?;
                    path.push(branch.right_root)?;
                    path.extend_from_slice(row(empties, 256 - at, 256 - depth))?;
                    Ok(path)
                }
            }
        }
    }

    // Puts a branch with the value's leaf there, where the key's way leaves the edge above the node.
    fn part(
        &mut self,
        alloc: Global,
        key: &[u8; 32],
        depth: usize,
        at: usize,
        value: Vec<u8>,
        empties: &[[u8; 32]],
    ) -> Result<(), AllocError>
        requires in_tree { depth ≤ 256 }
        requires hashed { IsHashed sha256 depth self.old }
        requires leaves { LeavesAt depth key.now self.old at }
        requires empties { empties.now ≡ empty_roots sha256 257 }
        ensures hashed { IsHashed sha256 depth self.new }
        ensures sets { OnOk result (Sets (value_at depth self.old) (value_at depth self.new)
            (way_from (256 - depth) depth key.now) value.items) }
        ensures none { value_at depth self.old (way_from (256 - depth) depth key.now) ≡ None }
        ensures count { OnOk result (leaf_count self.new ≡ leaf_count self.old + 1) }
        ensures err { OnErr result (self.new ≡ self.old) }
    {
        let beside = self.root(at + 1, empties);
        let leaf = Leaf::new(key, value, empties);
        let root = leaf.root(at + 1, empties);
        let leaf = Node::Leaf(Box::new(alloc, leaf)?);
        let mut branch = Box::new(alloc, Branch::new(key, at))?;
        let node = mem::replace(self, Node::Empty);
        if is_right(key, at) {
            branch.fill(node, beside, leaf, root);
            *self = Node::Branch(branch);
            Ok(())
        } else {
            branch.fill(leaf, root, node, beside);
            *self = Node::Branch(branch);
            Ok(())
        }
    }

    // Puts the value at the key in the subtree at that depth, and gives the one that stood there.
    pub(crate) fn insert(
        &mut self,
        alloc: Global,
        key: &[u8; 32],
        depth: usize,
        value: Vec<u8>,
        empties: &[[u8; 32]],
    ) -> Result<Option<Vec<u8>>, AllocError>
        requires in_tree { depth ≤ 256 }
        requires hashed { IsHashed sha256 depth self.old }
        requires empties { empties.now ≡ empty_roots sha256 257 }
        ensures hashed { IsHashed sha256 depth self.new }
        ensures sets { OnOk result (Sets (value_at depth self.old) (value_at depth self.new)
            (way_from (256 - depth) depth key.now) value.items) }
        ensures old { IfOk result (λ old. option_map (λ v. v.items) old ≡
            value_at depth self.old (way_from (256 - depth) depth key.now)) }
        ensures count { IfOk result (λ old. leaf_count self.new ≡
            leaf_count self.old + (if is_some old then 0 else 1)) }
        ensures err { OnErr result (self.new ≡ self.old) }
    {
        if let Some(at) = self.leaves_at(key, depth) {
            self.part(alloc, key, depth, at, value, empties)?;
            return Ok(None);
        }
        match self {
            Node::Empty => {
                *self = Node::Leaf(Box::new(alloc, Leaf::new(key, value, empties))?);
                Ok(None)
            }
            Node::Leaf(leaf) => Ok(Some(leaf.put(value, empties))),
            Node::Branch(branch) => {
                let at = branch.depth;
                if is_right(key, at) {
                    let old = branch.right.insert(alloc, key, at + 1, value, empties)?;
                    branch.rehash_right(empties);
                    Ok(old)
                } else {
                    let old = branch.left.insert(alloc, key, at + 1, value, empties)?;
                    branch.rehash_left(empties);
                    Ok(old)
                }
            }
        }
    }
}
