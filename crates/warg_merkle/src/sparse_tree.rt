//! Sparse Merkle maps over SHA-256 with stored nodes: keys of 256 bits, values of bytes, a root after each change, and
//! proofs of what stands at a key. A node is stored only where the ways of two keys part.
mod edges;
mod empties;
mod laws;
mod node;
mod sparse_tree;

pub use laws::compressed_maps;
pub use sparse_tree::SparseTree;
