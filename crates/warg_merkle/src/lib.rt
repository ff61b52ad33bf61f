//! Merkle trees of RFC 9162, section 2.1, over SHA-256: their roots, and proofs that a leaf is in a tree and that one
//! tree goes on from another. A log that grows is in `merkle_log`. Sparse maps of depth 256 are in `sparse_map`, their
//! proofs in short form in `map_proof`, and the map with stored nodes in `sparse_tree`.
#![tactic(auto)]

mod contradictions;
mod extension;
mod hashes;
mod inclusion;
mod laws;
pub mod map_proof;
pub mod merkle_log;
pub mod sparse_map;
pub mod sparse_tree;
mod tree;

pub use contradictions::{one_beginning, one_leaf, one_list};
pub use extension::verify_consistency;
pub use hashes::{leaf_hash, node_hash};
pub use inclusion::verify_inclusion;
pub use laws::{consistency_paths, roots_and_paths};
pub use tree::{prove_inclusion, tree_hash};
