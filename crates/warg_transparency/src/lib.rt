//! A registry's log and map, their checkpoints, and the checks of a client: that a leaf is in the log, that the log goes on
//! from an older one, and what the map says of a log.
#![tactic(auto)]

mod checkpoint;
mod contradictions;
mod decode;
mod encode;
mod error;
mod forks;
mod json;
pub mod laws;
mod log;
mod log_proof;
mod log_tree;
mod map;
mod map_proof;
mod map_tree;
mod registry_trees;
mod saved_leaves;
mod text;

pub use checkpoint::OfTrees;
pub use contradictions::{
    BeginningComparison, HeadComparison, ShownBeginning, ShownHead, compare_beginnings,
    compare_heads,
};
pub use error::{ProofTextError, SavedLeavesError};
pub use forks::{
    CheckpointComparison, LeafComparison, ShownLeaf, compare_checkpoints, compare_leaves,
};
pub use log::{verify_consistency, verify_inclusion, verify_leaf};
pub use log_proof::LogProof;
pub use log_tree::LogTree;
pub use map::{verify_absence, verify_head, verify_no_head, verify_presence};
pub use map_proof::MapProof;
pub use map_tree::MapTree;
pub use registry_trees::RegistryTrees;
