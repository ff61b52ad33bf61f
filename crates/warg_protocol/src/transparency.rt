//! A registry's log and map, their checkpoints, and what a client checks under one: that a leaf is in the log, that the log
//! goes on from an older one, and what the map says of a log. Two clients tell a fork by what they hold.

pub use warg_transparency::{
    BeginningComparison, CheckpointComparison, HeadComparison, LeafComparison, LogProof, LogTree,
    MapProof, MapTree, OfTrees, ProofTextError, RegistryTrees, SavedLeavesError, ShownBeginning,
    ShownHead, ShownLeaf, compare_beginnings, compare_checkpoints, compare_heads, compare_leaves,
    verify_absence, verify_consistency, verify_head, verify_inclusion, verify_leaf, verify_no_head,
    verify_presence,
};
