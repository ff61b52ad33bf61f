//! An appending Merkle log over SHA-256, which keeps the roots of its whole subtrees.
mod log_tree;
mod subtree;

pub use log_tree::LogTree;
