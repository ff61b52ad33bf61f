//! A sparse map by the list of its entries: its root and its proofs, which take no memory for nodes.
#![tactic(auto)]

mod empties;
mod entry;
mod parting;
mod proof;
mod root;

pub use entry::Entry;
pub use proof::proof_of;
pub use root::root_of;
