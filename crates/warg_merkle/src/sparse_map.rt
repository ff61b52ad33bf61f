//! Sparse Merkle maps over SHA-256: proofs of what a map has at a key of 256 bits, or that it has nothing there.
mod entries;
mod laws;

pub use entries::{is_right, verify_absence, verify_entry};
pub use laws::{maps, one_value};
