//! Short proofs over SHA-256 of what a sparse Merkle map has at a key of 256 bits, or that it has nothing there.
mod build;
mod decode;
mod error;
mod laws;
mod map_proof;
mod verify;

pub use error::MapProofError;
pub use laws::short_forms;
pub use map_proof::MapProof;
pub(crate) use verify::hash_above;
pub use verify::{verify_absence, verify_presence};
