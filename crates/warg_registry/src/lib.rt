//! What a registry and a transparency log name things by: packages, logs, the roots of both trees and their leaves.
#![tactic(auto)]

mod checkpoint;
mod json;
pub mod laws;
mod leaf;
mod log_id;
mod package_name;
mod visits;

pub use checkpoint::{Checkpoint, TimestampedCheckpoint};
pub use leaf::{LogLeaf, MapLeaf};
pub use log_id::LogId;
pub use package_name::{PackageName, PackageNameError};

/// A count of the records in a registry's log.
pub type RegistryLen = usize;
