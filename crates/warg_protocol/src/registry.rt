//! What a registry and a transparency log name things by.

pub use warg_envelope::RegistryIndex;
pub use warg_log_records::RecordId;
pub use warg_registry::{
    Checkpoint, LogId, LogLeaf, MapLeaf, PackageName, PackageNameError, RegistryLen,
    TimestampedCheckpoint,
};
