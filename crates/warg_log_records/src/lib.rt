//! The records of both kinds of log: read from bytes with the first fault named, written, and named by their ids.
#![tactic(auto)]

mod effect;
mod entries;
mod kept_fault;
pub mod laws;
mod log_entry;
mod log_record;
mod mention;
pub mod operator;
pub mod package;
mod reading;
mod record_id;
mod signature_check;
mod writing;

pub use effect::Effect;
pub use log_record::LogRecord;
pub use record_id::RecordId;
pub use semver::{Version, VersionReq};
pub use signature_check::SignatureCheck;

/// The newest version of the protocol: that of new records of either kind.
pub const RECORD_VERSION: u32 = 1;
