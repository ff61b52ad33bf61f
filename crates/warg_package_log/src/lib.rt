//! The log of a package: its state, record after record.
#![tactic(auto)]

mod error;
mod externally_verified;
mod latest;
pub mod laws;
mod name;
mod release;
mod release_map;
mod releases;
mod state;
mod validator;

pub use error::ValidationError;
pub use release::{Release, ReleaseState};
pub use releases::Releases;
pub use state::LogState;
pub use warg_log::{Head, KeyEntry, Keys};
