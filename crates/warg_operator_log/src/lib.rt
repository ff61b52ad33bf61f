//! The log of an operator: its state, record after record.
#![tactic(auto)]

mod error;
mod externally_verified;
pub mod laws;
mod name;
mod namespace;
mod namespace_map;
mod namespaces;
mod state;
mod validator;

pub use error::ValidationError;
pub use namespace::NamespaceState;
pub use namespaces::Namespaces;
pub use state::LogState;
pub use warg_log::{Head, KeyEntry, Keys};
