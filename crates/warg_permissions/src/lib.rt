//! What the keys of a log may do: the permissions of both kinds of log, their numbers in messages and their texts, and sets
//! of them that keys share. `key_maps` has the permissions and the keys of a log by key id, and changes laid over them.
#![tactic(auto)]

pub mod key_maps;
pub mod laws;
pub mod operator;
pub mod package;
mod permission;
mod permission_set;

pub use permission::{InvalidPermission, LogPermission, PermissionParseError};
pub use permission_set::PermissionSet;
