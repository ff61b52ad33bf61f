//! What every kind of log shares: who holds what, whose key is which, and the checks of a record but
//! for its kind's own entries.
#![tactic(auto)]

mod authority;
mod checks;
mod effects;
mod granting;
mod head;
mod kind_error;
pub mod laws;
mod log;
mod log_error;
mod own_state;
mod refusal;
mod saved_members;
mod saved_parts;

pub use head::Head;
pub use log::Log;
pub use log_error::LogError;
pub use own_state::{EntryRef, Origin, OwnState, RecordRef};
pub use saved_members::{members_text, members_value};
pub use saved_parts::{SavedParts, read_parts, text_parts};
pub use warg_permissions::key_maps::{KeyEntry, Keys};
