//! What the saved states of every kind of log share: maps as objects, sets of permissions as lists,
//! and what does not fit together in a state.
#![tactic(auto)]

mod error;
mod fit;
mod found;
pub mod laws;
mod map;
mod members;
mod name;
mod number;
mod parts;
mod pass;
mod permission_set;
mod permissions;
mod read;
mod read_map;
mod text;
mod value;
mod write_map;

pub use error::{JsonTextError, ReadFault};
pub use fit::{check_begun, check_empty, check_keys, check_rights, check_version};
pub use json::{Reader, Writer};
pub use map::{is_empty, map_member, map_value, put_map};
pub use members::{algorithm_member, are_no_keys, keys_member, put_algorithm, put_keys};
pub use name::SavedName;
pub use parts::parts_in_text;
pub use read::{read_asked, read_value};
pub use read_map::map_in_text;
pub use text::MemberTexts;
pub use value::{SavedValue, unless_no_memory};
