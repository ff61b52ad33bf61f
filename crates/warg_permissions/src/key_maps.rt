//! The permissions and the keys of a log by key id, and changes laid over them. What entries are, and who may make one, is not
//! known here.
mod key_table;
mod keys;
mod map_changes;
pub mod rights;
mod sharing;

pub use key_table::KeyTable;
pub use keys::{KeyEntry, Keys};
pub use map_changes::put_all;
