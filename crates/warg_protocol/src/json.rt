//! JSON of values, over `serde_json`'s `Value`. To implement [`JsonValue`] for a type of your own, use [`members`];
//! maps are in the crate `warg_saved_states`. Of a text by a stranger [`read_asked`] makes a value of the members alone
//! that a type reads, as `contentBytes`, `keyId` and `signature` of a body, and passes over the others.

pub use warg_crypto::json::{Incoherence, JsonError, JsonValue, laws, members};
pub use warg_saved_states::read_asked;
