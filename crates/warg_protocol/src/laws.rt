//! The laws of the crates below, and of bodies. Each is a function whose contract is the law: a proof may cite it after
//! a call. Most have no effect. Those that print write to their formatter, those that feed a hasher change it, and
//! `crypto::bytes_and_hash` takes memory.

pub mod bodies;

pub use warg_crypto::json::laws as json_values;
pub use warg_crypto::laws as crypto;
pub use warg_crypto::time::laws as times;
pub use warg_envelope::laws as envelopes;
pub use warg_log::laws as logs;
pub use warg_log_records::laws as records;
pub use warg_operator_log::laws as operator;
pub use warg_package_log::laws as package;
pub use warg_permissions::laws as permissions;
pub use warg_protobuf::laws as messages;
pub use warg_registry::laws as registry;
pub use warg_replay::audited_log::laws as audited_logs;
pub use warg_replay::external::laws as hosts;
pub use warg_replay::laws as runs;
pub use warg_saved_states::laws as saved;
pub use warg_transparency::laws as transparency;
