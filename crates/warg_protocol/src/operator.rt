//! Operator logs: who may sign for a registry, and which namespaces it has.

pub use warg_log_records::operator::{
    OPERATOR_RECORD_VERSION, OperatorEntry, OperatorRecord, Permission,
};
pub use warg_operator_log::{
    Head, KeyEntry, Keys, LogState, NamespaceState, Namespaces, ValidationError, laws,
};
