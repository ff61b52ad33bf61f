//! The records of operator logs.

pub use warg_log_records::operator::{
    OPERATOR_RECORD_VERSION, OperatorEntry, OperatorRecord, Permission,
};
