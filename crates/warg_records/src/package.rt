//! The records of package logs.

pub use warg_log_records::package::{
    PACKAGE_RECORD_VERSION, PackageEntry, PackageRecord, Permission,
};
