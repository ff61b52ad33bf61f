//! Package logs: who may release and yank, and which releases stand.

pub use warg_log_records::package::{
    PACKAGE_RECORD_VERSION, PackageEntry, PackageRecord, Permission,
};
pub use warg_package_log::{
    Head, KeyEntry, Keys, LogState, Release, ReleaseState, Releases, ValidationError, laws,
};
