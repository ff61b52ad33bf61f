//! A log that keeps its records beside the state that they add up to: it takes one envelope after another, or
//! leaves everything as it was, compares its head with that of another log, and says by which entries a key came to
//! hold a permission. Its records alone can be compared too.
mod audited_log;
mod audited_records;
mod comparison;
mod drafting;
mod externally_verified_log;
mod grant_index;
mod heads;
pub mod laws;
mod link;
mod reading;

pub use audited_log::AuditedLog;
pub use audited_records::AuditedRecords;
pub use comparison::Comparison;
pub use externally_verified_log::ExternallyVerifiedLog;
pub use heads::HeadComparison;
pub use link::Link;
