//! What commands do with the logs in files: audits, the latest release, claims, records that are made (`make`) and added; and
//! answers in JSON.
#![tactic(auto)]

mod added_lines;
mod append;
mod audit;
mod audit_files;
mod beside;
mod claim_lines;
mod demands;
mod json;
mod latest;
mod line_forms;
pub mod make;
mod making;
mod many_audits;
mod record_forms;
mod task;

pub use audit::id_answer;
pub use audit_files::Audit;
pub use json::json_answer;
pub use latest::{latest_answer, requirement_of};
pub use many_audits::audits_answer;
pub use task::task_answer;
