//! The program `warg_audit` as a function of its words, its reader and its writer. `files` has what other programs share with
//! it: lines of hex digits, the lines that stand for records, and what a command answers.
#![tactic(auto)]

mod command;
pub mod files;
mod identify;
mod information;
mod input;
pub mod laws;
mod log;
mod log_kind;
mod operator_log;
mod output;
mod package_log;
mod program;
mod reading;
mod reply;
mod report;

pub use command::{Command, parse_command};
pub use identify::id_reply;
pub use information::{Information, parse_information};
pub use input::Input;
pub use log::{accepted_first_line, accepted_reply, cause_name, judge, log_reply, run_error_reply};
pub use log_kind::LogKind;
pub use output::Output;
pub use program::{OUT_OF_MEMORY, USAGE, audit, make_reply};
pub use reading::{InputError, MAX_INPUT, read_all};
pub use reply::{Reply, bad_line_reply, refused_reply};
pub use report::Report;
