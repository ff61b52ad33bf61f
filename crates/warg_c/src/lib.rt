//! Logs of both kinds for callers in C. `include/warg.h` declares what is exported.
#![tactic(auto)]

mod any_log;
mod argument;
mod argument_error;
mod asked_log;
mod asking;
mod call_error;
mod error_text;
mod exports;
mod given;
mod handle;
pub mod laws;
mod log_or_state;
mod log_pointer;
mod pending_check;
mod proof_text;
mod question;
mod raw_box;
mod registry;
mod registry_handle;
mod registry_pointer;
mod release_text;
