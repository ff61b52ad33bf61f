//! What is answered to a question about a log, from the files that it names, and a log in words (`show`): once for both
//! kinds of log.
#![tactic(auto)]

mod asked;
mod chain;
mod compare;
pub mod head;
mod permissions;
mod questions;
mod resume;
pub mod show;
mod state;

pub use questions::question_answer;
