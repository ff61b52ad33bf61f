//! What the commands of `weoldrin` share: what a kind of log is asked, how a log is judged, and what is answered.
#![tactic(auto)]

pub mod hint;
pub mod id_word;
mod key_ids;
pub mod kind;
pub mod limit;
pub mod loading;
mod operator_log;
mod package_log;
pub mod parting;
pub mod reply;
pub mod side;
pub mod unread;
pub mod wording;
