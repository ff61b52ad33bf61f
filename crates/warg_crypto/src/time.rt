//! Times, what tells them, their texts, and their JSON.
mod json;
pub mod laws;
mod ranges;
mod system_clock;
mod time;
mod timestamp_text;

pub use system_clock::SystemClock;
pub use time::{Clock, TimeError, Timestamp};
