//! Texts of strangers, as they are printed: with no control character, no line feed and no mark of direction.
#![tactic(auto)]

mod characters;
mod json;
pub mod laws;
mod read;
mod shown;

pub use json::json_printed;
pub use read::unprinted;
pub use shown::{Printable, printed, printed_line, push_printed_line};
