//! Texts of answers, laid out for people: with names in place of ids, short ids, tables and colours. `members` has the same
//! lines as objects of JSON.
#![tactic(auto)]

mod chain;
mod colour;
mod digest;
mod error;
pub mod laws;
mod line;
mod log;
mod look;
pub mod members;
mod names;
#[cfg(test)]
mod tests;
mod word;

pub use chain::chain_layout;
pub use colour::painted;
pub use error::{NameFault, NamesParseError};
pub use log::log_layout;
pub use look::Look;
pub use names::Names;
