//! Laws of what the commands of `weoldrin` print: lines in which no hidden character stands, whatever strangers wrote.
#![tactic(auto)]

pub mod laws;
pub mod plain;
