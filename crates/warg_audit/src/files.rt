//! Files as the programs read and write them: lines of hex digits, the lines that stand for records, and what a command answers.
pub mod change;
pub mod command_error;
pub mod command_output;
pub mod input;
pub mod lines;
pub mod record_lines;
