//! A log in words, and why a record is refused: once for both kinds of log.
mod advice;
pub mod laws;
mod reason;
mod show;

pub use show::show_of_file;
