//! The rows of the conformance suite: how a file is read into rows and scripts, how words, texts and bytes are written,
//! and what becomes of each row. Nothing here knows of the protocol.
#![tactic(auto)]

mod answer;
mod block;
mod quotes;
mod report;
mod row;
mod row_error;
mod words;

pub use answer::Answer;
pub use block::{Block, Line, blocks};
pub use quotes::quoted;
pub use report::{FailedRow, Report};
pub use row::Row;
pub use row_error::RowError;
pub use words::{Words, bytes, hex};
