//! What became of rows.
use crate::RowError;
use std::alloc::Global;

/// A row that was answered otherwise than it says.
#[derive(Debug, Drop)]
pub struct FailedRow {
    /// Its line in the file, counted from 1.
    pub line: usize,
    /// What was asked.
    pub question: String,
    /// What it says.
    pub wanted: String,
    /// What was answered.
    pub seen: String,
}

/// How many rows were played, and those that failed.
#[derive(Debug, Drop)]
pub struct Report {
    /// The number of rows.
    pub rows: usize,
    /// The rows that were answered otherwise, or could not be played.
    pub failures: Vec<FailedRow>,
    /// Whether a row could not be read.
    pub has_unreadable: bool,
}

impl Report {
    /// No row is played yet.
    pub fn new(alloc: Global) -> Report {
        Report {
            rows: 0,
            failures: Vec::new(alloc),
            has_unreadable: false,
        }
    }

    /// Counts a row, which fails where what was seen is not what was wanted.
    pub fn count(
        &mut self,
        alloc: Global,
        line: usize,
        question: &str,
        wanted: &str,
        seen: &str,
    ) -> Result<(), RowError> {
        self.rows = self.rows.saturating_add(1);
        if wanted != seen {
            self.failures.push(FailedRow {
                line,
                question: String::from_str(alloc, question)?,
                wanted: String::from_str(alloc, wanted)?,
                seen: String::from_str(alloc, seen)?,
            })?;
        }
        Ok(())
    }

    /// Counts a row that can't be read, for this reason.
    pub fn refuse(
        &mut self,
        alloc: Global,
        line: usize,
        question: &str,
        reason: &str,
    ) -> Result<(), RowError> {
        self.has_unreadable = true;
        self.count(alloc, line, question, "a row that can be read", reason)
    }
}
