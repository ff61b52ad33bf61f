//! Plays files, prints the rows that fail, and counts.
use crate::play::play_text;
use conformance_rows::{FailedRow, Report};
use std::rt::Files;
use std::{fs, io};

/// How many rows were played so far.
#[derive(Drop)]
pub struct Tally {
    /// The rows of all files.
    pub rows: usize,
    /// Those that failed.
    pub failed: usize,
    has_unreadable: bool,
}

impl Tally {
    /// Nothing is played yet.
    pub fn new() -> Tally {
        Tally {
            rows: 0,
            failed: 0,
            has_unreadable: false,
        }
    }

    /// The exit status: 0 where there are rows and none failed, 1 where some were answered otherwise, 2 where a file or
    /// a row can't be read.
    pub fn status(&self) -> u8 {
        if self.has_unreadable {
            2
        } else if self.rows > 0 && self.failed == 0 {
            0
        } else {
            1
        }
    }

    /// Plays the rows of a file.
    pub fn play_file<R: Files + AllocGlobal + Print>(
        &mut self,
        rt: &R,
        file: &str,
    ) -> io::Result<()> {
        match fs::read_to_string(rt, file) {
            Ok(text) => self.play(rt, file, text.as_str()),
            Err(error) => {
                self.has_unreadable = true;
                println!(rt; "{file}: {error}")
            }
        }
    }

    /// Plays the rows of standard input.
    pub fn play_input<R: Input + AllocGlobal + Print>(&mut self, rt: &R) -> io::Result<()> {
        let mut text = String::new(rt.alloc());
        for line in rt.lines(rt.alloc()) {
            text.push_str(line?.as_str())?;
            text.push('\n')?;
        }
        self.play(rt, "standard input", text.as_str())
    }

    fn play<R: AllocGlobal + Print>(&mut self, rt: &R, file: &str, text: &str) -> io::Result<()> {
        match play_text(rt.alloc(), text) {
            Ok(report) => self.add(rt, file, &report),
            Err(fail) => {
                self.has_unreadable = true;
                println!(rt; "{file}: {}", fail.as_str())
            }
        }
    }

    fn add<R: Print>(&mut self, rt: &R, file: &str, report: &Report) -> io::Result<()> {
        self.rows = self.rows.saturating_add(report.rows);
        self.failed = self.failed.saturating_add(report.failures.len());
        self.has_unreadable = self.has_unreadable || report.has_unreadable;
        for failure in report.failures.iter() {
            print(rt, file, failure)?;
        }
        Ok(())
    }
}

fn print<R: Print>(rt: &R, file: &str, failure: &FailedRow) -> io::Result<()> {
    println!(rt; "{file}:{}: {}", failure.line, failure.question)?;
    println!(rt; "  wanted {}", failure.wanted)?;
    println!(rt; "  seen {}", failure.seen)
}
