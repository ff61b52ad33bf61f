//! What is done with a log.

use warg_crypto::time::Timestamp;

/// Who signs a record.
#[derive(Clone, Copy, Debug, PartialEq, Eq)]
pub enum Signer<'a> {
    /// The toy key of this name.
    Toy(&'a str),
    /// The key of this text, whose secret is elsewhere.
    KeyText(&'a str),
}

/// The record that comes next in a log, in words.
#[derive(Debug, Drop)]
pub struct NewRecord<'a> {
    /// Who signs it.
    pub signer: Signer<'a>,
    /// What the clock tells. Words say nothing of it.
    pub clock: Option<Timestamp>,
    /// The record's time.
    pub time: &'a str,
    /// The record's entries.
    pub entries: Vec<&'a str>,
}

/// What is done with a log, with the paths of the files. `-` is standard input.
#[derive(Debug, Drop)]
pub enum Task<'a> {
    /// What a host has to verify is listed.
    Claims {
        /// The log.
        log: &'a str,
        /// How many bytes the claims may have.
        limit: u64,
    },
    /// The next record is made.
    Make {
        /// The log. Where there is no such file, it has no records yet.
        log: &'a str,
        /// The record.
        draft: NewRecord<'a>,
    },
    /// Records are added to the log.
    Append {
        /// The log. Where there is no such file, it has no records yet.
        log: &'a str,
        /// The file with the records' lines.
        lines: &'a str,
        /// How many bytes the log may have then.
        limit: u64,
    },
}
