//! The places of entries.

/// The place of an entry. Places are counted from 0.
#[derive(Clone, Copy, Debug, PartialEq, Eq)]
pub struct Link {
    /// The place of the record in the log.
    pub record_index: usize,
    /// The place of the entry in its record.
    pub entry_index: usize,
}
