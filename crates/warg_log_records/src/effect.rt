//! What an entry does.

/// What an entry of a record does to a permission of a key id.
#[derive(Clone, Copy, Debug, PartialEq, Eq)]
pub enum Effect {
    /// The key id holds the permission after the entry.
    Gives,
    /// The key id does not hold it after the entry.
    Takes,
    /// The entry speaks of another key id, of another permission or of none.
    Nothing,
}
