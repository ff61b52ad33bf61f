//! The entries of a map.

/// What stands at a key of a map, by the hash of its leaf. Of entries of one key the one of the last place stands there.
#[derive(Clone, Copy, Debug, PartialEq, Eq)]
pub struct Entry {
    /// The key.
    pub key: [u8; 32],
    /// The hash of the leaf.
    pub leaf: [u8; 32],
    /// The place in the list: the entry takes the place of those of its key with lower ones.
    pub place: usize,
}
