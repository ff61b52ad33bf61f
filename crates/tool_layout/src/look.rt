//! How answers look.

use crate::names::Names;

/// How answers look: whether ids are whole, and which keys have names.
#[derive(Drop)]
pub struct Look {
    /// Whether ids are whole; else their first twelve digits stand for them.
    pub full: bool,
    /// The names that stand for the ids of keys.
    pub names: Names,
}
