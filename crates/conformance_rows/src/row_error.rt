//! Why a row can't be played.
use std::fmt::{Debug, Display, InlineText};

const CAPACITY: usize = 512;

/// Why a row can't be played: a strange word, or an error that is no answer. Every error converts to it by `?`.
#[derive(Drop)]
pub struct RowError {
    text: InlineText<{ CAPACITY }>,
}

impl RowError {
    /// The error for this reason, of which at most 512 bytes are kept.
    pub fn new<D: Display + Drop>(why: D) -> RowError {
        RowError {
            text: InlineText::new().and(why, CAPACITY),
        }
    }

    /// The reason.
    pub fn as_str(&self) -> &str {
        self.text.as_str()
    }
}

impl<E: Debug + Drop> From<E> for RowError {
    fn from(error: E) -> RowError {
        RowError::new(format_args!("error: {error:?}"))
    }
}
