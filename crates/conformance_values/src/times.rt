//! Times.

use crate::from_words::{answer_of, value_of};
use conformance_rows::{Answer, RowError, Words};
use std::alloc::Global;
use warg_crypto::time::Timestamp;

/// `time SECONDS NANOS`: the time so many seconds and nanoseconds after the epoch, or before it.
pub(crate) fn time(alloc: Global, mut words: Words<'_>) -> Result<Answer, RowError> {
    let seconds = words.next(alloc)?.as_str().parse::<i64>()?;
    let nanos = words.next(alloc)?.as_str().parse::<i32>()?;
    words.end()?;
    answer_of(alloc, Timestamp::from_parts(seconds, nanos))
}

/// `time-text TIME`: the text that JSON has of the time.
pub(crate) fn time_text(alloc: Global, words: Words<'_>) -> Result<Answer, RowError> {
    let time = value_of::<Timestamp>(alloc, words)?;
    Answer::of(alloc, time.to_text(alloc))
}
