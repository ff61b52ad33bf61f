//! The bytes of values, and prefix encoding.

use crate::from_words::{FromWords, no_such_kind, value_of};
use conformance_rows::{Answer, RowError, Words, hex};
use std::alloc::Global;
use warg_crypto::VisitBytes;
use warg_crypto::prefix::{PrefixEncodeVisitor, VisitPrefixEncode};
use warg_registry::{Checkpoint, LogId, LogLeaf, MapLeaf, PackageName, TimestampedCheckpoint};

/// `bytes KIND WORDS..`: the bytes of the value.
pub(crate) fn bytes_of(alloc: Global, mut words: Words<'_>) -> Result<Answer, RowError> {
    let kind = words.next_written();
    match kind {
        "package-name" => of_both_visits::<PackageName>(alloc, words),
        "log-id" => of_visit::<LogId>(alloc, words),
        "map-leaf" => of_both_visits::<MapLeaf>(alloc, words),
        "log-leaf" => of_both_visits::<LogLeaf>(alloc, words),
        "checkpoint" => of_both_visits::<Checkpoint>(alloc, words),
        "timestamped-checkpoint" => of_both_visits::<TimestampedCheckpoint>(alloc, words),
        _ => no_such_kind(),
    }
}

/// Bytes in hex.
pub(crate) fn answer_bytes(alloc: Global, bytes: &[u8]) -> Result<Answer, RowError> {
    Answer::value(alloc, &hex(alloc, bytes)?)
}

fn of_visit<T: FromWords + VisitBytes>(
    alloc: Global,
    words: Words<'_>,
) -> Result<Answer, RowError> {
    let value = value_of::<T>(alloc, words)?;
    let mut bytes = Vec::new(alloc);
    value.visit(&mut bytes)?;
    answer_bytes(alloc, bytes.as_slice())
}

// Of a value whose bytes are its prefix encoding.
fn of_both_visits<T: FromWords + VisitBytes + VisitPrefixEncode>(
    alloc: Global,
    words: Words<'_>,
) -> Result<Answer, RowError> {
    let value = value_of::<T>(alloc, words)?;
    let mut encoding = Vec::new(alloc);
    value.visit_bv(&mut encoding)?;
    let mut bytes = Vec::new(alloc);
    value.visit(&mut bytes)?;
    if bytes != encoding {
        return Err(RowError::new("the prefix encoding is another"));
    }
    answer_bytes(alloc, bytes.as_slice())
}

/// `unsigned NUMBER`: the prefix encoding of a number.
pub(crate) fn unsigned(alloc: Global, words: Words<'_>) -> Result<Answer, RowError> {
    let number = value_of::<u64>(alloc, words)?;
    let mut bytes = Vec::new(alloc);
    PrefixEncodeVisitor::new(&mut bytes).visit_unsigned(number)?;
    answer_bytes(alloc, bytes.as_slice())
}

/// `prefixed-text TEXT`: the prefix encoding of a text.
pub(crate) fn prefixed_text(alloc: Global, mut words: Words<'_>) -> Result<Answer, RowError> {
    let text = words.next(alloc)?;
    words.end()?;
    let mut bytes = Vec::new(alloc);
    PrefixEncodeVisitor::new(&mut bytes).visit_str(text.as_str())?;
    answer_bytes(alloc, bytes.as_slice())
}

/// `raw-text TEXT`: the bytes of a text alone.
pub(crate) fn raw_text(alloc: Global, mut words: Words<'_>) -> Result<Answer, RowError> {
    let text = words.next(alloc)?;
    words.end()?;
    let mut bytes = Vec::new(alloc);
    PrefixEncodeVisitor::new(&mut bytes).visit_str_raw(text.as_str())?;
    answer_bytes(alloc, bytes.as_slice())
}
