//! Texts of proofs.

use conformance_rows::{Answer, RowError, Words};
use std::alloc::Global;
use warg_transparency::{LogProof, MapProof};

/// `parse KIND TEXT`: the proof that the text is of, printed again; `None` where the kind is no proof's.
pub(crate) fn parse(alloc: Global, mut words: Words<'_>) -> Result<Option<Answer>, RowError> {
    let kind = words.next(alloc)?;
    let text = words.next(alloc)?;
    let answer = match kind.as_str() {
        "log-proof" => Answer::of(alloc, LogProof::parse(alloc, text.as_str())),
        "map-proof" => Answer::of(alloc, MapProof::parse(alloc, text.as_str())),
        _ => return Ok(None),
    };
    words.end()?;
    Ok(Some(answer?))
}
