//! What logs and maps give: roots and proofs.

use crate::proofs::parts::{log_of, map_of, next_log_id, next_number};
use conformance_rows::{Answer, RowError, Words};
use std::alloc::Global;
use warg_transparency::LogProof;

/// `log-root LEAVES..`: the root of the log of these leaves.
pub(crate) fn log_root(alloc: Global, words: Words<'_>) -> Result<Answer, RowError> {
    Answer::value(alloc, &log_of(alloc, words)?.root())
}

/// `map-root LEAVES..`: the root of the map of these leaves.
pub(crate) fn map_root(alloc: Global, words: Words<'_>) -> Result<Answer, RowError> {
    Answer::value(alloc, &map_of(alloc, words)?.root())
}

/// `inclusion-proof PLACE LEAVES..`: the proof of the leaf at that place of the log.
pub(crate) fn inclusion(alloc: Global, mut words: Words<'_>) -> Result<Answer, RowError> {
    let place = next_number(alloc, &mut words)?;
    let log = log_of(alloc, words)?;
    proof_or_none(alloc, log.inclusion(place)?)
}

/// `consistency-proof LENGTH LEAVES..`: the proof that the log goes on from its first leaves.
pub(crate) fn consistency(alloc: Global, mut words: Words<'_>) -> Result<Answer, RowError> {
    let length = next_number(alloc, &mut words)?;
    let log = log_of(alloc, words)?;
    proof_or_none(alloc, log.consistency(length)?)
}

// The text of the proof, or `none`.
fn proof_or_none(alloc: Global, proof: Option<LogProof>) -> Result<Answer, RowError> {
    match proof {
        Some(proof) => Answer::value(alloc, &proof),
        None => Answer::value(alloc, &"none"),
    }
}

/// `map-proof LOG_ID LEAVES..`: the proof of what the map says of the log.
pub(crate) fn of_map(alloc: Global, mut words: Words<'_>) -> Result<Answer, RowError> {
    let log_id = next_log_id(alloc, &mut words)?;
    let map = map_of(alloc, words)?;
    Answer::value(alloc, &map.proof(&log_id)?)
}
