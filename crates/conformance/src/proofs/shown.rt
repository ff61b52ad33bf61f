//! What proofs show: `ok`, the fault `Refused`, or the fault of a text that is no proof.

use crate::proofs::parts::{next_hash, next_leaf, next_length, next_log_id, next_number};
use conformance_rows::{Answer, RowError, Words};
use std::alloc::Global;
use warg_registry::{Checkpoint, MapLeaf};
use warg_transparency::{
    LogProof, MapProof, ProofTextError, verify_absence, verify_consistency, verify_inclusion,
    verify_presence,
};

/// The answer to a row that asks what a proof shows, or `None` where the topic is another.
pub(crate) fn answer(
    alloc: Global,
    topic: &str,
    mut words: Words<'_>,
) -> Result<Option<Answer>, RowError> {
    let is_shown = match topic {
        "verify-inclusion" => inclusion(alloc, &mut words)?,
        "verify-consistency" => consistency(alloc, &mut words)?,
        "verify-presence" => presence(alloc, &mut words)?,
        "verify-absence" => absence(alloc, &mut words)?,
        _ => return Ok(None),
    };
    words.end()?;
    Ok(Some(match is_shown {
        Ok(true) => Answer::value(alloc, &"ok")?,
        Ok(false) => Answer::fault(alloc, &"Refused")?,
        Err(fault) => Answer::cases(alloc, &fault)?,
    }))
}

// Whether it is shown, or why a text is no proof.
type Shown = Result<bool, ProofTextError>;

// `LOG_ID RECORD_ID PLACE LENGTH ROOT PROOF`: whether the leaf is at the place of the log of that length and root.
fn inclusion(alloc: Global, words: &mut Words<'_>) -> Result<Shown, RowError> {
    let leaf = next_leaf(alloc, words)?;
    let place = next_number(alloc, words)?;
    let length = next_number(alloc, words)?;
    let root = next_hash(alloc, words)?;
    let proof = LogProof::parse(alloc, words.next(alloc)?.as_str());
    Ok(proof.map(|proof| verify_inclusion(&leaf, place, length, proof.hashes(), &root)))
}

// The checkpoint of a log of that length and root, and of some map.
fn next_checkpoint(alloc: Global, words: &mut Words<'_>) -> Result<Checkpoint, RowError> {
    let log_length = next_length(alloc, words)?;
    let log_root = next_hash(alloc, words)?;
    Ok(Checkpoint {
        log_root,
        log_length,
        map_root: log_root,
    })
}

// `OLD_LENGTH OLD_ROOT NEW_LENGTH NEW_ROOT PROOF`: whether the new log begins with the old one.
fn consistency(alloc: Global, words: &mut Words<'_>) -> Result<Shown, RowError> {
    let old = next_checkpoint(alloc, words)?;
    let new = next_checkpoint(alloc, words)?;
    let proof = LogProof::parse(alloc, words.next(alloc)?.as_str());
    Ok(proof.map(|proof| verify_consistency(&old, &new, proof.hashes())))
}

// `LOG_ID RECORD_ID ROOT PROOF`: whether the map of that root says this of the log.
fn presence(alloc: Global, words: &mut Words<'_>) -> Result<Shown, RowError> {
    let leaf = next_leaf(alloc, words)?;
    let root = next_hash(alloc, words)?;
    let proof = MapProof::parse(alloc, words.next(alloc)?.as_str());
    let (log_id, record_id) = (leaf.log_id, leaf.record_id);
    Ok(proof.map(|proof| verify_presence(&log_id, &MapLeaf { record_id }, &proof, &root)))
}

// `LOG_ID ROOT PROOF`: whether the map of that root says nothing of the log.
fn absence(alloc: Global, words: &mut Words<'_>) -> Result<Shown, RowError> {
    let log_id = next_log_id(alloc, words)?;
    let root = next_hash(alloc, words)?;
    let proof = MapProof::parse(alloc, words.next(alloc)?.as_str());
    Ok(proof.map(|proof| verify_absence(&log_id, &proof, &root)))
}
