//! The topics of the conformance suite that speak of a registry's log and map: their roots, the proofs that they give, and
//! what a proof shows.
mod given;
mod parts;
mod shown;
mod texts;

use conformance_rows::{Answer, RowError, Words};
use std::alloc::Global;

/// The answer to a row of one of these topics, or `None` where the row has another. Of the topic `parse` it has the proofs
/// alone.
pub fn answer(alloc: Global, topic: &str, words: &str) -> Result<Option<Answer>, RowError> {
    let words = Words::new(words);
    let answer = match topic {
        "parse" => return texts::parse(alloc, words),
        "log-root" => given::log_root(alloc, words),
        "map-root" => given::map_root(alloc, words),
        "inclusion-proof" => given::inclusion(alloc, words),
        "consistency-proof" => given::consistency(alloc, words),
        "map-proof" => given::of_map(alloc, words),
        _ => return shown::answer(alloc, topic, words),
    };
    Ok(Some(answer?))
}
