//! The topics of the conformance suite that speak of messages, entries, records and envelopes.
#![tactic(auto)]

mod bodies;
mod envelopes;
mod errors;
mod fields;
mod json;
mod kinds;
mod messages;
mod records;
mod signing;
mod text_codec;
mod words;

use conformance_rows::{Answer, RowError, Words};
use std::alloc::Global;

/// The answer to a row of one of this crate's topics, or `None` where it has no such topic.
pub fn answer(alloc: Global, topic: &str, words: &str) -> Result<Option<Answer>, RowError> {
    let words = Words::new(words);
    if let Some(verb) = text_codec::verb_of(topic) {
        return Ok(Some(kinds::answer(alloc, verb, words)?));
    }
    Ok(Some(match topic {
        "body" => bodies::body(alloc, words)?,
        "published-body" => bodies::published_body(alloc, words)?,
        "record-id" => envelopes::record_id(alloc, words)?,
        "record-contents" => records::contents(alloc, words)?,
        "sign" => signing::sign(alloc, words)?,
        "sign-apart" => signing::sign_apart(alloc, words)?,
        "signing-prefix" => signing::prefix(alloc, words)?,
        "error-text" => errors::text(alloc, words)?,
        _ => return Ok(None),
    }))
}
