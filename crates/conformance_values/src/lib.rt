//! The topics of the conformance suite that speak of single values: texts, hashes, keys and signatures, times, JSON,
//! prefix encoding, and what a registry names things by.
#![tactic(auto)]

mod digests;
mod encoding;
mod errors;
mod from_words;
mod json;
mod keys;
mod members;
mod order;
mod permissions;
mod printed;
mod registry;
mod signing;
mod texts;
mod times;

use conformance_rows::{Answer, RowError, Words};
use std::alloc::Global;

/// The answer to a row of one of this crate's topics, or `None` where it has no such topic.
pub fn answer(alloc: Global, topic: &str, words: &str) -> Result<Option<Answer>, RowError> {
    match of_many_kinds(alloc, topic, Words::new(words))? {
        Some(answer) => Ok(Some(answer)),
        None => of_crypto(alloc, topic, Words::new(words)),
    }
}

// The topics that many kinds of values have.
fn of_many_kinds(alloc: Global, topic: &str, words: Words<'_>) -> Result<Option<Answer>, RowError> {
    let answer = match topic {
        "parse" => texts::parse(alloc, words),
        "shown" => texts::shown(alloc, words),
        "compare" => order::compare(alloc, words),
        "same" => order::same(alloc, words),
        "from-json" => json::from_json(alloc, words),
        "to-json" => json::to_json(alloc, words),
        "bytes" => encoding::bytes_of(alloc, words),
        "error-text" => return errors::text(alloc, words),
        _ => return Ok(None),
    };
    Ok(Some(answer?))
}

// The topics of hashes, keys, times, prefix encoding and parts of JSON.
fn of_crypto(alloc: Global, topic: &str, words: Words<'_>) -> Result<Option<Answer>, RowError> {
    let answer = match topic {
        "sha256" => digests::sha256(alloc, words),
        "visited" => digests::visited(alloc, words),
        "parts" => keys::parts(alloc, words),
        "key-of" => keys::key_of(alloc, words),
        "signature-of" => keys::signature_of(alloc, words),
        "fingerprint" => keys::fingerprint(alloc, words),
        "algorithm-name" => keys::algorithm_name(alloc, words),
        "time" => times::time(alloc, words),
        "time-text" => times::time_text(alloc, words),
        "unsigned" => encoding::unsigned(alloc, words),
        "prefixed-text" => encoding::prefixed_text(alloc, words),
        "raw-text" => encoding::raw_text(alloc, words),
        "member" => members::member(alloc, words),
        "optional-member" => members::optional(alloc, words),
        "items" => members::items(alloc, words),
        _ => return of_registry(alloc, topic, words),
    };
    Ok(Some(answer?))
}

// The topics of signers and of registries.
fn of_registry(alloc: Global, topic: &str, words: Words<'_>) -> Result<Option<Answer>, RowError> {
    let answer = match topic {
        "toy-key" => signing::toy_key(alloc, words),
        "toy-sign" => signing::toy_sign(alloc, words),
        "toy-verify" => signing::toy_verify(alloc, words),
        "p256-verify" => signing::p256_verify(alloc, words),
        "sign-checkpoint" => signing::sign_checkpoint(alloc, words),
        "verify-checkpoint" => signing::verify_checkpoint(alloc, words),
        "checkpoint-prefix" => signing::checkpoint_prefix(alloc, words),
        "encode-checkpoint" => registry::encode_checkpoint(alloc, words),
        "checkpoint-at" => registry::checkpoint_at(alloc, words),
        "operator-log-id" => registry::operator_log_id(alloc, words),
        "package-log-id" => registry::package_log_id(alloc, words),
        "permissions" => permissions::permissions(alloc, words),
        "permission-number" => permissions::permission_number(alloc, words),
        "permission-of-number" => permissions::permission_of_number(alloc, words),
        _ => return Ok(None),
    };
    Ok(Some(answer?))
}
