//! Members of JSON objects, and items of arrays.

use conformance_rows::{Answer, RowError, Words};
use serde_json::Value;
use std::alloc::Global;
use warg_crypto::json::members::{items_in, member_in, optional_member};
use warg_crypto::json::{JsonError, JsonValue};

/// `member NAME JSON`: the number, below 2^32, that is the object's member of that name.
pub(crate) fn member(alloc: Global, mut words: Words<'_>) -> Result<Answer, RowError> {
    let name = words.next(alloc)?;
    let json = Value::from_str(alloc, words.rest())?;
    Answer::of(alloc, number_at(alloc, &json, name.as_str()))
}

fn number_at(alloc: Global, json: &Value, name: &str) -> Result<u32, JsonError> {
    u32::from_value(alloc, member_in(json, name)?)
}

/// `optional-member NAME JSON`: the same of a member that may be missing or null, and then is `none`.
pub(crate) fn optional(alloc: Global, mut words: Words<'_>) -> Result<Answer, RowError> {
    let name = words.next(alloc)?;
    let json = Value::from_str(alloc, words.rest())?;
    match optional_member::<u32>(alloc, &json, name.as_str()) {
        Ok(Some(number)) => Answer::value(alloc, &number),
        Ok(None) => Answer::value(alloc, &"none"),
        Err(fault) => Answer::cases(alloc, &fault),
    }
}

/// `items JSON`: how many items the array has.
pub(crate) fn items(alloc: Global, words: Words<'_>) -> Result<Answer, RowError> {
    let json = Value::from_str(alloc, words.rest())?;
    match items_in(&json) {
        Ok(items) => Answer::value(alloc, &items.len()),
        Err(fault) => Answer::cases(alloc, &fault),
    }
}
