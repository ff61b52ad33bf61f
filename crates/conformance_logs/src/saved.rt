//! States and parts of states as JSON.
use crate::written::{saved_state, value_written};
use conformance_rows::{Answer, RowError, Words};
use serde_json::Value;
use std::alloc::Global;
use warg_protocol::operator::NamespaceState;
use warg_protocol::package::{Head, Release, ReleaseState};
use warg_protocol::{JsonValue, operator, package};

/// What a text of JSON is read as, written again: `saved KIND TEXT`.
pub fn answer(alloc: Global, words: &str) -> Result<Answer, RowError> {
    let mut words = Words::new(words);
    let kind = words.next_written();
    let text = words.rest_text(alloc)?;
    read_kind(alloc, kind, text.as_str())
}

fn read_kind(alloc: Global, kind: &str, text: &str) -> Result<Answer, RowError> {
    match kind {
        "package" => saved_state::<package::LogState>(alloc, text),
        "operator" => saved_state::<operator::LogState>(alloc, text),
        "head" => of_value::<Head>(alloc, text),
        "release" => of_value::<Release>(alloc, text),
        "release-state" => of_value::<ReleaseState>(alloc, text),
        "namespace" => of_value::<NamespaceState>(alloc, text),
        _ => Err(RowError::new("a strange kind of JSON")),
    }
}

fn of_value<T: JsonValue + Drop>(alloc: Global, text: &str) -> Result<Answer, RowError> {
    let value = Value::from_str(alloc, text)?;
    match T::from_value(alloc, &value) {
        Ok(value) => value_written(alloc, &value),
        Err(fault) => Answer::cases(alloc, &fault),
    }
}
