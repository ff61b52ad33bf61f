//! States as JSON, by way of values and of texts, which have to say the same.
use crate::scripts::{ScriptLog, check};
use conformance_rows::{Answer, RowError};
use serde_json::Value;
use std::alloc::Global;
use warg_protocol::{JsonTextError, JsonValue};

/// The state that a text of JSON says, written again, of which an equal state is read.
pub fn saved_state<L: ScriptLog>(alloc: Global, text: &str) -> Result<Answer, RowError> {
    let state = L::of_json(alloc, text);
    check(
        is_same(&state, &by_value::<L>(alloc, text)),
        "its value is read otherwise",
    )?;
    match state {
        Ok(state) => written_and_read(alloc, &state),
        Err(fault) => Answer::cases(alloc, &fault),
    }
}

// The state's JSON, of which an equal state is read.
fn written_and_read<L: ScriptLog>(alloc: Global, state: &L) -> Result<Answer, RowError> {
    let answer = written(alloc, state)?;
    if let Answer::Value(text) = &answer {
        let again = L::of_json(alloc, text.as_str())?;
        check(again == *state, "another state is read back")?;
    }
    Ok(answer)
}

// What the text is read as by way of its value.
fn by_value<L: ScriptLog>(alloc: Global, text: &str) -> Result<L, JsonTextError> {
    match Value::from_str(alloc, text) {
        Ok(value) => L::from_value(alloc, &value).map_err(JsonTextError::Value),
        Err(_) => Err(JsonTextError::NotJson),
    }
}

fn is_same<L: ScriptLog>(
    left: &Result<L, JsonTextError>,
    right: &Result<L, JsonTextError>,
) -> bool {
    match (left, right) {
        (Ok(left), Ok(right)) => *left == *right,
        (Err(left), Err(right)) => *left == *right,
        _ => false,
    }
}

/// The state's JSON, which is the same by way of its value.
pub fn written<L: ScriptLog>(alloc: Global, state: &L) -> Result<Answer, RowError> {
    let value = state.to_value(alloc);
    match state.json(alloc) {
        Ok(text) => {
            let same = value?.to_string(alloc)?;
            check(same == text, "its value is written otherwise")?;
            Ok(Answer::Value(text))
        }
        Err(fault) => {
            check(value.err() == Some(fault), "its value has another fault")?;
            Answer::cases(alloc, &fault)
        }
    }
}

/// A value's JSON.
pub fn value_written<T: JsonValue>(alloc: Global, value: &T) -> Result<Answer, RowError> {
    match value.to_value(alloc) {
        Ok(value) => Ok(Answer::Value(value.to_string(alloc)?)),
        Err(fault) => Answer::cases(alloc, &fault),
    }
}

/// The list of permissions of a key id in the state's JSON.
pub(crate) fn permissions_written<L: ScriptLog>(
    alloc: Global,
    state: &L,
    key_id: &str,
) -> Result<Answer, RowError> {
    let value = state.to_value(alloc)?;
    let listed = value
        .get("permissions")
        .and_then(|members| members.get(key_id));
    match listed {
        Some(list) => Ok(Answer::Value(list.to_string(alloc)?)),
        None => Err(RowError::new("no permissions are written")),
    }
}
