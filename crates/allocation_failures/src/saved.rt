//! Saved texts, read back: some as a state, and some refused.

use crate::call_error::{CallError, OUT_OF_MEMORY};
use serde_json::Value;
use std::alloc::Global;
use warg_protocol::registry::Checkpoint;
use warg_protocol::{Incoherence, JsonError, JsonTextError, JsonValue, operator, package};

// An algorithm and a head, as members of a state.
const BEGUN: &str =
    "\"algorithm\":\"sha256\",\"head\":{\"digest\":\"sha256:e3b0c44298fc1c149afbf4c8996fb92427ae41e4649b934ca495991b7852b855\",\"timestamp\":\"1.0\"}";

const TEXTS: &[(&str, &str)] = &[
    ("no members", "{}"),
    ("a head of null", "{\"head\":null}"),
    ("a list", "[]"),
    (
        "an unknown algorithm, and a number as head",
        "{\"algorithm\":\"md5\",\"head\":7}",
    ),
    (
        "a head without a time",
        "{\"head\":{\"digest\":\"sha256:e3b0c44298fc1c149afbf4c8996fb92427ae41e4649b934ca495991b7852b855\"}}",
    ),
    ("an algorithm alone", "{\"algorithm\":\"sha256\"}"),
    (
        "a head alone",
        "{\"head\":{\"digest\":\"sha256:e3b0c44298fc1c149afbf4c8996fb92427ae41e4649b934ca495991b7852b855\",\"timestamp\":\"1.0\"}}",
    ),
    ("a key of no bytes", "{\"keys\":{\"x\":\"toy\"}}"),
];

/// Whole texts, each with what it is.
pub(crate) fn texts() -> &'static [(&'static str, &'static str)] {
    TEXTS
}

const MEMBERS: &[(&str, &str)] = &[
    ("begun", ""),
    (
        "begun, a key under another id",
        ",\"keys\":{\"x\":\"toy:YWxpY2U=\"}",
    ),
    (
        "begun, permissions of no key",
        ",\"permissions\":{\"x\":[]}",
    ),
    (
        "begun, a key under another id, and permissions of no key",
        ",\"keys\":{\"x\":\"toy:YWxpY2U=\"},\"permissions\":{\"y\":[]}",
    ),
];

/// Members behind an algorithm and a head, each with what they are.
pub(crate) fn members() -> &'static [(&'static str, &'static str)] {
    MEMBERS
}

const STATES: &[(&str, &str)] = &[
    (
        "from_json",
        "{\"algorithm\":\"sha256\",\"head\":{\"digest\":\"sha256:88e63a3e22d45d5304a601e1f3f96e4c8edb3772b5250b528a833bfbf3c3c718\",\"timestamp\":\"3.0\"},\"keys\":{\"sha256:41217e6dcb8c0694d904eb6ff3e4098d479db7c8f90cd8db737d85701d464db0\":\"toy:Ym9i\",\"sha256:6f03ae61d0fd3df261d400afe99bdcd613f266104552b6ad5281c7666633c6e2\":\"toy:YWxpY2U=\"},\"permissions\":{\"sha256:41217e6dcb8c0694d904eb6ff3e4098d479db7c8f90cd8db737d85701d464db0\":[],\"sha256:6f03ae61d0fd3df261d400afe99bdcd613f266104552b6ad5281c7666633c6e2\":[\"release\",\"yank\"]},\"releases\":{\"1.1.0\":{\"by\":\"sha256:41217e6dcb8c0694d904eb6ff3e4098d479db7c8f90cd8db737d85701d464db0\",\"recordId\":\"sha256:980dfd23c944eebfbcc477c24acde9b1c3838478faa48d4f9e13e947740a3482\",\"state\":{\"by\":\"sha256:6f03ae61d0fd3df261d400afe99bdcd613f266104552b6ad5281c7666633c6e2\",\"status\":\"yanked\",\"timestamp\":\"3.0\"},\"timestamp\":\"2.0\",\"version\":\"1.1.0\"}}}",
    ),
    (
        "from_json, a release without members",
        "{\"releases\":{\"1.1.0\":{}}}",
    ),
    (
        "from_json, releases in another order",
        "{\"algorithm\":\"sha256\",\"head\":{\"digest\":\"sha256:88e63a3e22d45d5304a601e1f3f96e4c8edb3772b5250b528a833bfbf3c3c718\",\"timestamp\":\"3.0\"},\"releases\":{\"1.1.0\":{\"by\":\"sha256:41217e6dcb8c0694d904eb6ff3e4098d479db7c8f90cd8db737d85701d464db0\",\"recordId\":\"sha256:980dfd23c944eebfbcc477c24acde9b1c3838478faa48d4f9e13e947740a3482\",\"state\":{\"by\":\"sha256:6f03ae61d0fd3df261d400afe99bdcd613f266104552b6ad5281c7666633c6e2\",\"status\":\"yanked\",\"timestamp\":\"3.0\"},\"timestamp\":\"2.0\",\"version\":\"1.1.0\"},\"1.0.0\":{\"by\":\"sha256:41217e6dcb8c0694d904eb6ff3e4098d479db7c8f90cd8db737d85701d464db0\",\"recordId\":\"sha256:980dfd23c944eebfbcc477c24acde9b1c3838478faa48d4f9e13e947740a3482\",\"state\":{\"by\":\"sha256:6f03ae61d0fd3df261d400afe99bdcd613f266104552b6ad5281c7666633c6e2\",\"status\":\"yanked\",\"timestamp\":\"3.0\"},\"timestamp\":\"2.0\",\"version\":\"1.0.0\"}}}",
    ),
    ("from_json, a list", "[]"),
    ("from_json, no end", "{\"releases\":{"),
];

/// Texts of which a state is read with no value of the whole, each with what it is.
pub(crate) fn states() -> &'static [(&'static str, &'static str)] {
    STATES
}

const OPERATOR_STATES: &[(&str, &str)] = &[
    (
        "from_json, two namespaces",
        "{\"algorithm\":\"sha256\",\"head\":{\"digest\":\"sha256:88e63a3e22d45d5304a601e1f3f96e4c8edb3772b5250b528a833bfbf3c3c718\",\"timestamp\":\"3.0\"},\"keys\":{\"sha256:6f03ae61d0fd3df261d400afe99bdcd613f266104552b6ad5281c7666633c6e2\":\"toy:YWxpY2U=\"},\"namespaces\":{\"my-namespace\":{\"state\":\"defined\"},\"other\":{\"state\":{\"imported\":{\"registry\":\"registry.example.com\"}}}},\"permissions\":{\"sha256:6f03ae61d0fd3df261d400afe99bdcd613f266104552b6ad5281c7666633c6e2\":[\"commit\"]}}",
    ),
    (
        "from_json, a namespace of a bad name",
        "{\"algorithm\":\"sha256\",\"head\":{\"digest\":\"sha256:88e63a3e22d45d5304a601e1f3f96e4c8edb3772b5250b528a833bfbf3c3c718\",\"timestamp\":\"3.0\"},\"namespaces\":{\"my-NAMESPACE\":{\"state\":\"defined\"}}}",
    ),
];

/// Texts of which an operator log's state is read, each with what it is.
pub(crate) fn operator_states() -> &'static [(&'static str, &'static str)] {
    OPERATOR_STATES
}

const CHECKPOINTS: &[(&str, &str)] = &[
    (
        "a checkpoint of length -1",
        "{\"logLength\":-1,\"logRoot\":\"sha256:e3b0c44298fc1c149afbf4c8996fb92427ae41e4649b934ca495991b7852b855\",\"mapRoot\":\"sha256:e3b0c44298fc1c149afbf4c8996fb92427ae41e4649b934ca495991b7852b855\"}",
    ),
    (
        "a checkpoint of length 1.5",
        "{\"logLength\":1.5,\"logRoot\":\"sha256:e3b0c44298fc1c149afbf4c8996fb92427ae41e4649b934ca495991b7852b855\",\"mapRoot\":\"sha256:e3b0c44298fc1c149afbf4c8996fb92427ae41e4649b934ca495991b7852b855\"}",
    ),
];

/// Checkpoints, each with what it is.
pub(crate) fn checkpoints() -> &'static [(&'static str, &'static str)] {
    CHECKPOINTS
}

fn incoherence_name(incoherence: Incoherence) -> &'static str {
    match incoherence {
        Incoherence::AlgorithmWithoutHead => "AlgorithmWithoutHead",
        Incoherence::HeadWithoutAlgorithm => "HeadWithoutAlgorithm",
        Incoherence::KeyUnderOtherFingerprint => "KeyUnderOtherFingerprint",
        Incoherence::InvalidNamespace => "InvalidNamespace",
        Incoherence::PermissionsWithoutKey => "PermissionsWithoutKey",
        _ => "another incoherence",
    }
}

fn fault_name(error: JsonError) -> &'static str {
    match error {
        JsonError::WrongType => "WrongType",
        JsonError::Missing => "Missing",
        JsonError::BadText => "BadText",
        JsonError::Incoherent(incoherence) => incoherence_name(incoherence),
        _ => "another fault",
    }
}

// The JSON of a text.
fn value_of(alloc: Global, text: &str) -> Result<Value, CallError> {
    match Value::from_str(alloc, text) {
        Ok(value) => Ok(value),
        Err(error) if error.is_memory() => Err(OUT_OF_MEMORY),
        Err(_) => Err(CallError::new("no JSON")),
    }
}

// What the text is read as: a value, or the name of its fault.
fn read<T: JsonValue + Drop>(alloc: Global, text: &str) -> Result<&'static str, CallError> {
    let value = value_of(alloc, text)?;
    match T::from_value(alloc, &value) {
        Ok(_) => Ok("read"),
        Err(JsonError::OutOfMemory) => Err(OUT_OF_MEMORY),
        Err(error) => Ok(fault_name(error)),
    }
}

// What a text is read as: a state, or the name of its fault.
fn read_text<T: Drop>(state: Result<T, JsonTextError>) -> Result<&'static str, CallError> {
    match state {
        Ok(_) => Ok("read"),
        Err(JsonTextError::NotJson) => Ok("no JSON"),
        Err(JsonTextError::OutOfMemory) => Err(OUT_OF_MEMORY),
        Err(JsonTextError::Value(error)) => Ok(fault_name(error)),
    }
}

/// What the text is read as, as a package log's state, with no value of the whole.
pub(crate) fn text_state(alloc: Global, text: &str) -> Result<String, CallError> {
    let state = package::LogState::from_json(alloc, text);
    Ok(String::from_str(alloc, read_text(state)?)?)
}

/// The same, as an operator log's state.
pub(crate) fn operator_text_state(alloc: Global, text: &str) -> Result<String, CallError> {
    let state = operator::LogState::from_json(alloc, text);
    Ok(String::from_str(alloc, read_text(state)?)?)
}

/// What the text is read as, as a package log's state.
pub(crate) fn state(alloc: Global, text: &str) -> Result<String, CallError> {
    Ok(String::from_str(alloc, read::<package::LogState>(alloc, text)?)?)
}

/// What an algorithm and a head with these members behind them are read as, as a package log's state.
pub(crate) fn begun(alloc: Global, members: &str) -> Result<String, CallError> {
    let text = format!(in alloc; "{{{BEGUN}{members}}}")?;
    state(alloc, text.as_str())
}

/// The same with a namespace of a bad name, as an operator log's state.
pub(crate) fn bad_namespace(alloc: Global) -> Result<String, CallError> {
    let text = format!(in alloc;
        "{{{BEGUN},\"namespaces\":{{\"my-NAMESPACE\":{{\"state\":\"defined\"}}}}}}"
    )?;
    Ok(String::from_str(alloc, read::<operator::LogState>(alloc, text.as_str())?)?)
}

/// What the text is read as, as a checkpoint.
pub(crate) fn checkpoint(alloc: Global, text: &str) -> Result<String, CallError> {
    Ok(String::from_str(alloc, read::<Checkpoint>(alloc, text)?)?)
}
