//! What errors say, whatever options they are printed under.
use crate::scripts::{ScriptLog, check};
use conformance_rows::{Answer, RowError, Words};
use std::alloc::Global;
use std::fmt::Display;
use warg_protocol::{
    DecodeError, Incoherence, JsonError, JsonTextError, ParseEnvelopeError, WireError, operator,
    package,
};

/// The text of an error: `refusal KIND ERROR..`.
pub fn answer(alloc: Global, words: &str) -> Result<Answer, RowError> {
    let mut words = Words::new(words);
    let kind = words.next_written();
    match kind {
        "package" => of_error::<package::LogState>(alloc, words),
        "operator" => of_error::<operator::LogState>(alloc, words),
        "json" => text(alloc, &json_fault(words.rest())?),
        "envelope" => text(alloc, &envelope_fault(words.rest())?),
        "message" => text(alloc, &message_fault(words.rest())?),
        "contents" => text(alloc, &contents_fault(words.rest())?),
        _ => Err(RowError::new("a strange kind of error")),
    }
}

// The value's text, which is the same under all options.
fn text<T: Display>(alloc: Global, value: &T) -> Result<Answer, RowError> {
    let text = value.to_string(alloc)?;
    let padded = format!(in alloc; "{value:*^200}")?;
    let alternate = format!(in alloc; "{value:#}")?;
    let signed = format!(in alloc; "{value:+0200.1}")?;
    let is_same = padded == text && alternate == text && signed == text;
    check(is_same, "options change the text")?;
    Answer::value(alloc, &text)
}

// The next word; empty where none is left.
fn next(alloc: Global, words: &mut Words<'_>) -> Result<String, RowError> {
    if words.is_empty() {
        Ok(String::new(alloc))
    } else {
        words.next(alloc)
    }
}

fn of_error<L: ScriptLog>(alloc: Global, mut words: Words<'_>) -> Result<Answer, RowError>
where
    L::Error: Display,
{
    let case = words.next(alloc)?;
    let subject = next(alloc, &mut words)?;
    let permission = next(alloc, &mut words)?;
    words.end()?;
    let error = L::error(alloc, case.as_str(), subject.as_str(), permission.as_str())?;
    text(alloc, &error)
}

fn json_fault(name: &str) -> Result<JsonTextError, RowError> {
    Ok(match name {
        "NotJson" => JsonTextError::NotJson,
        "Value.WrongType" => JsonTextError::Value(JsonError::WrongType),
        "Value.Missing" => JsonTextError::Value(JsonError::Missing),
        "Value.BadText" => JsonTextError::Value(JsonError::BadText),
        "Value.Incoherent.StateWithoutInit" => JsonTextError::Value(JsonError::Incoherent(
            Incoherence::StateWithoutInit,
        )),
        "OutOfMemory" => JsonTextError::OutOfMemory,
        _ => return Err(RowError::new("a strange fault")),
    })
}

fn envelope_fault(name: &str) -> Result<ParseEnvelopeError, RowError> {
    Ok(match name {
        "ProtobufEnvelope.Group" => ParseEnvelopeError::ProtobufEnvelope(WireError::Group),
        "Contents.MissingTime" => ParseEnvelopeError::Contents(DecodeError::MissingTime),
        "OutOfMemory" => ParseEnvelopeError::OutOfMemory,
        _ => return Err(RowError::new("a strange fault")),
    })
}

fn message_fault(name: &str) -> Result<WireError, RowError> {
    match name {
        "VarintTooLong" => Ok(WireError::VarintTooLong),
        _ => Err(RowError::new("a strange fault")),
    }
}

fn contents_fault(name: &str) -> Result<DecodeError, RowError> {
    match name {
        "TimeOutOfRange" => Ok(DecodeError::TimeOutOfRange),
        _ => Err(RowError::new("a strange fault")),
    }
}
