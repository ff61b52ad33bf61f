//! The names of faults, and the texts of errors.
use conformance_rows::{Answer, RowError, Words};
use std::alloc::Global;
use warg_crypto::DecodeError;
use warg_crypto::hash::AnyHashError;
use warg_crypto::signing::SignatureParseError;
use warg_envelope::ParseEnvelopeError;
use warg_protobuf::WireError;

/// The cases of the fault from the outside in, joined by dots, and the number of a permission behind them.
pub(crate) fn envelope_fault(alloc: Global, error: ParseEnvelopeError) -> Result<String, RowError> {
    let name = error.name();
    match error {
        ParseEnvelopeError::Contents(DecodeError::Permission { value }) => {
            Ok(format!(in alloc; "{name} {value}")?)
        }
        _ => Ok(String::from_str(alloc, name)?),
    }
}

/// The same of a fault of contents alone.
pub(crate) fn contents_fault(alloc: Global, error: DecodeError) -> Result<String, RowError> {
    let fault = envelope_fault(alloc, ParseEnvelopeError::Contents(error))?;
    let fault = fault.as_str();
    let inner = fault.strip_prefix("Contents.").unwrap_or(fault);
    Ok(String::from_str(alloc, inner)?)
}

fn wire_error(name: &str) -> Result<WireError, RowError> {
    Ok(match name {
        "Truncated" => WireError::Truncated,
        "VarintTooLong" => WireError::VarintTooLong,
        "BadKey" => WireError::BadKey,
        "Group" => WireError::Group,
        "WrongWireType" => WireError::WrongWireType,
        "NotUtf8" => WireError::NotUtf8,
        "OutOfMemory" => WireError::OutOfMemory,
        _ => return Err(RowError::new("a strange fault of a message")),
    })
}

fn envelope_error(name: &str) -> Result<ParseEnvelopeError, RowError> {
    Ok(match name {
        "ProtobufEnvelope.Group" => ParseEnvelopeError::ProtobufEnvelope(WireError::Group),
        "Contents.MissingTime" => ParseEnvelopeError::Contents(DecodeError::MissingTime),
        "KeyID.BadHex" => ParseEnvelopeError::KeyID(AnyHashError::BadHex),
        "Signature.MissingColon" => {
            ParseEnvelopeError::Signature(SignatureParseError::MissingColon)
        }
        "OutOfMemory" => ParseEnvelopeError::OutOfMemory,
        _ => return Err(RowError::new("a strange fault of an envelope")),
    })
}

/// The answer to `error-text`: the type of an error, and the name of the error.
pub(crate) fn text(alloc: Global, mut words: Words<'_>) -> Result<Answer, RowError> {
    let of_type = words.next_written();
    let name = words.rest();
    match of_type {
        "WireError" => Answer::value(alloc, &wire_error(name)?),
        "ParseEnvelopeError" => Answer::value(alloc, &envelope_error(name)?),
        _ => Err(RowError::new("a strange type of errors")),
    }
}
