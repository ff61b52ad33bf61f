//! The names of errors, which take no memory.

ghost use Rattle.std.specs.Prelude.{◌≡◌, ◌++◌, codes};
ghost use Rattle.warg_envelope.specs.Envelopes.{contents_fault_of};
ghost use Rattle.warg_envelope.specs.FaultNames.{wire_name, wire_fault_name, hash_error_name, key_error_name, signature_error_name, record_fault_name, envelope_fault_name, error_name};
ghost use Rattle.warg_envelope.specs.Faults.{fault_of};

use super::ParseEnvelopeError;
use warg_crypto::hash::AnyHashError;
use warg_crypto::signing::{KeyParseError, SignatureParseError};
use warg_crypto::{DecodeError, WireFault};
use warg_protobuf::WireError;

impl ParseEnvelopeError {
    /// The names of the error's cases, from the outside in, joined by dots and without fields, as
    /// `Contents.Prev.BadHex`. `OutOfMemory` is the name where memory was refused.
    pub fn name(&self) -> &'static str
        ensures { result.now ≡ error_name self.now }
    {
        match self {
            ParseEnvelopeError::ProtobufEnvelope(error) => outer_name(*error),
            ParseEnvelopeError::Contents(error) => contents_name(*error),
            ParseEnvelopeError::KeyID(error) => key_id_name(*error),
            ParseEnvelopeError::Signature(error) => signature_name(*error),
            ParseEnvelopeError::OutOfMemory => "OutOfMemory",
        }
    }
}

fn outer_name(error: WireError) -> &'static str
    ensures { result.now ≡ codes "ProtobufEnvelope." ++ wire_name error }
{
    match error {
        WireError::Truncated => "ProtobufEnvelope.Truncated",
        WireError::VarintTooLong => "ProtobufEnvelope.VarintTooLong",
        WireError::BadKey => "ProtobufEnvelope.BadKey",
        WireError::Group => "ProtobufEnvelope.Group",
        WireError::WrongWireType => "ProtobufEnvelope.WrongWireType",
        WireError::NotUtf8 => "ProtobufEnvelope.NotUtf8",
        WireError::OutOfMemory => "ProtobufEnvelope.OutOfMemory",
    }
}

fn contents_name(error: DecodeError) -> &'static str
    ensures { result.now ≡ envelope_fault_name record_fault_name
        (contents_fault_of (fault_of error)) }
{
    match error {
        DecodeError::Wire(fault) => wire_fault_name(fault),
        DecodeError::Prev(fault) => prev_name(fault),
        DecodeError::MissingTime => "Contents.MissingTime",
        DecodeError::TimeOutOfRange => "Contents.TimeOutOfRange",
        DecodeError::EmptyEntry => "Contents.EmptyEntry",
        DecodeError::Algorithm => "Contents.Algorithm",
        DecodeError::Key(fault) => key_name(fault),
        DecodeError::Permission { value: _ } => "Contents.Permission",
        DecodeError::Version => "Contents.Version",
        DecodeError::ContentHash(fault) => content_hash_name(fault),
        DecodeError::OutOfMemory => "Contents.OutOfMemory",
    }
}

fn wire_fault_name(fault: WireFault) -> &'static str
    ensures { result.now ≡ codes "Contents.Wire." ++ wire_fault_name fault }
{
    match fault {
        WireFault::Truncated => "Contents.Wire.Truncated",
        WireFault::VarintTooLong => "Contents.Wire.VarintTooLong",
        WireFault::BadKey => "Contents.Wire.BadKey",
        WireFault::Group => "Contents.Wire.Group",
        WireFault::WrongWireType => "Contents.Wire.WrongWireType",
        WireFault::NotUtf8 => "Contents.Wire.NotUtf8",
        WireFault::OutOfMemory => "Contents.Wire.OutOfMemory",
    }
}

fn prev_name(fault: AnyHashError) -> &'static str
    ensures { result.now ≡ codes "Contents.Prev." ++ hash_error_name fault }
{
    match fault {
        AnyHashError::MissingAlgorithm => "Contents.Prev.MissingAlgorithm",
        AnyHashError::UnknownAlgorithm => "Contents.Prev.UnknownAlgorithm",
        AnyHashError::BadHex => "Contents.Prev.BadHex",
        AnyHashError::BadLength => "Contents.Prev.BadLength",
    }
}

fn content_hash_name(fault: AnyHashError) -> &'static str
    ensures { result.now ≡ codes "Contents.ContentHash." ++ hash_error_name fault }
{
    match fault {
        AnyHashError::MissingAlgorithm => "Contents.ContentHash.MissingAlgorithm",
        AnyHashError::UnknownAlgorithm => "Contents.ContentHash.UnknownAlgorithm",
        AnyHashError::BadHex => "Contents.ContentHash.BadHex",
        AnyHashError::BadLength => "Contents.ContentHash.BadLength",
    }
}

fn key_name(fault: KeyParseError) -> &'static str
    ensures { result.now ≡ codes "Contents.Key." ++ key_error_name fault }
{
    match fault {
        KeyParseError::MissingColon => "Contents.Key.MissingColon",
        KeyParseError::EmptyAlgorithm => "Contents.Key.EmptyAlgorithm",
        KeyParseError::BadBase64 => "Contents.Key.BadBase64",
        KeyParseError::OutOfMemory => "Contents.Key.OutOfMemory",
    }
}

fn key_id_name(error: AnyHashError) -> &'static str
    ensures { result.now ≡ codes "KeyID." ++ hash_error_name error }
{
    match error {
        AnyHashError::MissingAlgorithm => "KeyID.MissingAlgorithm",
        AnyHashError::UnknownAlgorithm => "KeyID.UnknownAlgorithm",
        AnyHashError::BadHex => "KeyID.BadHex",
        AnyHashError::BadLength => "KeyID.BadLength",
    }
}

fn signature_name(error: SignatureParseError) -> &'static str
    ensures { result.now ≡ codes "Signature." ++ signature_error_name error }
{
    match error {
        SignatureParseError::MissingColon => "Signature.MissingColon",
        SignatureParseError::EmptyAlgorithm => "Signature.EmptyAlgorithm",
        SignatureParseError::BadBase64 => "Signature.BadBase64",
        SignatureParseError::OutOfMemory => "Signature.OutOfMemory",
    }
}
