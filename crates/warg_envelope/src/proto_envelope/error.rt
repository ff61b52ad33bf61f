//! Why bytes are no envelope.

ghost use Rattle.std.specs.Prelude.{◌≡◌, Some};
ghost use Rattle.warg_envelope.specs.ErrorTexts.{error_text};
ghost use Rattle.warg_envelope.specs.ParseErrors.{wire_error, contents_error, signature_error};
ghost use Rattle.warg_envelope.specs.declared.proto_envelope.error.ParseEnvelopeError.TheVariants as error;

use std::alloc::AllocError;
use std::error::Error;
use std::fmt;
use warg_crypto::DecodeError;
use warg_crypto::hash::AnyHashError;
use warg_crypto::signing::SignatureParseError;
use warg_protobuf::WireError;

/// Why bytes are no envelope: the fault that stands first, or out of memory.
#[derive(Clone, Copy, Debug, PartialEq, Eq)]
pub enum ParseEnvelopeError {
    /// The bytes are no outer message.
    ProtobufEnvelope(WireError),
    /// The content bytes are no record.
    Contents(DecodeError),
    /// Never returned: every text is a key id.
    KeyID(AnyHashError),
    /// The signature's text can't be read.
    Signature(SignatureParseError),
    /// There was no memory for the envelope.
    OutOfMemory,
}

impl ParseEnvelopeError {
    // What is printed of the error.
    fn text(&self) -> &'static str
        ensures { result.now ≡ error_text self.now }
    {
        match self {
            ParseEnvelopeError::ProtobufEnvelope(_) => {
                "failed to parse the outer envelope protobuf message"
            }
            ParseEnvelopeError::Contents(_) => "failed to parse envelope contents from bytes",
            ParseEnvelopeError::KeyID(_) => "failed to parse envelope key id",
            ParseEnvelopeError::Signature(_) => "failed to parse envelope signature",
            ParseEnvelopeError::OutOfMemory => "OutOfMemory",
        }
    }
}

impl fmt::Display for ParseEnvelopeError {
    ghost output = { λ e. Some (error_text e) };

    ghost styled_output = { λ e _. Some (error_text e) };

    fn fmt<W: fmt::Write>(&self, f: &mut fmt::Formatter<W>) -> fmt::Result {
        f.write_str(self.text())
    }
}

impl Error for ParseEnvelopeError {}

impl From<AllocError> for ParseEnvelopeError {
    ghost from_gives = { λ _ e. e ≡ error.OutOfMemory };

    fn from(_error: AllocError) -> ParseEnvelopeError {
        ParseEnvelopeError::OutOfMemory
    }
}

impl From<WireError> for ParseEnvelopeError {
    ghost from_gives = { λ w e. e ≡ wire_error w };

    fn from(error: WireError) -> ParseEnvelopeError {
        match error {
            WireError::OutOfMemory => ParseEnvelopeError::OutOfMemory,
            fault => ParseEnvelopeError::ProtobufEnvelope(fault),
        }
    }
}

impl From<DecodeError> for ParseEnvelopeError {
    ghost from_gives = { λ d e. e ≡ contents_error d };

    fn from(error: DecodeError) -> ParseEnvelopeError {
        match error {
            DecodeError::OutOfMemory => ParseEnvelopeError::OutOfMemory,
            fault => ParseEnvelopeError::Contents(fault),
        }
    }
}

impl From<AnyHashError> for ParseEnvelopeError {
    ghost from_gives = { λ h e. e ≡ error.KeyID h };

    fn from(error: AnyHashError) -> ParseEnvelopeError {
        ParseEnvelopeError::KeyID(error)
    }
}

impl From<SignatureParseError> for ParseEnvelopeError {
    ghost from_gives = { λ s e. e ≡ signature_error s };

    fn from(error: SignatureParseError) -> ParseEnvelopeError {
        match error {
            SignatureParseError::OutOfMemory => ParseEnvelopeError::OutOfMemory,
            fault => ParseEnvelopeError::Signature(fault),
        }
    }
}
