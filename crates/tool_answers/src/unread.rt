//! Why bytes are no envelope.

ghost use Rattle.std.specs.Prelude.{◌≡◌, ◌≢◌, OnErr, OnOk};

use std::alloc::AllocError;
use warg_protocol::ParseEnvelopeError;

/// Returns out of memory as the error that it is, and passes every other error, which tells what is wrong with the bytes.
pub fn unless_out_of_memory(error: &ParseEnvelopeError) -> Result<(), AllocError>
    ensures passed { OnOk result (error.now ≢ ParseEnvelopeError.OutOfMemory) }
    ensures refused { OnErr result (error.now ≡ ParseEnvelopeError.OutOfMemory) }
{
    match error {
        ParseEnvelopeError::OutOfMemory => Err(AllocError),
        ParseEnvelopeError::ProtobufEnvelope(_)
        | ParseEnvelopeError::Contents(_)
        | ParseEnvelopeError::KeyID(_)
        | ParseEnvelopeError::Signature(_) => Ok(()),
    }
}
