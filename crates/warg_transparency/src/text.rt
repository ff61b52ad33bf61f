//! Base64.

ghost use Rattle.std.specs.Prelude.{◌≡◌, ◌≢◌, ◌⊎◌, List, ℕ, Ok, IfErr, IfOk};
ghost use Rattle.base64.specs.Engines.{standard};
ghost use Rattle.base64.specs.GeneralPurpose.{decode_of};
ghost use Rattle.warg_transparency.specs.declared.error.ProofTextError.TheVariants as fault;

use crate::error::ProofTextError;
use base64::DecodeAllocError;
use base64::engine::general_purpose::STANDARD;
use std::alloc::Global;

// The bytes whose base64 the text is.
pub(crate) fn decode_base64(alloc: Global, text: &str) -> Result<Vec<u8>, ProofTextError>
    ensures ok { IfOk result (λ bytes. decode_of standard text.now ≡ Ok bytes.items) }
    ensures err { IfErr result (λ e. (e ≡ fault.OutOfMemory)
        ⊎ ((e ≡ fault.BadBase64) × ((bytes : List ℕ) → decode_of standard text.now ≢ Ok bytes))) }
    ensures bad_base64 { result ≡ Err fault.BadBase64 → (bytes : List ℕ) →
        decode_of standard text.now ≢ Ok bytes }
    ensures too_long { result ≢ Err fault.TooLong }
    ensures bad_length { result ≢ Err fault.BadLength }
    ensures empty_sibling { result ≢ Err fault.EmptySibling }
{
    match STANDARD.decode(alloc, text.as_bytes()) {
        Ok(bytes) => Ok(bytes),
        Err(DecodeAllocError::DecodeError(_)) => Err(ProofTextError::BadBase64),
        Err(DecodeAllocError::OutOfMemory) => Err(ProofTextError::OutOfMemory),
    }
}
