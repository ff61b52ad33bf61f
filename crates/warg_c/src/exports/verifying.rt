//! Verifying a signature.
ghost use Rattle.std.specs.Prelude.{◌≡◌, [], ◌∷◌, true, false, OnOk, IfErr};
ghost use Rattle.warg_c.specs.Statuses.{WARG_OK, WARG_OUT_OF_MEMORY, WARG_REFUSED, WARG_BAD_ARGUMENT};
ghost use Rattle.warg_c.specs.Statuses.{WARG_UNKNOWN_ALGORITHM, IsOneOf};
ghost use Rattle.warg_c.specs.Verifying.{IsJudged, IsNotVerified, IsOtherKey, VerifyErrors};

use crate::call_error::{CallError, status};
use crate::question::{is_p256_key, parse_key, parse_signature};
use std::alloc::Global;
use warg_crypto::signing::Verifier;
use warg_p256::P256Verifier;

// The key's text is read first, then its algorithm is looked at, and then the signature's text is read.
fn verify(alloc: Global, key: &[u8], message: &[u8], signature: &[u8]) -> Result<(), CallError>
    ensures ok { OnOk result (IsJudged key.now message.now signature.now true) }
    ensures err { IfErr result (VerifyErrors key.now message.now signature.now) }
{
    let key = parse_key(alloc, key)?;
    if !is_p256_key(&key) {
        return Err(CallError::UnknownAlgorithm);
    }
    let signature = parse_signature(alloc, signature)?;
    match P256Verifier.verify(alloc, &key, message, &signature) {
        Ok(()) => Ok(()),
        Err(_) => Err(CallError::Refused),
    }
}

/// Whether a signature belongs to a message under a key, by the texts of the key and of the signature, as they stand in questions:
/// `ecdsa-p256:` and base64. WARG_OK if it does, WARG_REFUSED if it does not. No log is needed.
///   WARG_BAD_ARGUMENT: the key's text can't be read; or it is one of `ecdsa-p256`, and the signature's can't be read.
///   WARG_UNKNOWN_ALGORITHM: the key's algorithm is not `ecdsa-p256`. The signature's text was not looked at.
#[unsafe(no_mangle)]
pub extern "C" fn warg_verify(alloc: Global, key: &[u8], message: &[u8], signature: &[u8]) -> u32
    ensures statuses { IsOneOf (WARG_OK ∷ WARG_OUT_OF_MEMORY ∷ WARG_REFUSED ∷ WARG_BAD_ARGUMENT ∷
        WARG_UNKNOWN_ALGORITHM ∷ []) result }
    ensures ok { result ≡ WARG_OK → IsJudged key.now message.now signature.now true }
    ensures refused { result ≡ WARG_REFUSED → IsJudged key.now message.now signature.now false }
    ensures bad_argument { result ≡ WARG_BAD_ARGUMENT → IsNotVerified key.now signature.now }
    ensures unknown_algorithm { result ≡ WARG_UNKNOWN_ALGORITHM → IsOtherKey key.now }
{
    status(verify(alloc, key, message, signature))
}
