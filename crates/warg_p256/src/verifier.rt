//! The verifier of the scheme `ecdsa-p256`.

ghost use Rattle.std.specs.Prelude.{◌≡◌, Err, IfErr, IfOk, false, true};
ghost use Rattle.warg_crypto.specs.declared.signing.error.SignatureError.TheVariants.{Refused};
ghost use Rattle.warg_p256.specs.Scheme.{p256_belongs};
ghost use Rattle.warg_p256.specs.Verified.{is_verified};

use crate::signature::verify;
use std::alloc::Global;
use warg_crypto::signing::{PublicKey, Signature, SignatureError, Verifier};

/// The name of the scheme, in the texts of its keys and signatures.
pub const ALGORITHM: &str = "ecdsa-p256";

/// The verifier of ECDSA on the curve P-256 with SHA-256 (FIPS 186-5). A key's bytes are a point of
/// SEC 1, 2.3.3, compressed or not, and a signature's bytes are the DER of RFC 3279, 2.2.3.
#[derive(Clone, Copy, Debug)]
pub struct P256Verifier;

// `verify`, by the test that a verifier names.
fn are_verified(key: &[u8], message: &[u8], signature: &[u8]) -> bool
    ensures { result ≡ is_verified key.now message.now signature.now }
{
    verify(key, message, signature)
}

impl Verifier for P256Verifier {
    ghost belongs = { λ _ key message signature. p256_belongs key message signature };

    /// `Ok` exactly where the signature belongs to the message under the key, else `Refused`. It
    /// takes no memory.
    fn verify(
        &self,
        _alloc: Global,
        key: &PublicKey,
        message: &[u8],
        signature: &Signature,
    ) -> Result<(), SignatureError>
        ensures ok { IfOk result (λ _. p256_belongs key.now message.now signature.now ≡ true) }
        ensures refused { result ≡ Err Refused →
            p256_belongs key.now message.now signature.now ≡ false }
        ensures no_memory { IfErr result (λ e. e ≡ Refused) }
    {
        if key.algorithm() == ALGORITHM
            && signature.algorithm() == ALGORITHM
            && are_verified(key.bytes(), message, signature.bytes())
        {
            Ok(())
        } else {
            Err(SignatureError::Refused)
        }
    }
}
