//! The signature schemes that the program verifies by itself.

ghost use Rattle.std.specs.Prelude.{◌≡◌, Err, IfErr, IfOk, false, true};
ghost use Rattle.warg_crypto.specs.declared.signing.error.SignatureError.TheVariants.{Refused};
ghost use Rattle.weoldrin.specs.Schemes.{known_belongs};

use std::alloc::Global;
use warg_protocol::p256::KnownKeys;
use warg_protocol::signing::{PublicKey, Signature, SignatureError, Verifier};
use warg_protocol::toy::ToyVerifier;

/// The verifier of the schemes that the names of keys stand for: `toy` and `ecdsa-p256`.
#[derive(Drop)]
pub struct KnownSchemes {
    keys: KnownKeys,
}

impl KnownSchemes {
    /// The verifier, which knows no key yet.
    pub fn new(alloc: Global) -> KnownSchemes {
        KnownSchemes {
            keys: KnownKeys::new(alloc),
        }
    }
}

impl Verifier for KnownSchemes {
    ghost belongs = { λ _ key message signature. known_belongs key message signature };

    /// `Ok` exactly where the signature belongs to the message under the key by the scheme of the key's name, else
    /// `Refused`, as where the name stands for no scheme.
    fn verify(
        &self,
        alloc: Global,
        key: &PublicKey,
        message: &[u8],
        signature: &Signature,
    ) -> Result<(), SignatureError>
        ensures ok { IfOk result (λ _. known_belongs key.now message.now signature.now ≡ true) }
        ensures refused { result ≡ Err Refused →
            known_belongs key.now message.now signature.now ≡ false }
        ensures memory { IfErr result (λ e. e ≡ Refused) }
    {
        match key.algorithm() {
            "toy" => ToyVerifier.verify(alloc, key, message, signature),
            "ecdsa-p256" => self.keys.verify(alloc, key, message, signature),
            _ => Err(SignatureError::Refused),
        }
    }
}
