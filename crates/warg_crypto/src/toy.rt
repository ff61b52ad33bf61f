//! The toy scheme, which is not secure.

ghost use Rattle.std.specs.Prelude.{◌≡◌, codes, Err, IfErr, IfOk, false, true};
ghost use Rattle.warg_crypto.specs.Signed.{toy_signature, toy_belongs};
ghost use Rattle.warg_crypto.specs.declared.signing.error.SignatureError.TheVariants.{Refused};

use crate::signing::{PublicKey, Signature, SignatureError, Signer, Verifier};
use sha2::{Digest, Sha256};
use std::alloc::{AllocError, Global};
use std::marker::Model;

/// A signer by a key of any bytes.
#[derive(Debug, Drop)]
pub struct ToySigner {
    pub(crate) key: PublicKey,
}

impl Model for ToySigner {
    ghost use Rattle.std.specs.Prelude.{◌≡◌, codes};
    ghost use Rattle.warg_crypto.specs.NamedBytes.{NamedBytes};

    ghost Value = { NamedBytes };

    ghost view = { λ s. s.key };

    ghost invariant = { λ s. s.key.name ≡ codes "toy" };
}

impl ToySigner {
    /// The signer by the key named `toy` of these bytes.
    pub fn new(alloc: Global, key_bytes: &[u8]) -> Result<ToySigner, AllocError>
        ensures { IfOk result (λ key. key ≡ record { name = codes "toy"; bytes = key_bytes.now }) }
    {
        let name = String::from_str(alloc, "toy")?;
        let bytes = Vec::from_slice(alloc, key_bytes)?;
        Ok(ToySigner {
            key: PublicKey::new(name, bytes),
        })
    }
}

// The digest that is the toy signature's bytes.
fn toy_digest(key_bytes: &[u8], message: &[u8]) -> [u8; 32]
    ensures { result ≡ (toy_signature key_bytes.now message.now).bytes }
{
    let mut hasher = Sha256::new();
    hasher.update(key_bytes);
    hasher.update(message);
    hasher.finalize()
}

impl Signer for ToySigner {
    ghost key_of = { λ key. key };

    ghost gives = { λ key message signature. signature ≡ toy_signature key.bytes message };

    ghost refuses = { λ _ _. ⊥ };

    fn public_key(&self) -> &PublicKey {
        &self.key
    }

    fn sign(&self, alloc: Global, message: &[u8]) -> Result<Signature, SignatureError> {
        let digest = toy_digest(self.key.bytes(), message);
        let name = String::from_str(alloc, "toy")?;
        let bytes = Vec::from_slice(alloc, digest.as_slice())?;
        Ok(Signature::new(name, bytes))
    }
}

/// The verifier of the toy scheme.
#[derive(Clone, Copy, Debug)]
pub struct ToyVerifier;

impl Verifier for ToyVerifier {
    ghost belongs = { λ _ key message signature. toy_belongs key message signature };

    /// `Ok` exactly where the signature belongs to the message under the key, else `Refused`: it takes no memory.
    fn verify(
        &self,
        _alloc: Global,
        key: &PublicKey,
        message: &[u8],
        signature: &Signature,
    ) -> Result<(), SignatureError>
        ensures ok { IfOk result (λ _. toy_belongs key.now message.now signature.now ≡ true) }
        ensures refused { result ≡ Err Refused →
            toy_belongs key.now message.now signature.now ≡ false }
        ensures no_memory { IfErr result (λ e. e ≡ Refused) }
    {
        let digest = toy_digest(key.bytes(), message);
        if key.algorithm() == "toy"
            && signature.algorithm() == "toy"
            && signature.bytes() == digest.as_slice()
        {
            Ok(())
        } else {
            Err(SignatureError::Refused)
        }
    }
}
