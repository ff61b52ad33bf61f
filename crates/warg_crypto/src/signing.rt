//! Keys, signatures, and what signs and verifies.

ghost use Rattle.std.specs.Prelude.{◌≡◌, ℕ, Bool, List, IfOk, false, true};
ghost use Rattle.warg_crypto.specs.NamedBytes.{NamedBytes};
ghost use Rattle.warg_crypto.specs.Signed.{signed_message};
ghost use Rattle.warg_crypto.specs.declared.signing.error.SignatureError.TheVariants.{Refused};

mod algorithm_bytes;
mod error;
mod key;
mod signed;

use crate::coding::Encode;
pub use algorithm_bytes::is_algorithm_name;
pub use error::{KeyParseError, SignatureError, SignatureParseError};
pub use key::{KeyID, PublicKey};
pub use signed::Signature;
use std::alloc::{AllocError, Global};

/// Says whether a signature belongs to a message under a key.
///
/// The least impl says when one does, and tests it. Here a scheme whose signature is the message
/// again ([`ToyVerifier`](crate::toy::ToyVerifier) is another):
///
/// ```
/// ghost use Rattle.std.specs.Str.{bytes_eq};
///
/// struct EchoVerifier;
///
/// impl Verifier for EchoVerifier {
///     ghost belongs = { λ _ key message signature. bytes_eq signature.bytes message };
///
///     fn verify(
///         &self,
///         _alloc: Global,
///         _key: &PublicKey,
///         message: &[u8],
///         signature: &Signature,
///     ) -> Result<(), SignatureError> {
///         if signature.bytes() == message {
///             Ok(())
///         } else {
///             Err(SignatureError::Refused)
///         }
///     }
/// }
/// ```
///
/// A clause of a function with a parameter `verifier: &V`, where `V: Verifier`, names the relation
/// as `V.belongs`; a key and a signature are seen as their `name` and `bytes`:
///
/// ```
/// ensures { IfOk result (λ _. V.belongs verifier.now key.now message.now signature.now ≡ true) }
/// ```
pub trait Verifier {
    // The signature belongs to the message under the key: key, message, signature.
    ghost belongs: { Self → NamedBytes → List ℕ → NamedBytes → Bool };

    /// `Ok` exactly where the signature belongs to the message under the key, else `Refused`.
    fn verify(
        &self,
        alloc: Global,
        key: &PublicKey,
        message: &[u8],
        signature: &Signature,
    ) -> Result<(), SignatureError>
        ensures ok { IfOk result (λ _. belongs self.now key.now message.now signature.now ≡ true) }
        ensures refused { result ≡ Err Refused →
            belongs self.now key.now message.now signature.now ≡ false };
}

/// Signs messages by one key.
///
/// The least impl says which key that is, which signatures it gives for a message, and which
/// messages it refuses, here none:
///
/// ```
/// #[derive(Drop)]
/// struct EchoSigner {
///     key: PublicKey,
/// }
///
/// impl Signer for EchoSigner {
///     ghost key_of = { λ signer. signer.key };
///
///     ghost gives = { λ _ message signature. signature.bytes ≡ message };
///
///     ghost refuses = { λ _ _. ⊥ };
///
///     fn public_key(&self) -> &PublicKey {
///         &self.key
///     }
///
///     fn sign(&self, alloc: Global, message: &[u8]) -> Result<Signature, SignatureError> {
///         let name = String::from_str(alloc, "echo")?;
///         Ok(Signature::new(name, Vec::from_slice(alloc, message)?))
///     }
/// }
/// ```
///
/// A clause of a function with a parameter `signer: &S`, where `S: Signer`, names them as `S.key_of`,
/// `S.gives` and `S.refuses`:
///
/// ```
/// ensures { IfOk result (λ signature. S.gives signer.now message.now signature) }
/// ```
pub trait Signer {
    // The key that verifies what the signer gives.
    ghost key_of: { Self → NamedBytes };

    // The signature is one that the signer gives for the message.
    ghost gives: { Self → List ℕ → NamedBytes → Type 0 };

    // The signer does not sign the message.
    ghost refuses: { Self → List ℕ → Type 0 };

    /// The key that verifies what is signed here.
    fn public_key(&self) -> &PublicKey
        ensures { result.now ≡ key_of self.now };

    /// A signature of the message.
    fn sign(&self, alloc: Global, message: &[u8]) -> Result<Signature, SignatureError>
        ensures ok { IfOk result (λ s. gives self.now message.now s) }
        ensures refused { result ≡ Err Refused → refuses self.now message.now };
}

/// What is signed of a value: the prefix of its kind, a colon, the value's bytes.
pub fn signed_message(alloc: Global, prefix: &str, content: &[u8]) -> Result<Vec<u8>, AllocError>
    ensures { IfOk result (λ v. v.items ≡ signed_message prefix.now content.now) }
{
    let length = prefix.len().saturating_add(1).saturating_add(content.len());
    let mut message = Vec::with_capacity(alloc, length)?;
    message.extend_from_slice(prefix.as_bytes())?;
    message.push(b':')?;
    message.extend_from_slice(content)?;
    Ok(message)
}

/// A value that is signed under a prefix of its kind: the message is the prefix, a colon, and the
/// value's bytes.
pub trait Signable: Encode {
    /// The prefix of the signed messages of this kind.
    const PREFIX: &'static str;

    // The bytes of `PREFIX`.
    ghost signed_prefix: { List ℕ };

    /// `PREFIX`, for generic code.
    fn signing_prefix() -> &'static str
        ensures { result.now ≡ signed_prefix };

    /// The signer's signature of the value.
    fn sign<S: Signer>(&self, alloc: Global, signer: &S) -> Result<Signature, SignatureError>
        ensures ok { IfOk result (λ s. S.gives signer.now
            (signed_message signed_prefix (Self.encoding self.now)) s) }
        ensures refused { result ≡ Err Refused → S.refuses signer.now
            (signed_message signed_prefix (Self.encoding self.now)) }
    {
        let content = self.encode(alloc)?;
        let message = signed_message(alloc, Self::signing_prefix(), content.as_slice())?;
        signer.sign(alloc, message.as_slice())
    }

    /// `Ok` exactly where the signature belongs, under the key, to the message of a value of this
    /// kind with these bytes, else `Refused`.
    fn verify<V: Verifier>(
        alloc: Global,
        verifier: &V,
        key: &PublicKey,
        content: &[u8],
        signature: &Signature,
    ) -> Result<(), SignatureError>
        ensures ok { IfOk result (λ _. V.belongs verifier.now key.now
            (signed_message signed_prefix content.now) signature.now ≡ true) }
        ensures refused { result ≡ Err Refused → V.belongs verifier.now key.now
            (signed_message signed_prefix content.now) signature.now ≡ false }
    {
        let message = signed_message(alloc, Self::signing_prefix(), content)?;
        verifier.verify(alloc, key, message.as_slice(), signature)
    }
}
