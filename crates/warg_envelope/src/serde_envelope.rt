//! Envelopes that keep no bytes of their contents.

ghost use Rattle.std.specs.Prelude.{◌≡◌, IfOk, Err};
ghost use Rattle.warg_crypto.specs.Signed.{signed_message};
ghost use Rattle.warg_crypto.specs.NamedBytes.{fingerprint_of};
ghost use Rattle.warg_crypto.specs.declared.signing.error.SignatureError.TheVariants.{Refused};

mod json;

use std::alloc::{AllocError, Global};
use warg_crypto::Signable;
use warg_crypto::signing::{KeyID, Signature, SignatureError, Signer};

/// Contents, who signed them, and the signature.
#[derive(Debug, Drop, PartialEq, Eq)]
pub struct SerdeEnvelope<C> {
    contents: C,
    key_id: KeyID,
    signature: Signature,
}

impl<C> SerdeEnvelope<C> {
    /// The envelope of these parts. Nothing is verified.
    pub fn from_parts_unchecked(
        contents: C,
        key_id: KeyID,
        signature: Signature,
    ) -> SerdeEnvelope<C>
        ensures { result ≡ record { contents = contents; key_id = key_id; signature = signature } }
    {
        SerdeEnvelope {
            contents,
            key_id,
            signature,
        }
    }

    /// The contents.
    pub fn contents(&self) -> &C
        ensures { result.now ≡ self.now.contents }
    {
        &self.contents
    }

    /// The id of the key that is said to have signed.
    pub fn key_id(&self) -> &KeyID
        ensures { result.now ≡ self.now.key_id }
    {
        &self.key_id
    }

    /// The signature, which nothing here verifies.
    pub fn signature(&self) -> &Signature
        ensures { result.now ≡ self.now.signature }
    {
        &self.signature
    }

    /// The contents alone.
    pub fn into_contents(self) -> C
        ensures { result ≡ self.contents }
    {
        let SerdeEnvelope {
            contents,
            key_id: _,
            signature: _,
        } = self;
        contents
    }
}

impl<C: Clone> SerdeEnvelope<C> {
    /// A copy.
    pub fn try_clone(&self) -> Result<SerdeEnvelope<C>, AllocError>
        ensures contents { IfOk result (λ e. C.is_clone self.now.contents e.contents) }
        ensures key_id { IfOk result (λ e. e.key_id ≡ self.now.key_id) }
        ensures signature { IfOk result (λ e. e.signature ≡ self.now.signature) }
    {
        Ok(SerdeEnvelope {
            contents: self.contents.clone()?,
            key_id: self.key_id.clone()?,
            signature: self.signature.clone()?,
        })
    }
}

impl<C: Clone> Clone for SerdeEnvelope<C> {
    ghost is_clone = { λ a b. C.is_clone a.contents b.contents × (b.key_id ≡ a.key_id) × (b.signature ≡ a.signature) };

    fn clone(&self) -> Result<SerdeEnvelope<C>, AllocError> {
        self.try_clone()
    }
}

impl<C: Signable + Drop> SerdeEnvelope<C> {
    /// The contents under the signer's signature. `Refused` only where the signer refuses the message.
    pub fn signed_contents<S: Signer>(
        alloc: Global,
        signer: &S,
        contents: C,
    ) -> Result<SerdeEnvelope<C>, SignatureError>
        ensures contents { IfOk result (λ e. e.contents ≡ contents) }
        ensures key_id { IfOk result (λ e. e.key_id ≡ fingerprint_of (S.key_of signer.now)) }
        ensures signature { IfOk result (λ e. S.gives signer.now
            (signed_message C.signed_prefix (C.encoding contents)) e.signature) }
        ensures refused { result ≡ Err Refused → S.refuses signer.now
            (signed_message C.signed_prefix (C.encoding contents)) }
    {
        let key_id = signer.public_key().fingerprint(alloc)?;
        let signature = contents.sign(alloc, signer)?;
        Ok(SerdeEnvelope {
            contents,
            key_id,
            signature,
        })
    }
}
