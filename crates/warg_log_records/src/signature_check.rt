//! What is to be verified.
use warg_crypto::signing::{PublicKey, Signature};

/// Whether the signature belongs to the message under the key is for a host to say.
#[derive(Debug, Drop)]
pub struct SignatureCheck {
    /// The key of the record's signer.
    pub key: PublicKey,
    /// What is signed: the prefix of the kind, a colon, the content bytes.
    pub message: Vec<u8>,
    /// The signature that the envelope bears.
    pub signature: Signature,
}
