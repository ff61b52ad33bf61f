//! A host's verdict on a signature.
ghost use Rattle.std.specs.Prelude.{◌≡◌, ◌&&◌};
ghost use Rattle.warg_replay.specs.Telling.{verdict_belongs};

use std::alloc::Global;
use warg_crypto::signing::{PublicKey, Signature, SignatureError, Verifier};
use warg_log_records::SignatureCheck;

/// What a host said to a question: whether the signature belongs to the message under the key.
#[derive(Debug, Drop)]
pub struct SignatureVerdict {
    /// What was asked.
    pub question: SignatureCheck,
    /// What the host said.
    pub belongs: bool,
}

/// It takes the one signature that was asked about, if the host said that it belongs.
impl Verifier for SignatureVerdict {
    ghost belongs = { verdict_belongs };

    fn verify(
        &self,
        _alloc: Global,
        key: &PublicKey,
        message: &[u8],
        signature: &Signature,
    ) -> Result<(), SignatureError> {
        let question = &self.question;
        if self.belongs
            && question.key == *key
            && question.message.as_slice() == message
            && question.signature == *signature
        {
            Ok(())
        } else {
            Err(SignatureError::Refused)
        }
    }
}
