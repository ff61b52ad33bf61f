//! The verifier that reads the point of a key once.

ghost use Rattle.std.specs.Prelude.{◌≡◌, Err, IfErr, IfOk, IfSome, false, true};
ghost use Rattle.warg_crypto.specs.declared.signing.error.SignatureError.TheVariants.{Refused};
ghost use Rattle.warg_p256.specs.Elements.{number};
ghost use Rattle.warg_p256.specs.Scheme.{p256_belongs};
ghost use Rattle.warg_p256.specs.Verified.{is_key, is_verified};

use crate::point::Affine;
use crate::sec1;
use crate::signature::verify_by;
use crate::verifier::ALGORITHM;
use std::alloc::{AllocError, Global};
use std::cell::RefCell;
use warg_crypto::signing::{PublicKey, Signature, SignatureError, Verifier};

/// How many keys are kept.
const MOST_KEYS: usize = 32;

// A key's bytes, and its point.
#[derive(Drop)]
struct KnownKey {
    bytes: Vec<u8>,
    point: Affine,
    ghost is_read: { is_key bytes.items (number point.x.words) (number point.y.words) ≡ true },
}

/// Verifies as [`P256Verifier`](crate::P256Verifier) does, and keeps the points of the keys that a
/// signature was verified with, 32 at most. So the keys of a log are read once, and no stranger's
/// key is kept that has signed nothing. Where there is no memory to keep a point, it is read again.
#[derive(Drop)]
pub struct KnownKeys {
    alloc: Global,
    keys: RefCell<Vec<KnownKey>>,
}

impl KnownKeys {
    /// A verifier that knows no key yet.
    pub fn new(alloc: Global) -> KnownKeys {
        KnownKeys {
            alloc,
            keys: RefCell::new(Vec::new(alloc)),
        }
    }

    // The point of a key that is kept.
    fn point_of(&self, bytes: &[u8]) -> Option<Affine>
        ensures { IfSome result
            (λ p. is_key bytes.now (number p.x.words) (number p.y.words) ≡ true) }
    {
        let Ok(keys) = self.keys.try_borrow() else {
            return None;
        };
        find(keys.as_slice(), bytes)
    }

    // Keeps a key, if there is room.
    fn keep(&self, bytes: &[u8], point: Affine) -> Result<(), AllocError>
        requires { is_key bytes.now (number point.x.words) (number point.y.words) ≡ true }
    {
        let Ok(mut keys) = self.keys.try_borrow_mut() else {
            return Ok(());
        };
        if keys.len() < MOST_KEYS {
            let bytes = Vec::from_slice(self.alloc, bytes)?;
            keys.push(KnownKey { bytes, point })?;
        }
        Ok(())
    }

    // Whether the signature is one of the message by a key that is not kept.
    fn are_verified_anew(&self, key: &[u8], message: &[u8], signature: &[u8]) -> bool
        ensures { result ≡ is_verified key.now message.now signature.now }
    {
        let Some(point) = sec1::parse(key) else {
            return false;
        };
        if !verify_by(point, message, signature) {
            return false;
        }
        let _ = self.keep(key, point);
        true
    }

    // Whether the signature is one of the message by the key.
    fn are_verified(&self, key: &[u8], message: &[u8], signature: &[u8]) -> bool
        ensures { result ≡ is_verified key.now message.now signature.now }
    {
        match self.point_of(key) {
            Some(point) => verify_by(point, message, signature),
            None => self.are_verified_anew(key, message, signature),
        }
    }
}

// The point of a key among those that are kept.
fn find(keys: &[KnownKey], bytes: &[u8]) -> Option<Affine>
    ensures { IfSome result
        (λ p. is_key bytes.now (number p.x.words) (number p.y.words) ≡ true) }
{
    for key in keys {
        if key.bytes.as_slice() == bytes {
            return Some(key.point);
        }
    }
    None
}

impl Verifier for KnownKeys {
    ghost belongs = { λ _ key message signature. p256_belongs key message signature };

    /// `Ok` exactly where the signature belongs to the message under the key, else `Refused`.
    fn verify(
        &self,
        _alloc: Global,
        key: &PublicKey,
        message: &[u8],
        signature: &Signature,
    ) -> Result<(), SignatureError>
        ensures ok { IfOk result (λ _. p256_belongs key.now message.now signature.now ≡ true) }
        ensures refused { result ≡ Err Refused →
            p256_belongs key.now message.now signature.now ≡ false }
        ensures memory { IfErr result (λ e. e ≡ Refused) }
    {
        if key.algorithm() == ALGORITHM
            && signature.algorithm() == ALGORITHM
            && self.are_verified(key.bytes(), message, signature.bytes())
        {
            Ok(())
        } else {
            Err(SignatureError::Refused)
        }
    }
}
