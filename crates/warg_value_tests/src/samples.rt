//! A hash and a signer that the tests share.

use std::alloc::{AllocError, Global};
use warg_crypto::hash::{AnyHash, HashAlgorithm};
use warg_crypto::toy::ToySigner;

// The hash of no bytes.
pub(crate) fn empty_hash() -> AnyHash {
    HashAlgorithm::Sha256.digest(b"")
}

pub(crate) fn alice(alloc: Global) -> Result<ToySigner, AllocError> {
    ToySigner::new(alloc, b"alice")
}
