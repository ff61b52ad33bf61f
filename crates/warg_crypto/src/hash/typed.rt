//! Hashes whose type names their algorithm.

ghost use Rattle.std.specs.Prelude.{◌≡◌, ◌++◌, ℕ, List, [], Some};
ghost use Rattle.sha2.specs.Sha256.{sha256};
ghost use Rattle.sha2.specs.Hashers.{Holds256};
ghost use Rattle.warg_crypto.specs.HashText.{hash_text};
ghost use Rattle.warg_crypto.specs.declared.hash.HashAlgorithm.{HashAlgorithm};

use crate::hash::{AnyHash, HashAlgorithm};
use crate::visit::{ByteVisitor, VisitBytes};
use sha2::Digest;
use std::alloc::{AllocError, Global};
use std::fmt;
use std::marker::PhantomData;

/// A digest that hashes are made by: a function of the bytes of what is hashed.
pub trait SupportedDigest {
    ghost ALGORITHM: { HashAlgorithm };

    /// The algorithm.
    const ALGORITHM: HashAlgorithm;

    // The digest of the bytes seen.
    ghost digest_of: { List ℕ → List ℕ };

    /// The digest of the bytes of the content.
    fn digest<T: VisitBytes>(content: &T) -> [u8; 32]
        ensures { result ≡ digest_of (T.bytes_of content.now) };
}

/// A visitor that hashes what it sees, by SHA-256.
#[derive(Drop)]
pub struct Sha256Visitor {
    hasher: sha2::Sha256,
}

impl Sha256Visitor {
    /// A visitor that saw no bytes.
    pub fn new() -> Sha256Visitor
        ensures { Holds256 result.hasher [] }
    {
        Sha256Visitor {
            hasher: sha2::Sha256::new(),
        }
    }

    /// The digest of the bytes that the visitor saw.
    pub fn finalize(self) -> [u8; 32]
        ensures { (m : List ℕ) → Holds256 self.hasher m → result ≡ sha256 m }
    {
        self.hasher.finalize()
    }
}

impl fmt::Debug for Sha256Visitor {
    ghost use Rattle.std.specs.Prelude.{codes};

    ghost debug_output = { λ _. Some (codes "Sha256Visitor") };

    fn fmt<W: fmt::Write>(&self, f: &mut fmt::Formatter<W>) -> fmt::Result {
        f.write_str("Sha256Visitor")
    }
}

impl ByteVisitor for Sha256Visitor {
    ghost has_seen = { λ v m. Holds256 v.hasher m };

    ghost refuses = { λ _ _. ⊥ };

    fn visit_bytes(&mut self, bytes: &[u8]) -> Result<(), AllocError> {
        self.hasher.update(bytes);
        Ok(())
    }
}

/// SHA-256, by name.
#[derive(Clone, Copy, Debug, PartialEq, Eq, PartialOrd, Ord, Hash)]
pub struct Sha256;

impl SupportedDigest for Sha256 {
    ghost use Rattle.warg_crypto.specs.declared.hash.HashAlgorithm.TheVariants.{Sha256};

    ghost ALGORITHM = { Sha256 };

    const ALGORITHM: HashAlgorithm = HashAlgorithm::Sha256;

    ghost use Rattle.sha2.specs.Sha256.{sha256};

    ghost digest_of = { sha256 };

    fn digest<T: VisitBytes>(content: &T) -> [u8; 32] {
        let mut visitor = Sha256Visitor::new();
        content.visit(&mut visitor).unwrap();
        visitor.finalize()
    }
}

/// A hash by the digest `D`. Its text is that of the [`AnyHash`] that it is.
#[derive(Clone, Copy, PartialEq, Eq, PartialOrd, Ord, Hash)]
pub struct Hash<D> {
    bytes: [u8; 32],
    digest: PhantomData<D>,
}

impl<D: SupportedDigest> Hash<D> {
    /// The hash of the bytes of the content.
    pub fn of<T: VisitBytes>(content: &T) -> Hash<D>
        ensures { result.bytes ≡ D.digest_of (T.bytes_of content.now) }
    {
        Hash {
            bytes: D::digest(content),
            digest: PhantomData,
        }
    }

    // The hash, under the name of its algorithm.
    fn any(&self) -> AnyHash
        ensures { result ≡ record { algorithm = D.ALGORITHM; bytes = self.now.bytes } }
    {
        AnyHash::new(D::ALGORITHM, self.bytes)
    }
}

impl<D: SupportedDigest> fmt::Display for Hash<D> {
    ghost output = { λ h. Some (hash_text (record { algorithm = D.ALGORITHM; bytes = h.bytes })) };

    ghost styled_output = { λ h _. Some (hash_text (record { algorithm = D.ALGORITHM; bytes = h.bytes })) };

    fn fmt<W: fmt::Write>(&self, f: &mut fmt::Formatter<W>) -> fmt::Result {
        fmt::Display::fmt(&self.any(), f)
    }
}

impl<D: SupportedDigest> fmt::Debug for Hash<D> {
    ghost use Rattle.std.specs.Fmt.{WritesStyledOnOk};

    ghost debug_output = { λ h. Some (hash_text (record { algorithm = D.ALGORITHM; bytes = h.bytes })) };

    fn fmt<W: fmt::Write>(&self, f: &mut fmt::Formatter<W>) -> fmt::Result
        ensures styled { WritesStyledOnOk W.write_str_gives f.old result
            (hash_text (record { algorithm = D.ALGORITHM; bytes = self.now.bytes })) f.new }
    {
        fmt::Display::fmt(self, f)
    }
}

impl<D: SupportedDigest> From<Hash<D>> for AnyHash {
    ghost from_gives = { λ h r. (r.algorithm ≡ D.ALGORITHM) × (r.bytes ≡ h.bytes) };

    fn from(hash: Hash<D>) -> AnyHash {
        let Hash { bytes, digest: _ } = hash;
        AnyHash::new(D::ALGORITHM, bytes)
    }
}
