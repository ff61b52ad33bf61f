//! The ids of logs.
ghost use Rattle.std.specs.Prelude.{◌≡◌, Some, length, ⊤};
ghost use Rattle.hex.specs.Hex.{IsBytes};
ghost use Rattle.warg_crypto.specs.HashText.{hash_text};
ghost use Rattle.warg_registry.specs.LogIds.{operator_log_message, package_log_message, id_of_text};

use crate::PackageName;
use std::alloc::AllocError;
use std::fmt;
use std::str::FromStr;
use warg_crypto::hash::{AnyHash, AnyHashError, Hash, SupportedDigest};
use warg_crypto::{ByteVisitor, VisitBytes};

/// The id of a log: the hash of a prefix that names the kind of log and, for a package's log, of
/// the name's prefix encoding. Its text is its hash's, `sha256:` and 64 hex digits, and it is read from one. Ids are ordered
/// as their hashes, by algorithm, then by bytes.
#[derive(Copy, PartialEq, Eq, PartialOrd, Ord, Hash)]
pub struct LogId {
    pub(super) hash: AnyHash,
}

impl Clone for LogId {
    ghost is_clone = { λ a b. b ≡ a };

    ghost is_infallible = { λ _. ⊤ };

    fn clone(&self) -> Result<LogId, AllocError> {
        Ok(*self)
    }
}

impl LogId {
    /// The id of the operator log.
    pub fn operator_log<D: SupportedDigest>() -> LogId
        ensures algorithm { result.hash.algorithm ≡ D.ALGORITHM }
        ensures bytes { result.hash.bytes ≡ D.digest_of operator_log_message }
    {
        let prefix: &[u8] = b"WARG-OPERATOR-LOG-ID-V0";
        LogId {
            hash: AnyHash::from(Hash::<D>::of(&prefix)),
        }
    }

    /// The id of the package's log.
    pub fn package_log<D: SupportedDigest>(name: &PackageName) -> LogId
        ensures algorithm { result.hash.algorithm ≡ D.ALGORITHM }
        ensures bytes { result.hash.bytes ≡ D.digest_of (package_log_message name.now) }
    {
        let prefix: &[u8] = b"WARG-PACKAGE-LOG-ID-V0:";
        LogId {
            hash: AnyHash::from(Hash::<D>::of(&(prefix, name))),
        }
    }

    /// The bytes of the hash.
    pub fn as_bytes(&self) -> &[u8]
        ensures value { result.now ≡ self.now.hash.bytes }
        ensures len { length result.now ≡ 32 }
        ensures are_bytes { IsBytes self.now.hash.bytes }
    {
        self.hash.bytes()
    }
}

impl fmt::Display for LogId {
    ghost output = { λ id. Some (hash_text id.hash) };

    ghost styled_output = { λ id _. Some (hash_text id.hash) };

    fn fmt<W: fmt::Write>(&self, f: &mut fmt::Formatter<W>) -> fmt::Result {
        fmt::Display::fmt(&self.hash, f)
    }
}

impl fmt::Debug for LogId {
    ghost use Rattle.std.specs.Fmt.{WritesStyledOnOk};

    ghost debug_output = { λ id. Some (hash_text id.hash) };

    fn fmt<W: fmt::Write>(&self, f: &mut fmt::Formatter<W>) -> fmt::Result
        ensures styled { WritesStyledOnOk W.write_str_gives f.old result
            (hash_text self.now.hash) f.new }
    {
        fmt::Display::fmt(self, f)
    }
}

impl VisitBytes for LogId {
    ghost bytes_of = { λ id. id.hash.bytes };

    fn visit<BV: ByteVisitor>(&self, visitor: &mut BV) -> Result<(), AllocError> {
        visitor.visit_bytes(self.hash.bytes())
    }
}

impl FromStr for LogId {
    type Err = AnyHashError;

    ghost from_str_gives = { λ text r. r ≡ id_of_text text };

    fn from_str(text: &str) -> Result<LogId, AnyHashError> {
        let hash = AnyHash::from_str(text)?;
        Ok(LogId { hash })
    }
}

impl From<AnyHash> for LogId {
    ghost from_gives = { λ h id. id ≡ record { hash = h } };

    fn from(hash: AnyHash) -> LogId {
        LogId { hash }
    }
}

impl From<LogId> for AnyHash {
    ghost from_gives = { λ id h. h ≡ id.hash };

    fn from(id: LogId) -> AnyHash {
        id.hash
    }
}
