//! The ids of records.

ghost use Rattle.std.specs.Prelude.{◌≡◌, ◌++◌, Some, length, ⊤};
ghost use Rattle.hex.specs.Hex.{IsBytes};
ghost use Rattle.warg_crypto.specs.HashText.{hash_text};
ghost use Rattle.warg_log_records.specs.RecordHashes.{operator_record_message, package_record_message};
ghost use Rattle.warg_log_records.specs.RecordIds.{id_by, id_of_text};

mod json;

use crate::operator::OperatorRecord;
use crate::package::PackageRecord;
use std::alloc::AllocError;
use std::fmt;
use std::str::FromStr;
use warg_crypto::hash::{AnyHash, AnyHashError, Hash, HashAlgorithm, SupportedDigest};
use warg_envelope::ProtoEnvelope;

/// The id of a record: the hash of a prefix that names the kind of log, and of the record's bytes
/// as they came. Its text is its hash's, `sha256:` and 64 hex digits, and it is read from one. Ids are ordered as their
/// hashes, by algorithm, then by bytes.
#[derive(Copy, PartialEq, Eq, PartialOrd, Ord, Hash)]
pub struct RecordId {
    hash: AnyHash,
}

impl Clone for RecordId {
    ghost is_clone = { λ a b. b ≡ a };

    ghost is_infallible = { λ _. ⊤ };

    fn clone(&self) -> Result<RecordId, AllocError> {
        Ok(*self)
    }
}

impl RecordId {
    /// The algorithm of the hash.
    pub fn algorithm(&self) -> HashAlgorithm
        ensures { result ≡ self.now.hash.algorithm }
    {
        self.hash.algorithm()
    }

    /// The bytes of the hash.
    pub fn as_bytes(&self) -> &[u8]
        ensures value { result.now ≡ self.now.hash.bytes }
        ensures len { length result.now ≡ 32 }
        ensures are_bytes { IsBytes self.now.hash.bytes }
    {
        self.hash.bytes()
    }
}

// The id of the record with these content bytes, in a log of the kind that the prefix names.
fn hashed_id<D: SupportedDigest>(prefix: &[u8], content: &[u8]) -> RecordId
    ensures { result ≡ id_by D.ALGORITHM D.digest_of (prefix.now ++ content.now) }
{
    let hash: Hash<D> = Hash::of(&(prefix, content));
    RecordId {
        hash: AnyHash::from(hash),
    }
}

impl RecordId {
    /// The id of an operator record: the hash of `WARG-OPERATOR-LOG-RECORD-V0:` and the content bytes as they came.
    pub fn operator_record<D: SupportedDigest>(envelope: &ProtoEnvelope<OperatorRecord>) -> RecordId
        ensures { result ≡ id_by D.ALGORITHM D.digest_of
            (operator_record_message envelope.now.envelope.content) }
    {
        RecordId::of_operator_content::<D>(envelope.content_bytes())
    }

    /// The id of a package record: the hash of `WARG-PACKAGE-LOG-RECORD-V0:` and the content bytes as they came.
    pub fn package_record<D: SupportedDigest>(envelope: &ProtoEnvelope<PackageRecord>) -> RecordId
        ensures { result ≡ id_by D.ALGORITHM D.digest_of
            (package_record_message envelope.now.envelope.content) }
    {
        RecordId::of_package_content::<D>(envelope.content_bytes())
    }

    /// The id of an operator record, from its content bytes alone.
    pub fn of_operator_content<D: SupportedDigest>(content: &[u8]) -> RecordId
        ensures { result ≡ id_by D.ALGORITHM D.digest_of (operator_record_message content.now) }
    {
        hashed_id::<D>(b"WARG-OPERATOR-LOG-RECORD-V0:".as_slice(), content)
    }

    /// The id of a package record, from its content bytes alone.
    pub fn of_package_content<D: SupportedDigest>(content: &[u8]) -> RecordId
        ensures { result ≡ id_by D.ALGORITHM D.digest_of (package_record_message content.now) }
    {
        hashed_id::<D>(b"WARG-PACKAGE-LOG-RECORD-V0:".as_slice(), content)
    }
}

impl fmt::Display for RecordId {
    ghost output = { λ id. Some (hash_text id.hash) };

    ghost styled_output = { λ id _. Some (hash_text id.hash) };

    fn fmt<W: fmt::Write>(&self, f: &mut fmt::Formatter<W>) -> fmt::Result {
        fmt::Display::fmt(&self.hash, f)
    }
}

impl fmt::Debug for RecordId {
    ghost use Rattle.std.specs.Fmt.{WritesStyledOnOk};

    ghost debug_output = { λ id. Some (hash_text id.hash) };

    fn fmt<W: fmt::Write>(&self, f: &mut fmt::Formatter<W>) -> fmt::Result
        ensures styled { WritesStyledOnOk W.write_str_gives f.old result
            (hash_text self.now.hash) f.new }
    {
        fmt::Display::fmt(self, f)
    }
}

impl FromStr for RecordId {
    type Err = AnyHashError;

    ghost from_str_gives = { λ text r. r ≡ id_of_text text };

    fn from_str(text: &str) -> Result<RecordId, AnyHashError> {
        let hash = AnyHash::from_str(text)?;
        Ok(RecordId { hash })
    }
}

impl From<AnyHash> for RecordId {
    ghost from_gives = { λ h id. id ≡ record { hash = h } };

    fn from(hash: AnyHash) -> RecordId {
        RecordId { hash }
    }
}

impl From<RecordId> for AnyHash {
    ghost from_gives = { λ id h. h ≡ id.hash };

    fn from(id: RecordId) -> AnyHash {
        id.hash
    }
}
