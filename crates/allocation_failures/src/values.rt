//! Calls on a record, and the JSON of values.

use crate::call_error::CallError;
use std::alloc::Global;
use warg_protocol::hash::{AnyHash, HashAlgorithm, Sha256};
use warg_protocol::package::{PackageEntry, PackageRecord};
use warg_protocol::registry::{
    Checkpoint, LogId, LogLeaf, PackageName, RecordId, TimestampedCheckpoint,
};
use warg_protocol::signing::Signer;
use warg_protocol::toy::ToySigner;
use warg_protocol::{JsonValue, ProtoEnvelope, Timestamp};

// The record at 1.0 with an init of alice's key.
fn record(alloc: Global, alice: &ToySigner) -> Result<PackageRecord, CallError> {
    let key = alice.public_key().try_clone()?;
    let init = PackageEntry::Init {
        hash_algorithm: HashAlgorithm::Sha256,
        key,
    };
    Ok(PackageRecord {
        prev: None,
        version: 0,
        timestamp: Timestamp::new(1, 0),
        entries: vec![in alloc; init]?,
    })
}

fn signed(alloc: Global) -> Result<ProtoEnvelope<PackageRecord>, CallError> {
    let alice = ToySigner::new(alloc, b"alice")?;
    let record = record(alloc, &alice)?;
    Ok(ProtoEnvelope::signed_contents(alloc, &alice, record)?)
}

/// `signed_contents`: the record's id.
pub(crate) fn signed_contents(alloc: Global) -> Result<String, CallError> {
    let id = RecordId::package_record::<Sha256>(&signed(alloc)?);
    Ok(id.to_string(alloc)?)
}

/// `to_protobuf`: the hash of the envelope's bytes.
pub(crate) fn to_protobuf(alloc: Global) -> Result<String, CallError> {
    let bytes = signed(alloc)?.to_protobuf(alloc)?;
    let hash = HashAlgorithm::Sha256.digest(bytes.as_slice());
    Ok(hash.to_string(alloc)?)
}

// The JSON of the value, which reads back as it.
pub(crate) fn written<T: JsonValue + Drop>(alloc: Global, value: &T) -> Result<String, CallError> {
    let json = value.to_value(alloc)?;
    if T::from_value(alloc, &json)? != *value {
        return Err(CallError::new("reads back as another value"));
    }
    Ok(json.to_string(alloc)?)
}

fn hash() -> AnyHash {
    HashAlgorithm::Sha256.digest(b"")
}

/// The JSON of a record id.
pub(crate) fn record_id(alloc: Global) -> Result<String, CallError> {
    written(alloc, &RecordId::from(hash()))
}

/// The JSON of a key.
pub(crate) fn key(alloc: Global) -> Result<String, CallError> {
    let alice = ToySigner::new(alloc, b"alice")?;
    written(alloc, alice.public_key())
}

/// The JSON of a key id.
pub(crate) fn key_id(alloc: Global) -> Result<String, CallError> {
    let alice = ToySigner::new(alloc, b"alice")?;
    written(alloc, &alice.public_key().fingerprint(alloc)?)
}

/// The JSON of a package name.
pub(crate) fn package_name(alloc: Global) -> Result<String, CallError> {
    written(alloc, &PackageName::new(alloc, "foo:bar")?)
}

/// The JSON of a timestamped checkpoint.
pub(crate) fn checkpoint(alloc: Global) -> Result<String, CallError> {
    let checkpoint = Checkpoint {
        log_root: hash(),
        log_length: 300,
        map_root: hash(),
    };
    written(
        alloc,
        &TimestampedCheckpoint {
            checkpoint,
            timestamp: 1,
        },
    )
}

/// The JSON of a leaf of a log.
pub(crate) fn leaf(alloc: Global) -> Result<String, CallError> {
    let leaf = LogLeaf {
        log_id: LogId::from(hash()),
        record_id: RecordId::from(hash()),
    };
    written(alloc, &leaf)
}
