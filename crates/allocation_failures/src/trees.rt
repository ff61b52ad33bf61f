//! Calls on a registry's log and map.

use crate::call_error::CallError;
use std::alloc::{AllocError, Global};
use warg_protocol::JsonValue;
use warg_protocol::hash::HashAlgorithm;
use warg_protocol::registry::{LogId, LogLeaf, MapLeaf, RecordId};
use warg_protocol::transparency::{
    LogProof, LogTree, MapProof, MapTree, RegistryTrees, SavedLeavesError,
};

// The leaf of a record of this name in one log.
fn leaf(record: &[u8]) -> LogLeaf {
    LogLeaf {
        log_id: LogId::from(HashAlgorithm::Sha256.digest(b"a log")),
        record_id: RecordId::from(HashAlgorithm::Sha256.digest(record)),
    }
}

// Pushes the leaf, or leaves the log as it was.
fn push(log: &mut LogTree, leaf: &LogLeaf) -> Result<(), CallError> {
    let root = log.root();
    match log.push(leaf) {
        Ok(()) => Ok(()),
        Err(error) if log.root() == root => Err(CallError::from(error)),
        Err(_) => Err(CallError::new("another log")),
    }
}

// The proof's JSON, which reads back as the proof's text.
fn log_proof(alloc: Global, proof: Option<LogProof>) -> Result<String, CallError> {
    let Some(proof) = proof else {
        return Err(CallError::new("no proof"));
    };
    let json = proof.to_value(alloc)?;
    Ok(LogProof::from_value(alloc, &json)?.to_text(alloc)?)
}

/// The proof that the log of three records goes on from its first two leaves.
pub(crate) fn consistency(alloc: Global) -> Result<String, CallError> {
    let mut log = LogTree::new(alloc);
    for record in [b"1", b"2", b"3"] {
        push(&mut log, &leaf(record.as_slice()))?;
    }
    log_proof(alloc, log.consistency(2)?)
}

/// The proof of the head of a log in the map of one, as text. A refused insertion leaves the map as it was.
pub(crate) fn head(alloc: Global) -> Result<String, CallError> {
    let mut map = MapTree::new(alloc)?;
    let root = map.root();
    let LogLeaf { log_id, record_id } = leaf(b"1");
    match map.insert(&log_id, &MapLeaf { record_id }) {
        Ok(_) => {}
        Err(error) if map.root() == root && map.is_empty() => return Err(CallError::from(error)),
        Err(_) => return Err(CallError::new("another map")),
    }
    let json = map.proof(&log_id)?.to_value(alloc)?;
    Ok(MapProof::from_value(alloc, &json)?.to_text(alloc)?)
}

// The trees of the saved leaves.
fn resumed(alloc: Global, bytes: &[u8]) -> Result<RegistryTrees, CallError> {
    match RegistryTrees::from_bytes(alloc, bytes) {
        Ok(trees) => Ok(trees),
        Err(SavedLeavesError::OutOfMemory) => Err(CallError::from(AllocError)),
        Err(SavedLeavesError::BadLength) => Err(CallError::new("no leaves")),
    }
}

/// The proof that the trees of three records go on from their first two leaves, after they were saved and read back.
pub(crate) fn saved(alloc: Global) -> Result<String, CallError> {
    let mut leaves = Vec::new(alloc);
    for record in [b"1", b"2", b"3"] {
        leaves.push(leaf(record.as_slice()))?;
    }
    let bytes = RegistryTrees::of_leaves(alloc, leaves)?.to_bytes(alloc)?;
    log_proof(alloc, resumed(alloc, bytes.as_slice())?.consistency(2)?)
}
