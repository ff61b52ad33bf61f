//! What the words of a row say: hashes, leaves, logs and maps.

use conformance_rows::{RowError, Words};
use std::alloc::Global;
use warg_crypto::hash::AnyHash;
use warg_log_records::RecordId;
use warg_registry::{LogId, LogLeaf, MapLeaf};
use warg_transparency::{LogTree, MapTree};

/// The hash that the next word says.
pub(crate) fn next_hash(alloc: Global, words: &mut Words<'_>) -> Result<AnyHash, RowError> {
    Ok(words.next(alloc)?.as_str().parse::<AnyHash>()?)
}

/// The number that the next word says.
pub(crate) fn next_number(alloc: Global, words: &mut Words<'_>) -> Result<u64, RowError> {
    Ok(words.next(alloc)?.as_str().parse::<u64>()?)
}

/// The length of a log that the next word says.
pub(crate) fn next_length(alloc: Global, words: &mut Words<'_>) -> Result<usize, RowError> {
    Ok(words.next(alloc)?.as_str().parse::<usize>()?)
}

/// The id of a log that the next word says.
pub(crate) fn next_log_id(alloc: Global, words: &mut Words<'_>) -> Result<LogId, RowError> {
    Ok(LogId::from(next_hash(alloc, words)?))
}

/// The leaf of a log that the next two words say: the ids of the log and of the record.
pub(crate) fn next_leaf(alloc: Global, words: &mut Words<'_>) -> Result<LogLeaf, RowError> {
    Ok(LogLeaf {
        log_id: next_log_id(alloc, words)?,
        record_id: RecordId::from(next_hash(alloc, words)?),
    })
}

/// The log of the leaves that the words say.
pub(crate) fn log_of(alloc: Global, mut words: Words<'_>) -> Result<LogTree, RowError> {
    let mut log = LogTree::new(alloc);
    for _ in 0..u64::MAX {
        if words.is_empty() {
            break;
        }
        log.push(&next_leaf(alloc, &mut words)?)?;
    }
    Ok(log)
}

/// The map of the leaves that the words say, in that order.
pub(crate) fn map_of(alloc: Global, mut words: Words<'_>) -> Result<MapTree, RowError> {
    let mut map = MapTree::new(alloc)?;
    for _ in 0..u64::MAX {
        if words.is_empty() {
            break;
        }
        let leaf = next_leaf(alloc, &mut words)?;
        let record_id = leaf.record_id;
        let _ = map.insert(&leaf.log_id, &MapLeaf { record_id })?;
    }
    Ok(map)
}
