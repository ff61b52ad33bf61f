//! Known leaves and texts of proofs.

use std::alloc::{AllocError, Global};
use warg_crypto::hash::HashAlgorithm;
use warg_log_records::RecordId;
use warg_registry::{Checkpoint, LogId, LogLeaf, MapLeaf};
use warg_transparency::{LogTree, MapTree, OfTrees, RegistryTrees};

/// The proof that a log of 8 leaves goes on from its first 6.
pub const CONSISTENCY: &str =
    "wvE5Wb/Jqop3nsQ6f2wHydAFG6uJNOVcji8dnUA6//YLD7yQO/3GX1TnDyNdlyNl+BI5/0o0nLbP5Kt1TH2/cg371IIl6nKYXW5cNRhz0vRw+5C8x4IjFkOBx8eooRUN";

/// The proof of the leaf of the log 0 in the map of two logs.
pub const PRESENCE: &str =
    "//////////////////////////////////////////3A8d/zksmUM6URQFUFx4j90WyBlQhgSMcs1XArvTUtmA==";

/// The id of the log of that number.
pub fn log_id(number: u8) -> LogId {
    let name = [b'l', b'o', b'g', b' ', b'0' + number % 10];
    LogId::from(HashAlgorithm::Sha256.digest(name.as_slice()))
}

/// The id of the record of that number.
pub fn record_id(number: u8) -> RecordId {
    let name = [b'r', b'e', b'c', b'o', b'r', b'd', b' ', b'0' + number % 10];
    RecordId::from(HashAlgorithm::Sha256.digest(name.as_slice()))
}

/// The leaf at that place of the log of three logs' records.
pub fn leaf(place: u8) -> LogLeaf {
    LogLeaf {
        log_id: log_id(place % 3),
        record_id: record_id(place),
    }
}

/// The log of the first leaves.
pub fn log_of(alloc: Global, count: u8) -> Result<LogTree, AllocError> {
    let mut log = LogTree::new(alloc);
    for place in 0..count {
        log.push(&leaf(place))?;
    }
    Ok(log)
}

/// The trees of the first leaves.
pub fn trees_of(alloc: Global, count: u8) -> Result<RegistryTrees, AllocError> {
    let mut trees = RegistryTrees::new(alloc)?;
    for place in 0..count {
        trees.push(&leaf(place))?;
    }
    Ok(trees)
}

/// The map of the logs 0 and 1, whose heads are the records 6 and 7; of the first of them, or of none.
pub fn map_of(alloc: Global, count: u8) -> Result<MapTree, AllocError> {
    let mut map = MapTree::new(alloc)?;
    for number in 0..count {
        let _ = map.insert(&log_id(number), &head(number))?;
    }
    Ok(map)
}

/// The leaf of the log of that number.
pub fn head(number: u8) -> MapLeaf {
    MapLeaf {
        record_id: record_id(number.wrapping_add(6) % 10),
    }
}

/// The checkpoint of the first leaves, and of the map of two logs.
pub fn checkpoint(alloc: Global, count: u8) -> Result<Checkpoint, AllocError> {
    Ok(Checkpoint::of(&log_of(alloc, count)?, &map_of(alloc, 2)?))
}
