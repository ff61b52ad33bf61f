//! Copies: a clone of a value that owns no memory is the value, and takes no memory.

ghost use Rattle.std.specs.Prelude.{◌≡◌, Ok};

use crate::{Checkpoint, LogId, LogLeaf, MapLeaf, TimestampedCheckpoint};
use std::alloc::AllocError;

/// Ids of logs.
pub fn clone_log_id(id: &LogId) -> Result<LogId, AllocError>
    ensures { result ≡ Ok id.now }
{
    id.clone()
}

/// Leaves of the map.
pub fn clone_map_leaf(leaf: &MapLeaf) -> Result<MapLeaf, AllocError>
    ensures { result ≡ Ok leaf.now }
{
    leaf.clone()
}

/// Leaves of the log.
pub fn clone_log_leaf(leaf: &LogLeaf) -> Result<LogLeaf, AllocError>
    ensures { result ≡ Ok leaf.now }
{
    leaf.clone()
}

/// Checkpoints.
pub fn clone_checkpoint(checkpoint: &Checkpoint) -> Result<Checkpoint, AllocError>
    ensures { result ≡ Ok checkpoint.now }
{
    checkpoint.clone()
}

/// Checkpoints with their times.
pub fn clone_timestamped_checkpoint(
    checkpoint: &TimestampedCheckpoint,
) -> Result<TimestampedCheckpoint, AllocError>
    ensures { result ≡ Ok checkpoint.now }
{
    checkpoint.clone()
}
