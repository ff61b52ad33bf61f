//! Ids of logs, and checkpoints at times.

use crate::encoding::answer_bytes;
use crate::from_words::{FromWords, answer_of, value_of};
use conformance_rows::{Answer, RowError, Words};
use std::alloc::Global;
use warg_crypto::Encode;
use warg_crypto::hash::Sha256;
use warg_crypto::time::Timestamp;
use warg_registry::{Checkpoint, LogId, PackageName, TimestampedCheckpoint};

/// `operator-log-id`: the id of the operator log.
pub(crate) fn operator_log_id(alloc: Global, words: Words<'_>) -> Result<Answer, RowError> {
    words.end()?;
    Answer::value(alloc, &LogId::operator_log::<Sha256>())
}

/// `package-log-id NAME`: the id of the package's log.
pub(crate) fn package_log_id(alloc: Global, words: Words<'_>) -> Result<Answer, RowError> {
    let name = value_of::<PackageName>(alloc, words)?;
    Answer::value(alloc, &LogId::package_log::<Sha256>(&name))
}

/// `checkpoint-at TIME CHECKPOINT`: the checkpoint at the time.
pub(crate) fn checkpoint_at(alloc: Global, mut words: Words<'_>) -> Result<Answer, RowError> {
    let time = Timestamp::from_words(alloc, &mut words)?;
    let checkpoint = value_of::<Checkpoint>(alloc, words)?;
    answer_of(alloc, TimestampedCheckpoint::new(checkpoint, time))
}

/// `encode-checkpoint CHECKPOINT`: the bytes of the timestamped checkpoint, as a message has them.
pub(crate) fn encode_checkpoint(alloc: Global, words: Words<'_>) -> Result<Answer, RowError> {
    let checkpoint = value_of::<TimestampedCheckpoint>(alloc, words)?;
    answer_bytes(alloc, checkpoint.encode(alloc)?.as_slice())
}
