//! Values as rows have them: in words.

use conformance_rows::{Answer, RowError, Words};
use std::alloc::Global;
use std::fmt::Debug;
use warg_crypto::hash::{AnyHash, HashAlgorithm};
use warg_crypto::signing::{KeyID, PublicKey, Signature};
use warg_crypto::time::Timestamp;
use warg_log_records::{RecordId, operator, package};
use warg_registry::{Checkpoint, LogId, LogLeaf, MapLeaf, PackageName, TimestampedCheckpoint};

/// A kind of value that stands in rows as words.
pub(crate) trait FromWords: Drop {
    /// The value that the next words say.
    fn from_words(alloc: Global, words: &mut Words<'_>) -> Result<Self, RowError>;

    /// The words of the value.
    fn to_words(&self, alloc: Global) -> Result<String, RowError>;
}

/// The value that the words say, none of which may be left.
pub(crate) fn value_of<T: FromWords>(alloc: Global, mut words: Words<'_>) -> Result<T, RowError> {
    let value = T::from_words(alloc, &mut words)?;
    words.end()?;
    Ok(value)
}

/// The value's words, or the fault.
pub(crate) fn answer_of<T: FromWords, E: Debug + Drop>(
    alloc: Global,
    outcome: Result<T, E>,
) -> Result<Answer, RowError> {
    match outcome {
        Ok(value) => Answer::value(alloc, &value.to_words(alloc)?),
        Err(fault) => Answer::cases(alloc, &fault),
    }
}

/// `ok`, or the fault.
pub(crate) fn ok_or_fault<E: Debug + Drop>(
    alloc: Global,
    outcome: Result<(), E>,
) -> Result<Answer, RowError> {
    match outcome {
        Ok(()) => Answer::value(alloc, &"ok"),
        Err(fault) => Answer::cases(alloc, &fault),
    }
}

/// The answer where there is no such kind of value.
pub(crate) fn no_such_kind() -> Result<Answer, RowError> {
    Err(RowError::new("an unknown kind of value"))
}

impl FromWords for u32 {
    fn from_words(alloc: Global, words: &mut Words<'_>) -> Result<u32, RowError> {
        Ok(words.next(alloc)?.as_str().parse::<u32>()?)
    }

    fn to_words(&self, alloc: Global) -> Result<String, RowError> {
        Ok(self.to_string(alloc)?)
    }
}

impl FromWords for u64 {
    fn from_words(alloc: Global, words: &mut Words<'_>) -> Result<u64, RowError> {
        Ok(words.next(alloc)?.as_str().parse::<u64>()?)
    }

    fn to_words(&self, alloc: Global) -> Result<String, RowError> {
        Ok(self.to_string(alloc)?)
    }
}

impl FromWords for usize {
    fn from_words(alloc: Global, words: &mut Words<'_>) -> Result<usize, RowError> {
        Ok(words.next(alloc)?.as_str().parse::<usize>()?)
    }

    fn to_words(&self, alloc: Global) -> Result<String, RowError> {
        Ok(self.to_string(alloc)?)
    }
}

impl FromWords for HashAlgorithm {
    fn from_words(alloc: Global, words: &mut Words<'_>) -> Result<HashAlgorithm, RowError> {
        Ok(words.next(alloc)?.as_str().parse::<HashAlgorithm>()?)
    }

    fn to_words(&self, alloc: Global) -> Result<String, RowError> {
        Ok(String::from_str(alloc, self.as_str())?)
    }
}

impl FromWords for AnyHash {
    fn from_words(alloc: Global, words: &mut Words<'_>) -> Result<AnyHash, RowError> {
        Ok(words.next(alloc)?.as_str().parse::<AnyHash>()?)
    }

    fn to_words(&self, alloc: Global) -> Result<String, RowError> {
        Ok(self.to_text(alloc)?)
    }
}

impl FromWords for KeyID {
    fn from_words(alloc: Global, words: &mut Words<'_>) -> Result<KeyID, RowError> {
        Ok(KeyID::from(words.next(alloc)?))
    }

    fn to_words(&self, alloc: Global) -> Result<String, RowError> {
        Ok(String::from_str(alloc, self.as_str())?)
    }
}

impl FromWords for PublicKey {
    fn from_words(alloc: Global, words: &mut Words<'_>) -> Result<PublicKey, RowError> {
        Ok(PublicKey::parse(alloc, words.next(alloc)?.as_str())?)
    }

    fn to_words(&self, alloc: Global) -> Result<String, RowError> {
        Ok(self.to_text(alloc)?)
    }
}

impl FromWords for Signature {
    fn from_words(alloc: Global, words: &mut Words<'_>) -> Result<Signature, RowError> {
        Ok(Signature::parse(alloc, words.next(alloc)?.as_str())?)
    }

    fn to_words(&self, alloc: Global) -> Result<String, RowError> {
        Ok(self.to_text(alloc)?)
    }
}

// The seconds, and the nanoseconds of the second.
impl FromWords for Timestamp {
    fn from_words(alloc: Global, words: &mut Words<'_>) -> Result<Timestamp, RowError> {
        let seconds = words.next(alloc)?.as_str().parse::<i64>()?;
        let nanos = words.next(alloc)?.as_str().parse::<u32>()?;
        if nanos < 1_000_000_000 {
            Ok(Timestamp::new(seconds, nanos))
        } else {
            Err(RowError::new("nanoseconds of more than a second"))
        }
    }

    fn to_words(&self, alloc: Global) -> Result<String, RowError> {
        let (seconds, nanos) = (self.seconds(), self.nanos());
        Ok(format!(in alloc; "{seconds} {nanos}")?)
    }
}

impl FromWords for package::Permission {
    fn from_words(alloc: Global, words: &mut Words<'_>) -> Result<package::Permission, RowError> {
        Ok(words.next(alloc)?.as_str().parse::<package::Permission>()?)
    }

    fn to_words(&self, alloc: Global) -> Result<String, RowError> {
        Ok(self.to_string(alloc)?)
    }
}

impl FromWords for operator::Permission {
    fn from_words(alloc: Global, words: &mut Words<'_>) -> Result<operator::Permission, RowError> {
        Ok(words.next(alloc)?.as_str().parse::<operator::Permission>()?)
    }

    fn to_words(&self, alloc: Global) -> Result<String, RowError> {
        Ok(self.to_string(alloc)?)
    }
}

impl FromWords for PackageName {
    fn from_words(alloc: Global, words: &mut Words<'_>) -> Result<PackageName, RowError> {
        Ok(PackageName::new(alloc, words.next(alloc)?.as_str())?)
    }

    fn to_words(&self, alloc: Global) -> Result<String, RowError> {
        Ok(String::from_str(alloc, self.as_str())?)
    }
}

impl FromWords for LogId {
    fn from_words(alloc: Global, words: &mut Words<'_>) -> Result<LogId, RowError> {
        Ok(LogId::from(AnyHash::from_words(alloc, words)?))
    }

    fn to_words(&self, alloc: Global) -> Result<String, RowError> {
        AnyHash::from(*self).to_words(alloc)
    }
}

impl FromWords for RecordId {
    fn from_words(alloc: Global, words: &mut Words<'_>) -> Result<RecordId, RowError> {
        Ok(RecordId::from(AnyHash::from_words(alloc, words)?))
    }

    fn to_words(&self, alloc: Global) -> Result<String, RowError> {
        AnyHash::from(*self).to_words(alloc)
    }
}

// The root of the log, its length, and the root of the map.
impl FromWords for Checkpoint {
    fn from_words(alloc: Global, words: &mut Words<'_>) -> Result<Checkpoint, RowError> {
        Ok(Checkpoint {
            log_root: AnyHash::from_words(alloc, words)?,
            log_length: usize::from_words(alloc, words)?,
            map_root: AnyHash::from_words(alloc, words)?,
        })
    }

    fn to_words(&self, alloc: Global) -> Result<String, RowError> {
        let (root, length, map) = (self.log_root, self.log_length, self.map_root);
        Ok(format!(in alloc; "{root} {length} {map}")?)
    }
}

// The checkpoint, and the seconds.
impl FromWords for TimestampedCheckpoint {
    fn from_words(alloc: Global, words: &mut Words<'_>) -> Result<TimestampedCheckpoint, RowError> {
        Ok(TimestampedCheckpoint {
            checkpoint: Checkpoint::from_words(alloc, words)?,
            timestamp: u64::from_words(alloc, words)?,
        })
    }

    fn to_words(&self, alloc: Global) -> Result<String, RowError> {
        let (checkpoint, time) = (self.checkpoint.to_words(alloc)?, self.timestamp);
        Ok(format!(in alloc; "{checkpoint} {time}")?)
    }
}

impl FromWords for MapLeaf {
    fn from_words(alloc: Global, words: &mut Words<'_>) -> Result<MapLeaf, RowError> {
        Ok(MapLeaf {
            record_id: RecordId::from_words(alloc, words)?,
        })
    }

    fn to_words(&self, alloc: Global) -> Result<String, RowError> {
        self.record_id.to_words(alloc)
    }
}

// The id of the log, and that of the record.
impl FromWords for LogLeaf {
    fn from_words(alloc: Global, words: &mut Words<'_>) -> Result<LogLeaf, RowError> {
        Ok(LogLeaf {
            log_id: LogId::from_words(alloc, words)?,
            record_id: RecordId::from_words(alloc, words)?,
        })
    }

    fn to_words(&self, alloc: Global) -> Result<String, RowError> {
        let (log, record) = (self.log_id, self.record_id);
        Ok(format!(in alloc; "{log} {record}")?)
    }
}
