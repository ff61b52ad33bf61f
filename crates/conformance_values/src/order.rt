//! The order of values, and which are the same.

use crate::from_words::{FromWords, no_such_kind};
use conformance_rows::{Answer, RowError, Words};
use std::alloc::Global;
use std::hash::{FoldHasher, Hash, Hasher};
use warg_crypto::hash::AnyHash;
use warg_crypto::signing::{KeyID, PublicKey, Signature};
use warg_crypto::time::Timestamp;
use warg_log_records::RecordId;
use warg_registry::{LogId, PackageName};

// The two values that the words say, none of which may be left.
fn pair_of<T: FromWords>(alloc: Global, mut words: Words<'_>) -> Result<(T, T), RowError> {
    let first = T::from_words(alloc, &mut words)?;
    let second = T::from_words(alloc, &mut words)?;
    words.end()?;
    Ok((first, second))
}

/// `compare KIND WORDS.. WORDS..`: whether the first value is less than the second, equal or greater.
pub(crate) fn compare(alloc: Global, mut words: Words<'_>) -> Result<Answer, RowError> {
    let kind = words.next_written();
    match kind {
        "hash" => compared::<AnyHash>(alloc, words),
        "key-id" => compared::<KeyID>(alloc, words),
        "time" => compared::<Timestamp>(alloc, words),
        "package-name" => compared::<PackageName>(alloc, words),
        "log-id" => compared::<LogId>(alloc, words),
        "record-id" => compared::<RecordId>(alloc, words),
        _ => no_such_kind(),
    }
}

fn compared<T: FromWords + Ord>(alloc: Global, words: Words<'_>) -> Result<Answer, RowError> {
    let (first, second) = pair_of::<T>(alloc, words)?;
    let order = if first < second {
        "less"
    } else if first <= second {
        "equal"
    } else {
        "greater"
    };
    Answer::value(alloc, &order)
}

/// `same KIND WORDS.. WORDS..`: whether both values are the same, and are hashed alike.
pub(crate) fn same(alloc: Global, mut words: Words<'_>) -> Result<Answer, RowError> {
    let kind = words.next_written();
    match kind {
        "hash" => are_same::<AnyHash>(alloc, words),
        "key" => are_same::<PublicKey>(alloc, words),
        "signature" => are_same::<Signature>(alloc, words),
        "key-id" => are_same::<KeyID>(alloc, words),
        "time" => are_same::<Timestamp>(alloc, words),
        "package-name" => are_same::<PackageName>(alloc, words),
        _ => no_such_kind(),
    }
}

fn hash_of<T: Hash>(value: &T) -> u64 {
    let mut hasher = FoldHasher::default();
    value.hash(&mut hasher);
    hasher.finish()
}

fn are_same<T: FromWords + Eq + Hash>(alloc: Global, words: Words<'_>) -> Result<Answer, RowError> {
    let (first, second) = pair_of::<T>(alloc, words)?;
    let same = first == second;
    if same != (hash_of(&first) == hash_of(&second)) {
        return Err(RowError::new("they are hashed otherwise"));
    }
    Answer::value(alloc, &same)
}
