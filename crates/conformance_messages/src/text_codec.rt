//! What a row may ask of a value that is read from a word and written as one.
use conformance_rows::{Answer, RowError, Words, bytes};
use std::alloc::Global;
use warg_crypto::hash::HashAlgorithm;

/// A value with a text.
pub(crate) trait ToText {
    /// The value's text, which tells it from every other value.
    fn text(&self, alloc: Global) -> Result<String, RowError>;
}

/// A value that is read from a word, such as bytes in hex, and is written as one.
pub(crate) trait TextCodec: ToText + PartialEq + Drop {
    /// The value that the word says, or the name of the first fault in it.
    fn read(alloc: Global, word: &str) -> Result<Result<Self, String>, RowError>;

    /// The word that is written of the value.
    fn write(&self, alloc: Global) -> Result<String, RowError>;
}

/// What is asked.
#[derive(Clone, Copy, PartialEq)]
pub(crate) enum Verb {
    /// What a word says.
    Decode,
    /// The same, of a word that is also what is written of the value.
    BothWays,
    /// What is written of the value that a word says.
    Encode,
    /// The SHA-256 digest of the bytes that are written of it.
    Digest,
    /// Whether two words say the same.
    Equal,
}

/// The question that a topic asks.
pub(crate) fn verb_of(topic: &str) -> Option<Verb> {
    Some(match topic {
        "decode" => Verb::Decode,
        "both-ways" => Verb::BothWays,
        "encode" => Verb::Encode,
        "digest" => Verb::Digest,
        "equal" => Verb::Equal,
        _ => return None,
    })
}

/// The answer where a row asks this of words that say values of one type.
pub(crate) fn play<T: TextCodec>(
    alloc: Global,
    verb: Verb,
    words: Words<'_>,
) -> Result<Answer, RowError> {
    if verb == Verb::Equal {
        return are_equal::<T>(alloc, words);
    }
    let word = words.rest();
    match T::read(alloc, word)? {
        Ok(value) => Ok(Answer::Value(of_value(alloc, verb, word, &value)?)),
        Err(fault) => Ok(Answer::Fault(fault)),
    }
}

fn of_value<T: TextCodec>(
    alloc: Global,
    verb: Verb,
    word: &str,
    value: &T,
) -> Result<String, RowError> {
    if verb == Verb::Decode {
        return value.text(alloc);
    }
    let written = value.write(alloc)?;
    match verb {
        Verb::Encode => Ok(written),
        Verb::Digest => digest(alloc, written.as_str()),
        _ if written.as_str() == word => value.text(alloc),
        _ => Ok(format!(in alloc; "written as {written}")?),
    }
}

fn digest(alloc: Global, word: &str) -> Result<String, RowError> {
    let digest = HashAlgorithm::Sha256.digest(bytes(alloc, word)?.as_slice());
    Ok(digest.to_string(alloc)?)
}

fn are_equal<T: TextCodec>(alloc: Global, mut words: Words<'_>) -> Result<Answer, RowError> {
    let first = whole::<T>(alloc, words.next_written())?;
    let second = whole::<T>(alloc, words.next_written())?;
    words.end()?;
    Answer::value(alloc, &(first == second))
}

// The value of a word that has no fault.
fn whole<T: TextCodec>(alloc: Global, word: &str) -> Result<T, RowError> {
    T::read(alloc, word)?.map_err(RowError::new)
}
