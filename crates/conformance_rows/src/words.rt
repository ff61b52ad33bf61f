//! The words of a row.
use crate::RowError;
use crate::quotes::{Quotes, unquoted};
use std::alloc::Global;

// The text up to the first space outside quotes, and what follows.
fn split_word<'a>(text: &'a str) -> (&'a str, &'a str) {
    let mut quotes = Quotes::new();
    for (at, c) in text.char_indices() {
        quotes.pass(c);
        if c == ' ' && !quotes.inside {
            return text.split_at_checked(at).unwrap_or((text, ""));
        }
    }
    (text, "")
}

// The text that a word says, which is a JSON string where it begins with a quote.
fn text_of(alloc: Global, word: &str) -> Result<String, RowError> {
    if word.starts_with('"') {
        unquoted(alloc, word)
    } else {
        Ok(String::from_str(alloc, word)?)
    }
}

/// The words of a row that are not read yet.
#[derive(Clone, Copy)]
pub struct Words<'a> {
    rest: &'a str,
}

impl<'a> Words<'a> {
    /// The words of a text.
    pub fn new(text: &'a str) -> Words<'a> {
        Words { rest: text.trim() }
    }

    /// Whether no word is left.
    pub fn is_empty(&self) -> bool {
        self.rest.is_empty()
    }

    /// The next word as it is written; empty where none is left.
    pub fn next_written(&mut self) -> &'a str {
        let (word, rest) = split_word(self.rest);
        self.rest = rest.trim();
        word
    }

    /// The text of the next word, which must be there. A word that begins with a quote is a JSON string.
    pub fn next(&mut self, alloc: Global) -> Result<String, RowError> {
        if self.is_empty() {
            return Err(RowError::new("a word is missing"));
        }
        text_of(alloc, self.next_written())
    }

    /// The bytes that the next word spells.
    pub fn next_bytes(&mut self, alloc: Global) -> Result<Vec<u8>, RowError> {
        let word = self.next(alloc)?;
        bytes(alloc, word.as_str())
    }

    /// All that is left, as it is written.
    pub fn rest(&self) -> &'a str {
        self.rest
    }

    /// The text that all that is left says: as it is written, or where it begins with a quote what the JSON string spells.
    pub fn rest_text(&self, alloc: Global) -> Result<String, RowError> {
        text_of(alloc, self.rest)
    }

    /// Refuses words that are left.
    pub fn end(&self) -> Result<(), RowError> {
        if self.is_empty() {
            Ok(())
        } else {
            Err(RowError::new("there are too many words"))
        }
    }
}

/// The bytes that a word spells in hex; `-` spells none.
pub fn bytes(alloc: Global, word: &str) -> Result<Vec<u8>, RowError> {
    if word == "-" {
        return Ok(Vec::new(alloc));
    }
    Ok(hex::decode(alloc, word)?)
}

/// The word that spells these bytes in hex, `-` for none.
pub fn hex(alloc: Global, bytes: &[u8]) -> Result<String, RowError> {
    if bytes.is_empty() {
        return Ok(String::from_str(alloc, "-")?);
    }
    Ok(hex::encode(alloc, bytes)?)
}
