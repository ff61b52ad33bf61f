//! Texts in double quotes, which are JSON strings.
use crate::RowError;
use serde_json::Value;
use std::alloc::Global;

/// Whether the next character stands in quotes.
#[derive(Clone, Copy)]
pub(crate) struct Quotes {
    pub(crate) inside: bool,
    escaped: bool,
}

impl Quotes {
    /// At the beginning of a line.
    pub(crate) fn new() -> Quotes {
        Quotes {
            inside: false,
            escaped: false,
        }
    }

    /// Goes past this character. A backslash in quotes takes the next one.
    pub(crate) fn pass(&mut self, c: char) {
        if self.escaped {
            self.escaped = false;
        } else if c == '"' {
            self.inside = !self.inside;
        } else if c == '\\' {
            self.escaped = self.inside;
        }
    }
}

fn needs_quotes(text: &str) -> bool {
    text.is_empty()
        || text.trim() != text
        || text
            .chars()
            .any(|c| c == '"' || c == '\\' || c.is_control())
}

/// The text as it stands in an answer: a JSON string where it is empty, has white space at an end, or holds a quote, a
/// backslash or a control character.
pub fn quoted(alloc: Global, text: &str) -> Result<String, RowError> {
    let owned = String::from_str(alloc, text)?;
    if needs_quotes(text) {
        Ok(Value::String(owned).to_string(alloc)?)
    } else {
        Ok(owned)
    }
}

/// The text that a JSON string spells.
pub(crate) fn unquoted(alloc: Global, word: &str) -> Result<String, RowError> {
    match Value::from_str(alloc, word)? {
        Value::String(text) => Ok(text),
        _ => Err(RowError::new("a word in quotes is no JSON string")),
    }
}
