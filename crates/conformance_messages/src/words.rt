//! Texts inside the texts of values.
use conformance_rows::RowError;
use serde_json::Value;
use std::alloc::Global;

/// The text as a JSON string.
pub(crate) fn in_quotes(alloc: Global, text: &str) -> Result<String, RowError> {
    let owned = String::from_str(alloc, text)?;
    Ok(Value::String(owned).to_string(alloc)?)
}

fn is_plain(text: &str) -> bool {
    !text.is_empty()
        && text.chars().all(|c| c.is_ascii_graphic() && c != ',' && c != '"' && c != '\\')
}

/// The text as a word: as it is where it has only letters, digits and most signs of ASCII, and as a JSON string
/// elsewhere.
pub(crate) fn word(alloc: Global, text: &str) -> Result<String, RowError> {
    if is_plain(text) {
        Ok(String::from_str(alloc, text)?)
    } else {
        in_quotes(alloc, text)
    }
}
