//! Messages in the text format of protocol buffers, in braces and with bytes in hex: `{ key: "a" permissions: [1, 2] }`.
use crate::words::in_quotes;
use conformance_rows::{RowError, hex};
use std::alloc::Global;

/// A message whose fields are written by rising number.
pub(crate) trait Fields {
    /// Appends the fields, each behind a space.
    fn put(&self, alloc: Global, out: &mut String) -> Result<(), RowError>;
}

/// Appends a message in braces.
pub(crate) fn put_braced<M: Fields>(
    alloc: Global,
    out: &mut String,
    message: &M,
) -> Result<(), RowError> {
    out.push('{')?;
    message.put(alloc, out)?;
    if !out.ends_with('{') {
        out.push(' ')?;
    }
    out.push('}')?;
    Ok(())
}

/// A field that is itself a message.
pub(crate) fn put_message<M: Fields>(
    alloc: Global,
    out: &mut String,
    name: &str,
    message: &M,
) -> Result<(), RowError> {
    write!(out, " {name} ")?;
    put_braced(alloc, out, message)
}

/// A text that is there, be it empty.
pub(crate) fn put_present_text(
    alloc: Global,
    out: &mut String,
    name: &str,
    text: &str,
) -> Result<(), RowError> {
    let text = in_quotes(alloc, text)?;
    write!(out, " {name}: {text}")?;
    Ok(())
}

/// A text, which is left out where it is empty.
pub(crate) fn put_text(
    alloc: Global,
    out: &mut String,
    name: &str,
    text: &str,
) -> Result<(), RowError> {
    if text.is_empty() {
        return Ok(());
    }
    put_present_text(alloc, out, name, text)
}

/// Bytes in hex, which are left out where there are none.
pub(crate) fn put_bytes(
    alloc: Global,
    out: &mut String,
    name: &str,
    bytes: &[u8],
) -> Result<(), RowError> {
    if !bytes.is_empty() {
        let digits = hex(alloc, bytes)?;
        write!(out, " {name}: {digits}")?;
    }
    Ok(())
}

/// A number, which is left out where it is 0.
pub(crate) fn put_number(out: &mut String, name: &str, number: i64) -> Result<(), RowError> {
    if number != 0 {
        write!(out, " {name}: {number}")?;
    }
    Ok(())
}

/// A list of numbers, which is left out where it is empty.
pub(crate) fn put_numbers(out: &mut String, name: &str, numbers: &[i32]) -> Result<(), RowError> {
    if numbers.is_empty() {
        return Ok(());
    }
    write!(out, " {name}: [")?;
    let mut separator = "";
    for number in numbers {
        write!(out, "{separator}{number}")?;
        separator = ", ";
    }
    out.push(']')?;
    Ok(())
}
