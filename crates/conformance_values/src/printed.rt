//! Values as they print, under any formatting options.

use conformance_rows::RowError;
use std::alloc::{AllocError, Global};
use std::fmt::{Debug, Display};

// What was printed under these options, which has to be the text.
fn expect(
    printed: Result<String, AllocError>,
    text: &str,
    options: &'static str,
) -> Result<(), RowError> {
    let printed = printed?;
    if printed.as_str() == text {
        return Ok(());
    }
    Err(RowError::new(format_args!("{options} prints {printed}")))
}

/// The value's text, which is the same under each of several options.
pub(crate) fn text_of<T: Display>(alloc: Global, value: &T) -> Result<String, RowError> {
    let text = format!(in alloc; "{value}")?;
    expect_padded(alloc, value, text.as_str())?;
    expect_flagged(alloc, value, text.as_str())?;
    Ok(text)
}

fn expect_padded<T: Display>(alloc: Global, value: &T, text: &str) -> Result<(), RowError> {
    expect(format!(in alloc; "{value:>200}"), text, ">200")?;
    expect(format!(in alloc; "{value:*^200}"), text, "*^200")?;
    expect(format!(in alloc; "{value:+0200.1}"), text, "+0200.1")
}

fn expect_flagged<T: Display>(alloc: Global, value: &T, text: &str) -> Result<(), RowError> {
    expect(format!(in alloc; "{value:#}"), text, "#")?;
    expect(format!(in alloc; "{value:.1}"), text, ".1")
}

/// The same of a value that prints so for programmers too.
pub(crate) fn only_text_of<T: Display + Debug>(
    alloc: Global,
    value: &T,
) -> Result<String, RowError> {
    let text = text_of(alloc, value)?;
    expect(format!(in alloc; "{value:?}"), text.as_str(), "?")?;
    expect(format!(in alloc; "{value:#?}"), text.as_str(), "#?")?;
    Ok(text)
}
