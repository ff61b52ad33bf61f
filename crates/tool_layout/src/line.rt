//! Words and lines, laid out.

ghost use Rattle.std.specs.Prelude.{◌≡◌, ◌++◌, OnOk, option_map, string_bytes};
ghost use Rattle.tool_layout.specs.Layouts.{before_comma, laid_id, laid_line, laid_word, short};
ghost use Rattle.tool_layout.specs.Logs.{spaces};

use crate::digest::is_digest;
use crate::look::Look;
use std::alloc::AllocError;

// A digest with its first twelve digits alone; any other text as it is.
fn short(text: &str) -> &str
    ensures { result.now ≡ short text.now }
{
    if is_digest(text) { &text[..19] } else { text }
}

// The name of the key whose id a text is; else the text, shortened unless whole ids are wanted.
fn laid_id<'a>(look: &'a Look, text: &'a str) -> &'a str
    ensures { result.now ≡ laid_id look.now text.now }
{
    match look.names.of(text) {
        Some(name) => name,
        None if look.full => text,
        None => short(text),
    }
}

// What stands before the comma at the end of a word, if one is there.
fn before_comma(word: &str) -> Option<&str>
    ensures { option_map (λ it. it.now) result ≡ before_comma word.now }
{
    word.strip_suffix(',')
}

// Appends the same of a word, behind which a comma stays.
fn push_word(look: &Look, word: &str, laid: &mut String) -> Result<(), AllocError>
    ensures { OnOk result (string_bytes laid.new ≡ string_bytes laid.old ++
        laid_word look.now word.now) }
{
    match before_comma(word) {
        Some(id) => {
            laid.push_str(laid_id(look, id))?;
            laid.push_str(",")
        }
        None => laid.push_str(laid_id(look, word)),
    }
}

/// Appends the line with each word laid out.
pub(crate) fn push_line(look: &Look, line: &str, laid: &mut String) -> Result<(), AllocError>
    ensures { OnOk result (string_bytes laid.new ≡ string_bytes laid.old ++
        laid_line look.now line.now) }
{
    let mut parting = "";
    for word in line.split(' ') {
        laid.push_str(parting)?;
        push_word(look, word, laid)?;
        parting = " ";
    }
    Ok(())
}

/// Appends spaces.
pub(crate) fn push_spaces(count: usize, laid: &mut String) -> Result<(), AllocError>
    ensures { OnOk result (string_bytes laid.new ≡ string_bytes laid.old ++ spaces count) }
{
    for _ in 0..count {
        laid.push_str(" ")?;
    }
    Ok(())
}
