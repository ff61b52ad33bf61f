//! Answers in colour.

ghost use Rattle.std.specs.Prelude.{◌≡◌, ◌++◌, IfOk, OnOk, codes, option_map, string_bytes};
ghost use Rattle.tool_layout.specs.Colours.{colour_of, painted, painted_line};

use crate::word::cut_word;
use std::alloc::{AllocError, Global};

// The number of a word's colour: red for a no, green for a yes, bold for a part of a log, yellow for a reason.
fn colour_of(word: &str) -> Option<&'static str>
    ensures { option_map (λ it. it.now) result ≡ colour_of word.now }
{
    match word {
        "refused"
        | "bad"
        | "too"
        | "empty"
        | "other"
        | "none"
        | "unknown"
        | "rolled"
        | "fork"
        | "collision"
        | "does"
        | "no"
        | "busy" => Some("31"),
        "ok" | "same" | "goes" | "holds" => Some("32"),
        "head" | "key" | "release" | "namespace" => Some("1"),
        "why:" | "try:" | "entry:" => Some("33"),
        _ => None,
    }
}

// Appends a line with its first word in colour, if that has one.
fn push_painted(line: &str, text: &mut String) -> Result<(), AllocError>
    ensures { OnOk result (string_bytes text.new ≡ string_bytes text.old ++
        (painted_line line.now ++ codes "\n")) }
{
    let (word, more) = cut_word(line);
    match colour_of(word) {
        Some(colour) => {
            text.push_str("\u{1b}[")?;
            text.push_str(colour)?;
            text.push_str("m")?;
            text.push_str(word)?;
            text.push_str("\u{1b}[0m")?;
            text.push_str(more)?;
        }
        None => text.push_str(line)?,
    }
    text.push_str("\n")
}

/// The text with the first word of each line in colour, if that has one: red for a no, green for a yes, bold for a
/// part of a log, and yellow for a reason.
pub fn painted(alloc: Global, text: &str) -> Result<String, AllocError>
    ensures { IfOk result (λ it. string_bytes it ≡ painted text.now) }
{
    let mut painted = String::new(alloc);
    for line in text.lines() {
        push_painted(line, &mut painted)?;
    }
    Ok(painted)
}
