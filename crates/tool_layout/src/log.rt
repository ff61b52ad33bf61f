//! The text of a log, laid out.

ghost use Rattle.std.specs.Prelude.{◌≡◌, ◌++◌, IfOk, OnOk, codes, option_map, string_bytes};
ghost use Rattle.std.specs.Str.Lines.{lines};
ghost use Rattle.tool_layout.specs.Layouts.{laid_line};
ghost use Rattle.tool_layout.specs.Logs.{behind_release, log_layout, padded, padded_release};
ghost use Rattle.tool_layout.specs.Logs.{version_width, width_behind, widest};

use crate::line::{push_line, push_spaces};
use crate::look::Look;
use crate::word::cut_word;
use std::alloc::{AllocError, Global};

// What stands behind `release` and a space, where a line begins so.
fn behind_release(line: &str) -> Option<&str>
    ensures { option_map (λ it. it.now) result ≡ behind_release line.now }
{
    match line.split_once(' ') {
        Some((word, rest)) if word == "release" => Some(rest),
        _ => None,
    }
}

// How wide a version is; one of more than 24 bytes counts as nothing.
fn version_width(version: &str) -> usize
    ensures { result ≡ version_width version.now }
{
    if version.len() <= 24 {
        version.len()
    } else {
        0
    }
}

// How wide the version of a line is, if the line is one of a release.
fn line_width(line: &str) -> usize
    ensures { result ≡ width_behind (behind_release line.now) }
{
    match behind_release(line) {
        Some(rest) => version_width(cut_word(rest).0),
        None => 0,
    }
}

// How wide the widest version of a text is.
fn widest(text: &str) -> usize
    ensures { result ≡ widest (lines text.now) }
{
    let mut width = 0;
    for line in text.lines() {
        width = width.max(line_width(line));
    }
    width
}

// The line of a release, of which this stands behind `release`, with spaces behind the version, if that is narrower
// than the width.
fn padded_release(alloc: Global, width: usize, rest: &str) -> Result<String, AllocError>
    ensures { IfOk result (λ line. string_bytes line ≡ padded_release width rest.now) }
{
    let (version, more) = cut_word(rest);
    let mut line = String::from_str(alloc, "release ")?;
    line.push_str(version)?;
    push_spaces(width.saturating_sub(version.len()), &mut line)?;
    line.push_str(more)?;
    Ok(line)
}

// Appends a line, laid out, with its version padded, if it is one of a release.
fn push_log_line(
    alloc: Global,
    look: &Look,
    width: usize,
    line: &str,
    laid: &mut String,
) -> Result<(), AllocError>
    ensures { OnOk result (string_bytes laid.new ≡ string_bytes laid.old ++
        (laid_line look.now (padded width line.now) ++ codes "\n")) }
{
    match behind_release(line) {
        Some(rest) => {
            let line = padded_release(alloc, width, rest)?;
            push_line(look, line.as_str(), laid)?;
        }
        None => push_line(look, line, laid)?,
    }
    laid.push_str("\n")
}

/// The text of a log, laid out: names in place of the ids of keys, short ids unless whole ones are wanted, and the
/// versions of its releases padded to one width.
pub fn log_layout(alloc: Global, look: &Look, text: &str) -> Result<String, AllocError>
    ensures { IfOk result (λ laid. string_bytes laid ≡ log_layout look.now text.now) }
{
    let width = widest(text);
    let mut laid = String::new(alloc);
    for line in text.lines() {
        push_log_line(alloc, look, width, line, &mut laid)?;
    }
    Ok(laid)
}
