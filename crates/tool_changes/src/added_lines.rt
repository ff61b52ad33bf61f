//! The lines of a text that another lacks.

ghost use Rattle.std.specs.Prelude.{◌≡◌, IfOk, filter, string_bytes};
ghost use Rattle.std.specs.Str.Lines.{lines};
ghost use Rattle.warg_audit.specs.Files.RecordLines.{texts};
ghost use Rattle.warg_audit.specs.Files.Texts.{all_lines};
ghost use Rattle.tool_changes.specs.Additions.{is_line_of, is_none_of, new_lines};

use std::alloc::{AllocError, Global};

// Whether a line is among others. Most are at the place that is looked at first.
fn is_among(lines: &[&str], place: usize, line: &str) -> bool
    ensures { result ≡ is_line_of (texts lines.now) line.now }
{
    match lines.get(place) {
        Some(there) if *there == line => true,
        _ => lines.contains(&line),
    }
}

// The lines of a text that are not among others, one after another.
fn lines_without(alloc: Global, known: &[&str], text: &str) -> Result<String, AllocError>
    ensures { IfOk result (λ kept. string_bytes kept ≡
        all_lines (filter (is_none_of (texts known.now)) (lines text.now))) }
{
    let mut kept = String::new(alloc);
    let mut place = 0usize;
    for line in text.lines() {
        if !is_among(known, place, line) {
            kept.push_str(line)?;
            kept.push('\n')?;
        }
        place = place.saturating_add(1);
    }
    Ok(kept)
}

// The lines of a text.
fn lines_in(alloc: Global, text: &str) -> Result<Vec<&str>, AllocError>
    ensures { IfOk result (λ found. texts found.items ≡ lines text.now) }
{
    let mut found = Vec::new(alloc);
    for line in text.lines() {
        found.push(line)?;
    }
    Ok(found)
}

/// The lines of a text that the text before it lacks, one after another.
pub(crate) fn lines_added(alloc: Global, before: &str, text: &str) -> Result<String, AllocError>
    ensures { IfOk result (λ added. string_bytes added ≡
        all_lines (new_lines before.now text.now)) }
{
    let known = lines_in(alloc, before)?;
    lines_without(alloc, known.as_slice(), text)
}
