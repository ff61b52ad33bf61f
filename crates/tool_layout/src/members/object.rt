//! Objects, one a line.

ghost use Rattle.std.specs.Prelude.{◌≡◌, IfOk, map, string_bytes};
ghost use Rattle.tool_layout.specs.Members.Forms.{form_view};
ghost use Rattle.tool_layout.specs.Members.Objects.{forms_of, line_object, message_object, object_json, object_text, path_object, row_view};

use crate::members::fit::{line_members, text_member};
use crate::members::form::{CommandForms, Form};
use std::alloc::{AllocError, Global};
use warg_printable::json_printed;

// The forms of a command's lines.
fn forms_of(table: &'static [CommandForms], command: &str) -> &'static [Form]
    ensures { map form_view result.now ≡ forms_of (map row_view table.now) command.now }
{
    match table.split_first() {
        Some((row, _)) if row.command == command => row.forms,
        Some((_, more)) => forms_of(more, command),
        None => &[],
    }
}

// The command, members behind it, and the status.
fn object_json(
    alloc: Global,
    command: &str,
    members: &str,
    status: u8,
) -> Result<String, AllocError>
    ensures { IfOk result (λ json. string_bytes json ≡
        object_json command.now members.now status) }
{
    format!(in alloc; "{{\"command\":\"{command}\"{members},\"status\":{status}}}")
}

// The same on a line, with no hidden character.
fn object(alloc: Global, command: &str, members: &str, status: u8) -> Result<String, AllocError>
    ensures { IfOk result (λ text. string_bytes text ≡
        object_text command.now members.now status) }
{
    let json = object_json(alloc, command, members, status)?;
    let mut text = json_printed(alloc, json.as_str())?;
    text.push_str("\n")?;
    Ok(text)
}

/// The object of a line that a command prints, with no hidden character in it and a line feed after it: the command,
/// the members of the line by the first of the forms that it fits, and the status. A line that fits none is the member
/// `line`.
pub fn line_object(
    alloc: Global,
    table: &'static [CommandForms],
    command: &str,
    status: u8,
    line: &str,
) -> Result<String, AllocError>
    ensures { IfOk result (λ text. string_bytes text ≡
        line_object (map row_view table.now) command.now status line.now) }
{
    let members = line_members(alloc, forms_of(table, command), line)?;
    object(alloc, command, members.as_str(), status)
}

/// The same of a line on the file of a path, with the path as the first member behind the command.
pub fn path_object(
    alloc: Global,
    table: &'static [CommandForms],
    command: &str,
    path: &str,
    status: u8,
    line: &str,
) -> Result<String, AllocError>
    ensures { IfOk result (λ text. string_bytes text ≡
        path_object (map row_view table.now) command.now path.now status line.now) }
{
    let mut members = text_member(alloc, "path", path)?;
    let others = line_members(alloc, forms_of(table, command), line)?;
    members.push_str(others.as_str())?;
    object(alloc, command, members.as_str(), status)
}

/// The object of an answer that has no line: the command, a sentence as the member `message`, and the status.
pub fn message_object(
    alloc: Global,
    command: &str,
    status: u8,
    sentence: &str,
) -> Result<String, AllocError>
    ensures { IfOk result (λ text. string_bytes text ≡
        message_object command.now status sentence.now) }
{
    let members = text_member(alloc, "message", sentence)?;
    object(alloc, command, members.as_str(), status)
}
