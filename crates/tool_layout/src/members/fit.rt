//! Lines and the forms that they fit.

ghost use Rattle.std.specs.Prelude.{◌≡◌, IfOk, map, string_bytes};
ghost use Rattle.std.specs.Char.{is_ascii_digit};
ghost use Rattle.std.specs.List.{list_all, slice_split};
ghost use Rattle.std.specs.Option.{option_map};
ghost use Rattle.serde_json.specs.Data.{string};
ghost use Rattle.serde_json.specs.Written.{compact_text};
ghost use Rattle.tool_layout.specs.Members.Forms.{behind_word, form_view, if_so, is_number, is_object, is_space, line_members, list_of, member_text, members_by, part_view, strings_json, text_member, word_member, word_of};

use crate::members::form::{Form, Part};
use serde_json::Value;
use std::alloc::{AllocError, Global};

// The first word of a text.
fn word_of(text: &str) -> &str
    ensures { result.now ≡ word_of text.now }
{
    match text.split_once(' ') {
        Some((word, _)) => word,
        None => text,
    }
}

// The text behind the first word and the space after it, if there is one.
fn behind_word(text: &str) -> Option<&str>
    ensures { option_map (λ it. it.now) result ≡ behind_word text.now }
{
    match text.split_once(' ') {
        Some((_, more)) => Some(more),
        None => None,
    }
}

fn is_digits(word: &[u8]) -> bool
    ensures { result ≡ list_all is_ascii_digit word.now }
{
    word.iter().all(|byte| byte.is_ascii_digit())
}

// Whether a word is a number as JSON writes one.
fn is_number(word: &str) -> bool
    ensures { result ≡ is_number word.now }
{
    let digits = word.as_bytes();
    !digits.is_empty() && is_digits(digits) && (digits.len() == 1 || digits[0] != b'0')
}

// A member behind others.
fn member(alloc: Global, name: &str, json: &str) -> Result<String, AllocError>
    ensures { IfOk result (λ it. string_bytes it ≡ member_text name.now json.now) }
{
    format!(in alloc; ",\"{name}\":{json}")
}

// A text as a string of JSON.
fn string_json(alloc: Global, text: &str) -> Result<String, AllocError>
    ensures { IfOk result (λ json. string_bytes json ≡ compact_text (string text.now)) }
{
    Value::String(String::from_str(alloc, text)?).to_string(alloc)
}

/// The same of a text.
pub(crate) fn text_member(alloc: Global, name: &str, text: &str) -> Result<String, AllocError>
    ensures { IfOk result (λ it. string_bytes it ≡ text_member name.now text.now) }
{
    let json = string_json(alloc, text)?;
    member(alloc, name, json.as_str())
}

// The words of a text as strings of JSON, with a comma between.
#[tactic(auto, using(crate::proofs::MembersLemmas::WordLemmas::more_words, crate::proofs::MembersLemmas::WordLemmas::one_word))]
fn strings_json(alloc: Global, text: &str) -> Result<String, AllocError>
    ensures { IfOk result (λ json. string_bytes json ≡
        strings_json (slice_split is_space text.now)) }
{
    match text.split_once(' ') {
        Some((word, more)) => {
            let first = string_json(alloc, word)?;
            let others = strings_json(alloc, more)?;
            format!(in alloc; "{first},{others}")
        }
        None => string_json(alloc, text),
    }
}

// A member that is the list of the words of a text, if there is one.
fn list_member(alloc: Global, name: &str, text: Option<&str>) -> Result<String, AllocError>
    ensures { IfOk result (λ it. string_bytes it ≡ list_of name.now (option_map (λ it. it.now) text.entry)) }
{
    let items = match text {
        Some(text) => strings_json(alloc, text)?,
        None => String::new(alloc),
    };
    format!(in alloc; ",\"{name}\":[{items}]")
}

// A text as the value of a member, if it begins an object of JSON.
fn json_member(alloc: Global, name: &str, text: &str) -> Result<Option<String>, AllocError>
    ensures { IfOk result (λ found. option_map string_bytes found ≡
        if_so (is_object text.now) (member_text name.now text.now)) }
{
    if text.starts_with('{') {
        Ok(Some(member(alloc, name, text)?))
    } else {
        Ok(None)
    }
}

// The member that a word is, if it fits the part.
fn word_member(alloc: Global, part: &Part, word: &str) -> Result<Option<String>, AllocError>
    ensures { IfOk result (λ found. option_map string_bytes found ≡
        word_member (part_view part.now) word.now) }
{
    match part {
        Part::Word(it) if word == *it => Ok(Some(String::new(alloc))),
        Part::Tag(name, it, text) if word == *it => Ok(Some(text_member(alloc, name, text)?)),
        Part::Null(name, it) if word == *it => Ok(Some(member(alloc, name, "null")?)),
        Part::Number(name) if is_number(word) => Ok(Some(member(alloc, name, word)?)),
        Part::Text(name) | Part::Rest(name) => Ok(Some(text_member(alloc, name, word)?)),
        Part::Word(_)
        | Part::Tag(..)
        | Part::Null(..)
        | Part::Number(_)
        | Part::Words(_)
        | Part::Json(_) => Ok(None),
    }
}

// The members of what is left of a line, if it fits the parts that are left of its form.
fn members_by(
    alloc: Global,
    parts: &[Part],
    text: Option<&str>,
) -> Result<Option<String>, AllocError>
    ensures { IfOk result (λ found. option_map string_bytes found ≡
        members_by (map part_view parts.now) (option_map (λ it. it.now) text.entry)) }
{
    let Some((part, more)) = parts.split_first() else {
        return Ok(if text.is_none() {
            Some(String::new(alloc))
        } else {
            None
        });
    };
    if let Part::Words(name) = part {
        return Ok(Some(list_member(alloc, name, text)?));
    }
    let Some(text) = text else {
        return Ok(None);
    };
    match part {
        Part::Rest(name) => return Ok(Some(text_member(alloc, name, text)?)),
        Part::Json(name) => return json_member(alloc, name, text),
        _ => {}
    }
    let Some(mut members) = word_member(alloc, part, word_of(text))? else {
        return Ok(None);
    };
    match members_by(alloc, more, behind_word(text))? {
        Some(others) => {
            members.push_str(others.as_str())?;
            Ok(Some(members))
        }
        None => Ok(None),
    }
}

/// The members of a line by the first of the forms that it fits.
pub(crate) fn line_members(alloc: Global, forms: &[Form], line: &str) -> Result<String, AllocError>
    ensures { IfOk result (λ members. string_bytes members ≡
        line_members (map form_view forms.now) line.now) }
{
    let Some((form, more)) = forms.split_first() else {
        return text_member(alloc, "line", line);
    };
    match members_by(alloc, form.parts, Some(line))? {
        Some(members) => Ok(members),
        None => line_members(alloc, more, line),
    }
}
