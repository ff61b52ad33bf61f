//! What is demanded of a lawful log, beside that it is one.

ghost use Rattle.std.specs.Prelude.{◌≡◌, IfErr, IfOk, OnOk, true, string_bytes};
ghost use Rattle.std.specs.Option.{option_copied, option_map};
ghost use Rattle.warg_audit.specs.LogAnswers.{head_text};
ghost use Rattle.tool_answers.specs.IdWords.{begins_as_said, is_id_word};
ghost use Rattle.warg_audit.specs.Files.Answers.{IfOutput, IsUnusable};
ghost use Rattle.tool_changes.specs.Audits.{SaysHead, has_head, has_least, lacks_records, records_alone, unmet};

use std::alloc::{AllocError, Global};
use tool_answers::id_word::{begins_as_said, is_id_word};
use tool_words::Demands;
use warg_audit::files::command_error::{CommandError, unusable};
use warg_protocol::registry::RecordId;

/// No more is demanded of a log than records, unless it may have none.
pub(crate) fn records_alone<'a>(allows_empty: bool) -> Demands<'a>
    ensures { result ≡ records_alone allows_empty }
{
    Demands {
        allows_empty,
        head: None,
        least: None,
        older: None,
    }
}

// Tests that the word says the beginning of an id.
fn test_id(alloc: Global, word: &str) -> Result<(), CommandError>
    ensures said { OnOk result (is_id_word word.now ≡ true) }
    ensures err { IfErr result (IfOutput (λ printed.
        (is_id_word word.now ≡ true → ⊥) × IsUnusable printed)) }
{
    if is_id_word(word) {
        Ok(())
    } else {
        let sentence = format!(in alloc; "weoldrin: {word:?} is no id of a record\n");
        Err(unusable(alloc, sentence))
    }
}

/// Tests that the word for the head says the beginning of an id, if one is demanded.
pub(crate) fn test_words(alloc: Global, demands: &Demands<'_>) -> Result<(), CommandError>
    ensures said { OnOk result (SaysHead demands.now) }
    ensures err { IfErr result (IfOutput (λ printed.
        (SaysHead demands.now → ⊥) × IsUnusable printed)) }
{
    match demands.head {
        Some(word) => test_id(alloc, word),
        None => Ok(()),
    }
}

// The text of a head: its id, or `none`.
fn head_text(alloc: Global, head: Option<&RecordId>) -> Result<String, AllocError>
    ensures { IfOk result (λ text. string_bytes text ≡ head_text (option_copied head.entry)) }
{
    match head {
        Some(id) => id.to_string(alloc),
        None => String::from_str(alloc, "none"),
    }
}

// Whether the head has the id that the word says.
fn has_id(alloc: Global, word: &str, head: Option<&RecordId>) -> Result<bool, AllocError>
    ensures { IfOk result (λ has. has ≡
        begins_as_said word.now (head_text (option_copied head.entry))) }
{
    let text = head_text(alloc, head)?;
    begins_as_said(alloc, word, text.as_str())
}

// Whether the head has the id that a word says, if one is demanded.
fn has_head(alloc: Global, word: Option<&str>, head: Option<&RecordId>) -> Result<bool, AllocError>
    ensures { IfOk result (λ has. has ≡ has_head word.entry (option_copied head.entry)) }
{
    match word {
        Some(word) => has_id(alloc, word, head),
        None => Ok(true),
    }
}

/// Whether there are no records, where there have to be some.
pub(crate) fn lacks_records(demands: &Demands<'_>, count: usize) -> bool
    ensures { result ≡ lacks_records demands.now count }
{
    !demands.allows_empty && count == 0
}

// Whether there are as many records as are demanded.
fn has_least(least: Option<u64>, count: usize) -> bool
    ensures { result ≡ has_least least count }
{
    match least {
        Some(least) => count as u64 >= least,
        None => true,
    }
}

/// The line of the first demand that a log does not meet, which has so many records and this head.
pub(crate) fn unmet(
    alloc: Global,
    demands: &Demands<'_>,
    count: usize,
    head: Option<&RecordId>,
) -> Result<Option<String>, AllocError>
    ensures { IfOk result (λ found. option_map string_bytes found ≡
        unmet demands.now count (option_copied head.entry)) }
{
    if lacks_records(demands, count) {
        return Ok(Some(String::from_str(alloc, "empty\n")?));
    }
    if !has_head(alloc, demands.head, head)? {
        let text = head_text(alloc, head)?;
        return Ok(Some(format!(in alloc; "other head {text}\n")?));
    }
    if !has_least(demands.least, count) {
        return Ok(Some(format!(in alloc; "too short {count}\n")?));
    }
    Ok(None)
}
