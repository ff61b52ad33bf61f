//! The key of a log that a word asks for.

ghost use Rattle.std.specs.Prelude.{◌≡◌, IfOk, List, ℕ, Bool, filter};
ghost use Rattle.tool_answers.specs.IdWords.{begins_as_said};
ghost use Rattle.tool_answers.specs.KeyIds.{AreIdsOf};
ghost use Rattle.warg_audit.specs.Files.Answers.{output_data};
ghost use Rattle.tool_questions.specs.AskedKeys.{IsAsked};

use std::alloc::{AllocError, Global};
use tool_answers::id_word::{begins_as_said, is_id_word};
use tool_answers::kind::ToolLog;
use warg_audit::files::command_output::CommandOutput;
use warg_printable::printed_line;
use warg_protocol::signing::KeyID;

/// The key that a word asks for.
#[derive(Debug, Drop)]
pub(crate) struct Asked {
    /// Its id.
    pub(crate) key_id: KeyID,
    /// Why the log has no such key, where it has none.
    pub(crate) fault: Option<&'static str>,
}

// The ids that begin with the word.
fn begun(alloc: Global, ids: &[KeyID], word: &str) -> Result<Vec<KeyID>, AllocError>
    ensures { IfOk result (λ begun. begun.items ≡ filter (begins_as_said word.now) ids.now) }
{
    let mut begun = Vec::new(alloc);
    for id in ids {
        if begins_as_said(alloc, word, id.as_str())? {
            begun.push(id.try_clone()?)?;
        }
    }
    Ok(begun)
}

// The key that the word asks for, of those of these ids.
fn asked_of(alloc: Global, ids: &[KeyID], word: &str) -> Result<Asked, AllocError>
    ensures { IfOk result (λ asked. (has_key : List ℕ → Bool) → AreIdsOf has_key ids.now →
        IsAsked has_key word.now asked.key_id) }
{
    let key_id = KeyID::from(String::from_str(alloc, word)?);
    if ids.contains(&key_id) {
        return Ok(Asked {
            key_id,
            fault: None,
        });
    }
    if !is_id_word(word) {
        let fault = Some("no key of the log has this id");
        return Ok(Asked { key_id, fault });
    }
    let begun = begun(alloc, ids, word)?;
    match begun.as_slice() {
        [] => {
            let fault = Some("no key of the log begins so");
            Ok(Asked { key_id, fault })
        }
        [only] => {
            let key_id = only.try_clone()?;
            Ok(Asked {
                key_id,
                fault: None,
            })
        }
        _ => {
            let fault = Some("several keys of the log begin so");
            Ok(Asked { key_id, fault })
        }
    }
}

/// The key that the word asks for, in a log of this state.
pub(crate) fn asked_key<L: ToolLog>(
    alloc: Global,
    state: &L,
    word: &str,
) -> Result<Asked, AllocError>
    ensures { IfOk result (λ asked.
        IsAsked (L.has_key state.now) word.now asked.key_id) }
{
    let ids = state.key_ids(alloc)?;
    asked_of(alloc, ids.as_slice(), word)
}

/// The answer, with why the log has no key of the word on standard error, where it has none.
pub(crate) fn with_fault(
    alloc: Global,
    answer: CommandOutput,
    word: &str,
    fault: Option<&str>,
) -> Result<CommandOutput, AllocError>
    ensures { IfOk result (λ told. output_data told ≡ output_data answer) }
{
    let Some(fault) = fault else {
        return Ok(answer);
    };
    let said = format!(in alloc; "weoldrin: \"{word}\": {fault}")?;
    let sentence = printed_line(alloc, said.as_str())?;
    Ok(answer.with_sentence(sentence))
}
