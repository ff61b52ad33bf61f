//! What an entry has behind its second word.

ghost use Rattle.std.specs.Prelude.{◌≡◌, ◌⊎◌, false, true, IfErr, IfOk};
ghost use Rattle.std.specs.Bool.{MatchBool};
ghost use Rattle.std.specs.Char.{is_not_whitespace};
ghost use Rattle.std.specs.Str.{NoCharPasses};
ghost use Rattle.tool_changes.specs.Make.Entries.{Fits, TooFew, TooMany};
ghost use Rattle.tool_changes.specs.Make.Words.{has_no_space, HasWord};
ghost use Rattle.tool_changes.specs.declared.make.error.EntryFault.TheVariants as fault;

use crate::make::error::EntryFault;

/// What an entry has behind its second word.
#[derive(Clone, Copy, Debug, PartialEq, Eq)]
pub(crate) enum Rest {
    /// Nothing.
    Nothing,
    /// One word.
    Word,
    /// Words between white space, at least one.
    Words,
    /// A text that is not empty.
    Text,
}

// Whether a space is in the text.
fn has_space(text: &str) -> bool
    ensures { MatchBool result (has_no_space text.now ≡ false) (has_no_space text.now ≡ true) }
{
    match text.split_once(' ') {
        Some(_) => true,
        None => false,
    }
}

// Whether a word is in the text.
fn has_word(text: &str) -> bool
    ensures { MatchBool result (HasWord text.now) (NoCharPasses is_not_whitespace text.now) }
{
    match text.split_whitespace().next() {
        Some(_) => true,
        None => false,
    }
}

/// Whether the text is what the entry has there.
pub(crate) fn check(rest: Rest, text: &str) -> Result<(), EntryFault>
    ensures ok { IfOk result (λ _. Fits rest text.now) }
    ensures err { IfErr result (λ it. ((it ≡ fault.MissingWord) × TooFew rest text.now) ⊎
        ((it ≡ fault.ExtraWord) × TooMany rest text.now)) }
{
    match rest {
        Rest::Nothing if text.is_empty() => Ok(()),
        Rest::Nothing => Err(EntryFault::ExtraWord),
        Rest::Words if has_word(text) => Ok(()),
        Rest::Words => Err(EntryFault::MissingWord),
        Rest::Text if text.is_empty() => Err(EntryFault::MissingWord),
        Rest::Text => Ok(()),
        Rest::Word if text.is_empty() => Err(EntryFault::MissingWord),
        Rest::Word if has_space(text) => Err(EntryFault::ExtraWord),
        Rest::Word => Ok(()),
    }
}
