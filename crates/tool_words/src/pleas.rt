//! Words that ask for a text alone, as help or the version, and what wrong words still say: the command, and whether JSON is wanted.

ghost use Rattle.std.specs.Prelude.{◌≡◌};
ghost use Rattle.tool_words.specs.Invocations.{asks_for_json, asks_for_text, has_help, has_json, is_grouped, is_help, is_name, is_topic, is_version, named_command};
ghost use Rattle.tool_words.specs.Requests.{texts};

use crate::command::{Command, of_name};
use crate::invocation::{word, words_from};

/// Whether a word asks for help.
pub(crate) fn is_help(text: &str) -> bool
    ensures { result ≡ is_help text.now }
{
    text == "--help" || text == "-h"
}

/// Whether a word asks for the version.
pub(crate) fn is_version(text: &str) -> bool
    ensures { result ≡ is_version text.now }
{
    text == "--version" || text == "-V"
}

// Whether a word is the name of a command or of a group.
fn is_name(text: &str) -> bool
    ensures { result ≡ is_name text.now }
{
    text == "log-id" || (text == "prove" || (text == "verify" || of_name(text).is_some()))
}

/// Whether words name a command of a group.
pub(crate) fn is_grouped(called: Option<Command>) -> bool
    ensures { result ≡ is_grouped called }
{
    match called {
        Some(Command::LogId(_) | Command::Prove(_) | Command::Verify(_) | Command::Compare(_)) =>
            true,
        Some(
            Command::Id
            | Command::Audit
            | Command::Show
            | Command::Latest
            | Command::Ask(_)
            | Command::Do(_)
            | Command::Message
            | Command::Leaf,
        ) => false,
        None => false,
    }
}

// Whether one of the words asks for help, before `--`.
fn has_help(words: &[&str]) -> bool
    ensures { result ≡ has_help (texts words.now) }
{
    for text in words {
        if *text == "--" {
            return false;
        }
        if is_help(text) {
            return true;
        }
    }
    false
}

// Whether behind `help` stands nothing, or the name of a command, in its group, or of a group.
fn is_topic(words: &[&str]) -> bool
    ensures { result ≡ is_topic (texts words.now) }
{
    words.len() == 2
        || ((words.len() == 3 && is_name(word(words, 2)))
            || (words.len() == 4 && is_grouped(Command::of(word(words, 2), word(words, 3)))))
}

// Whether JSON is asked for, before `--`.
fn has_json(words: &[&str]) -> bool
    ensures { result ≡ has_json (texts words.now) }
{
    for text in words {
        if *text == "--" {
            return false;
        }
        if *text == "--json" {
            return true;
        }
    }
    false
}

/// Whether words ask for answers in JSON, also where they are wrong. The first is the program's name.
pub fn asks_for_json(words: &[&str]) -> bool
    ensures { result ≡ asks_for_json (texts words.now) }
{
    has_json(words_from(words, 1))
}

/// The command that words name, also where they are wrong; empty where they name none.
pub fn named_command<'a>(words: &[&'a str]) -> &'a str
    ensures { result.now ≡ named_command (texts words.now) }
{
    let first = word(words, 1);
    if is_name(first) { first } else { "" }
}

/// Whether words ask for a text alone.
pub(crate) fn asks_for_text(words: &[&str]) -> bool
    ensures { result ≡ asks_for_text (texts words.now) }
{
    let first = word(words, 1);
    is_help(first)
        || (is_version(first)
            || ((first == "help" && is_topic(words))
                || (is_name(first) && has_help(words_from(words, 2)))))
}
