//! Words behind a command, parted into places and options.

ghost use Rattle.std.specs.Prelude.{◌≡◌, ◌==◌, IfOk, if◌then◌else◌, length, None, Some, true, map};
ghost use Rattle.std.specs.Option.{option_map};
ghost use Rattle.std.specs.List.{before_first, after_first, position_or_len};
ghost use Rattle.tool_words.specs.Commands.{named, of_all, of_audits, of_counted, of_files, of_logs, of_making, of_shown, options};
ghost use Rattle.tool_words.specs.Parts.{and_words, has, is_equals, is_place, no_parts, parts_of, place, value, with_awaited, with_bare, with_dashed, with_joined, with_mark, with_option, with_place, with_word};
ghost use Rattle.tool_words.specs.PartsViews.{given_view, IfRead, parts_view};
ghost use Rattle.tool_words.specs.Requests.{text_in, texts};

use crate::command::{Asking, Command, Doing, Verifying};
use std::alloc::{AllocError, Global};

/// An option that is given, with its value; that of a flag is empty.
#[derive(Clone, Copy, Debug, PartialEq, Eq)]
pub(crate) struct Given<'a> {
    pub(crate) name: &'a str,
    pub(crate) value: &'a str,
}

/// The places and the options, as far as words are read.
#[derive(Debug, Drop)]
pub(crate) struct Parts<'a> {
    pub(crate) places: Vec<&'a str>,
    pub(crate) given: Vec<Given<'a>>,
    pub(crate) awaited: Option<&'a str>,
    pub(crate) ended: bool,
}

fn log_option(name: &str) -> Option<bool>
    ensures { result ≡ named name.now of_logs }
{
    match name {
        "--verified" | "--limit" => Some(true),
        "--toy" | "--json" => Some(false),
        _ => None,
    }
}

fn shown_option(name: &str) -> Option<bool>
    ensures { result ≡ named name.now of_shown }
{
    match name {
        "--full" => Some(false),
        "--names" => Some(true),
        _ => log_option(name),
    }
}

fn audit_option(name: &str) -> Option<bool>
    ensures { result ≡ named name.now of_audits }
{
    match name {
        "--allow-empty" | "--paths" => Some(false),
        "--expect-head" | "--at-least" | "--goes-on-from" => Some(true),
        _ => log_option(name),
    }
}

fn counted_option(name: &str) -> Option<bool>
    ensures { result ≡ named name.now of_counted }
{
    match name {
        "--count" => Some(true),
        _ => log_option(name),
    }
}

fn making_option(name: &str) -> Option<bool>
    ensures { result ≡ named name.now of_making }
{
    match name {
        "--key" | "--key-text" => Some(true),
        _ => log_option(name),
    }
}

fn file_option(name: &str) -> Option<bool>
    ensures { result ≡ named name.now of_files }
{
    match name {
        "--limit" => Some(true),
        "--json" => Some(false),
        _ => None,
    }
}

fn common_option(name: &str) -> Option<bool>
    ensures { result ≡ named name.now of_all }
{
    match name {
        "--json" => Some(false),
        _ => None,
    }
}

// Whether a command has an option of this name, and whether a value follows it.
fn option_of(command: Command, name: &str) -> Option<bool>
    ensures { result ≡ named name.now (options command) }
{
    match command {
        Command::Audit => audit_option(name),
        Command::Show | Command::Ask(Asking::Chain) => shown_option(name),
        Command::Do(Doing::Make) => making_option(name),
        Command::Latest | Command::Do(Doing::Claims | Doing::Append) => log_option(name),
        Command::Ask(Asking::ResumedHead) => counted_option(name),
        Command::Ask(Asking::State | Asking::Resume | Asking::Head) => log_option(name),
        Command::Ask(Asking::Permissions | Asking::Compare) => log_option(name),
        Command::Verify(Verifying::Checkpoint) => log_option(name),
        Command::Id | Command::Message => file_option(name),
        Command::Prove(_) | Command::Compare(_) => file_option(name),
        Command::Verify(Verifying::Inclusion | Verifying::Consistency) => file_option(name),
        Command::Verify(Verifying::Head | Verifying::Absence) => file_option(name),
        Command::LogId(_) | Command::Leaf => common_option(name),
    }
}

// Whether a word stands at a place.
fn is_place(word: &str) -> bool
    ensures { result ≡ is_place word.now }
{
    !word.starts_with('-') || word.len() == 1
}

impl<'a> Parts<'a> {
    /// No words yet.
    pub(crate) fn new(alloc: Global) -> Parts<'a>
        ensures { parts_view result ≡ no_parts }
    {
        Parts {
            places: Vec::new(alloc),
            given: Vec::new(alloc),
            awaited: None,
            ended: false,
        }
    }

    /// The word at a place, `-` where there is none.
    pub(crate) fn place(&self, i: usize) -> &'a str
        ensures { result.now ≡ place i (parts_view self.now).places }
    {
        match self.places.get(i) {
            Some(word) => word,
            None => "-",
        }
    }

    /// The value of an option, if it is given.
    pub(crate) fn value(&self, name: &str) -> Option<&'a str>
        ensures { text_in result ≡ value name.now (parts_view self.now).given }
    {
        for option in &self.given {
            if name == option.name {
                return Some(option.value);
            }
        }
        None
    }

    /// Whether an option is given.
    pub(crate) fn has(&self, name: &str) -> bool
        ensures { result ≡ has name.now (parts_view self.now).given }
    {
        self.value(name).is_some()
    }

    // Adds a place.
    fn add_place(&mut self, word: &'a str) -> Result<bool, AllocError>
        ensures { IfRead (Some (with_place word.now (parts_view self.old))) result (parts_view self.new) }
    {
        self.places.push(word)?;
        Ok(true)
    }

    // Adds an option, unless it is given already.
    fn add_option(&mut self, name: &'a str, value: &'a str) -> Result<bool, AllocError>
        ensures { IfRead (with_option name.now value.now (parts_view self.old)) result (parts_view self.new) }
    {
        if self.has(name) {
            return Ok(false);
        }
        self.given.push(Given { name, value })?;
        self.awaited = None;
        Ok(true)
    }

    // Adds an option whose word has no value.
    fn add_bare(&mut self, takes_value: Option<bool>, name: &'a str) -> Result<bool, AllocError>
        ensures { IfRead (with_bare takes_value name.now (parts_view self.old)) result (parts_view self.new) }
    {
        match takes_value {
            None => Ok(false),
            Some(false) => self.add_option(name, ""),
            Some(true) => {
                self.awaited = Some(name);
                Ok(true)
            }
        }
    }

    // Adds an option whose word has its value behind `=`.
    fn add_joined(
        &mut self,
        takes_value: Option<bool>,
        name: &'a str,
        value: &'a str,
    ) -> Result<bool, AllocError>
        ensures { IfRead (with_joined takes_value name.now value.now (parts_view self.old)) result (parts_view self.new) }
    {
        match takes_value {
            Some(true) => self.add_option(name, value),
            Some(false) | None => Ok(false),
        }
    }

    // Adds the word of an option.
    fn add_dashed(&mut self, command: Command, word: &'a str) -> Result<bool, AllocError>
        ensures { IfRead (with_dashed command word.now (parts_view self.old)) result (parts_view self.new) }
    {
        match word.split_once('=') {
            None => self.add_bare(option_of(command, word), word),
            Some((name, value)) => self.add_joined(option_of(command, name), name, value),
        }
    }

    // Adds a word that ends the options, or is that of one.
    fn add_mark(&mut self, command: Command, word: &'a str) -> Result<bool, AllocError>
        ensures { IfRead (with_mark command word.now (parts_view self.old)) result (parts_view self.new) }
    {
        if word == "--" {
            self.ended = true;
            Ok(true)
        } else {
            self.add_dashed(command, word)
        }
    }

    // Adds a word, where an option may await it.
    fn add_awaited(
        &mut self,
        command: Command,
        awaited: Option<&'a str>,
        word: &'a str,
    ) -> Result<bool, AllocError>
        ensures { IfRead (with_awaited command (text_in awaited.entry) word.now (parts_view self.old)) result (parts_view self.new) }
    {
        match awaited {
            None if is_place(word) => self.add_place(word),
            None => self.add_mark(command, word),
            Some(name) if is_place(word) => self.add_option(name, word),
            Some(_) => Ok(false),
        }
    }

    // Adds a word. It is false where the word can't be one of the command's.
    fn add(&mut self, command: Command, word: &'a str) -> Result<bool, AllocError>
        ensures { IfRead (with_word command word.now (parts_view self.old)) result (parts_view self.new) }
    {
        if self.ended {
            self.add_place(word)
        } else {
            self.add_awaited(command, self.awaited, word)
        }
    }

    /// The parts of the words behind a command, if they can be its.
    pub(crate) fn of(
        alloc: Global,
        command: Command,
        words: &[&'a str],
    ) -> Result<Option<Parts<'a>>, AllocError>
        ensures { IfOk result (λ parts. option_map parts_view parts ≡ parts_of command (texts words.now)) }
    {
        let mut parts = Parts::new(alloc);
        for word in words {
            if !parts.add(command, word)? {
                return Ok(None);
            }
        }
        if parts.awaited.is_some() {
            return Ok(None);
        }
        Ok(Some(parts))
    }
}
