//! What the places and the options of a command have to be.

ghost use Rattle.std.specs.Prelude.{◌≡◌, ◌≤◌, length, None, Some};
ghost use Rattle.std.specs.Option.{option_map};
ghost use Rattle.tool_words.specs.Commands.{forms};
ghost use Rattle.tool_words.specs.PartsViews.{parts_view};
ghost use Rattle.tool_words.specs.Requests.{signer_view, text_in, texts};
ghost use Rattle.tool_words.specs.Rules.{fills, has_demand, is_kind, is_make, is_number, is_one_log, is_some_stdin, is_stdin, is_taken, kind_of, limit_in, more_files, number, number_in, one_if, read_places, reads_once, schemes_in, signer_in, signer_of, stdin_files, stdin_options, stdin_places, takes_options, takes_places};

use crate::checkpoint::Schemes;
use crate::command::{Asking, Command, Comparing, Doing, Proving, Verifying};
use crate::invocation::words_from;
use crate::parts::Parts;
use crate::task::Signer;
use warg_audit::{LogKind, MAX_INPUT};

// Whether so many words fill the places of a command.
fn fills(command: Command, count: usize) -> bool
    ensures { result ≡ fills (forms command) count }
{
    command.least() <= count && (command.has_more() || count <= command.most())
}

fn is_kind(word: &str) -> bool
    ensures { result ≡ is_kind word.now }
{
    word == "package" || word == "operator"
}

/// The kind of log that a word says.
pub(crate) fn kind_of(word: &str) -> LogKind
    ensures { result ≡ kind_of word.now }
{
    if word == "operator" {
        LogKind::Operator
    } else {
        LogKind::Package
    }
}

fn is_stdin(path: &str) -> bool
    ensures { result ≡ is_stdin path.now }
{
    path == "-"
}

fn is_some_stdin(path: Option<&str>) -> bool
    ensures { result ≡ is_some_stdin (text_in path.entry) }
{
    match path {
        Some(path) => is_stdin(path),
        None => false,
    }
}

fn one_if(is_so: bool) -> usize
    ensures value { result ≡ one_if is_so }
    ensures bound { result ≤ 1 }
{
    if is_so { 1 } else { 0 }
}

fn reads_once(places: usize, files: usize, options: usize) -> bool
    ensures { result ≡ reads_once places files options }
{
    places <= 1 && (files <= 1 && (options <= 1 && places + files + options <= 1))
}

// At which places of a command files stand that are read.
fn read_places(command: Command) -> &'static [usize]
    ensures { result.now ≡ read_places 0 (forms command) }
{
    match command {
        Command::Id | Command::Audit | Command::Show | Command::Latest => &[1],
        Command::Ask(Asking::State | Asking::Head) => &[1],
        Command::Ask(Asking::Resume | Asking::ResumedHead | Asking::Compare) => &[1, 2],
        Command::Ask(Asking::Permissions) => &[2],
        Command::Ask(Asking::Chain) => &[3],
        Command::Do(Doing::Claims | Doing::Make) => &[1],
        Command::Do(Doing::Append) => &[1, 2],
        Command::LogId(_) | Command::Leaf => &[],
        Command::Message => &[0],
        Command::Prove(Proving::Checkpoint) => &[0],
        Command::Prove(Proving::Inclusion | Proving::Consistency | Proving::Head) => &[1],
        Command::Verify(Verifying::Checkpoint) => &[0, 1],
        Command::Verify(Verifying::Inclusion) => &[0, 4],
        Command::Verify(Verifying::Consistency) => &[0, 1, 2],
        Command::Verify(Verifying::Head) => &[0, 3],
        Command::Verify(Verifying::Absence) => &[0, 2],
        Command::Compare(Comparing::Checkpoints) => &[0, 1, 2],
        Command::Compare(Comparing::Leaves) => &[1, 4, 5, 8],
        Command::Compare(Comparing::Heads) => &[0, 3, 5],
        Command::Compare(Comparing::Beginnings) => &[0, 1, 2, 3, 4],
    }
}

// Whether a record is to be made.
fn is_make(command: Command) -> bool
    ensures { result ≡ is_make command }
{
    match command {
        Command::Do(Doing::Make) => true,
        Command::Do(Doing::Claims | Doing::Append) => false,
        Command::Id | Command::Audit | Command::Show | Command::Latest => false,
        Command::Ask(_) | Command::Message | Command::Leaf | Command::LogId(_) => false,
        Command::Prove(_) | Command::Verify(_) | Command::Compare(_) => false,
    }
}

/// The number that decimal digits say, if it is below 2^64.
fn number(digits: &str) -> Option<u64>
    ensures { result ≡ number digits.now }
{
    if digits.starts_with('+') {
        return None;
    }
    match digits.parse::<u64>() {
        Ok(number) => Some(number),
        Err(_) => None,
    }
}

/// The number that an option says, if it is given and says one.
pub(crate) fn number_in(digits: Option<&str>) -> Option<u64>
    ensures { result ≡ number_in (text_in digits.entry) }
{
    match digits {
        Some(digits) => number(digits),
        None => None,
    }
}

fn is_number(digits: Option<&str>) -> bool
    ensures { result ≡ is_number (text_in digits.entry) }
{
    match digits {
        Some(digits) => number(digits).is_some(),
        None => true,
    }
}

// The toy signer that the value of `--key` says.
fn toy_of<'a>(key: &'a str) -> Option<Signer<'a>>
    ensures { option_map signer_view result ≡ signer_of (Some key.now) None }
{
    match key.strip_prefix("toy:") {
        Some(name) => Some(Signer::Toy(name)),
        None => None,
    }
}

fn signer_of<'a>(key: Option<&'a str>, text: Option<&'a str>) -> Option<Signer<'a>>
    ensures { option_map signer_view result ≡ signer_of (text_in key.entry) (text_in text.entry) }
{
    match (key, text) {
        (Some(key), None) => toy_of(key),
        (None, Some(text)) => Some(Signer::KeyText(text)),
        (None, None) => None,
        (Some(_), Some(_)) => None,
    }
}

impl<'a> Parts<'a> {
    /// Who signs, if that is said.
    pub(crate) fn signer(&self) -> Option<Signer<'a>>
        ensures { option_map signer_view result ≡ signer_in (parts_view self.now).given }
    {
        signer_of(self.value("--key"), self.value("--key-text"))
    }

    /// How many bytes a file may have.
    pub(crate) fn limit(&self) -> u64
        ensures { result ≡ limit_in (parts_view self.now).given }
    {
        number_in(self.value("--limit")).unwrap_or(MAX_INPUT as u64)
    }

    /// Of which schemes keys may be whose signatures are taken.
    pub(crate) fn schemes(&self) -> Schemes
        ensures { result ≡ schemes_in (parts_view self.now).given }
    {
        if self.has("--verified") {
            Schemes::Any
        } else if self.has("--toy") {
            Schemes::WithToy
        } else {
            Schemes::Known
        }
    }

    /// Whether the words behind `audit` name one log, and no file of paths.
    pub(crate) fn is_one_log(&self) -> bool
        ensures { result ≡ is_one_log (parts_view self.now).places }
    {
        self.places.len() <= 2 && !self.place(1).starts_with('@')
    }

    fn has_demand(&self) -> bool
        ensures { result ≡ has_demand (parts_view self.now).given }
    {
        self.has("--expect-head") || (self.has("--at-least") || self.has("--goes-on-from"))
    }

    fn stdin_places(&self, command: Command) -> usize
        ensures { result ≡ stdin_places command (parts_view self.now).places }
    {
        read_places(command)
            .iter()
            .filter(|i| is_stdin(self.place(**i)))
            .count()
    }

    // The files that stand where any number of them may.
    fn more_files(&self, command: Command) -> &[&'a str]
        ensures { texts result.now ≡ more_files 0 (forms command) (parts_view self.now).places }
    {
        match command {
            Command::Audit => words_from(self.places.as_slice(), 2),
            Command::Id | Command::Show | Command::Latest | Command::LogId(_) => &[],
            Command::Message | Command::Leaf | Command::Ask(_) | Command::Do(_) => &[],
            Command::Prove(_) | Command::Verify(_) | Command::Compare(_) => &[],
        }
    }

    #[tactic(auto, using(crate::proofs::RuleLemmas::stdin_texts))]
    fn stdin_files(&self, command: Command) -> usize
        ensures { result ≡ stdin_files command (parts_view self.now).places }
    {
        self.more_files(command)
            .iter()
            .filter(|path| is_stdin(**path))
            .count()
    }

    fn stdin_options(&self) -> usize
        ensures { result ≡ stdin_options (parts_view self.now).given }
    {
        one_if(is_some_stdin(self.value("--verified")))
            + one_if(is_some_stdin(self.value("--names")))
            + one_if(is_some_stdin(self.value("--goes-on-from")))
    }

    // Whether standard input is read once at most.
    fn reads_once(&self, command: Command) -> bool
        ensures { result ≡ reads_once (stdin_places command (parts_view self.now).places)
            (stdin_files command (parts_view self.now).places)
            (stdin_options (parts_view self.now).given) }
    {
        reads_once(
            self.stdin_places(command),
            self.stdin_files(command),
            self.stdin_options(),
        )
    }

    fn has_places_of(&self, command: Command) -> bool
        ensures { result ≡ takes_places command (parts_view self.now).places }
    {
        fills(command, self.places.len()) && (!command.has_kind() || is_kind(self.place(0)))
    }

    fn has_options_of(&self, command: Command) -> bool
        ensures { result ≡ takes_options command (parts_view self.now).given }
    {
        !(self.has("--toy") && self.has("--verified"))
            && (is_number(self.value("--at-least"))
                && (is_number(self.value("--limit"))
                    && (is_number(self.value("--count"))
                        && (!is_make(command) || self.signer().is_some()))))
    }

    /// Whether a command takes these places with these options.
    pub(crate) fn are_taken_by(&self, command: Command) -> bool
        ensures { result ≡ is_taken command (parts_view self.now).places
            (parts_view self.now).given }
    {
        self.has_places_of(command)
            && (self.has_options_of(command)
                && (self.reads_once(command) && (self.is_one_log() || !self.has_demand())))
    }

    /// Why a command does not take these places with these options, where it would take each of them.
    pub(crate) fn clash(&self, command: Command) -> Option<&'static str> {
        if self.has("--toy") && self.has("--verified") {
            Some("--toy and --verified can't stand together")
        } else if !is_number(self.value("--at-least")) {
            Some("--at-least takes decimal digits, a number below 2^64")
        } else if !is_number(self.value("--limit")) {
            Some("--limit takes decimal digits, a number of bytes below 2^64")
        } else if !is_number(self.value("--count")) {
            Some("--count takes decimal digits, a number of records below 2^64")
        } else if is_make(command) && self.signer().is_none() {
            Some("make takes --key toy:NAME or --key-text TEXT, and one of them alone")
        } else if !self.reads_once(command) {
            Some("standard input, which is -, can be read once alone")
        } else if self.has_demand() && !self.is_one_log() {
            Some("--expect-head, --at-least and --goes-on-from are of one log alone")
        } else {
            None
        }
    }
}
