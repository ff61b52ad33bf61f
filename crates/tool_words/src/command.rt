//! The commands, by the names that they have in the table.

ghost use Rattle.std.specs.Prelude.{◌≡◌, count_by, length};
ghost use Rattle.tool_words.specs.Commands.{command_of, commands, comparison, comparisons, forms, has_kind, has_more, is_needed, named, names, proofs, statements};

/// What is asked of logs of one kind.
#[derive(Clone, Copy, Debug, PartialEq, Eq)]
pub(crate) enum Asking {
    State,
    Resume,
    Head,
    ResumedHead,
    Permissions,
    Chain,
    Compare,
}

/// What is done with a log.
#[derive(Clone, Copy, Debug, PartialEq, Eq)]
pub(crate) enum Doing {
    Claims,
    Make,
    Append,
}

/// Whose id is wanted.
#[derive(Clone, Copy, Debug, PartialEq, Eq)]
pub(crate) enum Naming {
    Package,
    Operator,
}

/// What is proved.
#[derive(Clone, Copy, Debug, PartialEq, Eq)]
pub(crate) enum Proving {
    Checkpoint,
    Inclusion,
    Consistency,
    Head,
}

/// What is verified.
#[derive(Clone, Copy, Debug, PartialEq, Eq)]
pub(crate) enum Verifying {
    Checkpoint,
    Inclusion,
    Consistency,
    Head,
    Absence,
}

/// What is compared of two views of a registry.
#[derive(Clone, Copy, Debug, PartialEq, Eq)]
pub(crate) enum Comparing {
    Checkpoints,
    Leaves,
    Heads,
    Beginnings,
}

/// A command.
#[derive(Clone, Copy, Debug, PartialEq, Eq)]
pub(crate) enum Command {
    Id,
    Audit,
    Show,
    Latest,
    Ask(Asking),
    Do(Doing),
    Message,
    Leaf,
    LogId(Naming),
    Prove(Proving),
    Verify(Verifying),
    Compare(Comparing),
}

/// The command of this name that is in no group.
pub(crate) fn of_name(name: &str) -> Option<Command>
    ensures { result ≡ named name.now commands }
{
    match name {
        "id" => Some(Command::Id),
        "audit" => Some(Command::Audit),
        "show" => Some(Command::Show),
        "state" => Some(Command::Ask(Asking::State)),
        "resume" => Some(Command::Ask(Asking::Resume)),
        "head" => Some(Command::Ask(Asking::Head)),
        "resumed-head" => Some(Command::Ask(Asking::ResumedHead)),
        "latest" => Some(Command::Latest),
        "permissions" => Some(Command::Ask(Asking::Permissions)),
        "chain" => Some(Command::Ask(Asking::Chain)),
        "compare" => Some(Command::Ask(Asking::Compare)),
        "claims" => Some(Command::Do(Doing::Claims)),
        "make" => Some(Command::Do(Doing::Make)),
        "append" => Some(Command::Do(Doing::Append)),
        "message" => Some(Command::Message),
        "leaf" => Some(Command::Leaf),
        _ => None,
    }
}

fn naming_of(name: &str) -> Option<Naming>
    ensures { result ≡ named name.now names }
{
    match name {
        "package" => Some(Naming::Package),
        "operator" => Some(Naming::Operator),
        _ => None,
    }
}

fn proving_of(name: &str) -> Option<Proving>
    ensures { result ≡ named name.now proofs }
{
    match name {
        "checkpoint" => Some(Proving::Checkpoint),
        "inclusion" => Some(Proving::Inclusion),
        "consistency" => Some(Proving::Consistency),
        "head" => Some(Proving::Head),
        _ => None,
    }
}

fn verifying_of(name: &str) -> Option<Verifying>
    ensures { result ≡ named name.now statements }
{
    match name {
        "checkpoint" => Some(Verifying::Checkpoint),
        "inclusion" => Some(Verifying::Inclusion),
        "consistency" => Some(Verifying::Consistency),
        "head" => Some(Verifying::Head),
        "absence" => Some(Verifying::Absence),
        _ => None,
    }
}

fn comparing_of(name: &str) -> Option<Comparing>
    ensures { result ≡ named name.now comparisons }
{
    match name {
        "checkpoints" => Some(Comparing::Checkpoints),
        "leaves" => Some(Comparing::Leaves),
        "heads" => Some(Comparing::Heads),
        "beginnings" => Some(Comparing::Beginnings),
        _ => None,
    }
}

// The comparison that the word behind `compare` names: that of two logs, where it names no other.
fn comparison_of(name: &str) -> Command
    ensures { result ≡ comparison (named name.now comparisons) }
{
    match comparing_of(name) {
        Some(comparing) => Command::Compare(comparing),
        None => Command::Ask(Asking::Compare),
    }
}

impl Command {
    /// The command that these two words name; the second is a part of the name within a group alone.
    pub(crate) fn of(first: &str, second: &str) -> Option<Command>
        ensures { result ≡ command_of first.now second.now }
    {
        match first {
            "log-id" => naming_of(second).map(|it| Command::LogId(it)),
            "prove" => proving_of(second).map(|it| Command::Prove(it)),
            "verify" => verifying_of(second).map(|it| Command::Verify(it)),
            "compare" => Some(comparison_of(second)),
            _ => of_name(first),
        }
    }

    /// How many places have to be filled.
    pub(crate) fn least(self) -> usize
        ensures { result ≡ count_by is_needed (forms self) }
    {
        match self {
            Command::Id | Command::Audit | Command::Show | Command::Latest => 1,
            Command::Ask(Asking::State | Asking::Head) => 1,
            Command::Ask(Asking::Resume | Asking::ResumedHead | Asking::Permissions) => 2,
            Command::Ask(Asking::Chain | Asking::Compare) => 3,
            Command::Do(Doing::Claims) => 1,
            Command::Do(Doing::Make) => 3,
            Command::Do(Doing::Append) => 2,
            Command::Message | Command::Leaf => 2,
            Command::LogId(Naming::Package) => 1,
            Command::LogId(Naming::Operator) => 0,
            Command::Prove(Proving::Checkpoint) => 0,
            Command::Prove(Proving::Inclusion | Proving::Consistency | Proving::Head) => 1,
            Command::Verify(Verifying::Checkpoint) => 1,
            Command::Verify(Verifying::Inclusion) => 5,
            Command::Verify(Verifying::Consistency | Verifying::Absence) => 3,
            Command::Verify(Verifying::Head) => 4,
            Command::Compare(Comparing::Checkpoints) => 2,
            Command::Compare(Comparing::Leaves) => 9,
            Command::Compare(Comparing::Heads) => 6,
            Command::Compare(Comparing::Beginnings) => 5,
        }
    }

    /// How many places there are; more words may follow where `has_more` says so.
    pub(crate) fn most(self) -> usize
        ensures { result ≡ length (forms self) }
    {
        match self {
            Command::Id | Command::Show | Command::Latest => 2,
            Command::Audit => 3,
            Command::Ask(Asking::State | Asking::Head) => 2,
            Command::Ask(Asking::Resume | Asking::ResumedHead) => 3,
            Command::Ask(Asking::Permissions | Asking::Compare) => 3,
            Command::Ask(Asking::Chain) => 4,
            Command::Do(Doing::Claims) => 2,
            Command::Do(Doing::Make) => 4,
            Command::Do(Doing::Append) => 3,
            Command::Message | Command::Leaf => 2,
            Command::LogId(Naming::Package) => 1,
            Command::LogId(Naming::Operator) => 0,
            Command::Prove(Proving::Checkpoint) => 1,
            Command::Prove(Proving::Inclusion | Proving::Consistency | Proving::Head) => 2,
            Command::Verify(Verifying::Checkpoint) => 2,
            Command::Verify(Verifying::Inclusion) => 5,
            Command::Verify(Verifying::Consistency | Verifying::Absence) => 3,
            Command::Verify(Verifying::Head) => 4,
            Command::Compare(Comparing::Checkpoints) => 3,
            Command::Compare(Comparing::Leaves) => 9,
            Command::Compare(Comparing::Heads) => 6,
            Command::Compare(Comparing::Beginnings) => 5,
        }
    }

    /// Whether any number of words may stand from the last place on.
    pub(crate) fn has_more(self) -> bool
        ensures { result ≡ has_more (forms self) }
    {
        match self {
            Command::Audit | Command::Do(Doing::Make) => true,
            Command::Id | Command::Show | Command::Latest | Command::Ask(_) => false,
            Command::Do(Doing::Claims | Doing::Append) => false,
            Command::Message | Command::Leaf | Command::LogId(_) => false,
            Command::Prove(_) | Command::Verify(_) | Command::Compare(_) => false,
        }
    }

    /// Whether the kind of the log comes first.
    pub(crate) fn has_kind(self) -> bool
        ensures { result ≡ has_kind (forms self) }
    {
        match self {
            Command::Id | Command::Audit | Command::Show | Command::Ask(_) | Command::Do(_) => true,
            Command::Latest | Command::Message | Command::Leaf | Command::LogId(_) => false,
            Command::Prove(_) | Command::Verify(_) | Command::Compare(_) => false,
        }
    }
}
