//! What the words of the program ask for.

ghost use Rattle.std.specs.Prelude.{◌≡◌, ℕ, List};
ghost use Rattle.std.specs.Borrow.{Bor};
ghost use Rattle.warg_audit.specs.declared.log_kind.LogKind.{LogKind as OfLogKind};
ghost use Rattle.tool_words.specs.declared.request.Request.TheVariants as asked;
ghost use Rattle.tool_words.specs.declared.task.NewRecord.{NewRecord as OfNewRecord};
ghost use Rattle.tool_words.specs.declared.task.Task.TheVariants as task;

use crate::checkpoint::CheckpointQuery;
use crate::statement::{LeafIds, NamedLog, Statement, Wanted};
use crate::task::Task;
use crate::views::Views;
use warg_audit::LogKind;
use warg_crypto::time::Timestamp;

/// What is asked of logs of one kind, with the paths of the files. `-` is standard input.
#[derive(Clone, Copy, Debug, PartialEq, Eq)]
pub enum LogQuery<'a> {
    /// The state that the log adds up to, as JSON.
    State {
        /// The log.
        log: &'a str,
        /// How many bytes the state may have.
        limit: u64,
    },
    /// The state after the records of a log, from a saved one.
    Resume {
        /// The saved state.
        state: &'a str,
        /// The records that came since.
        log: &'a str,
        /// How many bytes the new state may have.
        limit: u64,
    },
    /// The last record, and how many there are.
    Head {
        /// The log.
        log: &'a str,
    },
    /// The same after the records of a log, from a saved state.
    ResumedHead {
        /// The saved state.
        state: &'a str,
        /// The records that came since.
        log: &'a str,
        /// How many records the log had when the state was saved, where that is said.
        count: Option<u64>,
    },
    /// What a key holds.
    Permissions {
        /// The key's id.
        key_id: &'a str,
        /// The log.
        log: &'a str,
    },
    /// By which entries a key came to hold a permission.
    Chain {
        /// The key's id.
        key_id: &'a str,
        /// The permission's text.
        permission: &'a str,
        /// The log.
        log: &'a str,
    },
    /// How a log compares with an older copy of it.
    Compare {
        /// The older copy.
        old: &'a str,
        /// The newer one.
        new: &'a str,
    },
}

/// What a log has to be for a yes, beside lawful.
#[derive(Clone, Copy, Debug, PartialEq, Eq)]
pub struct Demands<'a> {
    /// Whether it may have no records.
    pub allows_empty: bool,
    /// The id that its head has to be.
    pub head: Option<&'a str>,
    /// How many records it has at least.
    pub least: Option<u64>,
    /// The file of an older copy, which it has to go on from.
    pub older: Option<&'a str>,
}

/// What is asked.
#[derive(Debug, Drop)]
pub enum Request<'a> {
    /// The id of one record.
    Id {
        /// The kind of its log.
        kind: LogKind,
        /// The file with its line.
        log: &'a str,
    },
    /// The verdict on a log.
    Audit {
        /// Its kind.
        kind: LogKind,
        /// The log.
        log: &'a str,
        /// What it has to be.
        demands: Demands<'a>,
        /// Whether its path stands before each line.
        shows_path: bool,
    },
    /// The verdicts on many logs, a line each. A path that begins with `@` names a file of paths.
    Audits {
        /// Their kind.
        kind: LogKind,
        /// Their paths.
        logs: Vec<&'a str>,
        /// Whether they may have no records.
        allows_empty: bool,
    },
    /// The log in words, and why a record is refused.
    Show {
        /// Its kind.
        kind: LogKind,
        /// The log.
        log: &'a str,
    },
    /// The greatest release of a package that meets a requirement.
    Latest {
        /// The requirement's text.
        requirement: &'a str,
        /// The log.
        log: &'a str,
    },
    /// The id of a log.
    LogId {
        /// Which it is.
        log: NamedLog<'a>,
    },
    /// The leaf that a record has in a registry's log.
    Leaf {
        /// The ids of the log and of the record.
        leaf: LeafIds<'a>,
    },
    /// What a registry is to prove.
    Prove {
        /// What it is.
        wanted: Wanted<'a>,
        /// The file of its leaves.
        leaves: &'a str,
    },
    /// What is to be verified.
    Verify {
        /// What it is.
        statement: Statement<'a>,
    },
    /// What is to be compared of a registry.
    Compare {
        /// What it is.
        views: Views<'a>,
    },
    /// What is asked of a checkpoint.
    Checkpoint {
        /// What it is.
        query: CheckpointQuery<'a>,
    },
    /// What is asked of logs of one kind.
    Ask {
        /// The kind.
        kind: LogKind,
        /// What is asked.
        question: LogQuery<'a>,
    },
    /// What is done with a log.
    Do {
        /// The kind of the log.
        kind: LogKind,
        /// What is done.
        task: Task<'a>,
    },
}

/// A request, and how it is to be answered.
#[derive(Debug, Drop)]
pub struct Invocation<'a> {
    /// The name of the command.
    pub command: &'a str,
    /// What is asked.
    pub request: Request<'a>,
    /// Whether the answer is printed as JSON, a line an object.
    pub json: bool,
    /// How many bytes a file may have.
    pub limit: u64,
    /// The file of the signatures that were verified; none where the program verifies them.
    pub verified: Option<&'a str>,
    /// Whether signatures of the toy scheme, which anyone can forge, are taken too.
    pub toy: bool,
    /// Whether ids are shown whole.
    pub full: bool,
    /// The file of names for keys, where keys are called by such.
    pub names: Option<&'a str>,
}

impl Invocation<'_> {
    /// Notes what the clock tells, where the time of a record that is made may be that.
    pub fn tell_time(&mut self, clock: Option<Timestamp>)
        ensures made { (kind : OfLogKind) (log : Bor (List ℕ)) (draft : OfNewRecord) →
            self.old.request ≡ asked.Do kind (task.Make log draft) →
            self.new.request ≡ asked.Do kind (task.Make log (record {
              signer = draft.signer;
              clock = clock;
              time = draft.time;
              entries = draft.entries;
            })) }
        ensures others { ((kind : OfLogKind) (log : Bor (List ℕ)) (draft : OfNewRecord) →
            self.old.request ≡ asked.Do kind (task.Make log draft) → ⊥) →
            self.new.request ≡ self.old.request }
        ensures command { self.new.command ≡ self.old.command }
        ensures json { self.new.json ≡ self.old.json }
        ensures limit { self.new.limit ≡ self.old.limit }
        ensures verified { self.new.verified ≡ self.old.verified }
        ensures toy { self.new.toy ≡ self.old.toy }
        ensures full { self.new.full ≡ self.old.full }
        ensures names { self.new.names ≡ self.old.names }
    {
        if let Request::Do {
            task: Task::Make { draft, .. },
            ..
        } = &mut self.request
        {
            draft.clock = clock;
        }
    }
}

/// What the words say.
#[derive(Debug, Drop)]
pub enum Said<'a> {
    /// Something is asked.
    Invocation(Invocation<'a>),
    /// A text is asked for alone, help or the version: this is it.
    Help(String),
    /// They can't be used: this says why.
    Fault(String),
}
