//! The invocation that words are.

ghost use Rattle.std.specs.Prelude.{◌≡◌, ◌<◌, drop, false, IfOk, MatchOption, Some};
ghost use Rattle.tool_words.specs.Commands.{command_of};
ghost use Rattle.tool_words.specs.Invocations.{call_by, call_if_taken, invocation_of, IsCalled, named_by, word};
ghost use Rattle.tool_words.specs.PartsViews.{parts_view};
ghost use Rattle.tool_words.specs.Requests.{AreDemands, IsCheckpointQuery, IsNamedLog, IsNewRecord, IsLogQuery, IsRequest, IsTask, IsWanted, texts};
ghost use Rattle.tool_words.specs.Parts.{place};
ghost use Rattle.tool_words.specs.Rules.{is_taken, kind_of};
ghost use Rattle.tool_words.specs.declared.command.Command.TheVariants as command;
ghost use Rattle.tool_words.specs.declared.command.Doing.TheVariants as doing;
ghost use Rattle.tool_words.specs.declared.command.Verifying.TheVariants as verifying;

use crate::checkpoint::CheckpointQuery;
use crate::command::{Asking, Command, Doing, Naming, Proving, Verifying};
use crate::parts::Parts;
use crate::request::{Demands, Invocation, LogQuery, Request};
use crate::rules::{kind_of, number_in};
use crate::statement::{LeafIds, NamedLog, Statement, Wanted};
use crate::task::{NewRecord, Task};
use std::alloc::{AllocError, Global};
use warg_audit::LogKind;

/// A word, empty where there is none.
pub(crate) fn word<'a>(words: &[&'a str], i: usize) -> &'a str
    ensures { result.now ≡ word i (texts words.now) }
{
    match words.get(i) {
        Some(word) => word,
        None => "",
    }
}

/// The words from a place on.
pub(crate) fn words_from<'w, 'a>(words: &'w [&'a str], start: usize) -> &'w [&'a str]
    ensures { texts result.now ≡ drop start (texts words.now) }
{
    if start <= words.len() {
        &words[start..]
    } else {
        &[]
    }
}

// How many words stand before those of a command.
pub(crate) fn named_by(command: Command) -> usize
    ensures { result ≡ named_by command }
{
    match command {
        Command::LogId(_) | Command::Prove(_) | Command::Verify(_) | Command::Compare(_) => 3,
        Command::Id | Command::Audit | Command::Show | Command::Latest => 2,
        Command::Ask(_) | Command::Do(_) | Command::Message | Command::Leaf => 2,
    }
}

impl<'a> Parts<'a> {
    fn demands(&self) -> Demands<'a>
        ensures { AreDemands (parts_view self.now).given result }
    {
        Demands {
            allows_empty: self.has("--allow-empty"),
            head: self.value("--expect-head"),
            least: number_in(self.value("--at-least")),
            older: self.value("--goes-on-from"),
        }
    }

    fn question(&self, asking: Asking) -> LogQuery<'a>
        ensures { IsLogQuery (command.Ask asking) (parts_view self.now).places
            (parts_view self.now).given result }
    {
        match asking {
            Asking::State => LogQuery::State {
                log: self.place(1),
                limit: self.limit(),
            },
            Asking::Resume => LogQuery::Resume {
                state: self.place(1),
                log: self.place(2),
                limit: self.limit(),
            },
            Asking::Head => LogQuery::Head { log: self.place(1) },
            Asking::ResumedHead => LogQuery::ResumedHead {
                state: self.place(1),
                log: self.place(2),
                count: number_in(self.value("--count")),
            },
            Asking::Permissions => LogQuery::Permissions {
                key_id: self.place(1),
                log: self.place(2),
            },
            Asking::Chain => LogQuery::Chain {
                key_id: self.place(1),
                permission: self.place(2),
                log: self.place(3),
            },
            Asking::Compare => LogQuery::Compare {
                old: self.place(1),
                new: self.place(2),
            },
        }
    }

    // The record that is to be made, if it is said who signs it.
    #[tactic(auto, using(crate::proofs::InvocationLemmas::unsigned))]
    fn draft(&self, alloc: Global) -> Result<Option<NewRecord<'a>>, AllocError>
        ensures { IfOk result (λ it. MatchOption it
            (is_taken (command.Do doing.Make) (parts_view self.now).places (parts_view self.now).given ≡ false)
            (IsNewRecord (parts_view self.now).places (parts_view self.now).given)) }
    {
        let Some(signer) = self.signer() else {
            return Ok(None);
        };
        Ok(Some(NewRecord {
            signer,
            clock: None,
            time: self.place(2),
            entries: Vec::from_slice(alloc, words_from(self.places.as_slice(), 3))?,
        }))
    }

    fn task(&self, alloc: Global, doing: Doing) -> Result<Option<Task<'a>>, AllocError>
        ensures { IfOk result (λ it. MatchOption it
            (is_taken (command.Do doing) (parts_view self.now).places (parts_view self.now).given ≡ false)
            (IsTask (command.Do doing) (parts_view self.now).places (parts_view self.now).given)) }
    {
        match doing {
            Doing::Claims => Ok(Some(Task::Claims {
                log: self.place(1),
                limit: self.limit(),
            })),
            Doing::Make => match self.draft(alloc)? {
                Some(draft) => Ok(Some(Task::Make {
                    log: self.place(1),
                    draft,
                })),
                None => Ok(None),
            },
            Doing::Append => Ok(Some(Task::Append {
                log: self.place(1),
                lines: self.place(2),
                limit: self.limit(),
            })),
        }
    }

    fn named_log(&self, naming: Naming) -> NamedLog<'a>
        ensures { IsNamedLog (command.LogId naming) (parts_view self.now).places
            (parts_view self.now).given result }
    {
        match naming {
            Naming::Package => NamedLog::Package {
                name: self.place(0),
            },
            Naming::Operator => NamedLog::Operator,
        }
    }

    // What is to be proved, and the place of the leaves' file.
    fn proof_request(&self, proving: Proving) -> Request<'a>
        ensures { IsRequest (command.Prove proving) (parts_view self.now).places
            (parts_view self.now).given result }
    {
        match proving {
            Proving::Checkpoint => Request::Prove {
                wanted: Wanted::Checkpoint,
                leaves: self.place(0),
            },
            Proving::Inclusion => Request::Prove {
                wanted: Wanted::Inclusion {
                    place: self.place(0),
                },
                leaves: self.place(1),
            },
            Proving::Consistency => Request::Prove {
                wanted: Wanted::Consistency {
                    length: self.place(0),
                },
                leaves: self.place(1),
            },
            Proving::Head => Request::Prove {
                wanted: Wanted::Head {
                    log_id: self.place(0),
                },
                leaves: self.place(1),
            },
        }
    }

    /// A leaf by its two ids.
    pub(crate) fn leaf(&self, i: usize, j: usize) -> LeafIds<'a>
        ensures log_id { result.log_id.now ≡ place i (parts_view self.now).places }
        ensures record_id { result.record_id.now ≡ place j (parts_view self.now).places }
    {
        LeafIds {
            log_id: self.place(i),
            record_id: self.place(j),
        }
    }

    // What is signed of a checkpoint.
    fn message(&self) -> CheckpointQuery<'a>
        ensures { IsCheckpointQuery command.Message (parts_view self.now).places
            (parts_view self.now).given result }
    {
        CheckpointQuery::Message {
            checkpoint: self.place(0),
            time: self.place(1),
        }
    }

    // Whether a checkpoint is signed.
    fn signature(&self) -> CheckpointQuery<'a>
        ensures { IsCheckpointQuery (command.Verify verifying.Checkpoint)
            (parts_view self.now).places (parts_view self.now).given result }
    {
        CheckpointQuery::Signature {
            checkpoint: self.place(0),
            log: self.place(1),
            schemes: self.schemes(),
        }
    }

    // What is to be verified.
    fn verdict_request(&self, verifying: Verifying) -> Request<'a>
        ensures { IsRequest (command.Verify verifying) (parts_view self.now).places
            (parts_view self.now).given result }
    {
        let statement = match verifying {
            Verifying::Checkpoint => {
                return Request::Checkpoint {
                    query: self.signature(),
                };
            }
            Verifying::Inclusion => Statement::Inclusion {
                checkpoint: self.place(0),
                place: self.place(1),
                leaf: self.leaf(2, 3),
                proof: self.place(4),
            },
            Verifying::Consistency => Statement::Consistency {
                old: self.place(0),
                new: self.place(1),
                proof: self.place(2),
            },
            Verifying::Head => Statement::Head {
                checkpoint: self.place(0),
                leaf: self.leaf(1, 2),
                proof: self.place(3),
            },
            Verifying::Absence => Statement::Absence {
                checkpoint: self.place(0),
                log_id: self.place(1),
                proof: self.place(2),
            },
        };
        Request::Verify { statement }
    }

    fn audit(&self, alloc: Global, kind: LogKind) -> Result<Request<'a>, AllocError>
        requires { kind ≡ kind_of (place 0 (parts_view self.now).places) }
        ensures { IfOk result (IsRequest command.Audit (parts_view self.now).places
            (parts_view self.now).given) }
    {
        if self.is_one_log() {
            return Ok(Request::Audit {
                kind,
                log: self.place(1),
                demands: self.demands(),
                shows_path: self.has("--paths"),
            });
        }
        Ok(Request::Audits {
            kind,
            logs: Vec::from_slice(alloc, words_from(self.places.as_slice(), 1))?,
            allows_empty: self.has("--allow-empty"),
        })
    }

    // The request that a command is with these places and options.
    fn request(&self, alloc: Global, called: Command) -> Result<Option<Request<'a>>, AllocError>
        ensures { IfOk result (λ it. MatchOption it
            (is_taken called (parts_view self.now).places (parts_view self.now).given ≡ false)
            (IsRequest called (parts_view self.now).places (parts_view self.now).given)) }
    {
        let kind = kind_of(self.place(0));
        match called {
            Command::Id => Ok(Some(Request::Id {
                kind,
                log: self.place(1),
            })),
            Command::Audit => Ok(Some(self.audit(alloc, kind)?)),
            Command::Show => Ok(Some(Request::Show {
                kind,
                log: self.place(1),
            })),
            Command::Latest => Ok(Some(Request::Latest {
                requirement: self.place(0),
                log: self.place(1),
            })),
            Command::Ask(asking) => Ok(Some(Request::Ask {
                kind,
                question: self.question(asking),
            })),
            Command::Do(doing) => match self.task(alloc, doing)? {
                Some(task) => Ok(Some(Request::Do { kind, task })),
                None => Ok(None),
            },
            Command::LogId(naming) => Ok(Some(Request::LogId {
                log: self.named_log(naming),
            })),
            Command::Prove(proving) => Ok(Some(self.proof_request(proving))),
            Command::Message => Ok(Some(Request::Checkpoint {
                query: self.message(),
            })),
            Command::Leaf => Ok(Some(Request::Leaf {
                leaf: self.leaf(0, 1),
            })),
            Command::Verify(verifying) => Ok(Some(self.verdict_request(verifying))),
            Command::Compare(comparing) => Ok(Some(Request::Compare {
                views: self.views(comparing),
            })),
        }
    }
}

// The invocation of a command with these parts, if it takes them.
#[tactic(auto, using(crate::proofs::InvocationLemmas::untaken_call))]
fn invocation_with<'a>(
    alloc: Global,
    called: Command,
    parts: &Parts<'a>,
    words: &[&'a str],
) -> Result<Option<Invocation<'a>>, AllocError>
    ensures { IfOk result (IsCalled (call_if_taken called (Some (parts_view parts.now)))
        (texts words.now)) }
{
    if !parts.are_taken_by(called) {
        return Ok(None);
    }
    match parts.request(alloc, called)? {
        Some(request) => Ok(Some(Invocation {
            command: word(words, 1),
            request,
            json: parts.has("--json"),
            limit: parts.limit(),
            verified: parts.value("--verified"),
            toy: parts.has("--toy"),
            full: parts.has("--full"),
            names: parts.value("--names"),
        })),
        None => Ok(None),
    }
}

// The invocation of a command with the words behind it, if they are its.
fn invocation_by<'a>(
    alloc: Global,
    called: Command,
    words: &[&'a str],
) -> Result<Option<Invocation<'a>>, AllocError>
    ensures { IfOk result (IsCalled (call_by (Some called) (texts words.now)) (texts words.now)) }
{
    match Parts::of(alloc, called, words_from(words, named_by(called)))? {
        Some(parts) => invocation_with(alloc, called, &parts, words),
        None => Ok(None),
    }
}

/// The invocation that the words are, if they are one. The first is the program's name.
pub(crate) fn invocation_of<'a>(
    alloc: Global,
    words: &[&'a str],
) -> Result<Option<Invocation<'a>>, AllocError>
    ensures { IfOk result (IsCalled (invocation_of (texts words.now)) (texts words.now)) }
{
    match Command::of(word(words, 1), word(words, 2)) {
        Some(called) => invocation_by(alloc, called, words),
        None => Ok(None),
    }
}
