//! Laws of what is printed, one a command, and one of all. They have no effect.

ghost use Rattle.std.specs.Prelude.{ℕ, Bool, List, Option};
ghost use Rattle.tool_answers.specs.Verdicts.{IsNegative};
ghost use Rattle.warg_audit.specs.Answers.{IsIdAnswer};
ghost use Rattle.warg_audit.specs.LogKinds.{operator_log, package_log};
ghost use Rattle.warg_audit.specs.Printouts.{OutputData};
ghost use Rattle.tool_checkpoints.specs.CheckpointAnswers.{IsCheckpointAnswer};
ghost use Rattle.tool_checkpoints.specs.Comparisons.{IsViewsAnswer};
ghost use Rattle.tool_checkpoints.specs.LeafTexts.{IsLeafAnswer};
ghost use Rattle.tool_checkpoints.specs.LogIdTexts.{IsLogIdAnswer};
ghost use Rattle.tool_checkpoints.specs.ProofTexts.{IsProofAnswer};
ghost use Rattle.tool_checkpoints.specs.Proofs.{IsStatementVerdict};
ghost use Rattle.warg_audit.specs.Files.Files.{Files};
ghost use Rattle.warg_audit.specs.declared.log_kind.LogKind.{LogKind};
ghost use Rattle.warg_printable.specs.Lines.{IsPrintedText};
ghost use Rattle.tool_laws.specs.Premises.{IfMade, IfMakes};
ghost use Rattle.warg_protocol.specs.Logs.{SignatureRelation};
ghost use Rattle.tool_changes.specs.JsonLines.{IsInJson};
ghost use Rattle.tool_changes.specs.ManyAudits.{IsManyAnswer, IsOneAnswer};
ghost use Rattle.tool_changes.specs.Tasks.{IsDoneAnswer};
ghost use Rattle.tool_words.specs.declared.checkpoint.CheckpointQuery.{CheckpointQuery};
ghost use Rattle.tool_words.specs.declared.request.Demands.{Demands};
ghost use Rattle.tool_words.specs.declared.request.Invocation.{Invocation};
ghost use Rattle.tool_words.specs.declared.request.LogQuery.{LogQuery};
ghost use Rattle.tool_words.specs.declared.statement.LeafIds.{LeafIds};
ghost use Rattle.tool_words.specs.declared.statement.NamedLog.{NamedLog};
ghost use Rattle.tool_words.specs.declared.statement.Statement.{Statement};
ghost use Rattle.tool_words.specs.declared.statement.Wanted.{Wanted};
ghost use Rattle.tool_words.specs.declared.task.Task.{Task};
ghost use Rattle.tool_words.specs.declared.views.Views.{Views};
ghost use Rattle.weoldrin.specs.Requests.{IsAskedAnswer, IsInvocationAnswer, IsLatestAnswer, IsShownAnswer};

/// What is said of lines that are no lawful log is lines without a hidden character.
pub fn run_errors_are_printed()
    ensures package { (belongs : SignatureRelation) (lines : List (List ℕ)) (printed : OutputData) →
        IsNegative package_log belongs lines printed → IsPrintedText printed.text }
    ensures operator { (belongs : SignatureRelation) (lines : List (List ℕ)) (printed : OutputData) →
        IsNegative operator_log belongs lines printed → IsPrintedText printed.text }
{}

/// So is the id of a record.
pub fn ids_are_printed()
    ensures { (kind : LogKind) (lines : List (List ℕ)) (printed : OutputData) →
        IsIdAnswer kind lines printed → IsPrintedText printed.text }
{}

/// So are verdicts on logs, with their releases, and behind paths.
pub fn audits_are_printed()
    ensures one { (json : Bool) (files : Option Files) (kind : LogKind)
        (belongs : SignatureRelation) (demands : Demands) (shows_path : Bool) (path : List ℕ)
        (printed : OutputData) → IsOneAnswer json kind belongs files demands shows_path path printed →
        IsPrintedText printed.text }
    ensures many { (json : Bool) (kind : LogKind) (belongs : SignatureRelation)
        (files : Option Files) (allows_empty : Bool) (words : List (List ℕ)) (printed : OutputData) →
        IsManyAnswer json kind belongs files allows_empty words printed →
        IsPrintedText printed.text }
{}

/// So is a log in words, and why a record is refused.
pub fn shown_logs_are_printed()
    ensures { (kind : LogKind) (belongs : SignatureRelation) (files : Option Files)
        (path : List ℕ) (printed : OutputData) →
        IsShownAnswer kind belongs files path printed → IsPrintedText printed.text }
{}

/// So is the release that meets a requirement best.
pub fn releases_are_printed()
    ensures { (belongs : SignatureRelation) (files : Option Files) (requirement path : List ℕ)
        (printed : OutputData) →
        IsLatestAnswer belongs files requirement path printed → IsPrintedText printed.text }
{}

/// So are the answers to questions: states, last records, permissions, chains and comparisons.
pub fn questions_are_printed()
    ensures { (kind : LogKind) (belongs : SignatureRelation) (files : Option Files)
        (question : LogQuery) (printed : OutputData) →
        IsAskedAnswer kind belongs files question printed → IsPrintedText printed.text }
{}

/// So is the id of a log.
pub fn log_ids_are_printed()
    ensures { (log : NamedLog) (printed : OutputData) → IsLogIdAnswer log printed →
        IsPrintedText printed.text }
{}

/// So is the leaf of a record.
pub fn leaves_are_printed()
    ensures { (ids : LeafIds) (printed : OutputData) → IsLeafAnswer ids printed →
        IsPrintedText printed.text }
{}

/// So are checkpoints and proofs.
pub fn proofs_are_printed()
    ensures { (files : Option Files) (words : Wanted) (path : List ℕ) (printed : OutputData) →
        IsProofAnswer files words path printed → IsPrintedText printed.text }
{}

/// So is what is said of a statement.
pub fn statements_are_printed()
    ensures { (files : Option Files) (statement : Statement) (printed : OutputData) →
        IsStatementVerdict files statement printed → IsPrintedText printed.text }
{}

/// So is how two views of a registry compare.
pub fn comparisons_are_printed()
    ensures { (files : Option Files) (views : Views) (printed : OutputData) →
        IsViewsAnswer files views printed → IsPrintedText printed.text }
{}

/// So is the message that is signed of a checkpoint, and what is said of its signature.
pub fn checkpoint_answers_are_printed()
    ensures { (belongs : SignatureRelation) (files : Option Files) (query : CheckpointQuery)
        (printed : OutputData) → IsCheckpointAnswer files belongs query printed →
        IsPrintedText printed.text }
{}

/// So are the answers to tasks: claims, records that are made, where their hex digits are those of bytes, and additions.
pub fn tasks_are_printed()
    ensures { (kind : LogKind) (belongs : SignatureRelation) (old new : Option Files)
        (task : Task) (printed : OutputData) → IsDoneAnswer kind belongs old new task printed →
        IfMade task printed.text → IsPrintedText printed.text }
{}

/// So is every answer in JSON.
pub fn json_is_printed()
    ensures { (command : List ℕ) (printed : OutputData) (told : List ℕ) (json : OutputData) →
        IsInJson command printed told json → IsPrintedText json.text }
{}

/// So is what is answered to any invocation.
pub fn answers_are_printed()
    ensures { (old new : Option Files) (it : Invocation) (told : List ℕ) (printed : OutputData) →
        IsInvocationAnswer old new it told printed → IfMakes it.request printed.text →
        IsPrintedText printed.text }
{}
