//! What is asked of logs of one kind, from the files that are named.

ghost use Rattle.warg_audit.specs.Files.Answers.{Answers};
ghost use Rattle.tool_questions.specs.HeadTexts.{IsHeadText, IsResumedHead};
ghost use Rattle.tool_questions.specs.Questions.{IsChainText, IsCompared, IsPermissionsText, IsStateText};
ghost use Rattle.warg_audit.specs.Files.RecordLines.{record_lines};
ghost use Rattle.tool_questions.specs.QuestionAnswers.{IsQuestionAnswer};
ghost use Rattle.tool_questions.specs.QuestionWords.{askable};
ghost use Rattle.warg_audit.specs.Files.Unusable.{IsOfFile, IsOfLines};
ghost use Rattle.tool_questions.specs.Resumption.{IsNextText, IsResumed};
ghost use Rattle.warg_audit.specs.ReportWords.{ForDisplay};
ghost use Rattle.tool_answers.specs.Texts.{saved_text};
ghost use Rattle.tool_answers.specs.Verdicts.{IsPrintedOf};
ghost use Rattle.tool_answers.specs.Words.{IsByWord};
ghost use Rattle.std.specs.Prelude.{◌≡◌};

use crate::chain::{chain_answer, wanted_permission};
use crate::compare::compare_answer;
use crate::head::{HeadedLog, head_answer, resumed_head_answer};
use crate::permissions::permissions_answer;
use crate::resume::resume_answer;
use crate::state::state_answer;
use std::alloc::Global;
use tool_answers::kind::ToolLog;
use tool_words::LogQuery;
use warg_audit::files::command_error::CommandError;
use warg_audit::files::command_output::CommandOutput;
use warg_audit::files::input::{Input, Store, read_input};
use warg_protocol::signing::Verifier;

fn state_of_file<L: ToolLog, V: Verifier, S: Store>(
    alloc: Global,
    verifier: &V,
    limit: u64,
    path: &str,
    store: &mut S,
) -> Result<CommandOutput, CommandError>
    ensures answered { ForDisplay L.log L.Record.reading L.report (λ log.
        Answers (IsOfLines (S.files store.old) path.now
        (IsPrintedOf log (V.belongs verifier.now)
        (IsStateText log L.view (saved_text limit L.json_of)))) result) }
    ensures kept { S.files store.new ≡ S.files store.old }
{
    match read_input(alloc, store, path) {
        Ok(input) => state_answer::<L, V>(alloc, verifier, limit, input),
        Err(error) => Err(error),
    }
}

fn permissions_of_file<L: ToolLog, V: Verifier, S: Store>(
    alloc: Global,
    verifier: &V,
    key_id: &str,
    path: &str,
    store: &mut S,
) -> Result<CommandOutput, CommandError>
    ensures answered { ForDisplay L.log L.Record.reading L.report (λ log. Answers (IsOfLines
        (S.files store.old) path.now (IsPrintedOf log (V.belongs verifier.now) (IsPermissionsText
        log L.view L.has_key L.knows L.holds L.order L.text_of key_id.now))) result) }
    ensures kept { S.files store.new ≡ S.files store.old }
{
    match read_input(alloc, store, path) {
        Ok(input) => permissions_answer::<L, V>(alloc, verifier, key_id, input),
        Err(error) => Err(error),
    }
}

fn chain_of_file<L: ToolLog, V: Verifier, S: Store>(
    alloc: Global,
    verifier: &V,
    key_id: &str,
    permission: L::Permission,
    path: &str,
    store: &mut S,
) -> Result<CommandOutput, CommandError>
    ensures answered { ForDisplay L.log L.Record.reading L.report (λ log.
        Answers (IsOfLines (S.files store.old) path.now (IsPrintedOf log (V.belongs verifier.now)
        (IsChainText log L.says_words L.view L.has_key L.effects key_id.now permission))) result) }
    ensures kept { S.files store.new ≡ S.files store.old }
{
    match read_input(alloc, store, path) {
        Ok(input) => chain_answer::<L, V>(alloc, verifier, key_id, permission, input),
        Err(error) => Err(error),
    }
}

// The chain of a permission by its word.
fn chain_of_word<L: ToolLog, V: Verifier, S: Store>(
    alloc: Global,
    verifier: &V,
    key_id: &str,
    word: &str,
    path: &str,
    store: &mut S,
) -> Result<CommandOutput, CommandError>
    ensures answered { ForDisplay L.log L.Record.reading L.report (λ log.
        Answers (IsByWord (λ it. L.text_of it ≡ word.now) (λ it.
        IsOfLines (S.files store.old) path.now (IsPrintedOf log (V.belongs verifier.now)
        (IsChainText log L.says_words L.view L.has_key L.effects key_id.now it)))) result) }
    ensures kept { S.files store.new ≡ S.files store.old }
{
    match wanted_permission::<L>(alloc, word) {
        Ok(permission) => {
            chain_of_file::<L, V, S>(alloc, verifier, key_id, permission, path, store)
        }
        Err(error) => Err(error),
    }
}

fn resumed_from_file<L: ToolLog, V: Verifier, S: Store>(
    alloc: Global,
    verifier: &V,
    limit: u64,
    saved: Input<'_>,
    path: &str,
    store: &mut S,
) -> Result<CommandOutput, CommandError>
    ensures answered { ForDisplay L.log L.Record.reading L.report (λ log.
        Answers (IsOfLines (S.files store.old) path.now (IsResumed log
        (V.belongs verifier.now) L.view (IsNextText (saved_text limit L.json_of)) L.state_of
        saved.entry.bytes.items)) result) }
    ensures kept { S.files store.new ≡ S.files store.old }
{
    match read_input(alloc, store, path) {
        Ok(input) => resume_answer::<L, V>(alloc, verifier, limit, saved, input),
        Err(error) => Err(error),
    }
}

fn resumed_from_files<L: ToolLog, V: Verifier, S: Store>(
    alloc: Global,
    verifier: &V,
    limit: u64,
    state: &str,
    path: &str,
    store: &mut S,
) -> Result<CommandOutput, CommandError>
    ensures answered { ForDisplay L.log L.Record.reading L.report (λ log. Answers
        (IsOfFile (S.files store.old) state.now (λ saved. IsOfLines (S.files store.old) path.now
        (IsResumed log (V.belongs verifier.now) L.view (IsNextText (saved_text limit L.json_of))
        L.state_of saved))) result) }
    ensures kept { S.files store.new ≡ S.files store.old }
{
    match read_input(alloc, store, state) {
        Ok(saved) => resumed_from_file::<L, V, S>(alloc, verifier, limit, saved, path, store),
        Err(error) => Err(error),
    }
}

fn head_of_file<L: HeadedLog, V: Verifier, S: Store>(
    alloc: Global,
    verifier: &V,
    path: &str,
    store: &mut S,
) -> Result<CommandOutput, CommandError>
    ensures answered { ForDisplay L.log L.Record.reading L.report (λ log.
        Answers (IsOfLines (S.files store.old) path.now
        (IsPrintedOf log (V.belongs verifier.now) (IsHeadText log L.view L.last))) result) }
    ensures kept { S.files store.new ≡ S.files store.old }
{
    match read_input(alloc, store, path) {
        Ok(input) => head_answer::<L, V>(alloc, verifier, input),
        Err(error) => Err(error),
    }
}

fn resumed_head_from_file<L: HeadedLog, V: Verifier, S: Store>(
    alloc: Global,
    verifier: &V,
    count: Option<u64>,
    saved: Input<'_>,
    path: &str,
    store: &mut S,
) -> Result<CommandOutput, CommandError>
    ensures answered { ForDisplay L.log L.Record.reading L.report (λ log.
        Answers (IsOfLines (S.files store.old) path.now (IsResumed log
        (V.belongs verifier.now) L.view (IsResumedHead L.last count) L.state_of
        saved.entry.bytes.items)) result) }
    ensures kept { S.files store.new ≡ S.files store.old }
{
    match read_input(alloc, store, path) {
        Ok(input) => resumed_head_answer::<L, V>(alloc, verifier, count, saved, input),
        Err(error) => Err(error),
    }
}

fn resumed_head_from_files<L: HeadedLog, V: Verifier, S: Store>(
    alloc: Global,
    verifier: &V,
    count: Option<u64>,
    state: &str,
    path: &str,
    store: &mut S,
) -> Result<CommandOutput, CommandError>
    ensures answered { ForDisplay L.log L.Record.reading L.report (λ log. Answers
        (IsOfFile (S.files store.old) state.now (λ saved. IsOfLines (S.files store.old) path.now
        (IsResumed log (V.belongs verifier.now) L.view (IsResumedHead L.last count)
        L.state_of saved))) result) }
    ensures kept { S.files store.new ≡ S.files store.old }
{
    match read_input(alloc, store, state) {
        Ok(saved) => resumed_head_from_file::<L, V, S>(alloc, verifier, count, saved, path, store),
        Err(error) => Err(error),
    }
}

fn compared_with_file<L: ToolLog, V: Verifier, S: Store>(
    alloc: Global,
    verifier: &V,
    old: Input<'_>,
    path: &str,
    store: &mut S,
) -> Result<CommandOutput, CommandError>
    ensures answered { ForDisplay L.log L.Record.reading L.report (λ log.
        Answers (IsOfLines (S.files store.old) path.now (IsCompared log L.says_words
        (V.belongs verifier.now) (record_lines old.entry.bytes.items))) result) }
    ensures kept { S.files store.new ≡ S.files store.old }
{
    match read_input(alloc, store, path) {
        Ok(new) => compare_answer::<L, V>(alloc, verifier, old, new),
        Err(error) => Err(error),
    }
}

fn compared_files<L: ToolLog, V: Verifier, S: Store>(
    alloc: Global,
    verifier: &V,
    old: &str,
    new: &str,
    store: &mut S,
) -> Result<CommandOutput, CommandError>
    ensures answered { ForDisplay L.log L.Record.reading L.report (λ log. Answers
        (IsOfLines (S.files store.old) old.now (λ before. IsOfLines (S.files store.old) new.now
        (IsCompared log L.says_words (V.belongs verifier.now) before))) result) }
    ensures kept { S.files store.new ≡ S.files store.old }
{
    match read_input(alloc, store, old) {
        Ok(old) => compared_with_file::<L, V, S>(alloc, verifier, old, new, store),
        Err(error) => Err(error),
    }
}

/// The answer to what is asked of logs of this kind.
pub fn question_answer<L: HeadedLog, V: Verifier, S: Store>(
    alloc: Global,
    verifier: &V,
    question: &LogQuery<'_>,
    store: &mut S,
) -> Result<CommandOutput, CommandError>
    ensures answered { ForDisplay L.log L.Record.reading L.report (λ log.
        Answers (IsQuestionAnswer (askable L.log L.tool L.holds L.effects L.last log) L.says_words
        (V.belongs verifier.now) (S.files store.old) question.now) result) }
    ensures kept { S.files store.new ≡ S.files store.old }
{
    match question {
        LogQuery::State { log, limit } => {
            state_of_file::<L, V, S>(alloc, verifier, *limit, log, store)
        }
        LogQuery::Resume { state, log, limit } => {
            resumed_from_files::<L, V, S>(alloc, verifier, *limit, state, log, store)
        }
        LogQuery::Head { log } => head_of_file::<L, V, S>(alloc, verifier, log, store),
        LogQuery::ResumedHead { state, log, count } => {
            resumed_head_from_files::<L, V, S>(alloc, verifier, *count, state, log, store)
        }
        LogQuery::Permissions { key_id, log } => {
            permissions_of_file::<L, V, S>(alloc, verifier, key_id, log, store)
        }
        LogQuery::Chain {
            key_id,
            permission,
            log,
        } => chain_of_word::<L, V, S>(alloc, verifier, key_id, permission, log, store),
        LogQuery::Compare { old, new } => {
            compared_files::<L, V, S>(alloc, verifier, old, new, store)
        }
    }
}
