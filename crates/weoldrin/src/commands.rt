//! The commands: what each answers to the bytes of its files.

ghost use Rattle.std.specs.Prelude.{◌≡◌, IfOk, string_bytes};
ghost use Rattle.warg_audit.specs.Answers.{IsIdAnswer};
ghost use Rattle.warg_audit.specs.LogKinds.{package_log};
ghost use Rattle.warg_audit.specs.Files.Answers.{output_data, Answers};
ghost use Rattle.tool_changes.specs.Latest.{IsLatestOf};
ghost use Rattle.weoldrin.specs.Looks.{as_it_is, layout_of};
ghost use Rattle.weoldrin.specs.Requests.{is_many, IsAskedAnswer, IsRendered, IsLatestAnswer, IsRequestAnswer};
ghost use Rattle.weoldrin.specs.Requests.{IsResponseTo, IsShownAnswer, RequestLeaves};
ghost use Rattle.tool_changes.specs.Tasks.{DoneLeaves, IsDoneAnswer};
ghost use Rattle.warg_audit.specs.Files.Unusable.{IsOfLines};
ghost use Rattle.tool_answers.specs.Verdicts.{IsPrintedOf};

use crate::looks::laid_out;
use std::alloc::{AllocError, Global};
use tool_changes::{
    Audit, audits_answer, id_answer, json_answer, latest_answer, requirement_of, task_answer,
};
use tool_checkpoints::{
    checkpoint_answer, compare_answer, leaf_answer, log_id_answer, prove_answer, verify_answer,
};
use tool_layout::Look;
use tool_questions::question_answer;
use tool_questions::show::show_of_file;
use tool_words::{Invocation, LogQuery, Request, Task};
use warg_audit::LogKind;
use warg_audit::files::command_error::{CommandError, into_output};
use warg_audit::files::command_output::CommandOutput;
use warg_audit::files::input::{Store, read_input};
use warg_protocol::signing::Verifier;
use warg_protocol::{VersionReq, operator, package};

// The log of a kind in words.
fn shown_answer<V: Verifier, S: Store>(
    alloc: Global,
    verifier: &V,
    kind: LogKind,
    log: &str,
    store: &mut S,
) -> Result<CommandOutput, CommandError>
    ensures answered { Answers (IsShownAnswer kind (V.belongs verifier.now) (S.files store.old)
        log.now) result }
    ensures kept { S.files store.new ≡ S.files store.old }
{
    match kind {
        LogKind::Package => show_of_file::<package::LogState, V, S>(alloc, verifier, log, store),
        LogKind::Operator => show_of_file::<operator::LogState, V, S>(alloc, verifier, log, store),
    }
}

// The answer to what is asked of logs of a kind.
fn asked_answer<V: Verifier, S: Store>(
    alloc: Global,
    verifier: &V,
    kind: LogKind,
    question: &LogQuery<'_>,
    store: &mut S,
) -> Result<CommandOutput, CommandError>
    ensures answered { Answers (IsAskedAnswer kind (V.belongs verifier.now) (S.files store.old)
        question.now) result }
    ensures kept { S.files store.new ≡ S.files store.old }
{
    match kind {
        LogKind::Package => {
            question_answer::<package::LogState, V, S>(alloc, verifier, question, store)
        }
        LogKind::Operator => {
            question_answer::<operator::LogState, V, S>(alloc, verifier, question, store)
        }
    }
}

// The answer when a task on a log of a kind is done.
fn done_answer<V: Verifier, S: Store>(
    alloc: Global,
    verifier: &V,
    kind: LogKind,
    task: &Task<'_>,
    store: &mut S,
) -> Result<CommandOutput, CommandError>
    ensures answered { Answers (IsDoneAnswer kind (V.belongs verifier.now) (S.files store.old)
        (S.files store.new) task.now) result }
    ensures files { DoneLeaves kind (V.belongs verifier.now) (S.files store.old)
        (S.files store.new) task.now }
{
    match kind {
        LogKind::Package => task_answer::<package::LogState, V, S>(alloc, verifier, task, store),
        LogKind::Operator => task_answer::<operator::LogState, V, S>(alloc, verifier, task, store),
    }
}

// The greatest release of the log in a file that meets a requirement.
fn latest_in_file<V: Verifier, S: Store>(
    alloc: Global,
    verifier: &V,
    wanted: &VersionReq,
    log: &str,
    store: &mut S,
) -> Result<CommandOutput, CommandError>
    ensures answered { Answers (IsOfLines (S.files store.old) log.now
        (IsPrintedOf package_log (V.belongs verifier.now)
        (IsLatestOf wanted.now.comparators.items))) result }
    ensures kept { S.files store.new ≡ S.files store.old }
{
    match read_input(alloc, store, log) {
        Ok(input) => latest_answer(alloc, verifier, wanted, input),
        Err(error) => Err(error),
    }
}

// The same by the requirement's word.
fn latest_of_file<V: Verifier, S: Store>(
    alloc: Global,
    verifier: &V,
    requirement: &str,
    log: &str,
    store: &mut S,
) -> Result<CommandOutput, CommandError>
    ensures answered { Answers (IsLatestAnswer (V.belongs verifier.now) (S.files store.old)
        requirement.now log.now) result }
    ensures kept { S.files store.new ≡ S.files store.old }
{
    match requirement_of(alloc, requirement) {
        Ok(wanted) => latest_in_file(alloc, verifier, &wanted, log, store),
        Err(error) => Err(error),
    }
}

// The id of the record in a file.
fn id_of_file<S: Store>(
    alloc: Global,
    kind: LogKind,
    log: &str,
    store: &mut S,
) -> Result<CommandOutput, CommandError>
    ensures answered { Answers (IsOfLines (S.files store.old) log.now (IsIdAnswer kind)) result }
    ensures kept { S.files store.new ≡ S.files store.old }
{
    match read_input(alloc, store, log) {
        Ok(input) => id_answer(alloc, kind, input),
        Err(error) => Err(error),
    }
}

// What a request is answered; verdicts behind paths in JSON, if that is wanted.
fn request_answer<V: Verifier, S: Store>(
    alloc: Global,
    verifier: &V,
    request: &Request<'_>,
    is_json: bool,
    store: &mut S,
) -> Result<CommandOutput, CommandError>
    ensures answered { Answers (IsRequestAnswer is_json (V.belongs verifier.now)
        (S.files store.old) (S.files store.new) request.now) result }
    ensures files { RequestLeaves (V.belongs verifier.now) (S.files store.old)
        (S.files store.new) request.now }
{
    match request {
        Request::Id { kind, log } => id_of_file(alloc, *kind, log, store),
        Request::Audit {
            kind,
            log,
            demands,
            shows_path,
        } => {
            let audit = Audit {
                alloc,
                verifier,
                kind: *kind,
                demands: *demands,
                shows_path: *shows_path,
                is_json,
            };
            audit.of_file(log, store)
        }
        Request::Audits {
            kind,
            logs,
            allows_empty,
        } => audits_answer(
            alloc,
            verifier,
            *kind,
            store,
            logs.as_slice(),
            *allows_empty,
            is_json,
        ),
        Request::Show { kind, log } => shown_answer(alloc, verifier, *kind, log, store),
        Request::Latest { requirement, log } => {
            latest_of_file(alloc, verifier, requirement, log, store)
        }
        Request::LogId { log } => log_id_answer(alloc, log),
        Request::Leaf { leaf } => leaf_answer(alloc, leaf),
        Request::Prove { wanted, leaves } => prove_answer(alloc, wanted, leaves, store),
        Request::Verify { statement } => verify_answer(alloc, statement, store),
        Request::Compare { views } => compare_answer(alloc, views, store),
        Request::Checkpoint { query } => checkpoint_answer(alloc, verifier, query, store),
        Request::Ask { kind, question } => asked_answer(alloc, verifier, *kind, question, store),
        Request::Do { kind, task } => done_answer(alloc, verifier, *kind, task, store),
    }
}

/// An answer before that to a request, as it is wanted: as it is, or in JSON.
pub(crate) fn render(
    alloc: Global,
    is_json: bool,
    command: &str,
    answer: CommandOutput,
) -> Result<CommandOutput, AllocError>
    ensures { IfOk result (λ it. IsRendered is_json command.now as_it_is (output_data answer)
        (string_bytes it.error_text) (output_data it)) }
{
    if is_json {
        json_answer(alloc, command, answer)
    } else {
        Ok(answer)
    }
}

// The answer to a request, as it is wanted: laid out for people, or in JSON.
fn render_in(
    alloc: Global,
    invocation: &Invocation<'_>,
    look: &Look,
    answer: CommandOutput,
) -> Result<CommandOutput, AllocError>
    ensures { IfOk result (λ it. IsRendered invocation.now.json invocation.now.command.now
        (layout_of invocation.now.request look.now) (output_data answer)
        (string_bytes it.error_text) (output_data it)) }
{
    if invocation.json {
        json_answer(alloc, invocation.command, answer)
    } else {
        laid_out(alloc, look, &invocation.request, answer)
    }
}

// Whether verdicts behind paths are asked for: they have an object for each log already.
fn is_many(request: &Request<'_>) -> bool
    ensures { result ≡ is_many request.now }
{
    match request {
        Request::Audits { .. } => true,
        Request::Audit { shows_path, .. } => *shows_path,
        Request::Id { .. }
        | Request::Show { .. }
        | Request::Latest { .. }
        | Request::LogId { .. }
        | Request::Leaf { .. }
        | Request::Prove { .. }
        | Request::Verify { .. }
        | Request::Compare { .. }
        | Request::Checkpoint { .. }
        | Request::Ask { .. }
        | Request::Do { .. } => false,
    }
}

/// What the request is answered in a look, from the bytes of the files that it names.
pub fn respond<V: Verifier, S: Store>(
    alloc: Global,
    verifier: &V,
    invocation: &Invocation<'_>,
    look: &Look,
    store: &mut S,
) -> Result<CommandOutput, AllocError>
    ensures answered { IfOk result (λ answer. IsResponseTo look.now (V.belongs verifier.now)
        (S.files store.old) (S.files store.new) invocation.now
        (string_bytes answer.error_text) (output_data answer)) }

    // What files hold is changed by records that are added alone, also where memory runs out.
    ensures files { RequestLeaves (V.belongs verifier.now) (S.files store.old)
        (S.files store.new) invocation.now.request }
{
    let request = &invocation.request;
    let answer = into_output(request_answer(alloc, verifier, request, invocation.json, store))?;
    if is_many(request) {
        Ok(answer)
    } else {
        render_in(alloc, invocation, look, answer)
    }
}
