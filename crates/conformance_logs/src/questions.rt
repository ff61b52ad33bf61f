//! What is asked of a log on the way.
use crate::effect::effect_of;
use crate::player::Log;
use crate::scripts::{ScriptLog, check, id, none, words_of};
use crate::written::{permissions_written, value_written, written};
use conformance_rows::{Answer, RowError};
use std::alloc::{AllocError, Global};
use warg_protocol::toy::ToyVerifier;
use warg_protocol::{AuditedLog, Comparison, HeadComparison, Link};

/// The log's answer to a question, beside the log that was put aside.
pub fn ask<L: ScriptLog>(
    alloc: Global,
    log: &Log<L>,
    aside: Option<&Log<L>>,
    question: &str,
) -> Result<Answer, RowError> {
    let (look_up, subject, permission) = words_of(question);
    match look_up {
        "saved" => saved(alloc, &log.state, subject),
        "head-json" => head_json(alloc, &log.state),
        "effect" => valued(effect(alloc, log, question)),
        "chain" => valued(chain(alloc, log, subject, permission)),
        "records" => records(alloc, log),
        "heads" => heads(alloc, log, aside),
        "comparison" => valued(comparison(alloc, log, aside)),
        "equal" => equal(alloc, log, aside),
        _ => valued(log.state.answer(alloc, look_up, subject)),
    }
}

fn valued(text: Result<String, RowError>) -> Result<Answer, RowError> {
    Ok(Answer::Value(text?))
}

// The state as it is saved, or what is saved of a person's permissions.
fn saved<L: ScriptLog>(alloc: Global, state: &L, name: &str) -> Result<Answer, RowError> {
    if name == "" {
        return written(alloc, state);
    }
    permissions_written(alloc, state, id(alloc, name)?.as_str())
}

fn head_json<L: ScriptLog>(alloc: Global, state: &L) -> Result<Answer, RowError> {
    match state.last() {
        Some(head) => value_written(alloc, head),
        None => valued(none(alloc)),
    }
}

fn records<L: ScriptLog>(alloc: Global, log: &Log<L>) -> Result<Answer, RowError> {
    Answer::value(alloc, &count(kept(log)?)?)
}

fn beside<'a, L: ScriptLog>(aside: Option<&'a Log<L>>) -> Result<&'a Log<L>, RowError> {
    match aside {
        Some(aside) => Ok(aside),
        None => Err(RowError::new("no log is put aside")),
    }
}

fn equal<L: ScriptLog>(
    alloc: Global,
    log: &Log<L>,
    aside: Option<&Log<L>>,
) -> Result<Answer, RowError> {
    Answer::value(alloc, &(log.state == beside(aside)?.state))
}

// Of an entry of the last record: `effect 1 bob release`.
fn effect<L: ScriptLog>(alloc: Global, log: &Log<L>, question: &str) -> Result<String, RowError> {
    let (_, subject) = question.split_once(' ').ok_or("no entry")?;
    let input = log.inputs.last().ok_or("no record")?;
    let effect = effect_of::<L>(alloc, input.as_slice(), subject)?;
    Ok(String::from_str(alloc, effect)?)
}

fn kept<'a, L: ScriptLog>(log: &'a Log<L>) -> Result<&'a AuditedLog<L, ToyVerifier>, RowError> {
    Ok(log.kept.as_ref().ok_or("no records are kept")?)
}

// By which entries, a record's place and an entry's each, the person came to hold the permission.
fn chain<L: ScriptLog>(
    alloc: Global,
    log: &Log<L>,
    name: &str,
    permission: &str,
) -> Result<String, RowError> {
    let key_id = id(alloc, name)?;
    match kept(log)?.permission_chain(&key_id, L::permission(permission)?)? {
        Some(links) => places(alloc, links.as_slice()),
        None => none(alloc),
    }
}

fn places(alloc: Global, links: &[Link]) -> Result<String, RowError> {
    let mut text = String::new(alloc);
    for link in links {
        if !text.is_empty() {
            text.push(' ')?;
        }
        write!(text, "{}.{}", link.record_index, link.entry_index)?;
    }
    Ok(text)
}

// What the heads of the log and of the one that was put aside say.
fn heads<L: ScriptLog>(
    alloc: Global,
    log: &Log<L>,
    aside: Option<&Log<L>>,
) -> Result<Answer, RowError> {
    let text = match kept(log)?.compare_heads(kept(beside(aside)?)?) {
        HeadComparison::Same => "same",
        HeadComparison::Different => "different",
        HeadComparison::Collision { .. } => "collision",
    };
    Answer::value(alloc, &text)
}

// How the records of the log and of the one that was put aside compare, and at which place.
fn comparison<L: ScriptLog>(
    alloc: Global,
    log: &Log<L>,
    aside: Option<&Log<L>>,
) -> Result<String, RowError> {
    let comparison = kept(log)?.compare(kept(beside(aside)?)?);
    Ok(comparison_text(alloc, &comparison)?)
}

fn comparison_text(alloc: Global, comparison: &Comparison) -> Result<String, AllocError> {
    match comparison {
        Comparison::Same => String::from_str(alloc, "same"),
        Comparison::LeftIsPrefix { at } => format!(in alloc; "left-is-prefix {at}"),
        Comparison::RightIsPrefix { at } => format!(in alloc; "right-is-prefix {at}"),
        Comparison::Fork { at } => format!(in alloc; "fork {at}"),
        Comparison::Collision { left, right } => format!(in alloc; "collision {left} {right}"),
    }
}

// How many records are kept. A log with none has no head, and else its head is the last record's id.
fn count<L: ScriptLog>(log: &AuditedLog<L, ToyVerifier>) -> Result<usize, RowError> {
    let last = log.records().last();
    check(
        log.head().copied() == last.map(|envelope| L::record_id(envelope)),
        "the head is not the last record",
    )?;
    check(
        log.is_empty() == last.is_none(),
        "records without a last one",
    )?;
    check(
        log.len() == log.records().len(),
        "another number of records",
    )?;
    Ok(log.len())
}
