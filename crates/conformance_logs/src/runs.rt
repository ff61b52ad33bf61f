//! Inputs that are read as a whole: `run KIND TITLE:`, inputs, and `! 1 KeyIDNotRecognized bob`, the first that is
//! refused and the cause, or questions about the state that they add up to.
use crate::scripts::{ScriptLog, cause_words, check, input_of};
use crate::written::written;
use conformance_rows::{Answer, Block, Line, Report, Row, RowError};
use std::alloc::Global;
use warg_protocol::toy::ToyVerifier;
use warg_protocol::{AuditedLog, RunError, run};

/// Plays such a script.
pub fn play_run<L: ScriptLog>(
    alloc: Global,
    script: &Block,
    report: &mut Report,
) -> Result<(), RowError> {
    let mut inputs = Vec::new(alloc);
    let mut last = None;
    for line in script.lines.iter() {
        let text = line.text.as_str();
        if text.starts_with("! ") || text.starts_with("? ") {
            tell::<L>(alloc, inputs.as_slice(), line, report)?;
        } else if text == "again" {
            let again = last_of(inputs.as_slice())?;
            inputs.push(again)?;
        } else {
            inputs.push(input_of::<L>(alloc, &mut last, text)?)?;
        }
    }
    Ok(())
}

// A copy of the last input.
fn last_of(inputs: &[Vec<u8>]) -> Result<Vec<u8>, RowError> {
    match inputs.last() {
        Some(last) => Ok(last.clone()?),
        None => Err(RowError::new("no string")),
    }
}

fn tell<L: ScriptLog>(
    alloc: Global,
    inputs: &[Vec<u8>],
    line: &Line,
    report: &mut Report,
) -> Result<(), RowError> {
    let text = line.text.as_str();
    let Some(question) = text.strip_prefix("? ") else {
        let seen = outcome::<L>(alloc, inputs)?;
        return report.count(alloc, line.number, "the strings", text, seen.as_str());
    };
    let (question, wanted) = Row::split(question).ok_or("a question without an answer")?;
    let seen = ask::<L>(alloc, inputs, question)?.written(alloc)?;
    report.count(alloc, line.number, question, wanted, seen.as_str())
}

// The first input that is refused and the cause. A log that is kept takes the inputs before it.
fn outcome<L: ScriptLog>(alloc: Global, inputs: &[Vec<u8>]) -> Result<String, RowError> {
    match run::<L, ToyVerifier>(alloc, &ToyVerifier, inputs) {
        Ok(_) => Ok(String::from_str(alloc, "accepted")?),
        Err(error) => refused_words::<L>(alloc, inputs, &error),
    }
}

fn refused_words<L: ScriptLog>(
    alloc: Global,
    inputs: &[Vec<u8>],
    error: &RunError<L::Error>,
) -> Result<String, RowError> {
    let words = cause_words::<L>(alloc, &error.cause)?;
    let text = format!(in alloc; "! {} {words}", error.index)?;
    keeps_front::<L>(alloc, inputs, error.index, text.as_str())?;
    Ok(text)
}

// The kept log refuses the same input for the same cause, and has those before it.
fn keeps_front<L: ScriptLog>(
    alloc: Global,
    inputs: &[Vec<u8>],
    index: usize,
    wanted: &str,
) -> Result<(), RowError> {
    let mut log = AuditedLog::<L, ToyVerifier>::new(alloc, ToyVerifier)?;
    let is_same = match log.append_all(inputs) {
        Ok(()) => false,
        Err(error) => is_told::<L>(alloc, &error, wanted)?,
    };
    check(is_same, "the kept log answers otherwise")?;
    check(
        log.records().len() == index,
        "the kept log has another length",
    )
}

fn is_told<L: ScriptLog>(
    alloc: Global,
    error: &RunError<L::Error>,
    wanted: &str,
) -> Result<bool, RowError> {
    let words = cause_words::<L>(alloc, &error.cause)?;
    let text = format!(in alloc; "! {} {words}", error.index)?;
    Ok(text.as_str() == wanted)
}

// What the state of all inputs answers.
fn ask<L: ScriptLog>(
    alloc: Global,
    inputs: &[Vec<u8>],
    question: &str,
) -> Result<Answer, RowError> {
    match run::<L, ToyVerifier>(alloc, &ToyVerifier, inputs) {
        Ok(state) => answer(alloc, &state, question),
        Err(_) => Err(RowError::new("the strings are refused")),
    }
}

fn answer<L: ScriptLog>(alloc: Global, state: &L, question: &str) -> Result<Answer, RowError> {
    if question == "saved" {
        return written(alloc, state);
    }
    let (look_up, subject) = question.split_once(' ').unwrap_or((question, ""));
    Ok(Answer::Value(state.answer(alloc, look_up, subject)?))
}
