//! Plays the rows of one file.
use crate::program::play_program;
use conformance_rows::{Answer, Block, Report, Row, RowError, blocks};
use std::alloc::Global;

/// Plays the rows of a text.
pub fn play_text(alloc: Global, text: &str) -> Result<Report, RowError> {
    let mut report = Report::new(alloc);
    for block in blocks(alloc, text)?.iter() {
        play_block(alloc, block, &mut report)?;
    }
    Ok(report)
}

// The head of a script ends with a colon, and is no row.
fn play_block(alloc: Global, block: &Block, report: &mut Report) -> Result<(), RowError> {
    let text = block.head.text.as_str();
    match text.strip_suffix(':') {
        Some(head) if Row::parse(text).is_none() => play_script(alloc, head, block, report),
        _ => play_row(alloc, block, report),
    }
}

fn play_script(
    alloc: Global,
    head: &str,
    block: &Block,
    report: &mut Report,
) -> Result<(), RowError> {
    let (topic, words) = head.split_once(' ').unwrap_or((head, ""));
    let number = block.head.number;
    match play_topic(alloc, topic, words, block, report) {
        Ok(true) => Ok(()),
        Ok(false) => report.refuse(alloc, number, head, "an unknown topic"),
        Err(fail) => report.refuse(alloc, number, head, fail.as_str()),
    }
}

// Whether a library has the topic, and plays the script then.
fn play_topic(
    alloc: Global,
    topic: &str,
    words: &str,
    script: &Block,
    report: &mut Report,
) -> Result<bool, RowError> {
    if topic != "audit" {
        return conformance_logs::play(alloc, topic, words, script, report);
    }
    play_program(alloc, words, script, report)?;
    Ok(true)
}

fn play_row(alloc: Global, block: &Block, report: &mut Report) -> Result<(), RowError> {
    let (number, text) = (block.head.number, block.head.text.as_str());
    let Some(row) = Row::parse(text) else {
        return report.refuse(alloc, number, text, "a row without an answer");
    };
    if !block.lines.is_empty() {
        return report.refuse(alloc, number, text, "indented lines below a row");
    }
    match answer(alloc, row.topic, row.words) {
        Ok(Some(answer)) => {
            let seen = answer.written(alloc)?;
            let question = format!(in alloc; "{} {}", row.topic, row.words)?;
            report.count(alloc, number, question.as_str(), row.wanted, seen.as_str())
        }
        Ok(None) => report.refuse(alloc, number, text, "an unknown topic"),
        Err(fail) => report.refuse(alloc, number, text, fail.as_str()),
    }
}

// The answer of the library that has the topic. The one of proofs has two kinds of the topic `parse`, and leaves the others.
fn answer(alloc: Global, topic: &str, words: &str) -> Result<Option<Answer>, RowError> {
    if let Some(answer) = crate::proofs::answer(alloc, topic, words)? {
        return Ok(Some(answer));
    }
    if let Some(answer) = conformance_values::answer(alloc, topic, words)? {
        return Ok(Some(answer));
    }
    if let Some(answer) = conformance_messages::answer(alloc, topic, words)? {
        return Ok(Some(answer));
    }
    conformance_logs::answer(alloc, topic, words)
}
