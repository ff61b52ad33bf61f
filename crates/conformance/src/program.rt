//! What the program `warg_audit` answers: `audit WORDS..:` with the program's words, lines `NAME = TEXT` that name parts of
//! inputs, and `? INPUT = STATUS PRINTED`, where `{NAME}` in the input stands for that part.
use conformance_rows::{Block, Line, Report, Row, RowError, Words, quoted};
use std::alloc::Global;
use warg_audit::{Input, Output, USAGE, audit};

// The parts that are named, each as `{NAME}` and its text.
type Parts = Vec<(String, String)>;

/// Plays such a script.
pub fn play_program(
    alloc: Global,
    words: &str,
    script: &Block,
    report: &mut Report,
) -> Result<(), RowError> {
    let words = all_words(alloc, words)?;
    let mut parts = Vec::new(alloc);
    for line in script.lines.iter() {
        match line.text.as_str().strip_prefix("? ") {
            Some(question) => ask(alloc, words.as_slice(), &parts, line, question, report)?,
            None => parts.push(part(alloc, line)?)?,
        }
    }
    Ok(())
}

fn all_words(alloc: Global, words: &str) -> Result<Vec<String>, RowError> {
    let mut words = Words::new(words);
    let mut texts = Vec::new(alloc);
    for _ in 0..u64::MAX {
        if words.is_empty() {
            break;
        }
        texts.push(words.next(alloc)?)?;
    }
    Ok(texts)
}

fn part(alloc: Global, line: &Line) -> Result<(String, String), RowError> {
    let (name, text) = line
        .text
        .as_str()
        .split_once(" = ")
        .ok_or("a part without a text")?;
    Ok((
        format!(in alloc; "{{{name}}}")?,
        String::from_str(alloc, text)?,
    ))
}

// The input, with the parts in place of their names.
fn input(alloc: Global, parts: &Parts, question: &str) -> Result<String, RowError> {
    let mut input = Words::new(question).rest_text(alloc)?;
    for (name, text) in parts.iter() {
        input = input.as_str().replace(alloc, name.as_str(), text.as_str())?;
    }
    Ok(input)
}

fn ask(
    alloc: Global,
    words: &[String],
    parts: &Parts,
    line: &Line,
    question: &str,
    report: &mut Report,
) -> Result<(), RowError> {
    let (question, wanted) = Row::split(question).ok_or("a question without an answer")?;
    let input = input(alloc, parts, question)?;
    let seen = answer(alloc, words, input.as_bytes())?;
    report.count(alloc, line.number, question, wanted, seen.as_str())
}

// The exit status and what is printed. Where that is the usage, nothing was read.
fn answer(alloc: Global, words: &[String], input: &[u8]) -> Result<String, RowError> {
    let mut input = Input::new(input);
    let mut output = Output::new(Vec::new(alloc));
    let status = audit(alloc, words, &mut input, &mut output);
    let printed = String::from_utf8(output.into_inner())?;
    if (printed.as_str() == USAGE) != (input.reads() == 0) {
        return Err(RowError::new("the input is read where none is asked for, or is not read"));
    }
    Ok(format!(in alloc; "= {status} {}", quoted(alloc, printed.as_str())?)?)
}
