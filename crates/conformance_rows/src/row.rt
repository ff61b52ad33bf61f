//! A row of one line.
use crate::quotes::Quotes;

/// A row: `TOPIC WORDS.. = ANSWER`, or `TOPIC WORDS.. ! FAULT`.
#[derive(Clone, Copy)]
pub struct Row<'a> {
    /// The first word.
    pub topic: &'a str,
    /// What stands between the topic and the separator.
    pub words: &'a str,
    /// The answer with the separator, `= ANSWER` or `! FAULT`.
    pub wanted: &'a str,
}

impl<'a> Row<'a> {
    /// The row of a line; none without the first ` = ` or ` ! ` outside quotes.
    pub fn parse(line: &'a str) -> Option<Row<'a>> {
        let (question, wanted) = Row::split(line)?;
        let (topic, words) = question.split_once(' ').unwrap_or((question, ""));
        Some(Row {
            topic,
            words,
            wanted,
        })
    }

    /// The question of a line and the answer with the separator.
    pub fn split(line: &'a str) -> Option<(&'a str, &'a str)> {
        let mut quotes = Quotes::new();
        for (at, c) in line.char_indices() {
            quotes.pass(c);
            if c == ' ' && !quotes.inside {
                let (question, answer) = line.split_at_checked(at)?;
                if answer.starts_with(" = ") || answer.starts_with(" ! ") {
                    return Some((question.trim(), answer.trim()));
                }
            }
        }
        None
    }
}
