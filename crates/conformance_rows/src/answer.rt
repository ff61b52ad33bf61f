//! What a row is answered.
use crate::RowError;
use crate::quotes::quoted;
use std::alloc::Global;
use std::fmt::{Debug, Display};

/// The answer to a row's question.
#[derive(Debug, Drop, PartialEq)]
pub enum Answer {
    /// A value, which stands behind ` = `.
    Value(String),
    /// A fault, which stands behind ` ! `.
    Fault(String),
}

impl Answer {
    /// A value's text, in quotes where it needs them.
    pub fn value<T: Display>(alloc: Global, value: &T) -> Result<Answer, RowError> {
        let text = value.to_string(alloc)?;
        Ok(Answer::Value(quoted(alloc, text.as_str())?))
    }

    /// A fault's text, such as a name.
    pub fn fault<T: Display>(alloc: Global, fault: &T) -> Result<Answer, RowError> {
        Ok(Answer::Fault(fault.to_string(alloc)?))
    }

    /// The cases of a fault from the outside in: `Contents.Prev.BadHex`, and the last one's field behind a space:
    /// `Contents.Permission 3`.
    pub fn cases<E: Debug>(alloc: Global, fault: &E) -> Result<Answer, RowError> {
        let text = format!(in alloc; "{fault:?}")?;
        Ok(Answer::Fault(cases(alloc, text.as_str())?))
    }

    /// A value's text, or the cases of a fault.
    pub fn of<T: Display + Drop, E: Debug + Drop>(
        alloc: Global,
        outcome: Result<T, E>,
    ) -> Result<Answer, RowError> {
        match outcome {
            Ok(value) => Answer::value(alloc, &value),
            Err(fault) => Answer::cases(alloc, &fault),
        }
    }

    /// The answer as a row has it, with its separator.
    pub fn written(&self, alloc: Global) -> Result<String, RowError> {
        Ok(match self {
            Answer::Value(text) => format!(in alloc; "= {text}")?,
            Answer::Fault(text) => format!(in alloc; "! {text}")?,
        })
    }
}

// `Contents(Prev(BadHex))` as `Contents.Prev.BadHex`, and `Permission(3)` as `Permission 3`.
fn cases(alloc: Global, debug: &str) -> Result<String, RowError> {
    let mut text = String::new(alloc);
    for part in debug.trim_end_matches(')').split('(') {
        if text.is_empty() {
            text.push_str(part)?;
        } else if part.starts_with(|c: char| c.is_ascii_uppercase()) {
            write!(text, ".{part}")?;
        } else {
            write!(text, " {part}")?;
        }
    }
    Ok(text)
}
