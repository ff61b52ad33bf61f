//! The topics of the conformance suite that speak of whole logs: scripts of logs of both kinds, inputs that are read as a
//! whole, saved states, and the texts of errors.
#![tactic(auto)]

mod effect;
mod player;
mod questions;
mod runs;
mod saved;
pub mod scripts;
mod steps;
mod texts;
mod written;

use crate::scripts::{ScriptLog, words_of};
use conformance_rows::{Answer, Block, Report, RowError};
use player::play_log;
use runs::play_run;
use std::alloc::Global;
use warg_protocol::{operator as operator_log, package as package_log};

/// The answer to a row of one of this crate's topics, or `None` where it has no such topic.
pub fn answer(alloc: Global, topic: &str, words: &str) -> Result<Option<Answer>, RowError> {
    Ok(match topic {
        "saved" => Some(saved::answer(alloc, words)?),
        "refusal" => Some(texts::answer(alloc, words)?),
        "newest-version" => Some(newest_version(alloc, words)?),
        _ => None,
    })
}

// The newest version of the protocol for logs of a kind.
fn newest_version(alloc: Global, kind: &str) -> Result<Answer, RowError> {
    match kind {
        "package" => Answer::value(alloc, &package_log::PACKAGE_RECORD_VERSION),
        "operator" => Answer::value(alloc, &operator_log::OPERATOR_RECORD_VERSION),
        _ => Err(RowError::new("a strange kind of log")),
    }
}

/// Plays a script, of which each question and each error is a row, and returns whether its topic is known.
pub fn play(
    alloc: Global,
    topic: &str,
    words: &str,
    script: &Block,
    report: &mut Report,
) -> Result<bool, RowError> {
    let (kind, _, _) = words_of(words);
    match kind {
        "package" => play_kind::<package_log::LogState>(alloc, topic, script, report),
        "operator" => play_kind::<operator_log::LogState>(alloc, topic, script, report),
        _ => Ok(false),
    }
}

fn play_kind<L: ScriptLog>(
    alloc: Global,
    topic: &str,
    script: &Block,
    report: &mut Report,
) -> Result<bool, RowError> {
    match topic {
        "log" => play_log::<L>(alloc, script, report)?,
        "run" => play_run::<L>(alloc, script, report)?,
        _ => return Ok(false),
    }
    Ok(true)
}
