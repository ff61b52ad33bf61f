//! Plays a script: a log that grows line by line, with what is asked of it on the way.
//!
//! - A line of hex digits is an envelope, and any other a record that `ScriptDraft` reads, signed. It is appended unless it is
//!   refused. `again` is the last envelope once more.
//! - `! YankOfYanked 1.0.0`, after a line: that line was refused for this cause. The log is as before it.
//! - `? permissions bob = only release`: the log's answer to a question.
//! - `state JSON`: the log goes on from this saved state.
//! - `resume`: the state is saved and read back, and the log goes on from what was read.
//! - `aside`: the log is put aside, and a new one begins, which is compared with it.
use crate::questions::ask;
use crate::scripts::{ScriptLog, check, next_input};
use crate::steps::{advance, check_state};
use conformance_rows::{Block, Line, Report, Row, RowError};
use std::alloc::Global;
use std::mem;
use warg_protocol::toy::ToyVerifier;
use warg_protocol::{AuditedLog, run_from};

/// A log on the way.
#[derive(Drop)]
pub struct Log<L: ScriptLog> {
    /// The state that the inputs go on from.
    base: L,
    /// The state.
    pub state: L,
    /// The inputs that made it.
    pub inputs: Vec<Vec<u8>>,
    /// The log that is kept beside its records; none behind a saved state.
    pub kept: Option<AuditedLog<L, ToyVerifier>>,
}

impl<L: ScriptLog> Log<L> {
    /// The empty log.
    pub fn new(alloc: Global) -> Result<Log<L>, RowError> {
        Ok(Log {
            base: L::new(alloc)?,
            state: L::new(alloc)?,
            inputs: Vec::new(alloc),
            kept: Some(AuditedLog::new(alloc, ToyVerifier)?),
        })
    }

    // The log that goes on from this state.
    fn behind(alloc: Global, state: L) -> Result<Log<L>, RowError> {
        Ok(Log {
            base: state.try_clone()?,
            state,
            inputs: Vec::new(alloc),
            kept: None,
        })
    }

    // Its inputs have to lead to its state again.
    fn run_again(&self, alloc: Global) -> Result<(), RowError> {
        let base = self.base.try_clone()?;
        let again = run_from(alloc, base, &ToyVerifier, self.inputs.as_slice());
        check_state(again, &self.state)
    }

    // Saves the state, and goes on from what is read back.
    fn resume(&mut self, alloc: Global) -> Result<(), RowError> {
        let json = self.state.json(alloc)?;
        let state = L::of_json(alloc, json.as_str())?;
        check(state == self.state, "another state is read back")?;
        self.state = state;
        Ok(())
    }
}

// A line that was refused, and the cause in words.
#[derive(Drop)]
struct RefusedLine {
    line: usize,
    text: String,
    words: String,
}

/// A script on the way.
#[derive(Drop)]
struct Player<L: ScriptLog> {
    log: Log<L>,
    aside: Option<Log<L>>,
    refused: Option<RefusedLine>,
}

/// Plays a script from the empty log on. Each question and each error is a row.
pub fn play_log<L: ScriptLog>(
    alloc: Global,
    script: &Block,
    report: &mut Report,
) -> Result<(), RowError> {
    let mut player = Player::<L>::new(alloc)?;
    player.play(alloc, script, report)
}

impl<L: ScriptLog> Player<L> {
    fn new(alloc: Global) -> Result<Player<L>, RowError> {
        Ok(Player {
            log: Log::new(alloc)?,
            aside: None,
            refused: None,
        })
    }

    fn play(&mut self, alloc: Global, script: &Block, report: &mut Report) -> Result<(), RowError> {
        for line in script.lines.iter() {
            self.play_line(alloc, line, report)?;
        }
        self.tell_refused(alloc, report)?;
        self.log.run_again(alloc)
    }

    fn play_line(
        &mut self,
        alloc: Global,
        line: &Line,
        report: &mut Report,
    ) -> Result<(), RowError> {
        let text = line.text.as_str();
        match self.try_line(alloc, line, report) {
            Ok(()) => Ok(()),
            Err(fail) => report.refuse(alloc, line.number, text, fail.as_str()),
        }
    }

    fn try_line(
        &mut self,
        alloc: Global,
        line: &Line,
        report: &mut Report,
    ) -> Result<(), RowError> {
        let text = line.text.as_str();
        if text.starts_with("! ") {
            return self.expect(alloc, line, report);
        }
        self.tell_refused(alloc, report)?;
        match text.strip_prefix("? ") {
            Some(question) => self.ask(alloc, line.number, question, report),
            None => self.go_on(alloc, line),
        }
    }

    // Another line than a question or an error.
    fn go_on(&mut self, alloc: Global, line: &Line) -> Result<(), RowError> {
        let text = line.text.as_str();
        match text {
            "resume" => self.log.resume(alloc),
            "aside" => self.put_aside(alloc),
            "again" => {
                let input = self.log.inputs.last().ok_or("no record")?.clone()?;
                self.append(alloc, line, input)
            }
            _ => match text.strip_prefix("state ") {
                Some(json) => self.load(alloc, json),
                None => {
                    let input = next_input(alloc, &self.log.state, text)?;
                    self.append(alloc, line, input)
                }
            },
        }
    }

    fn put_aside(&mut self, alloc: Global) -> Result<(), RowError> {
        self.log.run_again(alloc)?;
        let new = Log::new(alloc)?;
        self.aside = Some(mem::replace(&mut self.log, new));
        Ok(())
    }

    fn load(&mut self, alloc: Global, json: &str) -> Result<(), RowError> {
        self.log = Log::behind(alloc, L::of_json(alloc, json)?)?;
        Ok(())
    }

    fn append(&mut self, alloc: Global, line: &Line, input: Vec<u8>) -> Result<(), RowError> {
        if let Some(words) = advance(alloc, &mut self.log, input)? {
            self.refused = Some(RefusedLine {
                line: line.number,
                text: line.text.clone()?,
                words,
            });
        }
        Ok(())
    }

    // The line that was refused last was refused for this cause.
    fn expect(&mut self, alloc: Global, line: &Line, report: &mut Report) -> Result<(), RowError> {
        let wanted = line.text.as_str();
        match self.refused.take() {
            Some(refused) => {
                let seen = format!(in alloc; "! {}", refused.words)?;
                report.count(
                    alloc,
                    line.number,
                    refused.text.as_str(),
                    wanted,
                    seen.as_str(),
                )
            }
            None => report.count(alloc, line.number, "the line before", wanted, "accepted"),
        }
    }

    // An error that no line names.
    fn tell_refused(&mut self, alloc: Global, report: &mut Report) -> Result<(), RowError> {
        match self.refused.take() {
            Some(refused) => {
                let seen = format!(in alloc; "! {}", refused.words)?;
                report.count(
                    alloc,
                    refused.line,
                    refused.text.as_str(),
                    "accepted",
                    seen.as_str(),
                )
            }
            None => Ok(()),
        }
    }

    fn ask(
        &self,
        alloc: Global,
        number: usize,
        line: &str,
        report: &mut Report,
    ) -> Result<(), RowError> {
        let (question, wanted) = Row::split(line).ok_or("a question without an answer")?;
        let seen = ask(alloc, &self.log, self.aside.as_ref(), question)?.written(alloc)?;
        report.count(alloc, number, question, wanted, seen.as_str())
    }
}
