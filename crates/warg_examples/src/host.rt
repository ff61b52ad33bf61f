//! Audits the logs of packages, whose signatures are verified elsewhere once all logs are judged: `host FILE.. and FILE..`,
//! where the files hold the envelopes of a log in order, and `and` begins another log.

use crate::words::words;
use std::alloc::Global;
use std::rt::{Env, Files};
use std::{fs, mem};
use warg_protocol::external::{SignatureCheck, SignatureVerdict, append, ask};
use warg_protocol::package::LogState;
use warg_protocol::signing::{SignatureError, Verifier};
use warg_protocol::toy::ToyVerifier;

/// A log that is lawful if all signatures belong that its records ask for.
#[derive(Drop)]
struct Judged {
    state: LogState,
    questions: Vec<SignatureCheck>,
}

impl Judged {
    // Judges the next record but for its signature, and goes on as if that belonged.
    fn take(&mut self, alloc: Global, bytes: &[u8]) -> anyhow::Result<()> {
        let told = SignatureVerdict {
            question: ask(alloc, &self.state, bytes)?,
            belongs: true,
        };
        append(alloc, &mut self.state, bytes, &told)?;
        self.questions.push(told.question)?;
        Ok(())
    }
}

// Judges a whole log but for its signatures. What is asked says what the result is worth.
fn judge(alloc: Global, log: &[Vec<u8>]) -> anyhow::Result<Judged> {
    let mut judged = Judged {
        state: LogState::new(alloc)?,
        questions: Vec::new(alloc),
    };
    for input in log {
        judged.take(alloc, input.as_slice())?;
    }
    Ok(judged)
}

// Stands for what verifies elsewhere: a library of another language, other threads, other machines.
fn verify(alloc: Global, question: &SignatureCheck) -> anyhow::Result<bool> {
    let message = question.message.as_slice();
    match ToyVerifier.verify(alloc, &question.key, message, &question.signature) {
        Ok(()) => Ok(true),
        Err(SignatureError::Refused) => Ok(false),
        Err(SignatureError::OutOfMemory) => anyhow::bail!("out of memory"),
    }
}

// What came of a log: where a signature does not belong, nothing of the state is worth anything.
fn verdict(alloc: Global, log: &Judged) -> anyhow::Result<String> {
    for (place, question) in log.questions.iter().enumerate() {
        if !verify(alloc, question)? {
            return Ok(format!(in alloc; "the signature of record {place} is wrong")?);
        }
    }
    let releases = log.state.releases().count();
    Ok(format!(in alloc; "lawful, with {releases} releases")?)
}

// The logs that the program's words name.
fn read_logs(rt: &(impl Alloc<A = Global> + Env + Files)) -> anyhow::Result<Vec<Vec<Vec<u8>>>> {
    let mut logs = Vec::new(rt.alloc());
    let mut log = Vec::new(rt.alloc());
    for word in words(rt)? {
        if word.as_str() == "and" {
            logs.push(mem::replace(&mut log, Vec::new(rt.alloc())))?;
        } else {
            log.push(fs::read(rt, word.as_str())?)?;
        }
    }
    logs.push(log)?;
    Ok(logs)
}

/// Prints the verdict on each log.
pub(crate) fn main(rt: &HostRuntime) -> anyhow::Result<()> {
    let mut judged = Vec::new(rt.alloc());
    for log in read_logs(rt)?.as_slice() {
        judged.push(judge(rt.alloc(), log.as_slice())?)?;
    }
    for log in judged.as_slice() {
        println!(rt; "{}", verdict(rt.alloc(), log)?)?;
    }
    Ok(())
}
