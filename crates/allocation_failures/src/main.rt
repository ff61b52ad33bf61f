//! Makes calls that take memory on a log of three records, and prints a line for each: what it answers, or the name of its
//! error. `tools/checks/refused_memory` runs it again and again, with another one of its requests for memory refused each time.
#![tactic(auto)]

mod call_error;
mod logs;
mod saved;
mod trees;
mod values;

use call_error::{CallError, OUT_OF_MEMORY};
use std::alloc::Global;
use std::io::ErrorKind;
use std::rt::Files;
use std::{fs, io};

// The log's envelopes.
fn inputs(rt: &(impl Alloc<A = Global> + Files)) -> Result<Vec<Vec<u8>>, CallError> {
    let mut inputs = Vec::new(rt.alloc());
    for file in ["0.envelope", "1.envelope", "2.envelope"] {
        match fs::read(rt, file) {
            Ok(input) => inputs.push(input)?,
            Err(fault) if fault.kind() == ErrorKind::OutOfMemory => return Err(OUT_OF_MEMORY),
            Err(_) => return Err(CallError::new("no log")),
        }
    }
    Ok(inputs)
}

// Prints what a call answers.
fn tell(rt: &impl Print, call: &str, told: Result<String, CallError>) -> io::Result<()> {
    match told {
        Ok(answer) => println!(rt; "{call}: {answer}"),
        Err(call_error) => println!(rt; "{call}: {}", call_error.name),
    }
}

fn tell_logs(rt: &impl Print, alloc: Global, log: &[Vec<u8>]) -> io::Result<()> {
    tell(rt, "run", logs::run_all(alloc, log))?;
    tell(rt, "append", logs::append(alloc, log))?;
    tell(rt, "append_all", logs::append_all(alloc, log))?;
    tell(rt, "permission_chain", logs::chain(alloc, log, "alice"))?;
    let (front, _) = log.split_at(log.len().min(2));
    tell(
        rt,
        "permission_chain of two",
        logs::chain(alloc, front, "bob"),
    )?;
    tell(rt, "state", logs::saved(alloc, log))?;
    tell(rt, "state as text", logs::saved_text(alloc, log))
}

fn tell_values(rt: &impl Print, alloc: Global) -> io::Result<()> {
    tell(rt, "signed_contents", values::signed_contents(alloc))?;
    tell(rt, "to_protobuf", values::to_protobuf(alloc))?;
    tell(rt, "record id", values::record_id(alloc))?;
    tell(rt, "key", values::key(alloc))?;
    tell(rt, "key id", values::key_id(alloc))?;
    tell(rt, "package name", values::package_name(alloc))?;
    tell(rt, "checkpoint", values::checkpoint(alloc))?;
    tell(rt, "leaf", values::leaf(alloc))
}

fn tell_values_read(rt: &impl Print, alloc: Global) -> io::Result<()> {
    for (name, text) in saved::texts() {
        tell(rt, name, saved::state(alloc, text))?;
    }
    Ok(())
}

fn tell_members_read(rt: &impl Print, alloc: Global) -> io::Result<()> {
    for (name, members) in saved::members() {
        tell(rt, name, saved::begun(alloc, members))?;
    }
    tell(
        rt,
        "begun, a namespace of a bad name",
        saved::bad_namespace(alloc),
    )
}

fn tell_texts_read(rt: &impl Print, alloc: Global) -> io::Result<()> {
    for (name, text) in saved::states() {
        tell(rt, name, saved::text_state(alloc, text))?;
    }
    Ok(())
}

fn tell_operator_texts_read(rt: &impl Print, alloc: Global) -> io::Result<()> {
    for (name, text) in saved::operator_states() {
        tell(rt, name, saved::operator_text_state(alloc, text))?;
    }
    Ok(())
}

fn tell_checkpoints_read(rt: &impl Print, alloc: Global) -> io::Result<()> {
    for (name, text) in saved::checkpoints() {
        tell(rt, name, saved::checkpoint(alloc, text))?;
    }
    Ok(())
}

fn tell_read(rt: &impl Print, alloc: Global) -> io::Result<()> {
    tell_values_read(rt, alloc)?;
    tell_members_read(rt, alloc)?;
    tell_texts_read(rt, alloc)?;
    tell_operator_texts_read(rt, alloc)?;
    tell_checkpoints_read(rt, alloc)
}

fn tell_trees(rt: &impl Print, alloc: Global) -> io::Result<()> {
    tell(rt, "consistency", trees::consistency(alloc))?;
    tell(rt, "head", trees::head(alloc))?;
    tell(rt, "saved", trees::saved(alloc))
}

fn tell_all(rt: &impl Print, alloc: Global, log: &[Vec<u8>]) -> io::Result<()> {
    tell_logs(rt, alloc, log)?;
    tell_values(rt, alloc)?;
    tell_read(rt, alloc)?;
    tell_trees(rt, alloc)
}

fn main(rt: HostRuntime) -> io::Result<()> {
    match inputs(&rt) {
        Ok(log) => tell_all(&rt, rt.alloc(), log.as_slice()),
        Err(call_error) => println!(rt; "log: {}", call_error.name),
    }
}
