//! The words behind an example's name.

use std::alloc::Global;
use std::rt::{Env, Files};
use std::{env, fs, io};

/// The words.
pub(crate) fn words(rt: &(impl Alloc<A = Global> + Env)) -> io::Result<Vec<String>> {
    let mut words = Vec::new(rt.alloc());
    for word in env::args(rt)?.skip(2) {
        words.push(word)?;
    }
    Ok(words)
}

/// The contents of the files that the words name.
pub(crate) fn read_log(
    rt: &(impl Alloc<A = Global> + Env + Files),
) -> anyhow::Result<Vec<Vec<u8>>> {
    let mut log = Vec::new(rt.alloc());
    for file in words(rt)? {
        log.push(fs::read(rt, file.as_str())?)?;
    }
    Ok(log)
}
