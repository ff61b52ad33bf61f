//! A reader that notes what is read of it, and a writer that takes half.
use crate::asking::{ID_WORDS, LOG_WORDS, Row, id_row, log, log_row, status};
use std::alloc::Global;
use std::io;
use std::io::{ErrorKind, Read, Write};
use std::process::Abort;
use std::test::Fail;
use warg_audit::{Input, Output};

// Gives at most so many bytes a read, fails at one read alone, and goes on with zeros after its end.
#[derive(Drop)]
struct Witness<'b> {
    rest: &'b [u8],
    step: usize,
    // The read that fails, from 0.
    failing: Option<usize>,
    reads: usize,
    ended: bool,
    // The reads after its end or after the one that failed.
    late: usize,
}

impl<'b> Witness<'b> {
    fn new(rest: &'b [u8], step: usize, failing: Option<usize>) -> Witness<'b> {
        Witness {
            rest,
            step,
            failing,
            reads: 0,
            ended: false,
            late: 0,
        }
    }
}

impl Read for Witness<'_> {
    fn read(&mut self, buf: &mut [u8]) -> io::Result<usize> {
        let read = self.reads;
        self.reads = read.saturating_add(1);
        if self.ended {
            self.late = self.late.saturating_add(1);
        }
        if self.failing == Some(read) {
            self.ended = true;
            return Err(io::Error::from(ErrorKind::Other));
        }
        if self.rest.is_empty() && self.ended {
            buf.fill(b'0');
            return Ok(buf.len());
        }
        let count = self.step.min(self.rest.len()).min(buf.len());
        let (front, rest) = self.rest.split_at(count);
        buf[..count].copy_from_slice(front);
        self.rest = rest;
        self.ended = self.ended || count == 0;
        Ok(count)
    }
}

// How many reads were made for this answer, where both the input and the reader count as many, none of them late.
fn witnessed(
    alloc: Global,
    words: &[&str],
    witness: Witness<'_>,
    printed: &str,
    wanted: u8,
) -> Result<Option<usize>, Fail> {
    let mut input = Input::new(witness);
    let mut output = Output::new(Vec::new(alloc));
    let found = status(alloc, words, &mut input, &mut output)?;
    let counted = input.reads() as usize;
    let is_late = input.late_reads() != 0;
    let witness = input.into_inner();
    let is_noted = witness.reads == counted && witness.late == 0 && !is_late;
    let is_answer = found == wanted && output.into_inner().as_slice() == printed.as_bytes();
    Ok(if is_answer && is_noted {
        Some(counted)
    } else {
        None
    })
}

// Reads by steps of several lengths, and failing at each read in turn.
fn witness_row(rt: &impl Abort, alloc: Global, row: &Row<'_>) -> Result<(), Fail> {
    for step in [1usize, 2, 7, 100, 20_000] {
        let end = row.input.len().div_ceil(step).saturating_add(1);
        let whole = Witness::new(row.input, step, None);
        let reads = witnessed(alloc, row.words, whole, row.printed, row.status)?;
        assert!(rt; reads == Some(end), "{step}");
        for failing in 0..end {
            let once = Witness::new(row.input, step, Some(failing));
            let reads = witnessed(alloc, row.words, once, "read fault\n", 3)?;
            assert!(rt;
                reads == Some(failing.saturating_add(1)),
                "{step} {failing}"
            );
        }
    }
    Ok(())
}

#[test]
fn reads_what_is_answered_once(rt: HostRuntime) -> Result<(), Fail> {
    let log = log(rt.alloc())?;
    for row in [id_row(), log_row(log.as_str())] {
        witness_row(&rt, rt.alloc(), &row)?;
    }
    Ok(())
}

// A failed read is told before a bad line, and before a refused record.
#[test]
fn reads_what_is_refused_once(rt: HostRuntime) -> Result<(), Fail> {
    for row in [
        Row {
            words: ID_WORDS,
            input: b"0g\n",
            printed: "bad line 0\n",
            status: 2,
        },
        Row {
            words: &["operator"],
            input: b"0a021a00\r\n\r\n0",
            printed: "bad line 2\n",
            status: 2,
        },
        Row {
            words: LOG_WORDS,
            input: b"0a021a00",
            printed: "refused 0 Signature.MissingColon\n",
            status: 1,
        },
    ] {
        witness_row(&rt, rt.alloc(), &row)?;
    }
    Ok(())
}

// Takes half of what is left, rounded up, and counts its writes.
#[derive(Drop)]
struct Halves {
    taken: Vec<u8>,
    writes: usize,
}

impl Write for Halves {
    fn write(&mut self, buf: &[u8]) -> io::Result<usize> {
        self.writes = self.writes.saturating_add(1);
        let count = buf.len() - buf.len() / 2;
        self.taken.extend_from_slice(&buf[..count])?;
        Ok(count)
    }

    fn flush(&mut self) -> io::Result<()> {
        Ok(())
    }
}

#[test]
fn writes_all_by_halves(rt: HostRuntime) -> Result<(), Fail> {
    let row = id_row();
    let mut input = Input::new(row.input);
    let mut output = Output::new(Halves {
        taken: Vec::new(rt.alloc()),
        writes: 0,
    });
    let ended = status(rt.alloc(), row.words, &mut input, &mut output)?;
    let failed = output.errors();
    let halves = output.into_inner();
    assert!(rt; ended == 0 && failed == 0 && halves.writes == 7);
    assert!(rt; halves.taken.as_slice() == row.printed.as_bytes());
    Ok(())
}
