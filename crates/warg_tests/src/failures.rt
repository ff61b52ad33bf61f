//! Writers that fail, and a reader that never ends.
use crate::asking::{ID_WORDS, Row, answers, id_row, log, log_row, status};
use std::alloc::Global;
use std::io;
use std::io::{ErrorKind, Read, Write};
use std::test::Fail;
use warg_audit::{Input, Output, USAGE};

// Takes one byte a write, and fails once its writes are made.
#[derive(Drop)]
struct Drain {
    writes: usize,
}

impl Write for Drain {
    fn write(&mut self, buf: &[u8]) -> io::Result<usize> {
        if self.writes == 0 {
            return Err(io::Error::from(ErrorKind::Other));
        }
        self.writes -= 1;
        Ok(buf.len().min(1))
    }

    fn flush(&mut self) -> io::Result<()> {
        Ok(())
    }
}

// The exit status and the failed writes, where so many writes succeed.
fn written(alloc: Global, row: &Row<'_>, writes: usize) -> Result<(u8, u64), Fail> {
    let mut input = Input::new(row.input);
    let mut output = Output::new(Drain { writes });
    let status = status(alloc, row.words, &mut input, &mut output)?;
    Ok((status, output.errors()))
}

// Whether the status is 3 exactly where fewer writes succeed than the answer's text has bytes.
fn is_written_bytewise(alloc: Global, row: &Row<'_>) -> Result<bool, Fail> {
    let length = row.printed.len();
    for writes in 0..length {
        if written(alloc, row, writes)? != (3, 1) {
            return Ok(false);
        }
    }
    Ok(written(alloc, row, length)? == (row.status, 0))
}

#[test]
fn tells_failed_writes(rt: HostRuntime) -> Result<(), Fail> {
    let log = log(rt.alloc())?;
    let usage = Row {
        words: &["pkg"],
        input: b"",
        printed: USAGE,
        status: 2,
    };
    for row in [id_row(), log_row(log.as_str()), usage] {
        assert!(rt; is_written_bytewise(rt.alloc(), &row)?);
    }
    Ok(())
}

// Gives one byte 0 a read, without end.
#[derive(Drop)]
struct Zeros;

impl Read for Zeros {
    fn read(&mut self, buf: &mut [u8]) -> io::Result<usize> {
        if buf.is_empty() {
            return Ok(0);
        }
        buf[0] = b'0';
        Ok(1)
    }
}

#[test]
fn ends_an_endless_input(rt: HostRuntime) -> Result<(), Fail> {
    assert!(rt; answers(rt.alloc(), ID_WORDS, Zeros, "too long\n", 2)?);
    assert!(rt; answers(rt.alloc(), &["operator"], Zeros, "too long\n", 2)?);
    Ok(())
}
