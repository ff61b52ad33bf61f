//! A reader that counts what is read of it.

ghost use Rattle.std.specs.Prelude.{◌≡◌, ◌+◌, ◌-◌, ◌^◌, ◌==◌, ◌||◌, min, if◌then◌else◌, is_err, false};
ghost use Rattle.std.specs.Io.KnownBytes.{ReadConsumes};
ghost use Rattle.std.specs.Io.{ReadsAtMost};
ghost use Rattle.warg_audit.specs.Meters.{bytes_given};

use std::io;
use std::io::Read;

/// A reader that counts what is read of it: its reads, those that failed, the bytes that it gave,
/// and the reads that came after its end. Each count stops at the greatest `u64`.
#[derive(Drop)]
pub struct Input<R> {
    reader: R,
    reads: u64,
    errors: u64,
    bytes_taken: u64,
    ended: bool,
    late_reads: u64,
}

impl<R: Read> Input<R> {
    /// Nothing is read yet.
    pub fn new(reader: R) -> Input<R>
        ensures reader { result.reader ≡ reader }
        ensures reads { result.reads ≡ 0 }
        ensures errors { result.errors ≡ 0 }
        ensures taken { result.bytes_taken ≡ 0 }
        ensures ended { result.ended ≡ false }
        ensures late { result.late_reads ≡ 0 }
    {
        Input {
            reader,
            reads: 0,
            errors: 0,
            bytes_taken: 0,
            ended: false,
            late_reads: 0,
        }
    }

    /// The reader.
    pub fn into_inner(self) -> R
        ensures { result ≡ self.reader }
    {
        let Input { reader, .. } = self;
        reader
    }

    /// How many reads were made.
    pub fn reads(&self) -> u64
        ensures { result ≡ self.now.reads }
    {
        self.reads
    }

    /// How many reads failed.
    pub fn errors(&self) -> u64
        ensures { result ≡ self.now.errors }
    {
        self.errors
    }

    /// How many bytes the reads gave.
    pub fn taken(&self) -> u64
        ensures { result ≡ self.now.bytes_taken }
    {
        self.bytes_taken
    }

    /// How many reads were made after one that failed or gave no bytes.
    pub fn late_reads(&self) -> u64
        ensures { result ≡ self.now.late_reads }
    {
        self.late_reads
    }

    /// One read of the reader.
    pub fn read(&mut self, buf: &mut [u8]) -> io::Result<usize>
        ensures reads { self.new.reads ≡ min (self.old.reads + 1) (2 ^ 64 - 1) }
        ensures errors { self.new.errors ≡ (if is_err result then min (self.old.errors + 1)
            (2 ^ 64 - 1) else self.old.errors) }
        ensures taken { self.new.bytes_taken ≡ min (self.old.bytes_taken + bytes_given result)
            (2 ^ 64 - 1) }
        ensures ended { self.new.ended ≡ (self.old.ended || bytes_given result == 0) }
        ensures late { self.new.late_reads ≡ (if self.old.ended then min (self.old.late_reads + 1)
            (2 ^ 64 - 1) else self.old.late_reads) }
        ensures bound { ReadsAtMost result buf.new }
        ensures bytes { ReadConsumes (R.remaining self.old.reader)
            (R.remaining self.new.reader) result buf.new }
    {
        let (errors, taken, ended) = (self.errors, self.bytes_taken, self.ended);
        self.reads = self.reads.saturating_add(1);
        if ended {
            self.late_reads = self.late_reads.saturating_add(1);
        }
        // Trusted by reading: this line reads the reader once, and no other line of the crate reads it.
        // A reader that failed may go on, so no clause can tell one failed read from two.
        let outcome = self.reader.read(buf);
        match &outcome {
            Ok(count) => {
                self.bytes_taken = taken.saturating_add(*count as u64);
                self.ended = ended || *count == 0;
            }
            Err(_) => {
                self.errors = errors.saturating_add(1);
                self.ended = true;
            }
        }
        outcome
    }
}
