//! Writing one text.

ghost use Rattle.std.specs.Prelude.{◌≡◌, ◌+◌, ◌-◌, ◌^◌, min, if◌then◌else◌, is_err, OnOk};
ghost use Rattle.std.specs.Io.KnownBytes.{Appends};

use std::io;
use std::io::Write;

/// A writer that counts the texts that it failed to write, up to the greatest `u64`.
#[derive(Drop)]
pub struct Output<W> {
    writer: W,
    errors: u64,
}

impl<W: Write> Output<W> {
    /// No write is made yet.
    pub fn new(writer: W) -> Output<W>
        ensures writer { result.writer ≡ writer }
        ensures errors { result.errors ≡ 0 }
    {
        Output { writer, errors: 0 }
    }

    /// The writer.
    pub fn into_inner(self) -> W
        ensures { result ≡ self.writer }
    {
        let Output { writer, errors: _ } = self;
        writer
    }

    /// How many texts it failed to write.
    pub fn errors(&self) -> u64
        ensures { result ≡ self.now.errors }
    {
        self.errors
    }

    /// Writes all of the bytes.
    pub fn write_all(&mut self, bytes: &[u8]) -> io::Result<()>
        ensures errors { self.new.errors ≡ (if is_err result then min (self.old.errors + 1)
            (2 ^ 64 - 1) else self.old.errors) }
        ensures bytes { OnOk result (Appends (W.contents self.old.writer)
            (W.contents self.new.writer) bytes.now) }
    {
        let errors = self.errors;
        let outcome = self.writer.write_all(bytes);
        if outcome.is_err() {
            self.errors = errors.saturating_add(1);
        }
        outcome
    }
}
