//! Files, by their paths and bytes.

ghost use Rattle.std.specs.Prelude.{◌≡◌, Option, Err, IfOk, IfErr, OnOk, ◌+◌, ◌-◌, ◌^◌, min, string_bytes};
ghost use Rattle.warg_audit.specs.Files.Files.{Files, IsOnDisk, Lacks, Puts, Reads, ReadsLog};
ghost use Rattle.warg_audit.specs.Files.Answers.{IfOutput, IsUnusable};
ghost use Rattle.warg_audit.specs.Files.ReadErrors.{IsLogUnread, IsUnread, IsUnreadFor, unread_text};
ghost use Rattle.warg_audit.specs.Files.Sentences.{line_sentence, sentence, shown_path};
ghost use Rattle.warg_audit.specs.declared.files.change.WriteError.TheVariants.{Unflushed, Unwritten};
ghost use Rattle.warg_audit.specs.declared.files.input.ReadError.TheVariants.{Missing};

use crate::files::change::{HoldError, UnwrittenError, WriteError};
use crate::files::command_error::{CommandError, unusable};
use crate::files::command_output::CommandOutput;
use std::alloc::{AllocError, Global};
use warg_printable::printed_line;

/// Why a file's bytes are not there.
#[derive(Clone, Copy, Debug, PartialEq, Eq)]
pub enum ReadError {
    /// There is no such file.
    Missing,
    /// It is a folder.
    Folder,
    /// It can't be opened.
    Closed,
    /// It has more bytes than the limit.
    TooLong,
    /// A read failed.
    Failed,
    /// Memory was refused.
    OutOfMemory,
}

impl ReadError {
    /// The status of an answer for want of the file: 2 where the file is at fault, 3 for trouble.
    pub fn status(self) -> u8
        ensures { result ≡ (unread_text self).status }
    {
        match self {
            ReadError::Missing | ReadError::Folder | ReadError::Closed | ReadError::TooLong => 2,
            ReadError::Failed | ReadError::OutOfMemory => 3,
        }
    }

    /// What is wrong, in words.
    pub fn text(self) -> &'static str
        ensures { result.now ≡ (unread_text self).text }
    {
        match self {
            ReadError::Missing => "there is no such file",
            ReadError::Folder => "it is a folder",
            ReadError::Closed => "it can't be opened",
            ReadError::TooLong => "it has more bytes than the limit; --limit BYTES sets another",
            ReadError::Failed => "a read failed",
            ReadError::OutOfMemory => "out of memory",
        }
    }
}

/// Where files are read from, and written to.
pub trait Store {
    // What the files hold, and what of it is on the disk, by their paths, where it is known.
    ghost files: { Self → Option Files };

    /// The bytes of the file of this path; `-` is standard input.
    fn read(&mut self, path: &str) -> Result<Vec<u8>, ReadError>
        ensures bytes { IfOk result (λ bytes. Reads (files self.old) path.now bytes.items) }
        ensures missing { IfErr result (λ fault. fault ≡ Missing →
            Lacks (files self.old) path.now) }
        ensures kept { files self.new ≡ files self.old };

    /// The bytes of the file of this path, or none where it is missing, which no one else that holds it changes from now on.
    fn hold(&mut self, path: &str) -> Result<Vec<u8>, HoldError>
        ensures bytes { IfOk result (λ bytes. ReadsLog (files self.old) path.now bytes.items) }
        ensures kept { files self.new ≡ files self.old };

    /// Puts these bytes in the place of the file of this path, which is held, down to the disk.
    fn replace(&mut self, path: &str, bytes: &[u8]) -> Result<(), WriteError>
        ensures written { OnOk result (Puts path.now bytes.now (files self.old) (files self.new)) }
        ensures flushed { OnOk result (IsOnDisk (files self.new) path.now bytes.now) }
        ensures unflushed { result ≡ Err Unflushed →
            Puts path.now bytes.now (files self.old) (files self.new) }
        ensures kept { (cause : UnwrittenError) → result ≡ Err (Unwritten cause) →
            files self.new ≡ files self.old };
}

/// A file's path and its bytes.
#[derive(Debug, Drop)]
pub struct Input<'a> {
    /// The path; `-` is standard input.
    pub path: &'a str,
    /// The bytes.
    pub bytes: Vec<u8>,
}

// The file's name in a sentence.
fn shown_path(path: &str) -> &str
    ensures { result.now ≡ shown_path path.now }
{
    if path == "-" { "standard input" } else { path }
}

/// A sentence that names the file.
pub fn sentence(alloc: Global, path: &str, fault: &str) -> Result<String, AllocError>
    ensures { IfOk result (λ text. string_bytes text ≡ sentence path.now fault.now) }
{
    let name = shown_path(path);
    let said = format!(in alloc; "weoldrin: {name}: {fault}")?;
    printed_line(alloc, said.as_str())
}

/// A sentence that names the file and a line of it, whose place is counted from 0 and printed from 1.
pub fn line_sentence(
    alloc: Global,
    path: &str,
    place: usize,
    fault: &str,
) -> Result<String, AllocError>
    ensures { IfOk result (λ text. string_bytes text ≡
        line_sentence path.now (min (place + 1) (2 ^ 64 - 1)) fault.now) }
{
    let name = shown_path(path);
    let number = place.saturating_add(1);
    let said = format!(in alloc; "weoldrin: {name}:{number}: {fault}")?;
    printed_line(alloc, said.as_str())
}

/// The error of a command for a file that does not hold what it should.
pub fn file_error(alloc: Global, path: &str, fault: &str) -> CommandError
    ensures { IfOutput IsUnusable result }
{
    unusable(alloc, sentence(alloc, path, fault))
}

// What is answered where the file of this path can't be read.
fn unread(alloc: Global, path: &str, fault: ReadError) -> CommandError
    ensures { IfOutput (IsUnreadFor fault) result }
{
    if fault == ReadError::OutOfMemory {
        return CommandError::OutOfMemory;
    }
    match sentence(alloc, path, fault.text()) {
        Ok(sentence) => CommandError::Output(CommandOutput::fault(alloc, sentence, fault.status())),
        Err(_) => CommandError::OutOfMemory,
    }
}

/// The file of this path, or what is answered where it can't be read.
pub fn read_input<'a, S: Store>(
    alloc: Global,
    store: &mut S,
    path: &'a str,
) -> Result<Input<'a>, CommandError>
    ensures path { IfOk result (λ input. input.path.now ≡ path.now) }
    ensures bytes { IfOk result (λ input. Reads (S.files store.old) path.now input.bytes.items) }
    ensures err { IfErr result (IfOutput (IsUnread (S.files store.old) path.now)) }
    ensures kept { S.files store.new ≡ S.files store.old }
{
    match store.read(path) {
        Ok(bytes) => Ok(Input { path, bytes }),
        Err(fault) => Err(unread(alloc, path, fault)),
    }
}

/// The same, of a log that may not be there yet: it has no records then.
pub fn read_log<'a, S: Store>(
    alloc: Global,
    store: &mut S,
    path: &'a str,
) -> Result<Input<'a>, CommandError>
    ensures path { IfOk result (λ input. input.path.now ≡ path.now) }
    ensures bytes { IfOk result (λ input.
        ReadsLog (S.files store.old) path.now input.bytes.items) }
    ensures err { IfErr result (IfOutput IsLogUnread) }
    ensures kept { S.files store.new ≡ S.files store.old }
{
    match store.read(path) {
        Ok(bytes) => Ok(Input { path, bytes }),
        Err(ReadError::Missing) => Ok(Input {
            path,
            bytes: Vec::new(alloc),
        }),
        Err(fault) => Err(unread(alloc, path, fault)),
    }
}
