//! The program as a function of its words, its reader and its writer.

ghost use Rattle.std.specs.Prelude.{◌≡◌, ◌≢◌, ◌⊎◌, map, string_bytes, IfOk, Some, None};
ghost use Rattle.std.specs.Io.KnownBytes.{Appends};
ghost use Rattle.warg_audit.specs.Answers.{IsCommandAnswer};
ghost use Rattle.warg_audit.specs.Printouts.{usage, read_error};
ghost use Rattle.warg_audit.specs.Commands.{command_of};
ghost use Rattle.warg_audit.specs.LogKinds.{IsLogKindAnswer};
ghost use Rattle.warg_audit.specs.Files.Lines.{lines_of};
ghost use Rattle.warg_audit.specs.Meters.{bytes_left, bytes_held, ReadsToEnd, ReadFailed, WriteFailed};
ghost use Rattle.warg_audit.specs.Replies.{printed_of, IsReply, IsPrintedOrFailed, IsAnswered, IsIoError};

use crate::command::{Command, parse_command};
use crate::identify::id_reply;
use crate::input::Input;
use crate::log::log_reply;
use crate::log_kind::LogKind;
use crate::output::Output;
use crate::reading::{InputError, MAX_INPUT, read_all};
use crate::reply::Reply;
use std::alloc::{AllocError, Global};
use std::io::{Read, Write};
use warg_crypto::toy::ToyVerifier;
use warg_operator_log::LogState as OperatorLog;
use warg_package_log::LogState as PackageLog;

/// What is printed for words that ask for nothing.
pub const USAGE: &str = "usage: warg_audit [id] package|operator\n";

/// What is printed where memory is refused.
pub const OUT_OF_MEMORY: &str = "out of memory\n";

// The answer to the text of a log of this type.
fn log_kind_reply(alloc: Global, log_kind: LogKind, text: Vec<u8>) -> Result<Reply, AllocError>
    ensures { IfOk result (λ reply. IsLogKindAnswer log_kind
        (lines_of text.items) (printed_of reply)) }
{
    match log_kind {
        LogKind::Package => log_reply::<PackageLog, ToyVerifier>(alloc, &ToyVerifier, text),
        LogKind::Operator => log_reply::<OperatorLog, ToyVerifier>(alloc, &ToyVerifier, text),
    }
}

// The answer to an input of no more than the limit.
fn command_reply(alloc: Global, command: Command, bytes: Vec<u8>) -> Result<Reply, AllocError>
    ensures { IfOk result (λ reply. IsCommandAnswer command
        (lines_of bytes.items) (printed_of reply)) }
{
    match command {
        Command::Id(log_kind) => id_reply(alloc, log_kind, bytes.as_slice()),
        Command::Audit(log_kind) => log_kind_reply(alloc, log_kind, bytes),
    }
}

/// What the program prints to the words, whole before anything is written. For words that
/// ask for nothing, nothing is read and no memory is taken.
pub fn make_reply<R: Read>(alloc: Global, words: &[String], input: &mut Input<R>) -> Reply
    ensures reply { IsReply (map string_bytes words.now) (bytes_left R.remaining input.old)
        (ReadFailed input.old input.new)
        (printed_of result) }
    ensures other_words { command_of (map string_bytes words.now) ≡ None → (input.new ≡ input.old) ×
        (printed_of result ≡ usage) }
    ensures faults { (input.new.errors ≡ input.old.errors) ⊎ (printed_of result ≡ read_error) }
    ensures reading { ReadsToEnd 16_777_216 R.remaining input.old input.new }
{
    let Some(command) = parse_command(words) else {
        return Reply::fixed(USAGE, 2);
    };
    match read_all(alloc, input, MAX_INPUT) {
        Ok(bytes) => match command_reply(alloc, command, bytes) {
            Ok(reply) => reply,
            Err(_) => Reply::fixed(OUT_OF_MEMORY, 3),
        },
        Err(InputError::Fault) => Reply::fixed("read fault\n", 3),
        Err(InputError::TooLong) => Reply::fixed("too long\n", 2),
        Err(InputError::OutOfMemory) => Reply::fixed(OUT_OF_MEMORY, 3),
    }
}

/// Answers the bytes of the input on the output, and gives the exit status.
pub fn audit<R: Read, W: Write>(
    alloc: Global,
    words: &[String],
    input: &mut Input<R>,
    output: &mut Output<W>,
) -> u8
    // Any other status than 3 is that of the answer, which was written whole and alone.
    ensures answered { result ≢ 3 →
        IsAnswered (map string_bytes words.now) (bytes_left R.remaining input.old)
        (bytes_held W.contents output.old) (bytes_held W.contents output.new) result }

    // Status 3: a failed read or refused memory, with its line, or a failed write.
    ensures trouble { result ≡ 3 →
        IsIoError (bytes_held W.contents output.old) (bytes_held W.contents output.new)
        (ReadFailed input.old input.new) (WriteFailed output.old output.new) }

    // Where a read failed, its line is written, unless the write fails too.
    ensures faults { (input.new.errors ≡ input.old.errors)
        ⊎ IsPrintedOrFailed (bytes_held W.contents output.old) (bytes_held W.contents output.new)
        (WriteFailed output.old output.new) result read_error }

    // Where the write failed, the status is 3.
    ensures unwritten { (output.new.errors ≡ output.old.errors) ⊎ (result ≡ 3) }

    // Words that ask for nothing: no read, and the usage line unless it can't be written.
    ensures other_words { command_of (map string_bytes words.now) ≡ None → (input.new ≡ input.old)
        × IsPrintedOrFailed (bytes_held W.contents output.old) (bytes_held W.contents output.new)
        (WriteFailed output.old output.new) result usage }
    ensures reading { ReadsToEnd 16_777_216 R.remaining input.old input.new }
{
    let reply = make_reply(alloc, words, input);
    match output.write_all(reply.text().as_bytes()) {
        Ok(()) => reply.status(),
        Err(_) => 3,
    }
}
