//! Bytes on a line, in hex.

ghost use Rattle.std.specs.Prelude.{◌≡◌, IfOk};
ghost use Rattle.hex.specs.Hex.{encode_lower, IsBytes};
ghost use Rattle.warg_audit.specs.Files.Answers.{output_data};
ghost use Rattle.warg_audit.specs.Files.Texts.{line, yes};

use std::alloc::{AllocError, Global};
use warg_audit::files::command_output::CommandOutput;
use warg_crypto::laws::byte_range;

/// The bytes on a line, in hex.
pub(crate) fn hex_line(alloc: Global, bytes: &[u8]) -> Result<CommandOutput, AllocError>
    ensures is { IfOk result (λ answer. output_data answer ≡ yes (line (encode_lower bytes.now))) }
    ensures are_bytes { IsBytes bytes.now }
{
    byte_range(bytes);
    let mut text = hex::encode(alloc, bytes)?;
    text.push('\n')?;
    Ok(CommandOutput::new(alloc, text, 0))
}
