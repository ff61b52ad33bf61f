//! Answers that commands read again.

ghost use Rattle.std.specs.Prelude.{◌≡◌, IfOk};
ghost use Rattle.tool_answers.specs.Texts.{within};
ghost use Rattle.warg_audit.specs.Files.Answers.{output_data};

use std::alloc::{AllocError, Global};
use warg_audit::files::command_output::{CommandOutput, UNUSABLE};
use warg_printable::printed_line;

/// The answer, unless its text has more bytes than the limit, so that no command would read it again.
pub fn within(alloc: Global, limit: u64, answer: CommandOutput) -> Result<CommandOutput, AllocError>
    ensures { IfOk result (λ it. output_data it ≡ within limit (output_data answer)) }
{
    if answer.text.len() as u64 > limit {
        let fault =
            "weoldrin: the answer has more bytes than the limit; --limit BYTES sets another";
        return Ok(CommandOutput::fault(alloc, printed_line(alloc, fault)?, UNUSABLE));
    }
    Ok(answer)
}
