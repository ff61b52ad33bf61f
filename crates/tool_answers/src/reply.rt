//! The audit's replies as answers.

ghost use Rattle.std.specs.Prelude.{◌≡◌, IfOk};
ghost use Rattle.warg_audit.specs.Replies.{printed_of};
ghost use Rattle.warg_audit.specs.Files.Answers.{output_data};

use std::alloc::{AllocError, Global};
use warg_audit::Reply;
use warg_audit::files::command_output::CommandOutput;

/// The answer that the audit gives.
pub fn output_of_reply(alloc: Global, reply: &Reply) -> Result<CommandOutput, AllocError>
    ensures { IfOk result (λ answer. output_data answer ≡ printed_of reply.now) }
{
    let text = String::from_str(alloc, reply.text())?;
    Ok(CommandOutput::new(alloc, text, reply.status()))
}
