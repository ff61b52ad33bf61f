//! `leaf`: the leaf that a record has in a registry's log.

ghost use Rattle.std.specs.Prelude.{◌≡◌, IfOk};
ghost use Rattle.warg_registry.specs.PrefixEncodings.{log_leaf_encoding_of};
ghost use Rattle.warg_audit.specs.Files.Answers.{output_data, Answers};
ghost use Rattle.tool_checkpoints.specs.LeafTexts.{IsLeafAnswer, IsLeafLine};

use crate::hex_line::hex_line;
use crate::read_words::leaf_of;
use std::alloc::{AllocError, Global};
use tool_words::LeafIds;
use warg_audit::files::command_error::CommandError;
use warg_audit::files::command_output::CommandOutput;
use warg_crypto::VisitBytes;
use warg_registry::LogLeaf;

// The bytes that the log hashes of a leaf.
fn entry_of(alloc: Global, leaf: &LogLeaf) -> Result<Vec<u8>, AllocError>
    ensures { IfOk result (λ bytes. bytes.items ≡ log_leaf_encoding_of leaf.now) }
{
    let mut bytes = Vec::new(alloc);
    leaf.visit(&mut bytes)?;
    Ok(bytes)
}

// The same on a line, in hex.
fn leaf_line(alloc: Global, leaf: &LogLeaf) -> Result<CommandOutput, AllocError>
    ensures { IfOk result (λ answer. IsLeafLine leaf.now (output_data answer)) }
{
    let entry = entry_of(alloc, leaf)?;
    hex_line(alloc, entry.as_slice())
}

/// The leaf of the ids of a log and of a record.
pub fn leaf_answer(alloc: Global, ids: &LeafIds<'_>) -> Result<CommandOutput, CommandError>
    ensures { Answers (IsLeafAnswer ids.now) result }
{
    match leaf_of(alloc, ids.log_id, ids.record_id) {
        Ok(leaf) => Ok(leaf_line(alloc, &leaf)?),
        Err(error) => Err(error),
    }
}
