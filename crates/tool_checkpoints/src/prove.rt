//! `prove`: the checkpoint of a registry's leaves, and proofs under it.

ghost use Rattle.std.specs.Prelude.{◌≡◌, Ok, IfOk, IfErr, IfSome, OnOk, string_bytes};
ghost use Rattle.warg_crypto.specs.Json.Json.{ReturnsOrNoMemory};
ghost use Rattle.warg_saved_states.specs.Texts.{text_of};
ghost use Rattle.warg_transparency.specs.Texts.{map_proof_of, map_proof_text};
ghost use Rattle.warg_registry.specs.RegistryJson.{checkpoint_json};
ghost use Rattle.warg_audit.specs.Files.Answers.{output_data, Answers, IfOutput};
ghost use Rattle.tool_checkpoints.specs.ProofTexts.{Asks, AsksConsistency, AsksHead, AsksInclusion};
ghost use Rattle.tool_checkpoints.specs.ProofTexts.{checkpoint_line, IsByLeaves, IsCheckpointText};
ghost use Rattle.tool_checkpoints.specs.ProofTexts.{IsConsistencyText, IsHeadText, IsInclusionText};
ghost use Rattle.tool_checkpoints.specs.ProofTexts.{IsProofAnswer, IsProved, LogProofReadsBack};
ghost use Rattle.tool_checkpoints.specs.Words.{IsUnsaid};
ghost use Rattle.tool_checkpoints.specs.Proofs.{log_proof_line, map_proof_line};
ghost use Rattle.warg_audit.specs.Files.RecordLines.{record_lines};
ghost use Rattle.tool_checkpoints.specs.RegistryLeaves.{ForRegistry};
ghost use Rattle.warg_audit.specs.Files.Unusable.{IsOfLines};

use crate::leaves::{Trees, trees_of};
use crate::read_words::{log_id_of, number_of};
use base64::engine::general_purpose::STANDARD;
use std::alloc::{AllocError, Global};
use tool_words::Wanted;
use warg_audit::files::command_error::CommandError;
use warg_audit::files::command_output::CommandOutput;
use warg_audit::files::input::{Input, Store, read_input};
use warg_crypto::hash::{AnyHash, HashAlgorithm};
use warg_crypto::json::{JsonError, JsonValue};
use warg_listed_map::{proof_of, root_of};
use warg_merkle::map_proof::MapProof;
use warg_registry::{Checkpoint, LogId};
use warg_transparency::LogProof;

/// What is asked of a registry, as words say it.
#[derive(Drop)]
pub(crate) enum Asked {
    /// The checkpoint that it stands at.
    Checkpoint,
    /// That a leaf stands at this place.
    Inclusion(u64),
    /// That its log goes on from its first leaves, of which there are so many.
    Consistency(u64),
    /// What its map says of this log.
    Head(LogId),
}

// The proof of the place that a word says.
fn inclusion_asked(alloc: Global, word: &str) -> Result<Asked, CommandError>
    ensures ok { IfOk result (AsksInclusion word.now) }
    ensures err { IfErr result (IfOutput (IsUnsaid (AsksInclusion word.now))) }
{
    match number_of(alloc, word, "place of a leaf") {
        Ok(index) => Ok(Asked::Inclusion(index)),
        Err(error) => Err(error),
    }
}

// The proof that the log goes on from as many leaves as a word says.
fn consistency_asked(alloc: Global, word: &str) -> Result<Asked, CommandError>
    ensures ok { IfOk result (AsksConsistency word.now) }
    ensures err { IfErr result (IfOutput (IsUnsaid (AsksConsistency word.now))) }
{
    match number_of(alloc, word, "length of a log") {
        Ok(first) => Ok(Asked::Consistency(first)),
        Err(error) => Err(error),
    }
}

// What the map says of the log that a word names.
fn head_asked(alloc: Global, word: &str) -> Result<Asked, CommandError>
    ensures ok { IfOk result (AsksHead word.now) }
    ensures err { IfErr result (IfOutput (IsUnsaid (AsksHead word.now))) }
{
    match log_id_of(alloc, word) {
        Ok(log_id) => Ok(Asked::Head(log_id)),
        Err(error) => Err(error),
    }
}

// What is asked, by the words of what is wanted.
fn asked_of(alloc: Global, wanted: &Wanted<'_>) -> Result<Asked, CommandError>
    ensures ok { IfOk result (Asks wanted.now) }
    ensures err { IfErr result (IfOutput (IsUnsaid (Asks wanted.now))) }
{
    match wanted {
        Wanted::Checkpoint => Ok(Asked::Checkpoint),
        Wanted::Inclusion { place } => inclusion_asked(alloc, place),
        Wanted::Consistency { length } => consistency_asked(alloc, length),
        Wanted::Head { log_id } => head_asked(alloc, log_id),
    }
}

// The JSON of a checkpoint.
fn checkpoint_text(alloc: Global, checkpoint: &Checkpoint) -> Result<String, JsonError>
    ensures { ReturnsOrNoMemory string_bytes result (text_of (checkpoint_json checkpoint.now)) }
{
    match checkpoint.to_value(alloc) {
        Ok(value) => Ok(value.to_string(alloc)?),
        Err(error) => Err(error),
    }
}

// The same on a line.
fn checkpoint_line(alloc: Global, checkpoint: &Checkpoint) -> Result<CommandOutput, AllocError>
    ensures { IfOk result (λ answer. output_data answer ≡
        checkpoint_line (text_of (checkpoint_json checkpoint.now))) }
{
    match checkpoint_text(alloc, checkpoint) {
        Ok(mut text) => {
            text.push('\n')?;
            Ok(CommandOutput::new(alloc, text, 0))
        }
        Err(JsonError::OutOfMemory) => Err(AllocError),
        Err(_) => CommandOutput::fixed(alloc, "none\n", 1),
    }
}

// A proof on the log on a line, if there is one.
fn log_proof_answer(alloc: Global, proof: Option<LogProof>) -> Result<CommandOutput, AllocError>
    ensures is { IfOk result (λ answer. output_data answer ≡ log_proof_line proof) }
    ensures reads_back { OnOk result (IfSome proof LogProofReadsBack) }
{
    match proof {
        Some(proof) => {
            let text = proof.to_text(alloc)?;
            Ok(CommandOutput::new(alloc, format!(in alloc; "{text}\n")?, 0))
        }
        None => CommandOutput::fixed(alloc, "none\n", 1),
    }
}

// A proof on the map on a line.
fn map_proof_answer(alloc: Global, proof: &MapProof) -> Result<CommandOutput, AllocError>
    ensures is { IfOk result (λ answer. output_data answer ≡ map_proof_line proof.now) }
    ensures reads_back { OnOk result (map_proof_of (map_proof_text proof.now) ≡ Ok proof.now) }
{
    let text = STANDARD.encode(alloc, proof.as_bytes())?;
    Ok(CommandOutput::new(alloc, format!(in alloc; "{text}\n")?, 0))
}

// The checkpoint of a registry.
fn checkpoint_answer(alloc: Global, trees: &mut Trees) -> Result<CommandOutput, AllocError>
    ensures { ForRegistry trees.old.log trees.old.heads.items (λ leaves.
        IfOk result (λ answer. IsCheckpointText leaves (output_data answer))) }
{
    let root = root_of(alloc, trees.heads.as_mut_slice())?;
    let checkpoint = Checkpoint {
        log_root: trees.log.root(),
        log_length: trees.log.len(),
        map_root: AnyHash::new(HashAlgorithm::Sha256, root),
    };
    checkpoint_line(alloc, &checkpoint)
}

// The proof that a leaf stands at a place.
fn inclusion_answer(
    alloc: Global,
    trees: &mut Trees,
    index: u64,
) -> Result<CommandOutput, AllocError>
    ensures { ForRegistry trees.old.log trees.old.heads.items (λ leaves.
        IfOk result (λ answer. IsInclusionText index leaves (output_data answer))) }
{
    let proof = trees.log.inclusion(index)?;
    log_proof_answer(alloc, proof)
}

// The proof that the log begins with its first leaves.
fn consistency_answer(
    alloc: Global,
    trees: &mut Trees,
    first: u64,
) -> Result<CommandOutput, AllocError>
    ensures { ForRegistry trees.old.log trees.old.heads.items (λ leaves.
        IfOk result (λ answer. IsConsistencyText first leaves (output_data answer))) }
{
    let proof = trees.log.consistency(first)?;
    log_proof_answer(alloc, proof)
}

// What the map says of a log.
fn head_answer(
    alloc: Global,
    trees: &mut Trees,
    log_id: &LogId,
) -> Result<CommandOutput, AllocError>
    ensures { ForRegistry trees.old.log trees.old.heads.items (λ leaves.
        IfOk result (λ answer. IsHeadText log_id.now leaves (output_data answer))) }
{
    let mut key = [0u8; 32];
    key.copy_from_slice(log_id.as_bytes());
    let proof = proof_of(alloc, trees.heads.as_mut_slice(), &key)?;
    map_proof_answer(alloc, &proof)
}

// What a registry answers.
fn trees_answer(
    alloc: Global,
    asked: &Asked,
    trees: &mut Trees,
) -> Result<CommandOutput, AllocError>
    ensures { ForRegistry trees.old.log trees.old.heads.items (λ leaves.
        IfOk result (λ answer. IsProved asked.now leaves (output_data answer))) }
{
    match asked {
        Asked::Checkpoint => checkpoint_answer(alloc, trees),
        Asked::Inclusion(index) => inclusion_answer(alloc, trees, *index),
        Asked::Consistency(first) => consistency_answer(alloc, trees, *first),
        Asked::Head(log_id) => head_answer(alloc, trees, log_id),
    }
}

// What the registry of the leaves that a file lists answers.
fn leaves_answer(
    alloc: Global,
    asked: &Asked,
    input: Input<'_>,
) -> Result<CommandOutput, CommandError>
    ensures { Answers (IsByLeaves (IsProved asked.now)
        (record_lines input.entry.bytes.items)) result }
{
    match trees_of(alloc, input) {
        Ok(mut trees) => Ok(trees_answer(alloc, asked, &mut trees)?),
        Err(error) => Err(error),
    }
}

// The same by the file's path.
fn answer_of_file<S: Store>(
    alloc: Global,
    asked: &Asked,
    leaves: &str,
    store: &mut S,
) -> Result<CommandOutput, CommandError>
    ensures answered { Answers (IsOfLines (S.files store.old) leaves.now
        (IsByLeaves (IsProved asked.now))) result }
    ensures kept { S.files store.new ≡ S.files store.old }
{
    match read_input(alloc, store, leaves) {
        Ok(input) => leaves_answer(alloc, asked, input),
        Err(error) => Err(error),
    }
}

/// What is wanted of the registry of the leaves that a file lists.
pub fn prove_answer<S: Store>(
    alloc: Global,
    wanted: &Wanted<'_>,
    leaves: &str,
    store: &mut S,
) -> Result<CommandOutput, CommandError>
    ensures answered { Answers (IsProofAnswer (S.files store.old) wanted.now leaves.now) result }
    ensures kept { S.files store.new ≡ S.files store.old }
{
    match asked_of(alloc, wanted) {
        Ok(asked) => answer_of_file(alloc, &asked, leaves, store),
        Err(error) => Err(error),
    }
}
