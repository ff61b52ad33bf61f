//! `compare heads` and `compare beginnings`: whether what a registry showed twice goes together.

ghost use Rattle.std.specs.Prelude.{◌≡◌, IfErr, IfOk};
ghost use Rattle.warg_audit.specs.Files.Answers.{output_data, Answers, IfOutput};
ghost use Rattle.tool_checkpoints.specs.ShownTwice.{AreBeginningsCompared, AreHeadsCompared, beginning_text, head_text};
ghost use Rattle.tool_checkpoints.specs.ShownTwice.{IsBeginningsAnswer, IsByBeginning, IsByHead, IsHeadsAnswer};
ghost use Rattle.tool_checkpoints.specs.ShownTwice.{IsHeadWord, IsReadBeginning, IsReadHead};
ghost use Rattle.tool_checkpoints.specs.Words.{IsUnsaid};

use crate::checkpoint::read_signed;
use crate::read_words::{log_id_of, read_log_proof, read_map_proof, record_id_of};
use std::alloc::{AllocError, Global};
use tool_words::{BeginningFiles, HeadWords};
use warg_audit::files::command_error::CommandError;
use warg_audit::files::command_output::CommandOutput;
use warg_audit::files::input::Store;
use warg_crypto::hash::AnyHash;
use warg_log_records::RecordId;
use warg_registry::{Checkpoint, LogId};
use warg_transparency::{
    BeginningComparison, HeadComparison, LogProof, MapProof, ShownBeginning, ShownHead,
    compare_beginnings, compare_heads,
};

/// A log's last record, or that there is none, with the proof that is to show it.
#[derive(Debug, Drop)]
pub(crate) struct ReadHead {
    pub(crate) head: Option<RecordId>,
    pub(crate) proof: MapProof,
}

/// An older checkpoint, with the proof that is to show that a newer log begins with its own.
#[derive(Debug, Drop)]
pub(crate) struct ReadBeginning {
    pub(crate) checkpoint: Checkpoint,
    pub(crate) proof: LogProof,
}

// The last record of a log that a word says: its id, or `none`.
fn head_of(alloc: Global, word: &str) -> Result<Option<RecordId>, CommandError>
    ensures ok { IfOk result (IsHeadWord word.now) }
    ensures err { IfErr result (IfOutput (IsUnsaid (IsHeadWord word.now))) }
{
    if word == "none" {
        return Ok(None);
    }
    match record_id_of(alloc, word) {
        Ok(record_id) => Ok(Some(record_id)),
        Err(error) => Err(error),
    }
}

// The answer about a log's last record that a word says, with the proof that a file holds.
fn read_head<S: Store>(
    alloc: Global,
    words: &HeadWords<'_>,
    store: &mut S,
) -> Result<ReadHead, CommandError>
    ensures ok { IfOk result (IsReadHead (S.files store.old) words.now) }
    ensures err { IfErr result (IfOutput (IsByHead (S.files store.old) words.now
        (λ it printed. ⊥))) }
    ensures kept { S.files store.new ≡ S.files store.old }
{
    let head = head_of(alloc, words.record_id)?;
    let proof = read_map_proof(alloc, words.proof, store)?;
    Ok(ReadHead { head, proof })
}

// How two answers about a log's last record compare, on a line.
fn head_line(alloc: Global, comparison: HeadComparison) -> Result<CommandOutput, AllocError>
    ensures { IfOk result (λ answer. output_data answer ≡ head_text comparison) }
{
    match comparison {
        HeadComparison::Same => CommandOutput::fixed(alloc, "same\n", 0),
        HeadComparison::Two => CommandOutput::fixed(alloc, "two\n", 1),
        HeadComparison::OneAndNone => CommandOutput::fixed(alloc, "one and none\n", 1),
        HeadComparison::NotShown => CommandOutput::fixed(alloc, "not shown\n", 1),
    }
}

// The same by the answers.
fn heads_line(
    alloc: Global,
    map_root: &AnyHash,
    log_id: &LogId,
    one: &ReadHead,
    other: &ReadHead,
) -> Result<CommandOutput, AllocError>
    ensures { IfOk result (λ answer. AreHeadsCompared map_root.now log_id.now one.now other.now
        (output_data answer)) }
{
    let before = ShownHead {
        head: one.head,
        proof: &one.proof,
    };
    let after = ShownHead {
        head: other.head,
        proof: &other.proof,
    };
    head_line(alloc, compare_heads(map_root, log_id, &before, &after))
}

/// How two answers about the last record of a log compare, which proofs are to show under one signed checkpoint.
pub(crate) fn heads_answer<S: Store>(
    alloc: Global,
    checkpoint: &str,
    log_id: &str,
    one: &HeadWords<'_>,
    other: &HeadWords<'_>,
    store: &mut S,
) -> Result<CommandOutput, CommandError>
    ensures answered { Answers (IsHeadsAnswer (S.files store.old) checkpoint.now log_id.now
        one.now other.now) result }
    ensures kept { S.files store.new ≡ S.files store.old }
{
    let log_id = log_id_of(alloc, log_id)?;
    let signed = read_signed(alloc, checkpoint, store)?;
    let one = read_head(alloc, one, store)?;
    let other = read_head(alloc, other, store)?;
    let checkpoint = signed.contents().checkpoint;
    Ok(heads_line(alloc, &checkpoint.map_root, &log_id, &one, &other)?)
}

// The signed checkpoint in a file, with the proof in another.
fn read_beginning<S: Store>(
    alloc: Global,
    paths: &BeginningFiles<'_>,
    store: &mut S,
) -> Result<ReadBeginning, CommandError>
    ensures ok { IfOk result (IsReadBeginning (S.files store.old) paths.now) }
    ensures err { IfErr result (IfOutput (IsByBeginning (S.files store.old) paths.now
        (λ it printed. ⊥))) }
    ensures kept { S.files store.new ≡ S.files store.old }
{
    let signed = read_signed(alloc, paths.checkpoint, store)?;
    let proof = read_log_proof(alloc, paths.proof, store)?;
    Ok(ReadBeginning {
        checkpoint: signed.contents().checkpoint,
        proof,
    })
}

// How two checkpoints compare from which a newer one goes on, on a line.
fn beginning_line(
    alloc: Global,
    comparison: BeginningComparison,
) -> Result<CommandOutput, AllocError>
    ensures { IfOk result (λ answer. output_data answer ≡ beginning_text comparison) }
{
    match comparison {
        BeginningComparison::Same => CommandOutput::fixed(alloc, "same\n", 0),
        BeginningComparison::Fork => CommandOutput::fixed(alloc, "fork\n", 1),
        BeginningComparison::Collision => CommandOutput::fixed(alloc, "collision\n", 1),
        BeginningComparison::TwoLengths => CommandOutput::fixed(alloc, "two lengths\n", 1),
        BeginningComparison::NotShown => CommandOutput::fixed(alloc, "not shown\n", 1),
    }
}

// The same by the checkpoints.
fn beginnings_line(
    alloc: Global,
    new: &Checkpoint,
    one: &ReadBeginning,
    other: &ReadBeginning,
) -> Result<CommandOutput, AllocError>
    ensures { IfOk result (λ answer. AreBeginningsCompared new.now one.now other.now
        (output_data answer)) }
{
    let before = ShownBeginning {
        checkpoint: &one.checkpoint,
        proof: &one.proof,
    };
    let after = ShownBeginning {
        checkpoint: &other.checkpoint,
        proof: &other.proof,
    };
    beginning_line(alloc, compare_beginnings(new, &before, &after))
}

/// How two signed checkpoints in files compare, from which a newer one in a file is to be shown to go on.
pub(crate) fn beginnings_answer<S: Store>(
    alloc: Global,
    one: &BeginningFiles<'_>,
    other: &BeginningFiles<'_>,
    new: &str,
    store: &mut S,
) -> Result<CommandOutput, CommandError>
    ensures answered { Answers (IsBeginningsAnswer (S.files store.old) one.now other.now new.now)
        result }
    ensures kept { S.files store.new ≡ S.files store.old }
{
    let one = read_beginning(alloc, one, store)?;
    let other = read_beginning(alloc, other, store)?;
    let signed = read_signed(alloc, new, store)?;
    let new = signed.contents().checkpoint;
    Ok(beginnings_line(alloc, &new, &one, &other)?)
}
