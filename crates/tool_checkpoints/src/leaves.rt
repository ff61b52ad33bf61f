//! The leaves of a registry that a file lists, and the log and the map that they make.

ghost use Rattle.std.specs.Prelude.{◌≡◌, ◌++◌, [], ◌∷◌, IfOk, IfErr, OnOk, length};
ghost use Rattle.sha2.specs.Sha256.{sha256};
ghost use Rattle.warg_audit.specs.Files.Lines.{lines_of};
ghost use Rattle.warg_merkle.specs.Trees.{leaf_input};
ghost use Rattle.warg_registry.specs.PrefixEncodings.{log_leaf_encoding_of};
ghost use Rattle.warg_audit.specs.Files.Answers.{IfOutput, IsUnusable};
ghost use Rattle.warg_audit.specs.Files.RecordLines.{record_lines};
ghost use Rattle.tool_checkpoints.specs.RegistryLeaves.{AreTreesOf, entry_of, HasNoLeaf, leaf_of_ids, leaf_of_line};
ghost use Rattle.tool_checkpoints.specs.RegistryLeaves.{leaf_of_text, SayRegistry};

use std::alloc::{AllocError, Global};
use warg_audit::files::command_error::{CommandError, unusable};
use warg_audit::files::input::{Input, line_sentence};
use warg_audit::files::lines::{cut_line, without_return};
use warg_audit::files::record_lines::{Comments, record_text};
use warg_crypto::VisitBytes;
use warg_listed_map::Entry;
use warg_log_records::RecordId;
use warg_merkle::leaf_hash;
use warg_registry::{LogId, LogLeaf, MapLeaf};
use warg_transparency::LogTree;

/// A registry's log, and the entries of its map.
#[derive(Drop)]
pub(crate) struct Trees {
    /// The log.
    pub(crate) log: LogTree,
    /// The entries of the map, one for each leaf.
    pub(crate) heads: Vec<Entry>,
}

// The entry of the map that a leaf at a place makes.
fn entry_of(alloc: Global, place: usize, leaf: &LogLeaf) -> Result<Entry, AllocError>
    ensures { IfOk result (λ entry. entry ≡ entry_of place leaf.now) }
{
    let record_id = leaf.record_id;
    let mut bytes = Vec::new(alloc);
    MapLeaf { record_id }.visit(&mut bytes)?;
    let mut key = [0u8; 32];
    key.copy_from_slice(leaf.log_id.as_bytes());
    Ok(Entry {
        key,
        leaf: leaf_hash(bytes.as_slice()),
        place,
    })
}

impl Trees {
    // Of no leaves.
    fn new(alloc: Global) -> Trees
        ensures { AreTreesOf [] result.log result.heads.items }
    {
        Trees {
            log: LogTree::new(alloc),
            heads: Vec::new(alloc),
        }
    }

    // Takes the leaf in: its record is the last of its log then.
    fn push(&mut self, alloc: Global, leaf: &LogLeaf) -> Result<(), AllocError>
        ensures log { OnOk result (self.new.log ≡ self.old.log ++
            sha256 (leaf_input (log_leaf_encoding_of leaf.now)) ∷ []) }
        ensures heads { OnOk result (self.new.heads.items ≡ self.old.heads.items ++
            entry_of (length self.old.heads.items) leaf.now ∷ []) }
    {
        let entry = entry_of(alloc, self.heads.len(), leaf)?;
        self.log.push(leaf)?;
        self.heads.push(entry)?;
        Ok(())
    }
}

// The leaf that the ids of a log and of a record say.
fn leaf_of_ids(log_id: &str, record_id: &str) -> Option<LogLeaf>
    ensures { result ≡ leaf_of_ids log_id.now record_id.now }
{
    let Ok(log_id) = log_id.parse::<LogId>() else {
        return None;
    };
    let Ok(record_id) = record_id.parse::<RecordId>() else {
        return None;
    };
    Some(LogLeaf { log_id, record_id })
}

// The leaf that a text says: the id of its log, a space, and the id of its record.
fn leaf_of_text(text: &str) -> Option<LogLeaf>
    ensures { result ≡ leaf_of_text text.now }
{
    let Some((log_id, record_id)) = text.split_once(' ') else {
        return None;
    };
    leaf_of_ids(log_id, record_id)
}

// The leaf that a line says.
fn leaf_of_line(line: &[u8]) -> Option<LogLeaf>
    ensures { result ≡ leaf_of_line line.now }
{
    match str::from_utf8(without_return(line)) {
        Ok(text) => leaf_of_text(text),
        Err(_) => None,
    }
}

// The error of a command for a line that says no leaf, by its place among the lines that are no comments.
fn no_leaf(alloc: Global, path: &str, comments: &Comments, index: usize) -> CommandError
    ensures { IfOutput IsUnusable result }
{
    let place = comments.place_in_file(index);
    unusable(alloc, line_sentence(alloc, path, place, "it is no leaf"))
}

// The registry of the leaves that the lines of a text say.
fn trees_of_text(
    alloc: Global,
    path: &str,
    text: &[u8],
    comments: &Comments,
) -> Result<Trees, CommandError>
    ensures ok { IfOk result (λ trees.
        SayRegistry (lines_of text.now) trees.log trees.heads.items) }
    ensures err { IfErr result (IfOutput (λ printed.
        HasNoLeaf (lines_of text.now) × IsUnusable printed)) }
{
    let mut trees = Trees::new(alloc);
    let mut rest = text;
    let mut index = 0usize;
    while !rest.is_empty() {
        let (line, more) = cut_line(rest);
        let Some(leaf) = leaf_of_line(line) else {
            return Err(no_leaf(alloc, path, comments, index));
        };
        trees.push(alloc, &leaf)?;
        rest = more;
        index = index.saturating_add(1);
    }
    Ok(trees)
}

/// The registry of the leaves that the file lists.
pub(crate) fn trees_of(alloc: Global, input: Input<'_>) -> Result<Trees, CommandError>
    ensures ok { IfOk result (λ trees.
        SayRegistry (record_lines input.entry.bytes.items) trees.log trees.heads.items) }
    ensures err { IfErr result (IfOutput (λ printed.
        HasNoLeaf (record_lines input.entry.bytes.items) × IsUnusable printed)) }
{
    let path = input.path;
    let (text, comments) = record_text(alloc, input.bytes)?;
    trees_of_text(alloc, path, text.as_slice(), &comments)
}
