//! Contradictions: what a registry showed twice under one root, which can't both be so. They are told by what the clients
//! hold, with no help of the registry, and take no memory.

ghost use Rattle.std.specs.Prelude.{◌≡◌, ◌↔◌, IsTrue};
ghost use Rattle.warg_transparency.specs.Contradictions.{ShowsBeginning};
ghost use Rattle.warg_transparency.specs.ShownTwice.{AreBeginningsShown, AreHeadAndNone, AreHeadsShown, AreTwoHeads, AreTwoLengths};
ghost use Rattle.warg_transparency.specs.ShownTwice.{IsBeginningCase, IsBeginningCollision, IsBeginningFork, IsHeadCase, IsOneBeginning};
ghost use Rattle.warg_transparency.specs.ShownTwice.{IsOneHead, IsShownBeginning, IsShownHead, ShowsAnswer};
ghost use Rattle.warg_transparency.specs.declared.contradictions.BeginningComparison.TheVariants as beginnings;
ghost use Rattle.warg_transparency.specs.declared.contradictions.HeadComparison.TheVariants as heads;

use crate::log::verify_consistency;
use crate::log_proof::LogProof;
use crate::map::{verify_absence, verify_presence};
use crate::map_proof::MapProof;
use crate::registry_trees::hash_range;
use warg_crypto::hash::AnyHash;
use warg_log_records::RecordId;
use warg_registry::{Checkpoint, LogId, MapLeaf};

/// How two answers about the head of one log compare that are shown under one root of a map.
#[derive(Clone, Copy, Debug, PartialEq, Eq)]
pub enum HeadComparison {
    /// They are shown, and are one: one head, or none.
    Same,
    /// They are shown, and are two heads: two strings collide.
    Two,
    /// They are shown, a head and none: two strings collide.
    OneAndNone,
    /// One of the proofs does not show its answer.
    NotShown,
}

/// How two checkpoints compare that the log of a newer one is shown to begin with.
#[derive(Clone, Copy, Debug, PartialEq, Eq)]
pub enum BeginningComparison {
    /// They are shown, and are one.
    Same,
    /// They are shown, of one log, and differ in the map's root: no list of leaves has both.
    Fork,
    /// They are shown, of one length, and differ in the log's root: two strings collide.
    Collision,
    /// They are shown, of two lengths: nothing is said against them.
    TwoLengths,
    /// One of the proofs does not show its checkpoint's log.
    NotShown,
}

/// An answer about the head of a log, and the proof that is to show it.
#[derive(Clone, Copy, Debug)]
pub struct ShownHead<'a> {
    /// The log's last record, or nothing where the answer is that it has none.
    pub head: Option<RecordId>,
    /// The proof.
    pub proof: &'a MapProof,
}

/// A checkpoint, and the proof that is to show that the log of a newer one begins with its own.
#[derive(Clone, Copy, Debug)]
pub struct ShownBeginning<'a> {
    /// The checkpoint.
    pub checkpoint: &'a Checkpoint,
    /// The proof.
    pub proof: &'a LogProof,
}

// Whether the proof shows the answer under the root.
fn shows_answer(
    map_root: &AnyHash,
    log_id: &LogId,
    head: Option<RecordId>,
    proof: &MapProof,
) -> bool
    ensures { IsTrue result ↔ ShowsAnswer map_root.now log_id.now head proof.now }
{
    match head {
        Some(record_id) => verify_presence(log_id, &MapLeaf { record_id }, proof, map_root),
        None => verify_absence(log_id, proof, map_root),
    }
}

// Whether the answer is shown under the root.
fn is_shown_head(map_root: &AnyHash, log_id: &LogId, shown: &ShownHead<'_>) -> bool
    ensures { IsTrue result ↔ IsShownHead map_root.now log_id.now shown.now }
{
    shows_answer(map_root, log_id, shown.head, shown.proof)
}

// Whether both answers are shown under the root.
fn are_heads_shown(
    map_root: &AnyHash,
    log_id: &LogId,
    one: &ShownHead<'_>,
    other: &ShownHead<'_>,
) -> bool
    ensures { IsTrue result ↔ AreHeadsShown map_root.now log_id.now one.now other.now }
{
    is_shown_head(map_root, log_id, one) && is_shown_head(map_root, log_id, other)
}

// The case of two answers, by whether both are shown.
fn head_case(are_shown: bool, one: Option<RecordId>, other: Option<RecordId>) -> HeadComparison
    ensures { IsHeadCase (IsTrue are_shown) one other result }
{
    if !are_shown {
        return HeadComparison::NotShown;
    }
    warg_log_records::laws::equality();
    match (one, other) {
        (None, None) => HeadComparison::Same,
        (Some(_), None) => HeadComparison::OneAndNone,
        (None, Some(_)) => HeadComparison::OneAndNone,
        (Some(head), Some(other_head)) => {
            if head == other_head {
                HeadComparison::Same
            } else {
                HeadComparison::Two
            }
        }
    }
}

/// Compares two answers about the head of one log, each shown by a proof under one root of a registry's map.
pub fn compare_heads(
    map_root: &AnyHash,
    log_id: &LogId,
    one: &ShownHead<'_>,
    other: &ShownHead<'_>,
) -> HeadComparison
    ensures same { (result ≡ heads.Same) ↔ IsOneHead map_root.now log_id.now one.now other.now }
    ensures two { (result ≡ heads.Two) ↔
        AreTwoHeads map_root.now log_id.now one.now other.now }
    ensures one_and_none { (result ≡ heads.OneAndNone) ↔
        AreHeadAndNone map_root.now log_id.now one.now other.now }
    ensures not_shown { (result ≡ heads.NotShown) ↔
        (AreHeadsShown map_root.now log_id.now one.now other.now → ⊥) }
{
    let are_shown = are_heads_shown(map_root, log_id, one, other);
    head_case(are_shown, one.head, other.head)
}

// Whether the hashes show that the log of the new checkpoint begins with that of the old one.
fn shows_beginning(new: &Checkpoint, old: &Checkpoint, hashes: &[[u8; 32]]) -> bool
    ensures { IsTrue result ↔ ShowsBeginning new.now old.now hashes.now }
{
    hash_range(&old.log_root);
    verify_consistency(old, new, hashes)
}

// Whether the log of the new checkpoint is shown to begin with that of the older one.
fn is_shown_beginning(new: &Checkpoint, shown: &ShownBeginning<'_>) -> bool
    ensures { IsTrue result ↔ IsShownBeginning new.now shown.now }
{
    shows_beginning(new, shown.checkpoint, shown.proof.hashes())
}

// Whether the log of the new checkpoint is shown to begin with those of both older ones.
fn are_beginnings_shown(
    new: &Checkpoint,
    one: &ShownBeginning<'_>,
    other: &ShownBeginning<'_>,
) -> bool
    ensures { IsTrue result ↔ AreBeginningsShown new.now one.now other.now }
{
    is_shown_beginning(new, one) && is_shown_beginning(new, other)
}

// The case of two checkpoints, by whether both beginnings are shown.
fn beginning_case(are_shown: bool, one: &Checkpoint, other: &Checkpoint) -> BeginningComparison
    ensures { IsBeginningCase (IsTrue are_shown) one.now other.now result }
{
    warg_crypto::laws::equality();
    warg_registry::laws::equality();
    if !are_shown {
        BeginningComparison::NotShown
    } else if one.log_length != other.log_length {
        BeginningComparison::TwoLengths
    } else if one.log_root != other.log_root {
        BeginningComparison::Collision
    } else if one == other {
        BeginningComparison::Same
    } else {
        BeginningComparison::Fork
    }
}

/// Compares two checkpoints, each with a proof that the log of one newer checkpoint begins with its own. Of the newer one's
/// map nothing is asked.
pub fn compare_beginnings(
    new: &Checkpoint,
    one: &ShownBeginning<'_>,
    other: &ShownBeginning<'_>,
) -> BeginningComparison
    ensures same { (result ≡ beginnings.Same) ↔ IsOneBeginning new.now one.now other.now }
    ensures fork { (result ≡ beginnings.Fork) ↔ IsBeginningFork new.now one.now other.now }
    ensures collision { (result ≡ beginnings.Collision) ↔
        IsBeginningCollision new.now one.now other.now }
    ensures two_lengths { (result ≡ beginnings.TwoLengths) ↔
        AreTwoLengths new.now one.now other.now }
    ensures not_shown { (result ≡ beginnings.NotShown) ↔
        (AreBeginningsShown new.now one.now other.now → ⊥) }
{
    let are_shown = are_beginnings_shown(new, one, other);
    beginning_case(are_shown, one.checkpoint, other.checkpoint)
}
