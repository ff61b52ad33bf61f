//! Laws of the definitions, and of the types that rest on them.

ghost use Rattle.std.specs.Prelude.{◌≡◌, ℕ, List, IsTrue, ◌↔◌, length, true};
ghost use Rattle.hex.specs.Hex.{IsBytes};
ghost use Rattle.warg_crypto.specs.HashText.{hash_text};
ghost use Rattle.warg_registry.specs.KebabNames.{IsKebabName, is_kebab_name};
ghost use Rattle.warg_registry.specs.LogIds.{id_of_text};
ghost use Rattle.warg_registry.specs.PackageNames.{refused_name};
ghost use Rattle.warg_registry.specs.PrefixEncodings.{IsPrefixCode};
ghost use Rattle.warg_registry.specs.declared.checkpoint.Checkpoint.{Checkpoint};
ghost use Rattle.warg_registry.specs.declared.checkpoint.TimestampedCheckpoint.{TimestampedCheckpoint};
ghost use Rattle.warg_registry.specs.declared.leaf.LogLeaf.{LogLeaf};
ghost use Rattle.warg_registry.specs.declared.leaf.MapLeaf.{MapLeaf};
ghost use Rattle.warg_registry.specs.declared.log_id.LogId.{LogId};
ghost use Rattle.warg_registry.specs.declared.package_name.PackageNameError.{PackageNameError};

mod copies;
mod hashing;
mod order;
mod texts;

use crate::{
    Checkpoint, LogId, LogLeaf, MapLeaf, PackageName, PackageNameError, TimestampedCheckpoint,
};
pub use copies::{
    clone_checkpoint, clone_log_id, clone_log_leaf, clone_map_leaf, clone_timestamped_checkpoint,
};
pub use hashing::{feed_log_id, feed_package_name};
pub use order::{compare_log_ids, compare_package_names};
pub use texts::{print_log_id, print_package_name};
use warg_crypto::laws::hash_reads_back;

/// What is written of a log's id reads back.
pub fn log_id_reads_back()
    ensures { (id : LogId) → length id.hash.bytes ≡ 32 → IsBytes id.hash.bytes →
        id_of_text (hash_text id.hash) ≡ Ok id }
{
    hash_reads_back();
}

/// What is tested of a name is the grammar: words of a letter and then letters and digits, joined by
/// single hyphens.
pub fn kebab_names()
    ensures { (name : List ℕ) → IsTrue (is_kebab_name name) ↔ IsKebabName name }
{}

/// No prefix encoding of a checkpoint, a timestamped checkpoint, a leaf of either tree or a package
/// name is a proper beginning of another, and equal ones come from equal values of one kind.
pub fn no_encoding_begins_another()
    ensures { IsPrefixCode }
{}

/// When `==` is true: exactly where both are identical. That is, of checkpoints, in both roots and the length, and in the
/// time where they have one; of leaves, in their ids; of names of packages, in text. Of why a text names no package: exactly
/// where the cases are identical, and the text.
pub fn equality()
    ensures log_ids { (a b : LogId) → (⟦<LogId as PartialEq>⟧.eq a b ≡ true) ↔ (a ≡ b) }
    ensures checkpoints { (a b : Checkpoint) →
        (⟦<Checkpoint as PartialEq>⟧.eq a b ≡ true) ↔ (a ≡ b) }
    ensures timestamped_checkpoints { (a b : TimestampedCheckpoint) →
        (⟦<TimestampedCheckpoint as PartialEq>⟧.eq a b ≡ true) ↔ (a ≡ b) }
    ensures map_leaves { (a b : MapLeaf) → (⟦<MapLeaf as PartialEq>⟧.eq a b ≡ true) ↔ (a ≡ b) }
    ensures log_leaves { (a b : LogLeaf) → (⟦<LogLeaf as PartialEq>⟧.eq a b ≡ true) ↔ (a ≡ b) }
    ensures package_names { (a b : List ℕ) →
        (⟦<PackageName as PartialEq>⟧.eq a b ≡ true) ↔ (a ≡ b) }
    ensures package_name_errors { (a b : PackageNameError) →
        (⟦<PackageNameError as PartialEq>⟧.eq a b ≡ true) ↔ (refused_name a ≡ refused_name b) }
{}
