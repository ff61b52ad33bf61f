//! What a fork shows of the registry that made it. These laws have no effect.

ghost use Rattle.std.specs.Prelude.{◌≡◌, ◌⊎◌, ◌≤◌, ◌^◌, ℕ, List, take};
ghost use Rattle.warg_registry.specs.declared.checkpoint.Checkpoint.{Checkpoint};
ghost use Rattle.warg_registry.specs.declared.leaf.LogLeaf.{LogLeaf};
ghost use Rattle.warg_transparency.specs.Forks.{CollidesAt, IsFork, IsLeafFork};
ghost use Rattle.warg_transparency.specs.RegistryTrees.{IsCheckpointOf};
ghost use Rattle.warg_transparency.specs.Views.{IsLogOf};
ghost use Rattle.warg_transparency.specs.declared.forks.ShownLeaf.{ShownLeaf};

use crate::laws::accepted_proofs;
use warg_registry::laws::no_encoding_begins_another;

/// A list of leaves has one checkpoint. So no list has both checkpoints of a fork, whose two
/// signatures show that the registry signed what no one list of leaves has.
pub fn one_checkpoint()
    ensures one { (leaves : List LogLeaf) (checkpoint other : Checkpoint) →
        IsCheckpointOf leaves checkpoint → IsCheckpointOf leaves other → checkpoint ≡ other }
    ensures fork { (old new : Checkpoint) → IsFork old new → (leaves : List LogLeaf) →
        IsCheckpointOf leaves old → IsCheckpointOf leaves new → ⊥ }
{}

/// Two leaves that are shown at one place under checkpoints of one log, of which the one is of a
/// beginning of the log, are one. So where they differ, no log has both checkpoints, or what is
/// hashed for one of the two proofs and for the log's own path at that place collides.
pub fn leaf_fork()
    ensures { (index : ℕ) (old new : ShownLeaf) → IsLeafFork index old new →
        new.checkpoint.now.log_length ≤ 2 ^ 64 →
        (entries : List (List ℕ)) → IsLogOf new.checkpoint.now entries →
        IsLogOf old.checkpoint.now (take old.checkpoint.now.log_length entries) →
        CollidesAt (take old.checkpoint.now.log_length entries) index old ⊎
        CollidesAt entries index new }
{
    accepted_proofs();
    no_encoding_begins_another();
}
