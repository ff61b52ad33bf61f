//! Two proofs that contradict each other under one checkpoint. Nothing has to be known of the trees: a registry that has
//! shown both has shown two strings that collide, at a place that is named. These laws have no effect.

ghost use Rattle.std.specs.Prelude.{◌≡◌, ◌⊎◌, ℕ, List};
ghost use Rattle.sha2.specs.Sha256.{sha256};
ghost use Rattle.warg_crypto.specs.declared.hash.AnyHash.{AnyHash};
ghost use Rattle.warg_registry.specs.declared.checkpoint.Checkpoint.{Checkpoint};
ghost use Rattle.warg_registry.specs.declared.leaf.LogLeaf.{LogLeaf};
ghost use Rattle.warg_registry.specs.declared.leaf.MapLeaf.{MapLeaf};
ghost use Rattle.warg_registry.specs.declared.log_id.LogId.{LogId};
ghost use Rattle.warg_merkle.specs.Trees.{HaveCollision};
ghost use Rattle.warg_transparency.specs.Heads.{ShowsLeaf, path_inputs_for};
ghost use Rattle.warg_transparency.specs.Contradictions.{ShowsBeginning, ShowsLeafAt, ShowsNothing};
ghost use Rattle.warg_transparency.specs.Contradictions.{beginning_inputs, leaf_inputs, nothing_inputs};
ghost use Rattle.warg_transparency.specs.RegistryTrees.{IsCheckpointOf};
ghost use Rattle.warg_transparency.specs.ShownTwice.{AreHeadAndNone, AreTwoHeads, IsBeginningCollision, IsBeginningFork};
ghost use Rattle.warg_transparency.specs.ShownTwice.{head_inputs, inputs_of};
ghost use Rattle.warg_transparency.specs.declared.contradictions.ShownBeginning.{ShownBeginning};
ghost use Rattle.warg_transparency.specs.declared.contradictions.ShownHead.{ShownHead};

use crate::laws::forks::one_checkpoint;
use crate::laws::one_leaf;
use warg_merkle::sparse_map::one_value;
use warg_registry::laws::no_encoding_begins_another;

/// Two leaves that are shown at one place under one checkpoint are one.
pub fn one_leaf_at()
    ensures { (checkpoint : Checkpoint) (index : ℕ) (leaf other : LogLeaf)
        (proof other_proof : List (List ℕ)) →
        ShowsLeafAt checkpoint index leaf proof → ShowsLeafAt checkpoint index other other_proof →
        (leaf ≡ other) ⊎ HaveCollision sha256 (leaf_inputs checkpoint index leaf proof)
        (leaf_inputs checkpoint index other other_proof) }
{
    warg_merkle::one_leaf();
    no_encoding_begins_another();
}

/// Two logs of one length with which the log of one checkpoint is shown to begin have one root. Clients that were shown two
/// were shown a fork, or a collision.
pub fn one_beginning()
    ensures { (new old other : Checkpoint) (proof other_proof : List (List ℕ)) →
        old.log_length ≡ other.log_length →
        ShowsBeginning new old proof → ShowsBeginning new other other_proof →
        (old.log_root ≡ other.log_root) ⊎ HaveCollision sha256 (beginning_inputs new old proof)
        (beginning_inputs new other other_proof) }
{
    warg_merkle::one_beginning();
}

/// The head of a log, and that it has none, can't both be shown under one root. Of two heads `one_leaf` speaks.
pub fn head_or_none()
    ensures { (root : AnyHash) (log_id : LogId) (leaf : MapLeaf)
        (proof other_proof : List (List ℕ)) →
        ShowsLeaf root log_id leaf proof → ShowsNothing root log_id other_proof →
        HaveCollision sha256 (path_inputs_for log_id leaf proof)
        (nothing_inputs log_id other_proof) }
{
    one_value();
}

/// What `compare_heads` calls two heads, or a head and none, is a collision: two strings that are hashed for the two proofs,
/// at one place, differ and have one hash.
pub fn head_collision()
    ensures two { (root : AnyHash) (log_id : LogId) (one other : ShownHead) →
        AreTwoHeads root log_id one other →
        HaveCollision sha256 (head_inputs log_id one) (head_inputs log_id other) }
    ensures one_and_none { (root : AnyHash) (log_id : LogId) (one other : ShownHead) →
        AreHeadAndNone root log_id one other →
        HaveCollision sha256 (head_inputs log_id one) (head_inputs log_id other) }
{
    one_leaf();
    head_or_none();
}

/// What `compare_beginnings` calls a collision is one: two strings that are hashed for the two proofs, at one place, differ
/// and have one hash. Of what it calls a fork no list of leaves has both checkpoints.
pub fn beginning_collision()
    ensures collision { (new : Checkpoint) (one other : ShownBeginning) →
        IsBeginningCollision new one other →
        HaveCollision sha256 (inputs_of new one) (inputs_of new other) }
    ensures fork { (new : Checkpoint) (one other : ShownBeginning) →
        IsBeginningFork new one other → (leaves : List LogLeaf) →
        IsCheckpointOf leaves one.checkpoint.now → IsCheckpointOf leaves other.checkpoint.now → ⊥ }
{
    one_beginning();
    one_checkpoint();
}
