//! Callers of the laws of checkpoints.
ghost use Rattle.std.specs.Prelude.{◌≡◌, ◌≢◌, ◌⊎◌, ◌≤◌, ◌^◌, ℕ, List, All, Option, length, take};
ghost use Rattle.sha2.specs.Sha256.{sha256};
ghost use Rattle.warg_protocol.specs.Records.{AnyHash};
ghost use Rattle.warg_protocol.specs.RegistryMaps as maps;
ghost use Rattle.warg_protocol.specs.Transparency.{Side, GoesOn, HaveCollision, Includes, IsBeginning, IsLogOf, IsOwn, ShowsLeaf, consistency_proof, log_leaf_encoding_of, path_inputs_for, tree_hash};
ghost use Rattle.warg_registry.specs.declared.checkpoint.Checkpoint.{Checkpoint as OfCheckpoint};
ghost use Rattle.warg_registry.specs.declared.leaf.LogLeaf.{LogLeaf};
ghost use Rattle.warg_registry.specs.declared.leaf.MapLeaf.{MapLeaf};
ghost use Rattle.warg_registry.specs.declared.log_id.LogId.{LogId};

use warg_protocol::laws::transparency;

/// What an accepted proof says of a log or a map.
pub fn accepted_proofs()
    ensures inclusion { (leaf : LogLeaf) (index size : ℕ) (proof : List (List ℕ)) (root : AnyHash) →
        size ≤ 2 ^ 64 → All (λ hash. length hash ≡ 32) proof →
        Includes sha256 (log_leaf_encoding_of leaf) index size proof root.bytes →
        (entries : List (List ℕ)) →
        length entries ≡ size → tree_hash sha256 entries ≡ root.bytes →
        IsOwn sha256 entries (log_leaf_encoding_of leaf) index proof }
    ensures consistency { (old new : OfCheckpoint) (proof : List (List ℕ)) →
        new.log_length ≤ 2 ^ 64 →
        length old.log_root.bytes ≡ 32 → All (λ hash. length hash ≡ 32) proof →
        GoesOn old new proof →
        (entries : List (List ℕ)) → IsLogOf new entries →
        IsBeginning sha256 entries old.log_length proof old.log_root.bytes }
    ensures map { (log_id : LogId) (value : Option (List ℕ))
        (proof : List (List ℕ)) (root : AnyHash) →
        All (λ hash. length hash ≡ 32) proof →
        maps.Leads sha256 value log_id.hash.bytes proof root.bytes →
        (m : List Side → Option (List ℕ)) → maps.map_root sha256 256 m ≡ root.bytes →
        maps.IsOwn sha256 m value log_id.hash.bytes proof }
{
    transparency::accepted_proofs();
}

/// One leaf for one log under one root, or a collision.
pub fn one_leaf()
    ensures { (root : AnyHash) (log_id : LogId) (leaf other : MapLeaf)
        (proof other_proof : List (List ℕ)) →
        ShowsLeaf root log_id leaf proof → ShowsLeaf root log_id other other_proof →
        (leaf ≡ other) ⊎ HaveCollision sha256 (path_inputs_for log_id leaf proof)
        (path_inputs_for log_id other other_proof) }
{
    transparency::one_leaf();
}

/// Two checkpoints that do not go on from one another are two logs.
pub fn split_view()
    ensures own { (old new : OfCheckpoint) (entries : List (List ℕ)) →
        old.log_length ≤ new.log_length →
        new.log_length ≤ 2 ^ 63 → IsLogOf new entries →
        (GoesOn old new (consistency_proof sha256 old.log_length entries) → ⊥) →
        tree_hash sha256 (take old.log_length entries) ≢ old.log_root.bytes }
    ensures all { (old new : OfCheckpoint) → old.log_length ≤ new.log_length →
        new.log_length ≤ 2 ^ 63 →
        ((proof : List (List ℕ)) → GoesOn old new proof → ⊥) →
        (entries : List (List ℕ)) → IsLogOf new entries →
        tree_hash sha256 (take old.log_length entries) ≢ old.log_root.bytes }
{
    transparency::split_view();
}
