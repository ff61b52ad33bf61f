//! Laws over all checkpoints. They have no effect.

ghost use Rattle.std.specs.Prelude.{◌≡◌, ◌≢◌, ◌⊎◌, ◌≤◌, ◌^◌, ℕ, List, Option, length, take, Some};
ghost use Rattle.std.specs.List.{All};
ghost use Rattle.sha2.specs.Sha256.{sha256};
ghost use Rattle.warg_crypto.specs.declared.hash.AnyHash.{AnyHash};
ghost use Rattle.warg_envelope.specs.EnvelopeData.{EnvelopeData};
ghost use Rattle.warg_log_records.specs.declared.record_id.RecordId.{RecordId};
ghost use Rattle.warg_registry.specs.declared.checkpoint.Checkpoint.{Checkpoint};
ghost use Rattle.warg_registry.specs.PrefixEncodings.{log_leaf_encoding_of};
ghost use Rattle.warg_registry.specs.declared.leaf.LogLeaf.{LogLeaf};
ghost use Rattle.warg_registry.specs.declared.leaf.MapLeaf.{MapLeaf};
ghost use Rattle.warg_registry.specs.declared.log_id.LogId.{LogId};
ghost use Rattle.warg_log_records.specs.Kinds.{SignatureRelation, IsAccepted};
ghost use Rattle.warg_replay.specs.AuditedLog.Heads as records;
ghost use Rattle.warg_replay.specs.AuditedLog.Log.{contents};
ghost use Rattle.warg_merkle.specs.Trees.{HaveCollision, Includes, IsOwn, Side, tree_hash};
ghost use Rattle.warg_merkle.specs.Extensions.{consistency_proof, IsBeginning};
ghost use Rattle.warg_merkle.specs.SparseMap.Maps as maps;
ghost use Rattle.warg_transparency.specs.Heads.{head_leaf, ShowsHead, ShowsLeaf, path_inputs_for};
ghost use Rattle.warg_transparency.specs.Views.{GoesOn, IsLogOf};

pub mod contradictions;
pub mod forks;

use warg_merkle::consistency_paths;
use warg_registry::laws::no_encoding_begins_another;
use warg_replay::Validator;
use warg_replay::audited_log::laws::equal_heads;

/// What an accepted proof of hashes of 32 bytes says of every log of the length and root, and of every map of the root: what
/// it shows is so, and it is the log's or the map's own proof, or what is hashed for the two collides.
pub fn accepted_proofs()
    ensures inclusion { (leaf : LogLeaf) (index size : ℕ) (proof : List (List ℕ)) (root : AnyHash) →
        size ≤ 2 ^ 64 → All (λ hash. length hash ≡ 32) proof →
        Includes sha256 (log_leaf_encoding_of leaf) index size proof root.bytes →
        (entries : List (List ℕ)) →
        length entries ≡ size → tree_hash sha256 entries ≡ root.bytes →
        IsOwn sha256 entries (log_leaf_encoding_of leaf) index proof }
    ensures consistency { (old new : Checkpoint) (proof : List (List ℕ)) → new.log_length ≤ 2 ^ 64 →
        length old.log_root.bytes ≡ 32 → All (λ hash. length hash ≡ 32) proof →
        GoesOn old new proof →
        (entries : List (List ℕ)) → IsLogOf new entries →
        IsBeginning sha256 entries old.log_length proof old.log_root.bytes }
    // Of a leaf's encoding, or of nothing.
    ensures map { (log_id : LogId) (value : Option (List ℕ))
        (proof : List (List ℕ)) (root : AnyHash) →
        All (λ hash. length hash ≡ 32) proof →
        maps.Leads sha256 value log_id.hash.bytes proof root.bytes →
        (m : List Side → Option (List ℕ)) → maps.map_root sha256 256 m ≡ root.bytes →
        maps.IsOwn sha256 m value log_id.hash.bytes proof }
{}

/// Two leaves that are shown for one log under one root are one, or what is hashed for their proofs collides.
pub fn one_leaf()
    ensures { (root : AnyHash) (log_id : LogId) (leaf other : MapLeaf)
        (proof other_proof : List (List ℕ)) →
        ShowsLeaf root log_id leaf proof → ShowsLeaf root log_id other other_proof → (leaf ≡ other)
        ⊎ HaveCollision sha256 (path_inputs_for log_id leaf proof)
        (path_inputs_for log_id other other_proof) }
{
    no_encoding_begins_another();
}

/// Accepted logs whose heads are shown for one log under one checkpoint have equal content bytes, record for record, or two
/// of their records collide, or what is hashed for the proofs of their heads does.
pub fn heads<L: Validator>()
    ensures { (b d : SignatureRelation) (es fs : List EnvelopeData) (head other : RecordId)
        (checkpoint : Checkpoint) (log_id : LogId) (proof other_proof : List (List ℕ)) →
        IsAccepted L.kind b es → IsAccepted L.kind d fs →
        L.kind.head (L.kind.view_of es) ≡ Some head → L.kind.head (L.kind.view_of fs) ≡ Some other →
        ShowsHead checkpoint log_id head proof → ShowsHead checkpoint log_id other other_proof →
        (contents es ≡ contents fs) ⊎ records.HaveCollision L.kind.id (contents es) (contents fs)
        ⊎ HaveCollision sha256 (path_inputs_for log_id (head_leaf head) proof)
        (path_inputs_for log_id (head_leaf other) other_proof) }
{
    equal_heads::<L>();
    one_leaf();
}

/// Where no proof shows that the log of a checkpoint begins with that of an older one, which is not longer, no entries with
/// the length and root of the new one, of at most 2^63 leaves, have the older root at the older length: the registry has
/// shown two logs. It is enough that the entries' own proof is refused. Of more leaves it may have too many hashes.
pub fn split_view()
    ensures own { (old new : Checkpoint) (entries : List (List ℕ)) →
        old.log_length ≤ new.log_length →
        new.log_length ≤ 2 ^ 63 → IsLogOf new entries →
        (GoesOn old new (consistency_proof sha256 old.log_length entries) → ⊥) →
        tree_hash sha256 (take old.log_length entries) ≢ old.log_root.bytes }
    ensures all { (old new : Checkpoint) → old.log_length ≤ new.log_length →
        new.log_length ≤ 2 ^ 63 →
        ((proof : List (List ℕ)) → GoesOn old new proof → ⊥) →
        (entries : List (List ℕ)) → IsLogOf new entries →
        tree_hash sha256 (take old.log_length entries) ≢ old.log_root.bytes }
{
    consistency_paths();
}
