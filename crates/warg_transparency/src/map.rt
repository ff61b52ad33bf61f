//! Verification of what a map says of a log, which takes no memory.

ghost use Rattle.std.specs.Prelude.{◌≡◌, ◌↔◌, ℕ, List, Option, IsTrue, Some, None};
ghost use Rattle.sha2.specs.Sha256.{sha256};
ghost use Rattle.warg_merkle.specs.Trees.{Side};
ghost use Rattle.warg_merkle.specs.SparseMap.Maps.{map_root, Leads, IsOwn};
ghost use Rattle.warg_registry.specs.PrefixEncodings.{map_leaf_encoding_of};
ghost use Rattle.warg_transparency.specs.Contradictions.{ShowsNothing};
ghost use Rattle.warg_transparency.specs.Heads.{head_leaf, ShowsHead, ShowsLeaf};

use crate::encode::{hash_bytes, key_of, map_leaf_bytes};
use crate::map_proof::MapProof;
use warg_crypto::hash::AnyHash;
use warg_log_records::RecordId;
use warg_registry::{Checkpoint, LogId, MapLeaf};

/// Whether the proof leads from the leaf of the log to the map's root.
pub fn verify_presence(log_id: &LogId, leaf: &MapLeaf, proof: &MapProof, root: &AnyHash) -> bool
    ensures exact { IsTrue result ↔
        Leads sha256 (Some (map_leaf_encoding_of leaf.now)) log_id.now.hash.bytes
        proof.now root.now.bytes }
    // Every map with that root has exactly the leaf for the log, or there is a collision.
    ensures sound { IsTrue result → (m : List Side → Option (List ℕ)) →
        map_root sha256 256 m ≡ root.now.bytes →
        IsOwn sha256 m (Some (map_leaf_encoding_of leaf.now)) log_id.now.hash.bytes proof.now }
    ensures shown { IsTrue result → ShowsLeaf root.now log_id.now leaf.now proof.now }
{
    let key = key_of(log_id);
    warg_merkle::map_proof::verify_presence(
        &key,
        &map_leaf_bytes(leaf),
        proof.short(),
        &hash_bytes(root),
    )
}

/// Whether the proof leads from no leaf of the log to the map's root.
pub fn verify_absence(log_id: &LogId, proof: &MapProof, root: &AnyHash) -> bool
    ensures exact { IsTrue result ↔
        Leads sha256 None log_id.now.hash.bytes proof.now root.now.bytes }
    // Every map with that root has nothing for the log, or there is a collision.
    ensures sound { IsTrue result → (m : List Side → Option (List ℕ)) →
        map_root sha256 256 m ≡ root.now.bytes →
        IsOwn sha256 m None log_id.now.hash.bytes proof.now }
    ensures shown { IsTrue result → ShowsNothing root.now log_id.now proof.now }
{
    let key = key_of(log_id);
    warg_merkle::map_proof::verify_absence(&key, proof.short(), &hash_bytes(root))
}

/// Whether the proof shows that the record is the head of the log under the checkpoint.
pub fn verify_head(
    checkpoint: &Checkpoint,
    log_id: &LogId,
    record_id: &RecordId,
    proof: &MapProof,
) -> bool
    ensures exact { IsTrue result ↔
        Leads sha256 (Some (map_leaf_encoding_of (head_leaf record_id.now)))
        log_id.now.hash.bytes proof.now
        checkpoint.now.map_root.bytes }
    // Every map with the checkpoint's root has exactly that head for the log, or there is a collision.
    ensures sound { IsTrue result → (m : List Side → Option (List ℕ)) →
        map_root sha256 256 m ≡ checkpoint.now.map_root.bytes →
        IsOwn sha256 m (Some (map_leaf_encoding_of (head_leaf record_id.now)))
        log_id.now.hash.bytes proof.now }
    ensures shown { IsTrue result → ShowsHead checkpoint.now log_id.now record_id.now proof.now }
{
    let leaf = MapLeaf {
        record_id: *record_id,
    };
    verify_presence(log_id, &leaf, proof, &checkpoint.map_root)
}

/// Whether the proof shows that the log has no head under the checkpoint: the map has nothing for it.
pub fn verify_no_head(checkpoint: &Checkpoint, log_id: &LogId, proof: &MapProof) -> bool
    ensures exact { IsTrue result ↔
        Leads sha256 None log_id.now.hash.bytes proof.now checkpoint.now.map_root.bytes }
    // Every map with the checkpoint's root has nothing for the log, or there is a collision.
    ensures sound { IsTrue result → (m : List Side → Option (List ℕ)) →
        map_root sha256 256 m ≡ checkpoint.now.map_root.bytes →
        IsOwn sha256 m None log_id.now.hash.bytes proof.now }
    ensures shown { IsTrue result → ShowsNothing checkpoint.now.map_root log_id.now proof.now }
{
    verify_absence(log_id, proof, &checkpoint.map_root)
}
