//! The bytes of hashes and leaves, in arrays.

ghost use Rattle.std.specs.Prelude.{◌≡◌, length};
ghost use Rattle.warg_registry.specs.PrefixEncodings.{IsHash, hash_encoding_of, log_leaf_encoding_of, map_leaf_encoding_of};
ghost use Rattle.warg_transparency.specs.MapLeaves.{IsLeafEncoding};

use warg_crypto::hash::AnyHash;
use warg_registry::{LogId, LogLeaf, MapLeaf};

// The bytes of the hash.
pub(crate) fn hash_bytes(hash: &AnyHash) -> [u8; 32]
    ensures { result ≡ hash.now.bytes }
{
    let mut bytes = [0u8; 32];
    bytes.copy_from_slice(hash.bytes());
    bytes
}

// The key of the log in a map.
pub(crate) fn key_of(log_id: &LogId) -> [u8; 32]
    ensures { result ≡ log_id.now.hash.bytes }
{
    hash_bytes(&AnyHash::from(*log_id))
}

// Writes the prefix encoding of the hash.
fn put_hash(hash: &AnyHash, place: &mut [u8])
    requires { length place.old ≡ 72 }
    ensures written { place.new ≡ hash_encoding_of hash.now }
    ensures is_hash { IsHash hash.now }
{
    let (tag, digits) = place.split_at_mut(8);
    tag.copy_from_slice(b"\x47sha256:");
    let _ = hex::encode_to_slice(hash.bytes(), digits);
}

// The prefix encoding of the leaf of a log.
pub(crate) fn log_leaf_bytes(leaf: &LogLeaf) -> [u8; 160]
    ensures { result ≡ log_leaf_encoding_of leaf.now }
{
    let mut bytes = [0u8; 160];
    let (name, hashes) = bytes.split_at_mut(16);
    name.copy_from_slice(b"WARG-LOG-LEAF-V0");
    let (log_id, record_id) = hashes.split_at_mut(72);
    put_hash(&AnyHash::from(leaf.log_id), log_id);
    put_hash(&AnyHash::from(leaf.record_id), record_id);
    bytes
}

// The prefix encoding of the leaf of a map.
pub(crate) fn map_leaf_bytes(leaf: &MapLeaf) -> [u8; 88]
    ensures value { result ≡ map_leaf_encoding_of leaf.now }
    ensures reads_back { IsLeafEncoding result }
    ensures is_hash { IsHash leaf.now.record_id.hash }
{
    let mut bytes = [0u8; 88];
    let (name, record_id) = bytes.split_at_mut(16);
    name.copy_from_slice(b"WARG-MAP-LEAF-V0");
    put_hash(&AnyHash::from(leaf.record_id), record_id);
    bytes
}
