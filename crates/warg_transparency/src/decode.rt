//! The leaf that a prefix encoding is of.

ghost use Rattle.std.specs.Prelude.{◌≡◌};
ghost use Rattle.warg_transparency.specs.MapLeaves.{leaf_of_digits, leaf_read};

use warg_crypto::digits::decode_pairs;
use warg_crypto::hash::{AnyHash, HashAlgorithm};
use warg_log_records::RecordId;
use warg_registry::MapLeaf;

// The leaf of a map whose prefix encoding ends in these digits.
fn leaf_of_digits(digits: &[u8]) -> Option<MapLeaf>
    ensures { result ≡ leaf_of_digits digits.now }
{
    if digits.len() != 64 {
        return None;
    }
    let mut bytes = [0u8; 32];
    if !decode_pairs(digits, &mut bytes) {
        return None;
    }
    let record_id = RecordId::from(AnyHash::new(HashAlgorithm::Sha256, bytes));
    Some(MapLeaf { record_id })
}

// The leaf of a map whose prefix encoding the bytes are, if they are one.
pub(crate) fn leaf_read(bytes: &[u8]) -> Option<MapLeaf>
    ensures { result ≡ leaf_read bytes.now }
{
    if bytes.len() < 24 {
        return None;
    }
    let (_, digits) = bytes.split_at(24);
    leaf_of_digits(digits)
}
