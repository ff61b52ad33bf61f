//! What a hasher is fed, where no derive says it.

ghost use Rattle.std.specs.Prelude.{◌≡◌};
ghost use Rattle.std.specs.Hash as fed;
ghost use Rattle.std.specs.List.{fold};
ghost use Rattle.warg_crypto.specs.SameNamedBytes.{named_bytes_hash_input};

use crate::signing::{KeyID, PublicKey, Signature};
use std::hash::{Hash, Hasher};

/// Of a key id: its text.
pub fn feed_id<H: Hasher>(id: &KeyID, hasher: &mut H)
    ensures { hasher.new ≡ fold H.write hasher.old (fed.str id.now) }
{
    id.hash(hasher);
}

/// Of a key: its name, then its bytes behind their number.
pub fn feed_key<H: Hasher>(key: &PublicKey, hasher: &mut H)
    ensures { hasher.new ≡ fold H.write hasher.old (named_bytes_hash_input key.now) }
{
    key.hash(hasher);
}

/// Of a signature: its name, then its bytes behind their number.
pub fn feed_signature<H: Hasher>(signature: &Signature, hasher: &mut H)
    ensures { hasher.new ≡ fold H.write hasher.old (named_bytes_hash_input signature.now) }
{
    signature.hash(hasher);
}
