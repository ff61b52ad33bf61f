//! Hashes in prefix encodings.
ghost use Rattle.std.specs.Prelude.{◌≡◌, ◌++◌, ℕ, List, OnOk, OnErr};
ghost use Rattle.warg_crypto.specs.Visits.{Stops};
ghost use Rattle.warg_registry.specs.PrefixEncodings.{hash_encoding_of};

use std::alloc::AllocError;
use warg_crypto::ByteVisitor;
use warg_crypto::hash::AnyHash;
use warg_crypto::prefix::PrefixEncodeVisitor;

/// Appends the text of the hash behind its length, taking no memory of its own.
pub fn visit_hash<BV: ByteVisitor>(
    visitor: &mut PrefixEncodeVisitor<'_, BV>,
    hash: &AnyHash,
) -> Result<(), AllocError>
    ensures same { visitor.new.visitor.ghost_name ≡ visitor.old.visitor.ghost_name }
    ensures ok { (m : List ℕ) → BV.has_seen visitor.old.visitor.now m →
        OnOk result (BV.has_seen visitor.new.visitor.now (m ++ hash_encoding_of hash.now)) }
    ensures err { OnErr result (Stops BV.has_seen BV.refuses visitor.old.visitor.now
        visitor.new.visitor.now
        (hash_encoding_of hash.now)) }
{
    let mut buffer = [0u8; 71];
    visitor.visit_str(hash.write_text(&mut buffer))
}
