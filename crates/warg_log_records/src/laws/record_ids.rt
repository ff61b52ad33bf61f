//! How ids of records are ordered, printed, hashed and copied.

ghost use Rattle.std.specs.Prelude.{◌≡◌, Ok};
ghost use Rattle.std.specs.Fmt.{WritesOnOk, WritesStyledOnOk};
ghost use Rattle.std.specs.List.{fold};
ghost use Rattle.warg_crypto.specs.HashText.{hash_text};

use crate::record_id::RecordId;
use std::alloc::AllocError;
use std::cmp::Ordering;
use std::fmt::{self, Display, Formatter, Write};
use std::hash::{Hash, Hasher};
use warg_crypto::hash::AnyHash;

/// Ids of records are ordered as their hashes.
pub fn compare_record_ids(a: &RecordId, b: &RecordId) -> Ordering
    ensures { result ≡ ⟦<AnyHash as Ord>⟧.cmp a.now.hash b.now.hash }
{
    a.cmp(b)
}

/// The id of a record prints as the text of its hash.
pub fn print_record_id<W: Write>(id: &RecordId, f: &mut Formatter<W>) -> fmt::Result
    ensures plain { WritesOnOk W.write_str_gives f.old result (hash_text id.now.hash) f.new }
    ensures styled { WritesStyledOnOk W.write_str_gives f.old result (hash_text id.now.hash) f.new }
{
    id.fmt(f)
}

/// Of the id of a record a hasher is fed what it is fed of the hash.
pub fn feed_record_id<H: Hasher>(id: &RecordId, hasher: &mut H)
    ensures { hasher.new ≡ fold H.write hasher.old (⟦<AnyHash as Hash>⟧.hash_input id.now.hash) }
{
    id.hash(hasher);
}

/// A clone of a record's id is the id, and takes no memory.
pub fn clone_record_id(id: &RecordId) -> Result<RecordId, AllocError>
    ensures { result ≡ Ok id.now }
{
    id.clone()
}
