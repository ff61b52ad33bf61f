//! What a hasher is fed of what a registry names things by.

ghost use Rattle.std.specs.Prelude.{◌≡◌};
ghost use Rattle.std.specs.Hash as fed;
ghost use Rattle.std.specs.List.{fold};

use crate::{LogId, PackageName};
use std::hash::{Hash, Hasher};
use warg_crypto::hash::AnyHash;

/// Of the id of a log a hasher is fed what it is fed of the hash.
pub fn feed_log_id<H: Hasher>(id: &LogId, hasher: &mut H)
    ensures { hasher.new ≡ fold H.write hasher.old (⟦<AnyHash as Hash>⟧.hash_input id.now.hash) }
{
    id.hash(hasher);
}

/// Of a package name a hasher is fed its text.
pub fn feed_package_name<H: Hasher>(name: &PackageName, hasher: &mut H)
    ensures { hasher.new ≡ fold H.write hasher.old (fed.str name.now) }
{
    name.hash(hasher);
}
