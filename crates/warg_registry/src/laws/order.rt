//! Order of what a registry names things by.

ghost use Rattle.std.specs.Prelude.{◌≡◌};
ghost use Rattle.std.specs.Cmp.Lexicographic.{slice_cmp};
ghost use Rattle.std.specs.Ordering.{nat_cmp};

use crate::{LogId, PackageName};
use std::cmp::Ordering;
use warg_crypto::hash::AnyHash;

/// Ids of logs are ordered as their hashes.
pub fn compare_log_ids(a: &LogId, b: &LogId) -> Ordering
    ensures { result ≡ ⟦<AnyHash as Ord>⟧.cmp a.now.hash b.now.hash }
{
    a.cmp(b)
}

/// Package names are ordered by the bytes of their texts.
pub fn compare_package_names(a: &PackageName, b: &PackageName) -> Ordering
    ensures { result ≡ slice_cmp nat_cmp a.now b.now }
{
    a.cmp(b)
}
