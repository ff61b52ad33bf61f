//! Order, where a type has one.

ghost use Rattle.std.specs.Prelude.{◌≡◌};
ghost use Rattle.std.specs.Cmp.Lexicographic.{slice_cmp};
ghost use Rattle.std.specs.Ordering.{nat_cmp, ordering_then};
ghost use Rattle.std.specs.declared.cmp.Ordering.TheVariants.{Equal};

use crate::hash::{AnyHash, Hash, HashAlgorithm};
use crate::signing::KeyID;
use std::cmp::Ordering;

/// There is one algorithm.
pub fn compare_algorithms(a: &HashAlgorithm, b: &HashAlgorithm) -> Ordering
    ensures { result ≡ Equal }
{
    a.cmp(b)
}

/// Hashes are ordered by algorithm, then by bytes.
pub fn compare_hashes(a: &AnyHash, b: &AnyHash) -> Ordering
    ensures { result ≡ ordering_then (⟦<HashAlgorithm as Ord>⟧.cmp a.now.algorithm b.now.algorithm)
        (slice_cmp nat_cmp a.now.bytes b.now.bytes) }
{
    a.cmp(b)
}

/// Hashes whose type names their digest are ordered by bytes.
pub fn compare_typed_hashes<D: Ord>(a: &Hash<D>, b: &Hash<D>) -> Ordering
    ensures { result ≡ slice_cmp nat_cmp a.now.bytes b.now.bytes }
{
    a.cmp(b)
}

/// Key ids are ordered by the bytes of their texts.
pub fn compare_ids(a: &KeyID, b: &KeyID) -> Ordering
    ensures { result ≡ slice_cmp nat_cmp a.now b.now }
{
    a.cmp(b)
}
