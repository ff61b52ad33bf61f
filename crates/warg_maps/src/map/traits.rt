//! The traits of `std` that a map implements.
ghost use Rattle.std.specs.Prelude.{◌≡◌, ◌^◌, ◌<◌, slice_index_or};
ghost use Rattle.std.specs.Cmp;
ghost use Rattle.std.specs.Cmp.{partial_equiv_from_equiv};
ghost use Rattle.std.specs.HashMap.Eq.{hash_map_eq_symm, hash_map_eq_trans, hash_map_eq_refl};
ghost use Rattle.std.specs.Map.Iter.{ShowsInOrder, ShowsValuesInOrder, deref_pair};
ghost use Rattle.std.specs.Option.{option_eq};
ghost use Rattle.indexmap.specs.IndexMap.{get, keys, index_map_len, index_map_eq, IsClone, IsUnique};

use super::NameMap;
use crate::Iter;
use crate::index::Index;
use std::alloc::AllocError;
use std::fmt;
use std::hash::{BuildHasher, Hash};

impl<K: Ord + Hash + Clone + Drop, V: Clone + Drop, S: BuildHasher + Copy> Clone
    for NameMap<K, V, S> {
    ghost is_clone = { λ m n. IsClone K.is_clone V.is_clone m n };

    // No law of `Clone` says that a copied key equals the first. One that does not would not be found here, so it is an
    // `Err`.
    fn clone(&self) -> Result<NameMap<K, V, S>, AllocError> {
        let keys = self.keys.clone()?;
        if keys != self.keys {
            return Err(AllocError);
        }
        let values = self.values.clone()?;
        let hashes = self.hashes.clone()?;
        let further = self.index.count_further();
        let index = Index::over(
            *self.hashes.allocator(),
            keys.as_slice(),
            hashes.as_slice(),
            further,
        )?;
        Ok(NameMap {
            keys,
            values,
            hashes,
            index,
            hash_builder: self.hash_builder,
        })
    }
}

impl<K: Ord + Hash + fmt::Debug, V: fmt::Debug, S: BuildHasher> fmt::Debug for NameMap<K, V, S> {
    fn fmt<W: fmt::Write>(&self, f: &mut fmt::Formatter<W>) -> fmt::Result {
        let mut shown = f.debug_map();
        for place in 0..self.keys.len() {
            shown.entry(&self.keys[place], &self.values[place]);
        }
        shown.finish()
    }
}

impl<'a, K: Ord + Hash, V, S: BuildHasher> IntoIterator for &'a NameMap<K, V, S> {
    type Item = (&'a K, &'a V);

    type IntoIter = Iter<'a, K, V>;

    ghost into_iter_gives = { λ m r. (r ≡ m.now.entries) × (index_map_len m.now < 2 ^ 63) × ShowsInOrder (deref_pair {K = K} {X = V}) × ShowsValuesInOrder (deref_pair {K = K} {X = V}) × IsUnique K.eq m.now };

    fn into_iter(self) -> Iter<'a, K, V> {
        self.iter()
    }
}

impl<K: Ord + Hash, V: PartialEq, S: BuildHasher> NameMap<K, V, S> {
    /// Whether the other map has the same value at the key of the entry at the place.
    fn agrees_at(&self, other: &NameMap<K, V, S>, place: usize) -> bool
        requires within { place < index_map_len self.now }
        requires unique { IsUnique K.eq self.now }
        ensures { (d : K) → result ≡ option_eq V.eq (get K.eq self.now (slice_index_or (keys self.now) place d)) (get K.eq other.now (slice_index_or (keys self.now) place d)) }
    {
        let (key, value) = self.entry_at(place);
        match other.get(key) {
            Some(theirs) => value.eq(theirs),
            None => false,
        }
    }
}

// The order of the entries does not count.
impl<K: Ord + Hash, V: PartialEq, S: BuildHasher> PartialEq for NameMap<K, V, S> {
    ghost eq = { index_map_eq K.eq V.eq };

    ghost laws = { let v = V.laws in record { symm = hash_map_eq_symm K.eq V.eq v.symm; trans = hash_map_eq_trans K.eq V.eq K.Eq.laws v.trans } };

    fn eq(&self, other: &NameMap<K, V, S>) -> bool {
        let len = self.len();
        if len != other.len() {
            return false;
        }
        for place in 0..len {
            if !self.agrees_at(other, place) {
                return false;
            }
        }
        true
    }
}

impl<K: Ord + Hash, V: Eq, S: BuildHasher> Eq for NameMap<K, V, S> {
    ghost laws = { let v = V.Eq.laws in Cmp.equiv (record { symm = hash_map_eq_symm K.eq V.eq v.symm; trans = hash_map_eq_trans K.eq V.eq K.Eq.laws (partial_equiv_from_equiv v).trans }) (hash_map_eq_refl K.eq V.eq v.refl) };
}
