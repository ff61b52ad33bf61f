//! Look-ups and iterators.
ghost use Rattle.std.specs.Prelude.{◌≡◌, ◌^◌, ◌<◌, length, is_some, slice_get, IfSome, Some};
ghost use Rattle.std.specs.Borrow.{sem};
ghost use Rattle.std.specs.List.{IsAmong};
ghost use Rattle.std.specs.Map.Iter.{ShowsInOrder, ShowsInReverse, ShowsValuesInOrder, deref, deref_pair};
ghost use Rattle.std.specs.Option.{option_copied, option_copied_mut};
ghost use Rattle.indexmap.specs.IndexMap.{keys, values, index_map_len, get_by, index_of_by, IsUnique};
ghost use Rattle.warg_maps.specs.Lends.{lends_index, lends_get};

use super::NameMap;
use crate::{Iter, Query, Values};
use std::hash::{BuildHasher, Hash};

impl<K: Ord + Hash, V, S: BuildHasher> NameMap<K, V, S> {
    /// Whether the map knows the key that is asked for.
    #[inline(always)]
    pub fn contains_key<Q: Query<K>>(&self, key: Q) -> bool
        ensures { result ≡ is_some (get_by (Q.equivalent key) self.now) }
    {
        self.get_index_of(key).is_some()
    }

    /// What the map has for the key that is asked for.
    #[inline(always)]
    pub fn get<Q: Query<K>>(&self, key: Q) -> Option<&V>
        ensures value { option_copied result ≡ get_by (Q.equivalent key) self.now }
        ensures member { IfSome result (λ x. IsAmong (values self.now) x.now) }
    {
        match self.get_index_of(key) {
            Some(place) => {
                let (_, value) = self.entry_at(place);
                Some(value)
            }
            None => None,
        }
    }

    /// At which place in the order the key stands.
    #[inline(always)]
    pub fn get_index_of<Q: Query<K>>(&self, key: Q) -> Option<usize>
        ensures index { result ≡ index_of_by (Q.equivalent key) self.now }
        ensures found { is_some result ≡ is_some (get_by (Q.equivalent key) self.now) }
        ensures within { IfSome result (λ i. i < index_map_len self.now) }
        ensures value { IfSome result (λ i. slice_get (values self.now) i ≡ get_by (Q.equivalent key) self.now) }
        ensures unique { IsUnique K.eq self.now }
    {
        self.find(key)
    }

    fn lend_value(&mut self, i: usize) -> &mut V
        requires { i < index_map_len self.old }
        ensures* writes_back { sem 𝓛 (lends_index K.row V.row S.row S.Hasher.row K.Ord K.Hash S.BuildHasher S.Hasher.Hasher self.entry i result) }
        ensures value { slice_get (values self.old) i ≡ Some result.now }
    {
        &mut self.values[i]
    }

    /// The same as `get`, where the caller may change the value.
    #[inline(always)]
    pub fn get_mut<Q: Query<K>>(&mut self, key: Q) -> Option<&mut V>
        ensures* writes_back { sem 𝓛 (lends_get K.row V.row S.row S.Hasher.row K.Ord K.Hash S.BuildHasher S.Hasher.Hasher self.entry (Q.equivalent key) result) }
        ensures value { option_copied_mut result ≡ get_by (Q.equivalent key) self.old }
        ensures member { IfSome result (λ x. IsAmong (values self.old) x.now) }
        ensures unique { IsUnique K.eq self.old }
    {
        if let Some(place) = self.get_index_of(key) {
            return Some(self.lend_value(place));
        }
        None
    }

    /// Each key with its value, the oldest first.
    pub fn iter(&self) -> Iter<'_, K, V>
        ensures rest { result ≡ self.now.entries }
        ensures len { length result ≡ index_map_len self.now }
        ensures runs { ShowsInOrder (deref_pair {K = K} {X = V}) }
        ensures runs_back { ShowsInReverse (deref_pair {K = K} {X = V}) }
        ensures values_run { ShowsValuesInOrder (deref_pair {K = K} {X = V}) }
        ensures unique { IsUnique K.eq self.now }
        ensures fits { index_map_len self.now < 2 ^ 63 }
    {
        Iter::over(self.keys.as_slice(), self.values.as_slice())
    }

    /// All keys, the oldest first.
    pub fn keys(&self) -> Values<'_, K>
        ensures rest { result ≡ keys self.now }
        ensures len { length result ≡ index_map_len self.now }
        ensures runs { ShowsInOrder (deref {X = K}) }
        ensures runs_back { ShowsInReverse (deref {X = K}) }
        ensures unique { IsUnique K.eq self.now }
        ensures fits { index_map_len self.now < 2 ^ 63 }
    {
        Values::of(self.keys.as_slice())
    }

    /// All values, that of the oldest key first.
    pub fn values(&self) -> Values<'_, V>
        ensures rest { result ≡ values self.now }
        ensures len { length result ≡ index_map_len self.now }
        ensures runs { ShowsInOrder (deref {X = V}) }
        ensures runs_back { ShowsInReverse (deref {X = V}) }
        ensures fits { index_map_len self.now < 2 ^ 63 }
    {
        Values::of(self.values.as_slice())
    }
}
