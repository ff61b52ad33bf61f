//! Entries that stay, where a test says so.
ghost use Rattle.std.specs.Prelude.{◌≡◌, ℕ, ◌≤◌, map, length};
ghost use Rattle.std.specs.Vec.{vec_len, vec_capacity};
ghost use Rattle.std.specs.Map.Calls.{CallableOnEachPair, CalledAtPair, RetainsPairs, TakesPair};
ghost use Rattle.indexmap.specs.IndexMap.{index_map_len, IsUnique, KeepsRoom};
ghost use Rattle.indexmap.specs.Layout.{CallableOnColumns, RetainsColumns, table_hash};

use super::{NameMap, near_hash};
use std::hash::{BuildHasher, Hash};

/// Asks the test of one entry.
fn passes<K, V, F: FnMut(&K, &mut V) -> bool>(keep: &mut F, key: &K, value: &mut V) -> bool
    requires { TakesPair F.FnMut keep.old key.now value.old }
    ensures { CalledAtPair F.FnMut keep.old key.now value.old result value.new keep.new }
{
    keep(key, value)
}

/// Moves the keys and the values that pass the test to the front, and lets the others go.
fn sift<'x, K: Drop, V: Drop, F: FnMut(&K, &mut V) -> bool>(
    keys: &'x mut Vec<K>,
    values: &'x mut Vec<V>,
    mut keep: F,
)
    requires even { length values.old.items ≡ length keys.old.items }
    requires callable { CallableOnColumns (CalledAtPair F.FnMut) (TakesPair F.FnMut) keep keys.old.items values.old.items }
    ensures sifted { RetainsColumns (CalledAtPair F.FnMut) keep keys.old.items values.old.items keys.new.items values.new.items }
    ensures fewer { length keys.new.items ≤ length keys.old.items }
    ensures capacity { (vec_capacity keys.new ≡ vec_capacity keys.old) × (vec_capacity values.new ≡ vec_capacity values.old) }
{
    let count = keys.len();
    let mut front = 0;
    for place in 0..count {
        if passes(&mut keep, &keys[place], &mut values[place]) {
            keys.swap(front, place);
            values.swap(front, place);
            front += 1;
        }
    }
    keys.truncate(front);
    values.truncate(front);
}

/// Makes the hash of each key anew.
pub(crate) fn hash_anew<K: Hash, S: BuildHasher>(
    hashes: &mut Vec<u32>,
    keys: &[K],
    hash_builder: &S,
)
    requires { length keys.now ≤ vec_capacity hashes.old }
    ensures hashes { hashes.new.items ≡ map (λ k. table_hash S.BuildHasher S.Hasher.Hasher hash_builder.now (K.hash_input k)) keys.now }
    ensures capacity { vec_capacity hashes.new ≡ vec_capacity hashes.old }
{
    hashes.clear();
    for place in 0..keys.len() {
        hashes.push_reserved(near_hash(hash_builder, &keys[place]));
    }
}

impl<K: Ord + Hash + Clone + Drop, V: Drop, S: BuildHasher> NameMap<K, V, S> {
    /// Asks `keep` of each entry, the oldest first, and lets go of those that it refuses. The others stay in their order.
    pub fn retain<F: FnMut(&K, &mut V) -> bool>(&mut self, keep: F)
        requires { CallableOnEachPair (CalledAtPair F.FnMut) (TakesPair F.FnMut) keep self.old.entries }
        ensures bound { index_map_len self.new ≤ index_map_len self.old }
        ensures filtered { RetainsPairs (CalledAtPair F.FnMut) keep self.old.entries self.new.entries }
        ensures room { KeepsRoom self.old self.new }
        ensures unique { IsUnique K.eq self.new }
    {
        sift(&mut self.keys, &mut self.values, keep);
        hash_anew(&mut self.hashes, self.keys.as_slice(), &self.hash_builder);
        self.index.clear();
        self.index
            .refill(self.keys.as_slice(), self.hashes.as_slice());
    }
}
