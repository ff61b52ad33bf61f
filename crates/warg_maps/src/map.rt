//! The map.
ghost use Rattle.std.specs.Prelude.{◌≡◌, ◌+◌, ◌-◌, ◌^◌, ◌<◌, ◌≤◌, ◌↔◌, [], ◌∷◌, ◌++◌, length, slice_get, Some, None, IfSome, IsTrue};
ghost use Rattle.indexmap.specs.IndexMap.{index_map_len, spare, hasher_of, get, index_of_by, IsEmpty, IsUnique};
ghost use Rattle.warg_maps.specs.FarHash.{far_hash};
ghost use Rattle.indexmap.specs.Layout.{hash_map, table_hash};
ghost use Rattle.warg_maps.specs.NameMap.{room_of};

mod get;
mod insert;
mod retain;
mod traits;

use crate::Query;
use crate::buckets::FREE;
use crate::index::{Index, find_among_all, low_half};
use std::alloc::Global;
use std::hash::{BuildHasher, BuildHasherDefault, FoldHasher, Hash};
use std::marker::Model;

/// A map in the order of insertion, whose look-ups cost no more by the choice of its keys.
#[derive(Drop)]
pub struct NameMap<K: Ord + Hash, V, S: BuildHasher = BuildHasherDefault<FoldHasher>> {
    // The index and the hashes go first. Where a block of theirs is let go after many texts of keys were, the C library
    // joins all that these left.
    pub(crate) index: Index<K>,
    pub(crate) hashes: Vec<u32>,
    pub(crate) values: Vec<V>,
    pub(crate) keys: Vec<K>,
    pub(crate) hash_builder: S,
}

impl<K: Ord + Hash, V, S: BuildHasher> Model for NameMap<K, V, S> {
    ghost use Rattle.std.specs.Prelude.{◌≡◌, ◌-◌, length, zip};
    ghost use Rattle.indexmap.specs.IndexMap.{IndexMap as Entries};
    ghost use Rattle.indexmap.specs.Layout.{hash_map, hash_map_code, table_hash};
    ghost use Rattle.warg_maps.specs.FarHash.{far_hash};
    ghost use Rattle.warg_maps.specs.NameMap.{room_of, IsWhole};

    ghost Value = { Entries K V S };

    ghost coded = { hash_map_code K.code V.code S.code };

    ghost view = { λ m. hash_map (zip m.keys.items m.values.items) m.hash_builder (room_of m.keys.cap m.values.cap m.hashes.cap - length m.keys.items) };

    ghost invariant = { λ m. (length m.values.items ≡ length m.keys.items) × IsWhole K.eq K.cmp (λ k. table_hash S.BuildHasher S.Hasher.Hasher m.hash_builder (K.hash_input k)) (λ k. far_hash (K.hash_input k)) m.index m.hashes.items m.keys.items };
}

/// The hash by which a key has its near bucket: both halves of the builder's, in one.
#[inline(always)]
pub(crate) fn near_hash<Q: Hash + Copy, S: BuildHasher>(hash_builder: &S, key: Q) -> u32
    ensures { result ≡ table_hash S.BuildHasher S.Hasher.Hasher hash_builder.now (Q.hash_input key) }
{
    let whole = hash_builder.hash_one(key);
    low_half(whole ^ (whole >> 32))
}

/// For how many entries there is room, where the parts have these capacities.
fn room_of(keys: usize, values: usize, hashes: usize) -> usize
    ensures { result ≡ room_of keys values hashes }
{
    keys.min(values).min(hashes.min(FREE as usize))
}

impl<K: Ord + Hash, V> NameMap<K, V, BuildHasherDefault<FoldHasher>> {
    /// A map with no keys yet. It takes no memory before it gets one.
    pub fn new(alloc: Global) -> Self
        ensures empty { IsEmpty result }
        ensures len { index_map_len result ≡ 0 }
        ensures unique { IsUnique K.eq result }
    {
        NameMap::with_hasher(alloc, BuildHasherDefault::new())
    }
}

impl<K: Ord + Hash, V, S: BuildHasher> NameMap<K, V, S> {
    /// The same as `new`, with the caller's own hash for the near buckets.
    pub fn with_hasher(alloc: Global, hash_builder: S) -> Self
        ensures empty { IsEmpty result }
        ensures len { index_map_len result ≡ 0 }
        ensures hasher { hasher_of result ≡ hash_builder }
        ensures unique { IsUnique K.eq result }
    {
        NameMap {
            keys: Vec::new(alloc),
            values: Vec::new(alloc),
            hashes: Vec::new(alloc),
            index: Index::new(alloc),
            hash_builder,
        }
    }

    /// How many keys there are.
    pub fn len(&self) -> usize
        ensures len { result ≡ index_map_len self.now }
        ensures small { result < 2 ^ 63 }
        ensures unique { IsUnique K.eq self.now }
    {
        self.keys.len()
    }

    /// Whether the map has no key.
    pub fn is_empty(&self) -> bool
        ensures { IsTrue result ↔ (index_map_len self.now ≡ 0) }
    {
        self.len() == 0
    }

    pub(crate) fn room_left(&self) -> usize
        ensures value { result ≡ spare self.now }
        ensures fits { index_map_len self.now + result < 2 ^ 64 }
        ensures unique { IsUnique K.eq self.now }
    {
        let hashes = self.hashes.capacity();
        let room = room_of(self.keys.capacity(), self.values.capacity(), hashes);
        room.saturating_sub(self.keys.len())
    }

    #[inline(always)]
    pub(crate) fn near_hash_of<Q: Hash + Copy>(&self, key: Q) -> u32
        ensures { result ≡ table_hash S.BuildHasher S.Hasher.Hasher (hasher_of self.now) (Q.hash_input key) }
    {
        near_hash(&self.hash_builder, key)
    }

    /// The place of the key, and its other hash where that was computed.
    #[inline(always)]
    pub(crate) fn search<Q: Query<K>>(&self, hash: u32, key: Q) -> (Option<usize>, Option<u64>)
        requires { hash ≡ table_hash S.BuildHasher S.Hasher.Hasher (hasher_of self.now) (Q.hash_input key) }
        ensures index { result.0 ≡ index_of_by (Q.equivalent key) self.now }
        ensures far { IfSome result.1 (λ far. far ≡ far_hash (Q.hash_input key)) }
        ensures unique { IsUnique K.eq self.now }
    {
        let (place, far) = self.index.search(self.keys.as_slice(), hash, key);
        match place {
            Some(place) => (Some(place), far),
            None => (None, far),
        }
    }

    /// The place of the key, by a look at all.
    fn find_among_few<Q: Query<K>>(&self, key: Q) -> Option<usize>
        ensures index { result ≡ index_of_by (Q.equivalent key) self.now }
        ensures unique { IsUnique K.eq self.now }
    {
        match find_among_all(self.keys.as_slice(), key) {
            Some(place) => Some(place),
            None => None,
        }
    }

    /// The place of the key.
    #[inline(always)]
    pub(crate) fn find<Q: Query<K>>(&self, key: Q) -> Option<usize>
        ensures index { result ≡ index_of_by (Q.equivalent key) self.now }
        ensures unique { IsUnique K.eq self.now }
    {
        if self.index.has_no_buckets() {
            return self.find_among_few(key);
        }
        let hash = self.near_hash_of(key);
        self.search(hash, key).0
    }

    pub(crate) fn entry_at(&self, i: usize) -> (&K, &V)
        requires { i < index_map_len self.now }
        ensures { slice_get self.now.entries i ≡ Some (result.0.now, result.1.now) }
    {
        (&self.keys[i], &self.values[i])
    }

    pub(crate) fn add_last(&mut self, hash: u32, far: Option<u64>, key: K, value: V)
    where
        K: Clone + Drop,
        requires hash { hash ≡ table_hash S.BuildHasher S.Hasher.Hasher (hasher_of self.old) (K.hash_input key) }
        requires far { IfSome far (λ far. far ≡ far_hash (K.hash_input key)) }
        requires absent { get K.eq self.old key ≡ None }
        requires spare { 0 < spare self.old }
        ensures { self.new ≡ hash_map (self.old.entries ++ (key, value) ∷ []) (hasher_of self.old) (spare self.old - 1) }
    {
        self.index.add(hash, far, &key, self.keys.len());
        self.hashes.push_reserved(hash);
        self.keys.push_reserved(key);
        self.values.push_reserved(value);
    }
}
