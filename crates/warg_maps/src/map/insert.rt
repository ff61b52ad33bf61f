//! How entries go into a map: each by its key, or all those of another map.
ghost use Rattle.std.specs.Prelude.{◌≡◌, ◌+◌, ◌<◌, ◌≤◌, [], length, reverse, zip, is_some, if◌then◌else◌, None, Some, IfSome, IsOk, IfOk, IfErr, OnOk, OnErr, vec_capacity};
ghost use Rattle.indexmap.specs.Layout.{table_hash};
ghost use Rattle.warg_maps.specs.FarHash.{far_hash};
ghost use Rattle.warg_maps.specs.NameMap.{Puts};
ghost use Rattle.indexmap.specs.IndexMap.{index_map_len, index_of_by, spare, hasher_of, get, insert_entry, insert_index, insert_all, IsEmpty, IsUnique, IsUnchanged, InsertsAll, KeepsRoom, Updates, UsesRoomOf};

use super::NameMap;
use std::alloc::{AllocError, AllocFailed};
use std::hash::{BuildHasher, Hash};
use std::mem::replace;

impl<K: Ord + Hash + Clone + Drop, V, S: BuildHasher> NameMap<K, V, S> {
    /// Writes over the value at the place, and returns what stood there.
    fn put_over(&mut self, place: usize, key: &K, value: V) -> V
        requires { index_of_by (K.eq key.now) self.old ≡ Some place }
        ensures puts { Puts K.eq self.old.entries self.new.entries key.now value place (Some result) }
        ensures spare { spare self.new ≡ spare self.old }
        ensures hasher { hasher_of self.new ≡ hasher_of self.old }
    {
        replace(&mut self.values[place], value)
    }

    /// Puts a key last that the map lacks, where there is memory.
    fn put_last(
        &mut self,
        hash: u32,
        far: Option<u64>,
        key: K,
        value: V,
    ) -> Result<usize, AllocFailed<(K, V)>>
        requires hash { hash ≡ table_hash S.BuildHasher S.Hasher.Hasher (hasher_of self.old) (K.hash_input key) }
        requires far { IfSome far (λ far. far ≡ far_hash (K.hash_input key)) }
        requires absent { index_of_by (K.eq key) self.old ≡ None }
        ensures puts { IfOk result (λ i. Puts K.eq self.old.entries self.new.entries key value i None) }
        ensures returned { IfErr result (λ y. y.value ≡ (key, value)) }
        ensures err { OnErr result (IsUnchanged self.old self.new) }
        ensures succeeds { 0 < spare self.old → IsOk result }
        ensures spare { spare self.old ≤ spare self.new + 1 }
        ensures hasher { hasher_of self.new ≡ hasher_of self.old }
    {
        if !self.room_for_one() {
            return Err(AllocFailed {
                value: (key, value),
            });
        }
        let place = self.len();
        self.add_last(hash, far, key, value);
        Ok(place)
    }

    /// Gives the key this value. A key that the map lacks comes last; another stays where it is, and its former value
    /// is handed back.
    #[inline(always)]
    pub fn insert(&mut self, key: K, value: V) -> Result<Option<V>, AllocFailed<(K, V)>>
        // After an `Ok` this key has the new value, the result holds the former one, and nothing else has changed.
        ensures old { IfOk result (λ old. old ≡ get K.eq self.old key) }
        ensures updates { OnOk result (Updates K.eq self.old self.new key (Some value)) }
        ensures entries { OnOk result (self.new.entries ≡ insert_entry K.eq self.old.entries key value) }
        ensures len { IfOk result (λ old. index_map_len self.new ≡ index_map_len self.old + (if is_some old then 0 else 1)) }

        // An `Err` says that there was no room for a key that the map lacks. Both come back, and the map is as before.
        ensures value_returned { IfErr result (λ y. y.value ≡ (key, value)) }
        ensures err { OnErr result (IsUnchanged self.old self.new) }
        ensures absent { OnErr result (get K.eq self.old key ≡ None) }

        // Where there is room left, there is no `Err`. One key takes up the room of one at most.
        ensures succeeds { 0 < spare self.old → IsOk result }
        ensures spare { spare self.old ≤ spare self.new + 1 }
        ensures hasher { hasher_of self.new ≡ hasher_of self.old }
        ensures unique { IsUnique K.eq self.new }
    {
        match self.insert_full(key, value) {
            Ok(put) => Ok(put.1),
            Err(refused) => Err(refused),
        }
    }

    /// The same as `insert`, and says besides at which place the key stands.
    pub fn insert_full(
        &mut self,
        key: K,
        value: V,
    ) -> Result<(usize, Option<V>), AllocFailed<(K, V)>>
        // After an `Ok` this key has the new value, the result holds the former one, and nothing else has changed.
        ensures index { IfOk result (λ r. r.0 ≡ insert_index K.eq self.old key) }
        ensures within { IfOk result (λ r. r.0 < index_map_len self.new) }
        ensures old { IfOk result (λ r. r.1 ≡ get K.eq self.old key) }
        ensures updates { OnOk result (Updates K.eq self.old self.new key (Some value)) }
        ensures entries { OnOk result (self.new.entries ≡ insert_entry K.eq self.old.entries key value) }
        ensures len { IfOk result (λ r. index_map_len self.new ≡ index_map_len self.old + (if is_some r.1 then 0 else 1)) }

        // An `Err` says that there was no room for a key that the map lacks. Both come back, and the map is as before.
        ensures value_returned { IfErr result (λ y. y.value ≡ (key, value)) }
        ensures err { OnErr result (IsUnchanged self.old self.new) }
        ensures absent { OnErr result (get K.eq self.old key ≡ None) }

        // Where there is room left, there is no `Err`. One key takes up the room of one at most.
        ensures succeeds { 0 < spare self.old → IsOk result }
        ensures spare { spare self.old ≤ spare self.new + 1 }
        ensures hasher { hasher_of self.new ≡ hasher_of self.old }
        ensures unique { IsUnique K.eq self.new }
    {
        let hash = self.near_hash_of(&key);
        let (placed, far) = self.search(hash, &key);
        match placed {
            Some(place) => {
                let old = self.put_over(place, &key, value);
                Ok((place, Some(old)))
            }
            None => {
                let place = self.put_last(hash, far, key, value)?;
                Ok((place, None))
            }
        }
    }

    /// Inserts each key with its value, from the last to the first, and takes them out of their vectors.
    fn insert_backwards(&mut self, keys: &mut Vec<K>, values: &mut Vec<V>)
    where
        V: Drop,
        requires even { length values.old.items ≡ length keys.old.items }
        requires room { length keys.old.items ≤ spare self.old }
        ensures entries { self.new.entries ≡ insert_all K.eq self.old.entries (reverse (zip keys.old.items values.old.items)) }
        ensures emptied { (keys.new.items ≡ []) × (values.new.items ≡ []) }
        ensures uses { UsesRoomOf self.old (length keys.old.items) self.new }
        ensures capacity { (vec_capacity keys.new ≡ vec_capacity keys.old) × (vec_capacity values.new ≡ vec_capacity values.old) }
    {
        while !keys.is_empty() {
            let key = keys.pop().unwrap();
            let value = values.pop().unwrap();
            self.insert(key, value).unwrap();
        }
    }

    /// Takes all entries out of `other`, from the first to the last, and inserts them here. `other` keeps its memory.
    pub fn append<S2: BuildHasher>(
        &mut self,
        other: &mut NameMap<K, V, S2>,
    ) -> Result<(), AllocError>
    where
        V: Drop,
        ensures entries { OnOk result (self.new.entries ≡ insert_all K.eq self.old.entries other.old.entries) }
        ensures inserts { OnOk result (InsertsAll K.eq self.old other.old.entries self.new) }
        ensures emptied { OnOk result (IsEmpty other.new) }

        // The memory for all is there before the first moves. So an `Err` leaves both maps as they were.
        ensures err { OnErr result (IsUnchanged self.old self.new) }
        ensures other_err { OnErr result (other.new ≡ other.old) }
        ensures succeeds { index_map_len other.old ≤ spare self.old → IsOk result }
        ensures hasher { hasher_of self.new ≡ hasher_of self.old }
        ensures room { UsesRoomOf self.old (index_map_len other.old) self.new }
        ensures other_room { KeepsRoom other.old other.new }
        ensures other_capacity { OnOk result (index_map_len other.old + spare other.old ≤ spare other.new) }
    {
        self.reserve(other.len())?;
        other.keys.reverse();
        other.values.reverse();
        self.insert_backwards(&mut other.keys, &mut other.values);
        other.hashes.clear();
        other.index.clear();
        Ok(())
    }
}
