//! The set.
ghost use Rattle.std.specs.Prelude.{◌≡◌, ◌+◌, ◌^◌, ◌<◌, ◌≤◌, ◌↔◌, true, false, not, length, Some, slice_get, if◌then◌else◌, IsTrue, IsOk, IfOk, IfErr, OnOk, OnErr};
ghost use Rattle.std.specs.Cmp.{partial_equiv_from_equiv};
ghost use Rattle.std.specs.HashSet.Eq.{hash_set_eq_equiv};
ghost use Rattle.std.specs.Map.Iter.{ShowsInOrder, ShowsInReverse, deref};
ghost use Rattle.indexmap.specs.IndexSet.{index_set_len, index_set_eq, spare, hasher_of, contains, contains_by, insert_index, insert_key, IsClone, IsEmpty, IsUnique, IsUnchanged, Updates};

use crate::{NameMap, Query, Values};
use std::alloc::{AllocError, AllocFailed, Global};
use std::fmt;
use std::hash::{BuildHasher, BuildHasherDefault, FoldHasher, Hash};
use std::marker::Model;

/// A set in the order of insertion, whose look-ups cost no more by the choice of its values.
#[derive(Drop)]
pub struct NameSet<T: Ord + Hash, S: BuildHasher = BuildHasherDefault<FoldHasher>> {
    map: NameMap<T, (), S>,
}

impl<T: Ord + Hash, S: BuildHasher> Model for NameSet<T, S> {
    ghost use Rattle.indexmap.specs.IndexSet.{IndexSet as Keys};
    ghost use Rattle.indexmap.specs.Layout.{key_set, hash_set_code};

    ghost Value = { Keys T S };

    ghost coded = { hash_set_code T.code S.code };

    ghost view = { λ s. key_set s.map };
}

impl<T: Ord + Hash> NameSet<T, BuildHasherDefault<FoldHasher>> {
    /// A set with nothing in it yet. It takes no memory before it gets a value.
    pub fn new(alloc: Global) -> Self
        ensures empty { IsEmpty result }
        ensures len { index_set_len result ≡ 0 }
        ensures unique { IsUnique T.eq result }
    {
        NameSet {
            map: NameMap::new(alloc),
        }
    }
}

impl<T: Ord + Hash, S: BuildHasher> NameSet<T, S> {
    /// How many values there are.
    pub fn len(&self) -> usize
        ensures len { result ≡ index_set_len self.now }
        ensures small { result < 2 ^ 63 }
        ensures unique { IsUnique T.eq self.now }
    {
        self.map.len()
    }

    /// Whether the set has no value.
    pub fn is_empty(&self) -> bool
        ensures { IsTrue result ↔ (index_set_len self.now ≡ 0) }
    {
        self.len() == 0
    }

    /// All values, the oldest first.
    pub fn iter(&self) -> Values<'_, T>
        ensures rest { result ≡ self.now.keys }
        ensures len { length result ≡ index_set_len self.now }
        ensures runs { ShowsInOrder (deref {X = T}) }
        ensures runs_back { ShowsInReverse (deref {X = T}) }
        ensures unique { IsUnique T.eq self.now }
        ensures fits { index_set_len self.now < 2 ^ 63 }
    {
        self.map.keys()
    }

    /// Whether the set knows the value that is asked for.
    pub fn contains<Q: Query<T>>(&self, value: Q) -> bool
        ensures { result ≡ contains_by (Q.equivalent value) self.now }
    {
        self.map.contains_key(value)
    }
}

impl<T: Ord + Hash + Clone + Drop, S: BuildHasher> NameSet<T, S> {
    /// Puts the value last, unless the set has one that is equal to it. Answers whether it did.
    #[inline(always)]
    pub fn insert(&mut self, value: T) -> Result<bool, AllocFailed<T>>
        // After an `Ok` the set has the value, `true` says that it lacked it before, and nothing else has changed.
        ensures added { IfOk result (λ r. r ≡ not (contains T.eq self.old value)) }
        ensures updates { OnOk result (Updates T.eq self.old self.new value true) }
        ensures keys { IfOk result (λ r. self.new.keys ≡ insert_key T.eq self.old.keys value) }
        ensures len { IfOk result (λ r. index_set_len self.new ≡ index_set_len self.old + (if r then 1 else 0)) }

        // An `Err` says that there was no room for a value that the set lacks. It comes back, and the set is as before.
        ensures value_returned { IfErr result (λ y. y.value ≡ value) }
        ensures err { OnErr result (IsUnchanged self.old self.new) }
        ensures absent { OnErr result (contains T.eq self.old value ≡ false) }

        // Where there is room left, there is no `Err`. One value takes up the room of one at most.
        ensures succeeds { 0 < spare self.old → IsOk result }
        ensures spare { spare self.old ≤ spare self.new + 1 }
        ensures hasher { hasher_of self.new ≡ hasher_of self.old }
        ensures unique { IsUnique T.eq self.new }
    {
        match self.insert_full(value) {
            Ok(put) => Ok(put.1),
            Err(refused) => Err(refused),
        }
    }

    /// The same as `insert`, and says besides at which place the value, or its equal, stands.
    pub fn insert_full(&mut self, value: T) -> Result<(usize, bool), AllocFailed<T>>
        // After an `Ok` the set has the value, `true` says that it lacked it before, and nothing else has changed.
        ensures added { IfOk result (λ r. r.1 ≡ not (contains T.eq self.old value)) }
        ensures updates { OnOk result (Updates T.eq self.old self.new value true) }
        ensures keys { IfOk result (λ r. self.new.keys ≡ insert_key T.eq self.old.keys value) }
        ensures len { IfOk result (λ r. index_set_len self.new ≡ index_set_len self.old + (if r.1 then 1 else 0)) }
        ensures index { IfOk result (λ r. r.0 ≡ insert_index T.eq self.old value) }
        ensures within { IfOk result (λ r. r.0 < index_set_len self.new) }
        ensures stored { IfOk result (λ r. (k : T) × (slice_get self.new.keys r.0 ≡ Some k) × (T.eq value k ≡ true)) }

        // An `Err` says that there was no room for a value that the set lacks. It comes back, and the set is as before.
        ensures value_returned { IfErr result (λ y. y.value ≡ value) }
        ensures err { OnErr result (IsUnchanged self.old self.new) }
        ensures absent { OnErr result (contains T.eq self.old value ≡ false) }

        // Where there is room left, there is no `Err`. One value takes up the room of one at most.
        ensures succeeds { 0 < spare self.old → IsOk result }
        ensures spare { spare self.old ≤ spare self.new + 1 }
        ensures hasher { hasher_of self.new ≡ hasher_of self.old }
        ensures unique { IsUnique T.eq self.new }
    {
        let (place, old) = match self.map.insert_full(value, ()) {
            Ok(put) => put,
            Err(refused) => {
                let (back, ()) = refused.value;
                return Err(AllocFailed { value: back });
            }
        };
        Ok((place, old.is_none()))
    }
}

impl<T: Ord + Hash + Clone + Drop, S: BuildHasher + Copy> Clone for NameSet<T, S> {
    ghost is_clone = { IsClone T.is_clone };

    fn clone(&self) -> Result<Self, AllocError> {
        let map = self.map.clone()?;
        Ok(NameSet { map })
    }
}

impl<T: Ord + Hash + fmt::Debug, S: BuildHasher> fmt::Debug for NameSet<T, S> {
    fn fmt<W: fmt::Write>(&self, f: &mut fmt::Formatter<W>) -> fmt::Result {
        f.debug_set().entries(self.iter()).finish()
    }
}

impl<'a, T: Ord + Hash, S: BuildHasher> IntoIterator for &'a NameSet<T, S> {
    type Item = &'a T;

    type IntoIter = Values<'a, T>;

    ghost into_iter_gives = { λ s r. (r ≡ s.now.keys) × (index_set_len s.now < 2 ^ 63) × ShowsInOrder (deref {X = T}) × IsUnique T.eq s.now };

    fn into_iter(self) -> Values<'a, T> {
        self.iter()
    }
}

// Two sets are equal where each has the values of the other, in any order.
impl<T: Ord + Hash, S: BuildHasher> PartialEq for NameSet<T, S> {
    ghost eq = { index_set_eq T.eq };

    ghost laws = { partial_equiv_from_equiv (hash_set_eq_equiv T.Eq.laws) };

    fn eq(&self, other: &NameSet<T, S>) -> bool {
        self.map == other.map
    }
}

impl<T: Ord + Hash, S: BuildHasher> Eq for NameSet<T, S> {
    ghost laws = { hash_set_eq_equiv T.Eq.laws };
}
