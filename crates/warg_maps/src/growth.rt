//! How a map grows, and its index with it.
ghost use Rattle.std.specs.Prelude.{◌≡◌, ◌<◌, ◌≤◌, ℕ, length, slice_index_or, IsOk, IsTrue, IfOk, OnOk, OnErr};
ghost use Rattle.std.specs.List.{IsDistinct};
ghost use Rattle.std.specs.declared.cmp.Ordering.{Ordering};
ghost use Rattle.indexmap.specs.IndexMap.{index_map_len, spare, hasher_of, IsEmpty, IsUnchanged, IsUnique, KeepsRoom};
ghost use Rattle.warg_maps.specs.FarHash.{far_hash};
ghost use Rattle.warg_maps.specs.Index.{HasEntry};

use crate::NameMap;
use crate::buckets::{FREE, Slot};
use crate::index::{Further, Index};
use std::alloc::{AllocError, Global};
use std::collections::BTreeMap;
use std::hash::{BuildHasher, BuildHasherDefault, FoldHasher, Hash};

/// A slot with no place.
const EMPTY: Slot = Slot {
    hash: 0,
    place: FREE,
};

/// How many slots buckets have for as many entries: at least twice as many, and a power of two.
fn slots_for(entries: usize) -> usize {
    if entries == 0 {
        return 0;
    }
    match entries.saturating_mul(2).checked_next_power_of_two() {
        Some(slots) => slots.max(8),
        None => entries,
    }
}

/// How many keys are few.
const FEW: usize = 4;

/// How many slots near buckets have for as many entries: none for few.
fn near_slots_for(entries: usize) -> usize {
    if entries <= FEW {
        return 0;
    }
    slots_for(entries)
}

/// Buckets with no place, for as many entries.
fn empty_buckets(alloc: Global, entries: usize) -> Result<Vec<Slot>, AllocError> {
    let mut slots = Vec::new(alloc);
    slots.resize(slots_for(entries), EMPTY)?;
    Ok(slots)
}

/// Gets the memory for so many slots. It grows where it is, if it can: to let a large block go costs the allocator more.
fn reserve_slots(slots: &mut Vec<Slot>, count: usize) -> Result<(), AllocError>
    ensures { slots.new.items ≡ slots.old.items }
{
    slots.reserve_exact(count.saturating_sub(slots.len()))
}

/// Makes it so many slots, and takes all places out.
fn empty_slots(slots: &mut Vec<Slot>, count: usize) {
    slots.clear();
    // Where this failed, there would be no buckets, and the trees would serve.
    let _filled = slots.resize(count, EMPTY);
}

/// How many places the buckets have.
fn count_places(slots: &Vec<Slot>) -> usize {
    let mut count = 0_usize;
    for slot in slots.iter() {
        if slot.place != FREE {
            count = count.saturating_add(1);
        }
    }
    count
}

impl<K: Ord> Further<K> {
    /// Second buckets for as many entries, with no place.
    fn over(alloc: Global, entries: usize) -> Result<Further<K>, AllocError> {
        Ok(Further {
            second: empty_buckets(alloc, entries)?,
            far: BTreeMap::new(alloc),
            crowd: BTreeMap::new(alloc),
        })
    }

    /// Takes all places out, and keeps the buckets.
    fn clear(&mut self)
    where
        K: Drop,
    {
        let count = self.second.len();
        empty_slots(&mut self.second, count);
        self.far.clear();
        self.crowd.clear();
    }

    /// How many places there are.
    fn count(&self) -> usize {
        let in_order = self.far.len().saturating_add(self.crowd.len());
        count_places(&self.second).saturating_add(in_order)
    }

    /// Whether so many places are in the tree of hashes that wider second buckets are worth their cost.
    fn is_crowded(&self) -> bool {
        let far = self.far.len();
        far >= 32 && far >= self.second.len()
    }

    /// Whether most of the `len` keys are in the tree of hashes.
    fn is_mostly_far(&self, len: usize) -> bool {
        let far = self.far.len();
        far >= 32 && far > len / 2
    }
}

/// Second buckets for as many entries, where there are any.
fn further_for<K: Ord + Drop>(
    alloc: Global,
    entries: usize,
) -> Result<Option<Box<Further<K>>>, AllocError> {
    if entries == 0 {
        return Ok(None);
    }
    let further = Further::over(alloc, entries)?;
    Ok(Some(Box::new(alloc, further)?))
}

impl<K: Ord> Index<K> {
    /// Whether so many places are in the tree of hashes that wider second buckets are worth their cost.
    pub(crate) fn is_crowded(&self) -> bool {
        match &self.further {
            Some(further) => further.is_crowded(),
            None => false,
        }
    }

    /// Whether most of the `len` keys are in the tree of hashes. Their choice crowds the second buckets, and wider ones
    /// would hardly take more of them.
    pub(crate) fn is_mostly_far(&self, len: usize) -> bool {
        match &self.further {
            Some(further) => !self.lacks_places && further.is_mostly_far(len),
            None => false,
        }
    }

    /// How many keys have no place in the near buckets.
    pub(crate) fn count_further(&self) -> usize {
        match &self.further {
            Some(further) => further.count(),
            None => 0,
        }
    }

    /// Takes all places out, and keeps the buckets.
    pub(crate) fn clear(&mut self)
    where
        K: Drop,
    {
        let count = self.near.len();
        empty_slots(&mut self.near, count);
        if let Some(further) = &mut self.further {
            further.clear();
        }
        self.lacks_places = false;
    }

    /// Takes all places out, and makes near buckets for `near` entries and second ones for `second`.
    pub(crate) fn widen(
        &mut self,
        alloc: Global,
        near: usize,
        second: usize,
    ) -> Result<(), AllocError>
    where
        K: Drop,
        ensures err { OnErr result ((cmp : K → K → Ordering) (h f : ℕ) (k : K) (i : ℕ) → HasEntry cmp self.old h f k i → HasEntry cmp self.new h f k i) }
    {
        let count = near_slots_for(near);
        reserve_slots(&mut self.near, count)?;
        self.further = further_for(alloc, second)?;
        empty_slots(&mut self.near, count);
        self.lacks_places = false;
        Ok(())
    }
}

impl<K: Ord + Hash + Clone + Drop> Index<K> {
    /// Adds the place of each key.
    pub(crate) fn refill(&mut self, keys: &[K], hashes: &[u32])
        requires distinct { IsDistinct K.eq keys.now }
        requires lengths { length hashes.now ≡ length keys.now }
        requires small { length keys.now ≤ FREE }
        ensures placed { (i : ℕ) (d : K) → i < length keys.now → let k = slice_index_or keys.now i d in
            HasEntry K.cmp self.new (slice_index_or hashes.now i 0) (far_hash (K.hash_input k)) k i }
    {
        for place in 0..keys.len() {
            self.add(hashes[place], None, &keys[place], place);
        }
    }

    /// An index of the keys, whose second buckets are as wide as `further` keys need.
    pub(crate) fn over(
        alloc: Global,
        keys: &[K],
        hashes: &[u32],
        further: usize,
    ) -> Result<Index<K>, AllocError>
        requires distinct { IsDistinct K.eq keys.now }
        requires lengths { length hashes.now ≡ length keys.now }
        requires small { length keys.now ≤ FREE }
        ensures placed { IfOk result (λ x. (i : ℕ) (d : K) → i < length keys.now → let k = slice_index_or keys.now i d in
            HasEntry K.cmp x (slice_index_or hashes.now i 0) (far_hash (K.hash_input k)) k i) }
    {
        let mut index = Index::new(alloc);
        index.widen(alloc, keys.len(), further.saturating_mul(2))?;
        index.refill(keys, hashes);
        Ok(index)
    }
}

impl<K: Ord + Hash + Clone + Drop, V> NameMap<K, V, BuildHasherDefault<FoldHasher>> {
    /// A map with no keys yet, and the memory for `n` of them.
    pub fn with_capacity(alloc: Global, n: usize) -> Result<Self, AllocError>
    where
        V: Drop,
        ensures empty { IfOk result IsEmpty }
        ensures len { IfOk result (λ m. index_map_len m ≡ 0) }
        ensures spare { IfOk result (λ m. n ≤ spare m) }
        ensures unique { IfOk result (IsUnique K.eq) }
        ensures succeeds { n ≡ 0 → IsOk result }
    {
        let mut map = NameMap::new(alloc);
        map.reserve(n)?;
        Ok(map)
    }
}

impl<K: Ord + Hash + Clone + Drop, V, S: BuildHasher> NameMap<K, V, S> {
    /// Makes the buckets anew, as wide as the map has room.
    fn reindex(&mut self) -> Result<(), AllocError>
        ensures same { IsUnchanged self.old self.new }
        ensures hasher { hasher_of self.new ≡ hasher_of self.old }
        ensures spare { spare self.new ≡ spare self.old }
    {
        let alloc = *self.hashes.allocator();
        let further = self.index.count_further();
        let room = self.keys.capacity();
        self.index.widen(alloc, room, further.saturating_mul(2))?;
        self.index
            .refill(self.keys.as_slice(), self.hashes.as_slice());
        Ok(())
    }

    /// Makes room for more keys, values and hashes.
    fn reserve_parts(&mut self, additional: usize) -> Result<(), AllocError>
        ensures same { IsUnchanged self.old self.new }
        ensures hasher { hasher_of self.new ≡ hasher_of self.old }
        ensures ok { OnOk result (additional ≤ spare self.new) }
        ensures spare { spare self.old ≤ spare self.new }
    {
        if additional > FREE as usize - self.keys.len() {
            return Err(AllocError);
        }
        self.keys.reserve(additional)?;
        self.values.reserve(additional)?;
        self.hashes.reserve(additional)
    }

    #[inline(never)]
    fn extend_room(&mut self, additional: usize) -> Result<(), AllocError>
        ensures same { IsUnchanged self.old self.new }
        ensures hasher { hasher_of self.new ≡ hasher_of self.old }
        ensures ok { OnOk result (additional ≤ spare self.new) }
        ensures spare { spare self.old ≤ spare self.new }
    {
        self.reserve_parts(additional)?;
        if self.index.is_mostly_far(self.keys.len()) {
            return Ok(());
        }
        self.reindex()
    }

    /// Sees to it that one more key fits, or answers that memory ran out.
    pub(crate) fn room_for_one(&mut self) -> bool
        ensures same { IsUnchanged self.old self.new }
        ensures hasher { hasher_of self.new ≡ hasher_of self.old }
        ensures ok { IsTrue result → 0 < spare self.new }
        ensures succeeds { 0 < spare self.old → IsTrue result }
        ensures spare { spare self.old ≤ spare self.new }
    {
        if self.index.is_crowded() {
            // Where there is no memory for new buckets, what there is serves on.
            let _widened = self.reindex();
        }
        if self.room_left() == 0 {
            return self.extend_room(1).is_ok();
        }
        true
    }

    /// Gets the memory for `additional` further keys now, so that no insert of these can fail.
    pub fn reserve(&mut self, additional: usize) -> Result<(), AllocError>
        ensures entries { IsUnchanged self.old self.new }
        ensures ok { OnOk result (additional ≤ spare self.new) }
        ensures succeeds { additional ≤ spare self.old → IsOk result }
        ensures room { KeepsRoom self.old self.new }
        ensures unique { IsUnique K.eq self.new }
    {
        if self.room_left() < additional {
            return self.extend_room(additional);
        }
        Ok(())
    }
}
