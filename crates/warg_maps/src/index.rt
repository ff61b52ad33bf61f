//! Where entries are, by their keys.
ghost use Rattle.std.specs.Prelude.{◌≡◌, ◌<◌, ◌↔◌, ◌%◌, ◌^◌, ℕ, IfSome, IfNone, IsTrue, Some, true, false};
ghost use Rattle.std.specs.Option.{MatchOption};
ghost use Rattle.std.specs.Ordering.{is_eq};
ghost use Rattle.std.specs.BTreeMap.{get};
ghost use Rattle.warg_maps.specs.Buckets.{HasPlace, IsFull};
ghost use Rattle.warg_maps.specs.FarHash.{far_hash};
ghost use Rattle.warg_maps.specs.Index.{HasEntry, HasFar, HasFurther, HasSecond, IsAt};

use crate::Query;
use crate::buckets::{FREE, Slot, find, free_at, put};
use std::alloc::Global;
use std::collections::BTreeMap;
use std::hash::{DefaultHasher, Hash, Hasher};

/// The places of the entries, by the keys. A key whose near bucket is full has its place further on. No choice of keys
/// fills all that is there. Few keys have no buckets: a look at all of them is quicker than a hash.
#[derive(Drop)]
pub struct Index<K: Ord> {
    /// By the map's own hashes.
    pub near: Vec<Slot>,
    /// The places of the others, once there are any. They are in a box, since a map that moves is to be small.
    pub further: Option<Box<Further<K>>>,
    /// Whether a key has no place, of few or where there was no memory for it.
    pub lacks_places: bool,
}

/// The places of keys whose near buckets are full, by another hash: in a second bucket, in a tree of hashes, or in a tree
/// of keys where even that hash is another key's.
#[derive(Drop)]
pub struct Further<K: Ord> {
    /// By the low halves of the other hashes.
    pub second: Vec<Slot>,
    /// By the other hashes, whole.
    pub far: BTreeMap<u64, usize>,
    /// By the keys themselves.
    pub crowd: BTreeMap<K, usize>,
}

/// Whether the query stands for the key at the place.
fn is_at<K: Ord + Hash, Q: Query<K>>(keys: &[K], key: Q, place: usize) -> bool
    ensures { IsTrue result ↔ IsAt (Q.equivalent key) keys.now place }
{
    place < keys.len() && key.equivalent(&keys[place])
}

/// Another hash, by SipHash-1-3.
#[inline(never)]
fn far_hash<Q: Hash>(key: &Q) -> u64
    ensures { result ≡ far_hash (Q.hash_input key.now) }
{
    let mut hasher = DefaultHasher::new();
    key.hash(&mut hasher);
    hasher.finish()
}

/// The other hash of a key, computed where it is not given.
fn given_or_far_hash<Q: Hash>(far: Option<u64>, key: &Q) -> u64
    requires { IfSome far (λ far. far ≡ far_hash (Q.hash_input key.now)) }
    ensures { result ≡ far_hash (Q.hash_input key.now) }
{
    match far {
        Some(far) => far,
        None => far_hash(key),
    }
}

/// The low half of a hash.
#[inline(always)]
pub(crate) fn low_half(hash: u64) -> u32
    ensures { result ≡ hash % 2 ^ 32 }
{
    (hash & 0xFFFF_FFFF) as u32
}

/// The place of the key in the bucket of its hash, and whether it may be further on: a bucket that is not full has never
/// refused a place.
#[inline(always)]
fn find_in_bucket<K: Ord + Hash, Q: Query<K>>(
    slots: &Vec<Slot>,
    keys: &[K],
    hash: u32,
    key: Q,
) -> (Option<usize>, bool)
    ensures found { IfSome result.0 (IsAt (Q.equivalent key) keys.now) }
    ensures missed { IfNone result.0 ((i : ℕ) → HasPlace slots.now.items hash i →
        IsAt (Q.equivalent key) keys.now i → ⊥) }
    ensures ends { IfNone result.0 (result.1 ≡ false → IsFull slots.now.items hash → ⊥) }
{
    if slots.len() < 8 {
        return (None, true);
    }
    let eq = |i: usize| -> bool
        ensures { IsTrue result ↔ IsAt (Q.equivalent key) keys.entry.now i }
    { is_at(keys, key, i) };
    let (found, is_full) = find(slots.as_slice(), hash, eq);
    match found {
        Some(place) => (Some(place), is_full),
        None => (None, is_full),
    }
}

/// The place of the key, by a look at all.
#[inline(never)]
pub(crate) fn find_among_all<K: Ord + Hash, Q: Query<K>>(keys: &[K], key: Q) -> Option<usize>
    ensures found { IfSome result (IsAt (Q.equivalent key) keys.now) }
    ensures missed { IfNone result ((i : ℕ) → IsAt (Q.equivalent key) keys.now i → ⊥) }
{
    for at in 0..keys.len() {
        if is_at(keys, key, at) {
            return Some(at);
        }
    }
    None
}

/// Adds the place of a key to those in order, unless memory runs out or its copy differs.
fn add_ordered<K: Ord + Clone + Drop>(crowd: &mut BTreeMap<K, usize>, key: &K, place: usize) -> bool
    ensures added { IsTrue result → get K.cmp crowd.new key.now ≡ Some place }
    ensures kept { (k : K) → is_eq (K.cmp key.now k) ≡ false →
        get K.cmp crowd.new k ≡ get K.cmp crowd.old k }
{
    let Ok(copy) = key.clone() else {
        return false;
    };
    if *key != copy {
        return false;
    }
    match crowd.insert(copy, place) {
        Ok(_) => true,
        Err(_) => false,
    }
}

impl<K: Ord> Further<K> {
    /// No places.
    pub(crate) fn new(alloc: Global) -> Further<K> {
        Further {
            second: Vec::new(alloc),
            far: BTreeMap::new(alloc),
            crowd: BTreeMap::new(alloc),
        }
    }
}

impl<K: Ord + Hash> Further<K> {
    /// The place of the key whose two buckets are full.
    #[inline(never)]
    fn find_far<Q: Query<K>>(&self, keys: &[K], far: u64, key: Q) -> Option<usize>
        ensures found { IfSome result (IsAt (Q.equivalent key) keys.now) }
        ensures missed { IfNone result ((i : ℕ) (k : K) → IsTrue (Q.equivalent key k) →
            HasFar K.cmp self.now far k i → IsAt (Q.equivalent key) keys.now i → ⊥) }
    {
        let Some(place) = self.far.get(&far) else {
            return None;
        };
        if is_at(keys, key, *place) {
            return Some(*place);
        }
        let Some(place) = key.number_in(&self.crowd) else {
            return None;
        };
        if is_at(keys, key, place) {
            return Some(place);
        }
        None
    }

    /// The place of the key whose near bucket is full.
    #[inline(never)]
    pub(crate) fn find_second<Q: Query<K>>(&self, keys: &[K], far: u64, key: Q) -> Option<usize>
        ensures found { IfSome result (IsAt (Q.equivalent key) keys.now) }
        ensures missed { IfNone result ((i : ℕ) (k : K) → IsTrue (Q.equivalent key k) →
            HasSecond K.cmp self.now far k i → IsAt (Q.equivalent key) keys.now i → ⊥) }
    {
        let low = low_half(far);
        let (found, second_is_full) = find_in_bucket(&self.second, keys, low, key);
        if let Some(place) = found {
            return Some(place);
        }
        if !second_is_full {
            return None;
        }
        match self.find_far(keys, far, key) {
            Some(place) => Some(place),
            None => None,
        }
    }
}

impl<K: Ord + Hash + Clone + Drop> Further<K> {
    /// Adds the place of a key whose two buckets are full, or answers that there was no memory.
    fn add_far(&mut self, far: u64, key: &K, place: usize) -> bool
        ensures added { IsTrue result → HasFar K.cmp self.new far key.now place }
        ensures kept { (f : ℕ) (k : K) (i : ℕ) → is_eq (K.cmp key.now k) ≡ false →
            HasFar K.cmp self.old f k i → HasFar K.cmp self.new f k i }
        ensures second { self.new.second ≡ self.old.second }
    {
        match self.far.insert(far, place) {
            Ok(None) => true,
            Ok(Some(first)) => {
                // The hash is another key's, which gets it back. To write over a key needs no memory.
                let written: Result<_, _> = self.far.insert(far, first);
                let _place = written.unwrap();
                add_ordered(&mut self.crowd, key, place)
            }
            Err(_) => false,
        }
    }

    /// Adds the place of a key whose near bucket is full, or answers that there was no memory.
    pub(crate) fn add_second(&mut self, far: u64, key: &K, place: usize) -> bool
        requires place { place < FREE }
        ensures added { IsTrue result → HasSecond K.cmp self.new far key.now place }
        ensures kept { (f : ℕ) (k : K) (i : ℕ) → is_eq (K.cmp key.now k) ≡ false →
            HasSecond K.cmp self.old f k i → HasSecond K.cmp self.new f k i }
    {
        if put(&mut self.second, low_half(far), place as u32) {
            return true;
        }
        if self.add_far(far, key, place) {
            return true;
        }
        false
    }
}

impl<K: Ord> Index<K> {
    /// No places.
    pub fn new(alloc: Global) -> Index<K> {
        Index {
            near: Vec::new(alloc),
            further: None,
            lacks_places: false,
        }
    }
}

impl<K: Ord + Hash> Index<K> {
    /// Whether there are no near buckets.
    #[inline(always)]
    pub(crate) fn has_no_buckets(&self) -> bool {
        self.near.is_empty()
    }

    /// The place of the key whose near bucket is full, where there was memory for all.
    #[inline(always)]
    fn find_opened<Q: Query<K>>(&self, keys: &[K], far: u64, key: Q) -> Option<usize>
        ensures found { IfSome result (IsAt (Q.equivalent key) keys.now) }
        ensures missed { IfNone result ((i : ℕ) (k : K) → IsTrue (Q.equivalent key k) →
            MatchOption self.now.further ⊥ (λ b. HasSecond K.cmp b.value far k i) →
            IsAt (Q.equivalent key) keys.now i → ⊥) }
    {
        match &self.further {
            Some(further) => further.find_second(keys, far, key),
            None => None,
        }
    }

    /// The place of the key whose near bucket is full.
    #[inline(never)]
    fn find_further<Q: Query<K>>(&self, keys: &[K], far: u64, key: Q) -> Option<usize>
        ensures found { IfSome result (IsAt (Q.equivalent key) keys.now) }
        ensures missed { IfNone result ((i : ℕ) (k : K) → IsTrue (Q.equivalent key k) →
            HasFurther K.cmp self.now far k i → IsAt (Q.equivalent key) keys.now i → ⊥) }
    {
        if let Some(place) = self.find_opened(keys, far, key) {
            return Some(place);
        }
        if self.lacks_places {
            return find_among_all(keys, key);
        }
        None
    }

    /// The place of the key that the query stands for, and its other hash where that was computed.
    #[inline(always)]
    pub fn search<Q: Query<K>>(&self, keys: &[K], hash: u32, key: Q) -> (Option<usize>, Option<u64>)
        ensures found { IfSome result.0 (IsAt (Q.equivalent key) keys.now) }
        ensures missed { IfNone result.0 ((i : ℕ) (k : K) → IsTrue (Q.equivalent key k) →
            HasEntry K.cmp self.now hash (far_hash (Q.hash_input key)) k i →
            IsAt (Q.equivalent key) keys.now i → ⊥) }
        ensures far { IfSome result.1 (λ far. far ≡ far_hash (Q.hash_input key)) }
    {
        if self.has_no_buckets() {
            return (find_among_all(keys, key), None);
        }
        let (found, near_is_full) = find_in_bucket(&self.near, keys, hash, key);
        if let Some(place) = found {
            return (Some(place), None);
        }
        if !near_is_full {
            return (None, None);
        }
        let far = far_hash(&key);
        match self.find_further(keys, far, key) {
            Some(place) => (Some(place), Some(far)),
            None => (None, Some(far)),
        }
    }
}

impl<K: Ord + Hash + Clone + Drop> Index<K> {
    /// Sees to it that a key whose near bucket is full can have a place, unless memory runs out.
    fn open_further(&mut self)
        ensures kept { (f : ℕ) (k : K) (i : ℕ) → HasFurther K.cmp self.old f k i → HasFurther K.cmp self.new f k i }
        ensures near { self.new.near ≡ self.old.near }
    {
        if self.further.is_some() {
            return;
        }
        let alloc = *self.near.allocator();
        if let Ok(further) = Box::new(alloc, Further::new(alloc)) {
            self.further = Some(further);
        }
    }

    /// Adds the place of a key whose near bucket is full, or answers that there was no memory.
    fn add_opened(&mut self, far: u64, key: &K, place: usize) -> bool
        requires place { place < FREE }
        ensures added { IsTrue result → HasFurther K.cmp self.new far key.now place }
        ensures kept { (f : ℕ) (k : K) (i : ℕ) → is_eq (K.cmp key.now k) ≡ false →
            HasFurther K.cmp self.old f k i → HasFurther K.cmp self.new f k i }
        ensures near { self.new.near ≡ self.old.near }
    {
        match &mut self.further {
            Some(further) => further.add_second(far, key, place),
            None => false,
        }
    }

    /// Adds the place of a key whose near bucket is full. Others keep theirs.
    #[inline(never)]
    fn add_further(&mut self, far: u64, key: &K, place: usize)
        requires place { place < FREE }
        ensures added { HasFurther K.cmp self.new far key.now place }
        ensures kept { (f : ℕ) (k : K) (i : ℕ) → is_eq (K.cmp key.now k) ≡ false →
            HasFurther K.cmp self.old f k i → HasFurther K.cmp self.new f k i }
        ensures near { self.new.near ≡ self.old.near }
    {
        self.open_further();
        if self.add_opened(far, key, place) {
            return;
        }
        self.lacks_places = true;
    }

    /// Adds the place of a key. Others keep theirs. Its other hash is computed where it is not given.
    pub fn add(&mut self, hash: u32, far: Option<u64>, key: &K, place: usize)
        requires place { place < FREE }
        requires far { IfSome far (λ far. far ≡ far_hash (K.hash_input key.now)) }
        ensures added { HasEntry K.cmp self.new hash (far_hash (K.hash_input key.now)) key.now place }
        ensures kept { (h f : ℕ) (k : K) (i : ℕ) → is_eq (K.cmp key.now k) ≡ false →
            HasEntry K.cmp self.old h f k i → HasEntry K.cmp self.new h f k i }
    {
        if put(&mut self.near, hash, place as u32) {
            return;
        }
        if self.has_no_buckets() {
            self.lacks_places = true;
            return;
        }
        let far = given_or_far_hash(far, key);
        self.add_further(far, key, place);
    }
}
