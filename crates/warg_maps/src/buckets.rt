//! Buckets of places: the places of entries, by their hashes.
ghost use Rattle.std.specs.Prelude.{◌≡◌, ◌+◌, ◌<◌, ◌≤◌, ℕ, length, IfSome, IfNone, IsTrue, true, false};
ghost use Rattle.warg_maps.specs.Buckets.{start_of, HasPlace, IsFull, IsFreeAt};

/// How many places a bucket holds.
const LANES: usize = 8;

/// No place.
pub const FREE: u32 = 0xFFFF_FFFF;

/// The place of an entry, and its hash.
#[derive(Clone, Copy)]
pub struct Slot {
    pub hash: u32,
    pub place: u32,
}

/// Where the bucket of the hash begins.
fn start(len: usize, hash: u32) -> usize
    requires { 8 ≤ len }
    ensures value { result ≡ start_of len hash }
    ensures bound { result + 8 ≤ len }
{
    LANES * (hash as usize & (len / LANES - 1))
}

/// The first place in the hash's bucket that has the hash and passes the test, and whether the bucket is full. It is
/// searched up to where it has no place yet.
#[inline(always)]
pub(crate) fn find<F: Fn(usize) -> bool>(slots: &[Slot], hash: u32, eq: F) -> (Option<usize>, bool)
    requires len { 8 ≤ length slots.now }
    requires callable { F.IsAlwaysCallable eq }
    ensures found { IfSome result.0 (λ i. F.post eq i true) }
    ensures missed { IfNone result.0 ((i : ℕ) → HasPlace slots.now hash i → F.post eq i false) }
    ensures ends { IfNone result.0 (result.1 ≡ false → IsFull slots.now hash → ⊥) }
{
    let first = start(slots.len(), hash);
    for lane in 0..LANES {
        let slot = slots[first + lane];
        if slot.place == FREE {
            return (None, false);
        }
        if slot.hash == hash && eq(slot.place as usize) {
            return (Some(slot.place as usize), true);
        }
    }
    (None, true)
}

/// Where the hash's bucket has no place yet.
pub(crate) fn free_at(slots: &[Slot], hash: u32) -> Option<usize>
    requires len { 8 ≤ length slots.now }
    ensures free { IfSome result (IsFreeAt slots.now hash) }
    ensures full { IfNone result (IsFull slots.now hash) }
{
    let first = start(slots.len(), hash);
    for lane in 0..LANES {
        if slots[first + lane].place == FREE {
            return Some(first + lane);
        }
    }
    None
}

/// Puts the place into the hash's bucket, unless that is full.
pub(crate) fn put(slots: &mut Vec<Slot>, hash: u32, place: u32) -> bool
    requires place { place < FREE }
    ensures put { IsTrue result → HasPlace slots.new.items hash place }
    ensures kept { (h i : ℕ) → HasPlace slots.old.items h i → HasPlace slots.new.items h i }
    ensures full { (h : ℕ) → IsFull slots.old.items h → IsFull slots.new.items h }
    ensures refused { result ≡ false → IsFull slots.new.items hash }
    ensures length { length slots.new.items ≡ length slots.old.items }
{
    if slots.len() < LANES {
        return false;
    }
    match free_at(slots.as_slice(), hash) {
        Some(at) => {
            slots[at] = Slot { hash, place };
            true
        }
        None => false,
    }
}
