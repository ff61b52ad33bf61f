//! Entries parted by a bit of their keys.

ghost use Rattle.std.specs.Prelude.{◌≡◌, ◌<◌, ◌≤◌, length, true, false};
ghost use Rattle.std.specs.List.{AllWithin};
ghost use Rattle.std.specs.List.Sorted.{IsPermutation};
ghost use Rattle.warg_merkle.specs.SparseMap.Maps.{is_right};
ghost use Rattle.warg_listed_map.specs.ListedMaps.{IsLatest};

use crate::entry::Entry;
use warg_merkle::sparse_map::is_right;

// Puts the entries whose keys go left at the depth before the others, and gives how many they are.
pub(crate) fn part(entries: &mut [Entry], depth: usize) -> usize
    requires in_tree { depth < 256 }
    ensures bound { result ≤ length entries.new }
    ensures same { IsPermutation entries.old entries.new }
    ensures left { AllWithin (λ e. is_right e.key depth ≡ false) entries.new 0 result }
    ensures right { AllWithin (λ e. is_right e.key depth ≡ true) entries.new result
        (length entries.new) }
{
    let mut count = 0usize;
    let mut i = 0usize;
    while i < entries.len() {
        if !is_right(&entries[i].key, depth) {
            entries.swap(count, i);
            count += 1;
        }
        i += 1;
    }
    count
}

// The entry of the last place.
pub(crate) fn latest(entries: &[Entry]) -> Entry
    requires some { 0 < length entries.now }
    ensures { IsLatest entries.now result }
{
    let mut best = entries[0];
    let mut i = 1usize;
    while i < entries.len() {
        let entry = entries[i];
        if best.place <= entry.place {
            best = entry;
        }
        i += 1;
    }
    best
}
