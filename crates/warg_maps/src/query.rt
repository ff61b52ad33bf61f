//! What a key is looked up by.
ghost use Rattle.std.specs.Prelude.{◌≡◌, Bool, IsTrue};
ghost use Rattle.std.proofs.Common.{ap};
ghost use Rattle.std.specs.BTreeMap.{get};
ghost use Rattle.std.specs.Cmp.Lexicographic.{bytes_decides, nat_list_eq_equiv};
ghost use Rattle.std.specs.Hash as fed;
ghost use Rattle.std.specs.Str.{bytes_eq};
ghost use Rattle.std.specs.String.{string_bytes};

use std::collections::BTreeMap;
use std::hash::Hash;

/// What stands for a key in a look-up: a `&K`, or a `&str` where the keys are texts.
pub trait Query<K: Ord + Hash>: Copy + Hash {
    // For which keys it stands.
    ghost equivalent: { Self → K → Bool };

    /// Whether it stands for the key.
    fn equivalent(&self, key: &K) -> bool
        ensures { result ≡ equivalent self.now key.now };

    /// The number at the key that it stands for.
    fn number_in(&self, numbers: &BTreeMap<K, usize>) -> Option<usize>
        ensures { (k : K) → IsTrue (equivalent self.now k) → result ≡ get K.cmp numbers.now k };

    // It is hashed as the key that it stands for.
    ghost respects_hash: { (q : Self) (k : K) → IsTrue (equivalent q k) → Self.hash_input q ≡ K.hash_input k };

    // Where it stands for a key, it stands for those that are equal to it, and for no other.
    ghost respects_eq: { (q : Self) (x y : K) → IsTrue (equivalent q x) → equivalent q y ≡ K.eq x y };
}

impl<K: Ord + Hash> Query<K> for &K {
    ghost equivalent = { λ q. K.eq q.now };

    ghost respects_hash = { λ q. K.respects_eq q.now };

    ghost respects_eq = { λ q. K.Eq.laws.congr q.now };

    fn equivalent(&self, key: &K) -> bool {
        (*self).eq(key)
    }

    fn number_in(&self, numbers: &BTreeMap<K, usize>) -> Option<usize> {
        numbers.get(*self).copied()
    }
}

impl Query<String> for &str {
    ghost equivalent = { λ q k. bytes_eq q.now (string_bytes k) };

    ghost respects_hash = { λ q k h. ap fed.str ((bytes_decides q.now (string_bytes k)).0 h) };

    ghost respects_eq = { λ q x y. nat_list_eq_equiv.congr q.now (string_bytes x) (string_bytes y) };

    fn equivalent(&self, key: &String) -> bool {
        *self == key.as_str()
    }

    fn number_in(&self, numbers: &BTreeMap<String, usize>) -> Option<usize> {
        numbers.get(*self).copied()
    }
}
