//! Maps and sets in the order of insertion, whose look-ups cost no more by the choice of their keys.
//!
//! The usual hash table is fast where its keys have different hashes. Who knows how it hashes can look for keys that
//! have the same, and then each of them is compared with all the others: twice as many keys take four times as long. A
//! secret in the hash would prevent that, but here each run is to do the same, and no host is to hand in a secret.
//!
//! So a map keeps its keys and its values in vectors, in the order of insertion, and an index says where each key is.
//! The index has four parts, and a key goes into the first that has room for it:
//!
//! 1. The near buckets, by a fast hash. A bucket has eight places, and a full one passes the key on.
//! 2. The second buckets, by the low half of another hash, SipHash-1-3 with no key.
//! 3. A tree of these other hashes, whole. To get past it, two keys need the same 64 bits.
//! 4. A tree of the keys themselves, ordered as they are compared.
//!
//! A map with room for four keys or fewer has no places: a look at all keys is quicker than a hash.
//!
//! Where there was no memory for a place in a tree, a key whose near bucket is full is looked for among all keys, until
//! the map grows and its index is made anew. So an insert into a map with room can't fail.
//!
//! So a key costs a look into one bucket or two, or a search in a tree besides, whoever chose it. A lack of memory alone
//! costs more, and no choice of keys makes it.
#![tactic(auto)]

mod buckets;
mod growth;
mod index;
mod iter;
mod map;
mod query;
mod set;
#[cfg(test)]
mod tests;

// A crate can name a map in a contract only where the types of its fields are public.
#[doc(hidden)]
pub use index::{Further, Index};
pub use iter::{Iter, Values};
pub use map::NameMap;
pub use query::Query;
pub use set::NameSet;
