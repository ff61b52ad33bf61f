//! Tests of the trees for what no row of the conformance suite says: leaves and values of any bytes, whole paths of maps,
//! proofs of too many hashes, and all proofs that small logs give.
#[cfg(test)]
mod inclusion;
#[cfg(test)]
mod known;
#[cfg(test)]
mod log;
#[cfg(test)]
mod long;
#[cfg(test)]
mod many_keys;
#[cfg(test)]
mod map;
#[cfg(test)]
mod short_map;
