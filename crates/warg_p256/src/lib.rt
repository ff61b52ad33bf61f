//! Verification of ECDSA signatures on the curve P-256 with SHA-256 (FIPS 186-5, 6.4.2).
//!
//! [`verify`] answers for any bytes of a key, a message and a signature, and its contract is the
//! relation of the standard. [`P256Verifier`] is the scheme `ecdsa-p256`. [`KnownKeys`] is the
//! same, and reads the points of the keys that it keeps once.
#![tactic(auto)]

mod base_table;
mod combination;
mod constants;
mod der;
mod field;
mod known_keys;
pub mod laws;
mod point;
mod scalar;
mod sec1;
mod signature;
mod verifier;

pub use known_keys::KnownKeys;
pub use signature::verify;
pub use verifier::{ALGORITHM, P256Verifier};
