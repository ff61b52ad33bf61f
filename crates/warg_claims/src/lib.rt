//! What the records of a log claim of their signatures: the triples that somebody else has to verify, for every kind of log.
//! `verified` has the claims that were verified, their lines, and the verifier that takes what is among them.
#![tactic(auto)]

pub mod laws;
mod log_claims;
pub mod verified;

pub use log_claims::{LogClaims, claims};
