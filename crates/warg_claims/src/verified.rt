//! Signatures that a host has verified: claims, their lines, and the verifier that takes what is among them.
mod claim;
mod error;
pub mod laws;
mod named;
mod parts;
mod shown;
mod verified;

pub use claim::Claim;
pub use error::{ClaimParseError, VerifiedParseError};
pub use verified::Verified;
