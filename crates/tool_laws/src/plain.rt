//! Texts of the characters of ASCII that print: numbers, hashes, proofs and versions are such. Laws alone.
pub mod laws;
