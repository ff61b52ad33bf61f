//! Arithmetic of numbers below 2 ^ 256, in four words of 64 bits, and modulo an odd one of them.
//!
//! A number `a` modulo `p` is kept in Montgomery's form, as `a * 2 ^ 256` modulo `p`. A product in
//! that form is a product divided by 2 ^ 256, which needs no division by `p`. Nothing takes memory.
#![tactic(auto)]

pub mod montgomery;
pub mod words;
