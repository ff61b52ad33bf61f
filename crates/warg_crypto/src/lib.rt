//! Hashes, keys and signatures, the visitors that take bytes in, prefix encoding, what is written as bytes and read from
//! them, base64 as it is written (`base64_text`), JSON of values (`json`), and times (`time`).
#![tactic(auto)]

pub mod base64_text;
mod coding;
pub mod digits;
pub mod hash;
pub mod json;
pub mod laws;
pub mod prefix;
mod ranges;
pub mod signing;
pub mod time;
pub mod toy;
mod visit;

pub use coding::{Decode, DecodeError, Encode, WireFault};
pub use json::{Incoherence, JsonError, JsonValue};
pub use signing::Signable;
pub use time::{Clock, SystemClock, TimeError, Timestamp};
pub use visit::{ByteVisitor, VisitBytes};
