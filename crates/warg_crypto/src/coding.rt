//! Values that are written as bytes and read from them, and why bytes say no value.

ghost use Rattle.std.specs.Prelude.{◌≡◌, ℕ, List, Result, IfOk};
ghost use Rattle.warg_crypto.specs.Coding.{IsDecoded, wire_error, key_error};
ghost use Rattle.warg_crypto.specs.declared.coding.DecodeError.{DecodeError};
ghost use Rattle.warg_crypto.specs.declared.coding.DecodeError.TheVariants as fault;
ghost use Rattle.warg_crypto.specs.declared.coding.WireFault.TheVariants as wire;

use crate::hash::AnyHashError;
use crate::signing::KeyParseError;
use std::alloc::{AllocError, AllocFailed, Global};
use thiserror::Error;

/// A value that is written as bytes.
pub trait Encode {
    // The bytes of a value.
    ghost encoding: { Self → List ℕ };

    /// The bytes of the value.
    fn encode(&self, alloc: Global) -> Result<Vec<u8>, AllocError>
        ensures { IfOk result (λ v. v.items ≡ encoding self.now) };
}

/// A value that is read from bytes.
pub trait Decode: Drop {
    // The value as plain data, which is what bytes say.
    ghost Plain: { Type 0 };

    ghost plain: { Self → Plain };

    // What bytes say: a value, or why they say none.
    ghost decodes: { List ℕ → Result Plain DecodeError };

    /// The value that the bytes say, or their first fault.
    fn decode(alloc: Global, bytes: &[u8]) -> Result<Self, DecodeError>
        ensures { IsDecoded plain (decodes bytes.now) result };
}

/// Why bytes are no message of the proto3 wire format.
#[derive(Clone, Copy, Debug, PartialEq, Eq, Error)]
pub enum WireFault {
    /// The bytes end within a varint, or before the bytes that a field announces.
    #[error("Truncated")]
    Truncated,
    /// A varint does not end by its tenth byte, or leaves 64 bits there.
    #[error("VarintTooLong")]
    VarintTooLong,
    /// A field's key is past 32 bits, or has number 0, or type 6 or 7.
    #[error("BadKey")]
    BadKey,
    /// A field is a group, of type 3 or 4.
    #[error("Group")]
    Group,
    /// A field has another type than its number has in this message.
    #[error("WrongWireType")]
    WrongWireType,
    /// A text is no UTF-8.
    #[error("NotUtf8")]
    NotUtf8,
    /// There was no memory for what was read.
    #[error("OutOfMemory")]
    OutOfMemory,
}

impl From<AllocError> for WireFault {
    ghost from_gives = { λ _ e. e ≡ wire.OutOfMemory };

    fn from(_error: AllocError) -> WireFault {
        WireFault::OutOfMemory
    }
}

/// Why bytes say no value.
#[derive(Clone, Copy, Debug, PartialEq, Eq, Error)]
pub enum DecodeError {
    /// The bytes are no message.
    #[error("Wire")]
    Wire(WireFault),
    /// The hash of the previous record is no hash.
    #[error("Prev")]
    Prev(AnyHashError),
    /// The record has no time.
    #[error("MissingTime")]
    MissingTime,
    /// The record's seconds leave the range of an `i64`.
    #[error("TimeOutOfRange")]
    TimeOutOfRange,
    /// An entry says nothing.
    #[error("EmptyEntry")]
    EmptyEntry,
    /// An entry names no known hash algorithm.
    #[error("Algorithm")]
    Algorithm,
    /// An entry's key is no key.
    #[error("Key")]
    Key(KeyParseError),
    /// An entry lists a number that is no permission.
    #[error("Permission")]
    Permission {
        /// The number.
        value: i32,
    },
    /// An entry's version is no version.
    #[error("Version")]
    Version,
    /// The hash of a release's content is no hash.
    #[error("ContentHash")]
    ContentHash(AnyHashError),
    /// There was no memory for the value.
    #[error("OutOfMemory")]
    OutOfMemory,
}

impl From<WireFault> for DecodeError {
    ghost from_gives = { λ e f. f ≡ wire_error e };

    /// Out of memory stays out of memory.
    fn from(error: WireFault) -> DecodeError {
        match error {
            WireFault::OutOfMemory => DecodeError::OutOfMemory,
            fault => DecodeError::Wire(fault),
        }
    }
}

impl From<KeyParseError> for DecodeError {
    ghost from_gives = { λ e f. f ≡ key_error e };

    /// Out of memory stays out of memory.
    fn from(error: KeyParseError) -> DecodeError {
        match error {
            KeyParseError::OutOfMemory => DecodeError::OutOfMemory,
            fault => DecodeError::Key(fault),
        }
    }
}

impl From<AllocError> for DecodeError {
    ghost from_gives = { λ _ e. e ≡ fault.OutOfMemory };

    fn from(_error: AllocError) -> DecodeError {
        DecodeError::OutOfMemory
    }
}

impl<T: Drop> From<AllocFailed<T>> for DecodeError {
    ghost from_gives = { λ _ e. e ≡ fault.OutOfMemory };

    fn from(_error: AllocFailed<T>) -> DecodeError {
        DecodeError::OutOfMemory
    }
}
