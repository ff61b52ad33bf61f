//! Why a text lists no names.

ghost use Rattle.std.specs.Prelude.{◌≡◌};

use std::alloc::AllocError;
use thiserror::Error;

/// Why a line says no name of a key.
#[derive(Clone, Copy, Debug, PartialEq, Eq, Error)]
pub enum NameFault {
    /// Its first word is neither a whole id nor a key's text.
    #[error("no key")]
    NoKey,
    /// Nothing stands behind the key.
    #[error("no name")]
    NoName,
    /// There was no memory for the name.
    #[error("out of memory")]
    OutOfMemory,
}

impl From<AllocError> for NameFault {
    ghost use Rattle.tool_layout.specs.declared.error.NameFault.TheVariants.{OutOfMemory};

    ghost from_gives = { λ _ e. e ≡ OutOfMemory };

    fn from(_error: AllocError) -> NameFault {
        NameFault::OutOfMemory
    }
}

/// The first line of a text that says no name, and why.
#[derive(Clone, Copy, Debug, PartialEq, Eq, Error)]
#[error("line {line}: {fault}")]
pub struct NamesParseError {
    /// The line's number, counted from 1.
    pub line: usize,
    /// Why it says no name.
    pub fault: NameFault,
}
