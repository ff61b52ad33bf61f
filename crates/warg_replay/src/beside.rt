//! Values beside the bytes that they were made of.
ghost use Rattle.std.specs.Prelude.{◌≡◌, ◌↔◌, ℕ, List, IsTrue, IfOk, IfSome};

use std::alloc::{AllocError, Global};
use std::marker::Model;

/// What is made of bytes.
pub trait MadeOf: Drop {
    // The bytes make the value.
    ghost made_of: { List ℕ → Self → Type 0 };
}

/// A value, and the bytes that it was made of, so that it need not be made again where the same bytes come. Contracts see
/// the bytes alone.
#[derive(Drop)]
pub struct Beside<T: MadeOf> {
    bytes: Vec<u8>,
    value: T,
}

impl<T: MadeOf> Model for Beside<T> {
    ghost use Rattle.std.specs.Prelude.{List, ℕ};

    ghost Value = { List ℕ };

    ghost view = { λ b. b.bytes.items };

    ghost invariant = { λ b. T.made_of b.bytes.items b.value };
}

// Whether the bytes are the same.
fn is_same(left: &[u8], right: &[u8]) -> bool
    ensures { IsTrue result ↔ (left.now ≡ right.now) }
{
    left == right
}

impl<T: MadeOf> Beside<T> {
    /// The value with its bytes.
    pub fn new(bytes: Vec<u8>, value: T) -> Beside<T>
        requires { T.made_of bytes.items value }
        ensures { result ≡ bytes.items }
    {
        Beside { bytes, value }
    }

    /// The same, with a copy of the bytes.
    pub fn with_copy(alloc: Global, bytes: &[u8], value: T) -> Result<Beside<T>, AllocError>
        requires { T.made_of bytes.now value }
        ensures { IfOk result (λ beside. beside ≡ bytes.now) }
    {
        let copy = Vec::from_slice(alloc, bytes)?;
        Ok(Beside { bytes: copy, value })
    }

    /// The value, if these are its bytes.
    pub fn value_of(self, bytes: &[u8]) -> Option<T>
        ensures { IfSome result (λ value. T.made_of bytes.now value) }
    {
        let Beside { bytes: kept, value } = self;
        if !is_same(kept.as_slice(), bytes) {
            return None;
        }
        Some(value)
    }
}
