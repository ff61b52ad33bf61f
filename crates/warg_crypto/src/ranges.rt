//! What a type of Rust promises of its values, as a fact: the function does nothing.

ghost use Rattle.std.specs.Prelude.{◌<◌, ℕ, slice_index};

/// Each byte is below 256.
pub fn byte_range(bytes: &[u8])
    ensures { (i : ℕ) → slice_index bytes.now i < 256 }
{}
