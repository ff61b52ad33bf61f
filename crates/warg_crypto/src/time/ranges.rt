//! What a type of Rust promises of its values, as a fact: the function does nothing.

ghost use Rattle.std.specs.Prelude.{◌≡◌, ◌<◌, ◌^◌, ℕ, pos};

/// A number that is not negative is below 2^63.
pub(crate) fn signed_range(number: i64)
    ensures { (n : ℕ) → number ≡ pos n → n < 2 ^ 63 }
{}
