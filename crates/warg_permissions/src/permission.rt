//! What both kinds' permissions share.

ghost use Rattle.std.specs.Prelude.{◌≡◌, ℕ, ℤ, List, Option, Some, IfOk, true};
ghost use Rattle.std.specs.List.{IsDistinct};
ghost use Rattle.warg_permissions.specs.Permissions.{lists};

use std::alloc::{AllocError, Global};
use std::hash::Hash;
use thiserror::Error;

/// A text names no permission.
#[derive(Clone, Copy, Debug, PartialEq, Eq, Error)]
#[error("InvalidPermission")]
pub struct InvalidPermission;

/// A number of a message names no permission.
#[derive(Clone, Copy, Debug, PartialEq, Eq, Error)]
#[error("the value {value} could not be parsed as a permission")]
pub struct PermissionParseError {
    /// The number.
    pub value: i32,
}

/// A permission of a kind of log.
pub trait LogPermission: Copy + Eq + Hash {
    // The permission that a number names.
    ghost permission_of: { ℤ → Option Self };

    // The number that names a permission.
    ghost number_of: { Self → ℤ };

    // The permission that a text names.
    ghost permission_named: { List ℕ → Option Self };

    // The text that names a permission.
    ghost text_of: { Self → List ℕ };

    // All permissions of the kind, by their numbers.
    ghost listed: { List Self };

    /// All permissions of the kind, each once, by their numbers: what the signer of an Init gets.
    fn all(alloc: Global) -> Result<Vec<Self>, AllocError>
        ensures listed { IfOk result (λ ps. ps.items ≡ listed) }
        ensures all { IfOk result (λ ps. (p : Self) → lists Self.eq ps.items p ≡ true) }
        ensures distinct { IfOk result (λ ps. IsDistinct Self.eq ps.items) };

    /// The permission that the number of a message names.
    fn from_number(number: i32) -> Option<Self>
        ensures { result ≡ permission_of number };

    /// The number that names the permission in messages.
    fn to_number(self) -> i32
        ensures { result ≡ number_of self };

    /// The permission that the text names.
    fn from_text(text: &str) -> Option<Self>
        ensures { result ≡ permission_named text.now };

    /// The text that names the permission.
    fn as_text(self) -> &'static str
        ensures { result.now ≡ text_of self };

    // A permission is read back from its number.
    ghost number_reads_back: { (p : Self) → permission_of (number_of p) ≡ Some p };

    // A permission is read back from its text.
    ghost text_reads_back: { (p : Self) → permission_named (text_of p) ≡ Some p };

    // A clone is the same.
    ghost clones: { (x y : Self) → Self.is_clone x y → y ≡ x };

    // Permissions that are equal are the same.
    ghost same_is: { (x y : Self) → Self.eq x y ≡ true → x ≡ y };
}
