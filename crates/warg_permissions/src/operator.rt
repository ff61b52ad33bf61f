//! What an operator log lets keys do.

ghost use Rattle.std.specs.Prelude.{◌≡◌, [], ◌∷◌, pos, Option, Some, Ok, Err};
ghost use Rattle.std.specs.Cmp.{partial_equiv_from_equiv};
ghost use Rattle.std.specs.Hash as fed;
ghost use Rattle.warg_permissions.specs.Permissions.{hash-same_number, named_or, numbered_or};
ghost use Rattle.warg_permissions.specs.OperatorPermissions.{all_permissions, number_of, permission_of, permission_text, permission_in, same_permission, same_permission_equiv, same_permission-is, permission_of-number_of, permission_in-permission_text};

mod json;

use crate::permission::{InvalidPermission, LogPermission, PermissionParseError};
use std::alloc::{AllocError, Global};
use std::fmt;
use std::hash::{Hash, Hasher};
use std::str::FromStr;

/// What a key may do in an operator log.
#[derive(Clone, Copy, Debug)]
pub enum Permission {
    /// The key may sign checkpoints, and grant and revoke permissions.
    Commit,
    /// The key may define namespaces.
    DefineNamespace,
    /// The key may import namespaces from other registries.
    ImportNamespace,
}

impl Permission {
    /// All permissions, in the order of their numbers in messages.
    pub const fn all() -> [Permission; 3]
        ensures { result ≡ Permission.Commit ∷ Permission.DefineNamespace ∷
            Permission.ImportNamespace ∷ [] }
    {
        [
            Permission::Commit,
            Permission::DefineNamespace,
            Permission::ImportNamespace,
        ]
    }

    // The number of the permission in a message.
    fn number(self) -> u8
        ensures { result ≡ number_of self }
    {
        match self {
            Permission::Commit => 1,
            Permission::DefineNamespace => 2,
            Permission::ImportNamespace => 3,
        }
    }

    // The text of the permission.
    fn as_str(self) -> &'static str
        ensures { result.now ≡ permission_text self }
    {
        match self {
            Permission::Commit => "commit",
            Permission::DefineNamespace => "defineNamespace",
            Permission::ImportNamespace => "importNamespace",
        }
    }
}

impl PartialEq for Permission {
    ghost eq = { same_permission };

    ghost laws = { partial_equiv_from_equiv same_permission_equiv };

    fn eq(&self, other: &Permission) -> bool {
        self.number() == other.number()
    }
}

impl Eq for Permission {
    ghost laws = { same_permission_equiv };
}

impl Hash for Permission {
    ghost hash_input = { λ p. fed.u8 (number_of p) };

    ghost respects_eq = { hash-same_number number_of };

    fn hash<H: Hasher>(&self, state: &mut H) {
        self.number().hash(state);
    }
}

impl fmt::Display for Permission {
    ghost output = { λ p. Some (permission_text p) };

    ghost styled_output = { λ p _. Some (permission_text p) };

    fn fmt<W: fmt::Write>(&self, f: &mut fmt::Formatter<W>) -> fmt::Result {
        f.write_str(self.as_str())
    }
}

impl FromStr for Permission {
    type Err = InvalidPermission;

    ghost from_str_gives = { λ text r. r ≡ named_or (permission_in text) };

    fn from_str(text: &str) -> Result<Permission, InvalidPermission> {
        match text {
            "commit" => Ok(Permission::Commit),
            "defineNamespace" => Ok(Permission::DefineNamespace),
            "importNamespace" => Ok(Permission::ImportNamespace),
            _ => Err(InvalidPermission),
        }
    }
}

impl LogPermission for Permission {
    ghost permission_of = { permission_of };

    ghost number_of = { λ p. pos (number_of p) };

    ghost permission_named = { permission_in };

    ghost text_of = { permission_text };

    ghost listed = { all_permissions };

    ghost number_reads_back = { permission_of-number_of };

    ghost text_reads_back = { permission_in-permission_text };

    ghost clones = { λ x y h. h };

    ghost same_is = { same_permission-is };

    #[tactic(auto, using(crate::proofs::Distinct::operator_permissions_distinct))]
    fn all(alloc: Global) -> Result<Vec<Permission>, AllocError> {
        Permission::all().to_vec(alloc)
    }

    fn from_number(number: i32) -> Option<Permission> {
        match number {
            1 => Some(Permission::Commit),
            2 => Some(Permission::DefineNamespace),
            3 => Some(Permission::ImportNamespace),
            _ => None,
        }
    }

    fn to_number(self) -> i32 {
        self.number() as i32
    }

    fn from_text(text: &str) -> Option<Permission> {
        text.parse::<Permission>().ok()
    }

    fn as_text(self) -> &'static str {
        self.as_str()
    }
}

impl TryFrom<i32> for Permission {
    type Error = PermissionParseError;

    ghost try_from_gives = { λ v r. r ≡ numbered_or v (permission_of v) };

    fn try_from(value: i32) -> Result<Permission, PermissionParseError> {
        Permission::from_number(value).ok_or(PermissionParseError { value })
    }
}

impl From<&Permission> for i32 {
    ghost from_gives = { λ p n. n ≡ pos (number_of p.now) };

    fn from(permission: &Permission) -> i32 {
        permission.to_number()
    }
}
