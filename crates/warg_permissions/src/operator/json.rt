//! JSON of permissions: their text.

ghost use Rattle.std.specs.Prelude.{◌≡◌, []};
ghost use Rattle.warg_crypto.specs.Json.EqualLaws.{same_equal};
ghost use Rattle.serde_json.specs.View.{view};
ghost use Rattle.warg_crypto.specs.Json.Json.{Returns};
ghost use Rattle.warg_permissions.specs.PermissionJson.{permission_from, permission_json};
ghost use Rattle.warg_permissions.specs.OperatorPermissions.{permission_in, permission_text};
ghost use Rattle.warg_permissions.specs.declared.operator.Permission.{Permission};

use crate::LogPermission;
use crate::operator::Permission;
use serde_json::Value;
use std::alloc::Global;
use warg_crypto::json::members::{text_in, text_value};
use warg_crypto::json::{JsonError, JsonValue};

impl JsonValue for Permission {
    ghost Plain = { Permission };

    ghost plain = { λ p. p };

    ghost writes = { permission_json permission_text };

    ghost reads = { permission_from permission_in };

    ghost versions = { λ _. [] };

    ghost equivalent = { λ p q. p ≡ q };

    ghost equivalent_equal = { same_equal };

    ghost versions_written = { λ x d h. tt };

    ghost versions_read = { λ x d h. tt };

    fn to_value(&self, alloc: Global) -> Result<Value, JsonError> {
        text_value(alloc, self.as_str())
    }

    /// The value of JSON, or its first fault. It takes no memory.
    fn from_value(_alloc: Global, value: &Value) -> Result<Permission, JsonError>
        ensures { Returns (λ p. p) result (permission_from permission_in (view value.now)) }
    {
        Permission::from_text(text_in(value)?).ok_or(JsonError::BadText)
    }
}
