//! Texts among the arguments of calls.
ghost use Rattle.std.specs.Prelude.{◌≡◌, ◌⊎◌, None, Some, IfOk, IfErr, OnOk};
ghost use Rattle.std.specs.Str.{IsUtf8};
ghost use Rattle.warg_c.specs.Texts.{ErrorsAs};

use crate::call_error::CallError;
use std::alloc::Global;
use warg_crypto::signing::KeyID;
use warg_permissions::LogPermission;

/// The key id of a text.
pub(crate) fn key_id_of(alloc: Global, text: &[u8]) -> Result<KeyID, CallError>
    ensures ok { IfOk result (λ id. id ≡ text.now) }
    ensures utf8 { OnOk result (IsUtf8 text.now) }
    ensures err { IfErr result (ErrorsAs (IsUtf8 text.now) ⊥ (IsUtf8 text.now → ⊥)) }
{
    let Ok(text) = str::from_utf8(text) else {
        return Err(CallError::BadArgument);
    };
    match String::from_str(alloc, text) {
        Ok(text) => Ok(KeyID::from(text)),
        Err(_) => Err(CallError::OutOfMemory),
    }
}

/// The permission of a text.
pub(crate) fn permission_of<P: LogPermission>(text: &[u8]) -> Result<P, CallError>
    ensures ok { IfOk result (λ p. P.permission_named text.now ≡ Some p) }
    ensures err { IfErr result (ErrorsAs ⊥ ⊥
        (IsUtf8 text.now → P.permission_named text.now ≡ None)) }
{
    let Ok(text) = str::from_utf8(text) else {
        return Err(CallError::BadArgument);
    };
    match P::from_text(text) {
        Some(permission) => Ok(permission),
        None => Err(CallError::BadArgument),
    }
}
