//! The ids of the keys of a log.

ghost use Rattle.std.specs.Prelude.{◌≡◌, IfOk, map};

use std::alloc::{AllocError, Global};
use warg_permissions::LogPermission;
use warg_protocol::package::Keys;
use warg_protocol::signing::KeyID;

/// The ids of the keys, in their order.
pub(crate) fn key_ids<P: LogPermission>(
    alloc: Global,
    keys: Keys<'_, P>,
) -> Result<Vec<KeyID>, AllocError>
    ensures { IfOk result (λ ids. ids.items ≡ map (λ key. key.id) keys.entry) }
{
    let mut ids = Vec::new(alloc);
    for key in keys {
        ids.push(key.id.try_clone()?)?;
    }
    Ok(ids)
}
