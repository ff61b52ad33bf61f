//! What both kinds of record share in writing their messages.

ghost use Rattle.std.specs.Prelude.{◌≡◌, IfOk, Some, map, string_bytes};
ghost use Rattle.std.specs.Option.{option_map};
ghost use Rattle.warg_protobuf.specs.GrantFlat.{grant_flat_view};
ghost use Rattle.warg_protobuf.specs.Init.{init_view};
ghost use Rattle.warg_protobuf.specs.RevokeFlat.{revoke_flat_view};
ghost use Rattle.warg_protobuf.specs.Timestamp.{timestamp_view};
ghost use Rattle.warg_protobuf.specs.Views.{option_view};
ghost use Rattle.warg_log_records.specs.Writing.{grant_message, id_text, init_message, revoke_message, time_message};

use crate::log_entry::LogEntry;
use crate::record_id::RecordId;
use std::alloc::{AllocError, Global};
use std::fmt;
use warg_crypto::hash::HashAlgorithm;
use warg_crypto::signing::{KeyID, PublicKey};
use warg_crypto::time::Timestamp;
use warg_permissions::LogPermission;
use warg_protobuf::{GrantFlat, Init, RevokeFlat, TimestampPair};

/// Writes all entries, in order.
pub(crate) fn write_each<T: LogEntry>(
    alloc: Global,
    entries: &[T],
) -> Result<Vec<T::Message>, AllocError>
    ensures { IfOk result (λ v. map T.message_view v.items ≡ map T.written_message entries.now) }
{
    let mut messages = Vec::with_capacity(alloc, entries.len())?;
    for entry in entries {
        let message = entry.to_message(alloc)?;
        messages.push(message)?;
    }
    Ok(messages)
}

/// Writes the numbers of all permissions, in order.
fn write_permissions<P: LogPermission>(
    alloc: Global,
    permissions: &[P],
) -> Result<Vec<i32>, AllocError>
    ensures { IfOk result (λ v. v.items ≡ map P.number_of permissions.now) }
{
    let mut numbers = Vec::with_capacity(alloc, permissions.len())?;
    for permission in permissions {
        numbers.push(permission.to_number())?;
    }
    Ok(numbers)
}

/// The message of an entry that begins a log.
pub(crate) fn write_init(
    alloc: Global,
    algorithm: HashAlgorithm,
    key: &PublicKey,
) -> Result<Init, AllocError>
    ensures { IfOk result (λ m. init_view m ≡ init_message algorithm key.now) }
{
    let key = key.to_string(alloc)?;
    let hash_algorithm = algorithm.to_string(alloc)?;
    Ok(Init {
        key,
        hash_algorithm,
    })
}

/// The message of an entry that gives permissions to a key.
pub(crate) fn write_grant<P: LogPermission>(
    alloc: Global,
    key: &PublicKey,
    permissions: &[P],
) -> Result<GrantFlat, AllocError>
    ensures { IfOk result (λ m. grant_flat_view m ≡
        grant_message P.number_of key.now permissions.now) }
{
    let key = key.to_string(alloc)?;
    let permissions = write_permissions(alloc, permissions)?;
    Ok(GrantFlat { key, permissions })
}

/// The message of an entry that takes permissions from a key.
pub(crate) fn write_revoke<P: LogPermission>(
    alloc: Global,
    key_id: &KeyID,
    permissions: &[P],
) -> Result<RevokeFlat, AllocError>
    ensures { IfOk result (λ m. revoke_flat_view m ≡
        revoke_message P.number_of key_id.now permissions.now) }
{
    let key_id = String::from_str(alloc, key_id.as_str())?;
    let permissions = write_permissions(alloc, permissions)?;
    Ok(RevokeFlat {
        key_id,
        permissions,
    })
}

/// The text of the id of the record before.
pub(crate) fn write_prev(
    alloc: Global,
    prev: &Option<RecordId>,
) -> Result<Option<String>, AllocError>
    ensures { IfOk result (λ t. option_view (λ s. string_bytes s) t ≡ option_map id_text prev.now) }
{
    let Some(id) = prev else {
        return Ok(None);
    };
    let text = id.to_string(alloc)?;
    Ok(Some(text))
}

/// The seconds and nanoseconds of a time.
pub(crate) fn write_time(time: Timestamp) -> TimestampPair
    ensures { timestamp_view result ≡ time_message time }
{
    TimestampPair {
        seconds: time.seconds(),
        nanos: time.nanos() as i32,
    }
}
