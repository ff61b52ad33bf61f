//! What both kinds of record share in reading from their messages.

ghost use Rattle.std.specs.Prelude.{◌≡◌, ◌≢◌, string_bytes, IfErr};
ghost use Rattle.warg_crypto.specs.declared.coding.DecodeError.TheVariants.{OutOfMemory};
ghost use Rattle.warg_protobuf.specs.GrantFlat.{grant_flat_view};
ghost use Rattle.warg_protobuf.specs.Init.{init_view};
ghost use Rattle.warg_protobuf.specs.RevokeFlat.{revoke_flat_view};
ghost use Rattle.warg_protobuf.specs.Timestamp.{timestamp_view};
ghost use Rattle.warg_protobuf.specs.Views.{option_view};
ghost use Rattle.warg_envelope.specs.Faults.{fault_of, IsExactReading, IsReading};
ghost use Rattle.warg_log_records.specs.RecordData as entry;
ghost use Rattle.warg_log_records.specs.RecordReading.{beginning_of, each, grant_of, key_of, permission_in, prev_of, revoke_of, time_of, wire_error_of};

use crate::record_id::RecordId;
use std::alloc::Global;
use std::str::FromStr;
use warg_crypto::hash::{AnyHash, HashAlgorithm};
use warg_crypto::signing::{KeyID, PublicKey};
use warg_crypto::time::Timestamp;
use warg_crypto::{DecodeError, WireFault};
use warg_permissions::LogPermission;
use warg_protobuf::{GrantFlat, Init, RevokeFlat, TimestampPair, WireError};

/// The permission of a number.
fn read_permission<P: LogPermission>(number: i32) -> Result<P, DecodeError>
    ensures { IsExactReading (λ p. p) fault_of (permission_in P.permission_of number) result }
{
    match P::from_number(number) {
        Some(permission) => Ok(permission),
        None => Err(DecodeError::Permission { value: number }),
    }
}

/// Reads all permissions, in order, up to the first number that is none.
fn read_permissions<P: LogPermission>(
    alloc: Global,
    numbers: Vec<i32>,
) -> Result<Vec<P>, DecodeError>
    ensures { IsReading (λ v. v.items) fault_of (each (permission_in P.permission_of) numbers.items)
        result }
{
    let mut permissions = Vec::with_capacity(alloc, numbers.len())?;
    for number in numbers {
        let permission = read_permission::<P>(number)?;
        permissions.push(permission)?;
    }
    Ok(permissions)
}

/// The error of bytes that are no message.
pub(crate) fn wire_error(error: WireError) -> DecodeError
    ensures { result ≡ wire_error_of error }
{
    match error {
        WireError::Truncated => DecodeError::Wire(WireFault::Truncated),
        WireError::VarintTooLong => DecodeError::Wire(WireFault::VarintTooLong),
        WireError::BadKey => DecodeError::Wire(WireFault::BadKey),
        WireError::Group => DecodeError::Wire(WireFault::Group),
        WireError::WrongWireType => DecodeError::Wire(WireFault::WrongWireType),
        WireError::NotUtf8 => DecodeError::Wire(WireFault::NotUtf8),
        WireError::OutOfMemory => DecodeError::OutOfMemory,
    }
}

/// The id of the record before.
pub(crate) fn read_prev(prev: Option<String>) -> Result<Option<RecordId>, DecodeError>
    ensures given { IsReading (λ p. p) fault_of (prev_of (option_view (λ s. string_bytes s) prev))
        result }
    ensures no_memory { IfErr result (λ e. e ≢ OutOfMemory) }
{
    let Some(text) = prev else {
        return Ok(None);
    };
    match AnyHash::from_str(text.as_str()) {
        Ok(hash) => Ok(Some(RecordId::from(hash))),
        Err(error) => Err(DecodeError::Prev(error)),
    }
}

/// The time, its nanoseconds carried.
pub(crate) fn read_time(time: Option<TimestampPair>) -> Result<Timestamp, DecodeError>
    ensures given { IsReading (λ t. t) fault_of (time_of (option_view timestamp_view time)) result }
    ensures no_memory { IfErr result (λ e. e ≢ OutOfMemory) }
{
    let Some(time) = time else {
        return Err(DecodeError::MissingTime);
    };
    match Timestamp::from_parts(time.seconds, time.nanos) {
        Ok(timestamp) => Ok(timestamp),
        Err(_) => Err(DecodeError::TimeOutOfRange),
    }
}

/// A key.
fn read_key(alloc: Global, text: &str) -> Result<PublicKey, DecodeError>
    ensures { IsReading (λ k. k) fault_of (key_of text.now) result }
{
    Ok(PublicKey::parse(alloc, text)?)
}

/// The algorithm and the key of an entry that begins a log.
pub(crate) fn read_init(
    alloc: Global,
    message: Init,
) -> Result<(HashAlgorithm, PublicKey), DecodeError>
    ensures { IsReading (λ p. (p.0, p.1)) fault_of (beginning_of (init_view message)) result }
{
    let Ok(algorithm) = HashAlgorithm::from_str(message.hash_algorithm.as_str()) else {
        return Err(DecodeError::Algorithm);
    };
    let key = read_key(alloc, message.key.as_str())?;
    Ok((algorithm, key))
}

/// The key and the permissions of an entry that gives them to it.
pub(crate) fn read_grant<P: LogPermission>(
    alloc: Global,
    message: GrantFlat,
) -> Result<(PublicKey, Vec<P>), DecodeError>
    ensures { IsReading (λ p. entry.GrantFlat p.0 p.1.items) fault_of
        (grant_of P.permission_of (grant_flat_view message)) result }
{
    let key = read_key(alloc, message.key.as_str())?;
    let permissions = read_permissions::<P>(alloc, message.permissions)?;
    Ok((key, permissions))
}

/// The key's id and the permissions of an entry that takes them from the key.
pub(crate) fn read_revoke<P: LogPermission>(
    alloc: Global,
    message: RevokeFlat,
) -> Result<(KeyID, Vec<P>), DecodeError>
    ensures { IsReading (λ p. entry.RevokeFlat p.0 p.1.items) fault_of
        (revoke_of P.permission_of (revoke_flat_view message)) result }
{
    let permissions = read_permissions::<P>(alloc, message.permissions)?;
    Ok((KeyID::from(message.key_id), permissions))
}
