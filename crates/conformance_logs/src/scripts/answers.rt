//! What logs of both kinds answer, in words.
use crate::scripts::checking::check;
use crate::scripts::people::owner;
use conformance_rows::RowError;
use std::alloc::Global;
use std::fmt::Display;
use warg_permissions::LogPermission;
use warg_protocol::package::{Head, KeyEntry};
use warg_protocol::signing::PublicKey;
use warg_protocol::{IndexSet, Timestamp};

/// A value's text.
pub fn shown<T: Display>(alloc: Global, value: &T) -> Result<String, RowError> {
    Ok(value.to_string(alloc)?)
}

/// The answer where there is nothing.
pub fn none(alloc: Global) -> Result<String, RowError> {
    Ok(String::from_str(alloc, "none")?)
}

/// A value's text, or `none`.
pub fn text_of<T: Display>(alloc: Global, value: Option<&T>) -> Result<String, RowError> {
    match value {
        Some(value) => shown(alloc, value),
        None => none(alloc),
    }
}

/// The answer to `head time`, `head version` or `head digest`.
pub fn head(alloc: Global, head: &Option<Head>, subject: &str) -> Result<String, RowError> {
    match head {
        Some(head) if subject == "time" => time(alloc, head.timestamp),
        Some(head) if subject == "version" => shown(alloc, &head.version),
        Some(head) => shown(alloc, &head.digest),
        None => none(alloc),
    }
}

/// A time's seconds and nanos.
pub fn time(alloc: Global, time: Timestamp) -> Result<String, RowError> {
    let (seconds, nanos) = (time.seconds(), time.nanos());
    Ok(format!(in alloc; "{seconds}.{nanos}")?)
}

/// The answer to `permissions PERSON`.
pub fn permissions<P: LogPermission + Display>(
    alloc: Global,
    permissions: Option<&IndexSet<P>>,
) -> Result<String, RowError> {
    let Some(permissions) = permissions else {
        return none(alloc);
    };
    let mut text = String::from_str(alloc, "only")?;
    for permission in permissions.iter() {
        write!(text, " {permission}")?;
    }
    Ok(text)
}

/// A listed key's owner and what the key may do, where the state says the same of its id.
pub fn key_entry<P: LogPermission + Display>(
    alloc: Global,
    entry: KeyEntry<'_, P>,
    key: Option<&PublicKey>,
    permissions: Option<&IndexSet<P>>,
) -> Result<String, RowError> {
    check(key == Some(entry.key), "another key is listed")?;
    check(
        permissions == entry.permissions,
        "other permissions are listed",
    )?;
    match permissions {
        Some(permissions) => owner_with(alloc, owner(entry.id), permissions),
        None => Ok(String::from_str(alloc, owner(entry.id))?),
    }
}

// An owner, and what the owner's key may do.
fn owner_with<P: LogPermission + Display>(
    alloc: Global,
    owner: &str,
    permissions: &IndexSet<P>,
) -> Result<String, RowError> {
    let mut text = String::from_str(alloc, owner)?;
    for permission in permissions.iter() {
        write!(text, "+{permission}")?;
    }
    Ok(text)
}
