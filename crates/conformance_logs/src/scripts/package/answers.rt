//! What package logs answer, in words.
use crate::scripts::answers::{head, key_entry, none, permissions, shown, text_of, time};
use crate::scripts::people::{id, owner};
use conformance_rows::RowError;
use std::alloc::Global;
use warg_protocol::package::{LogState, Release, ReleaseState};
use warg_protocol::signing::KeyID;
use warg_protocol::{Timestamp, Version, VersionReq};

/// The answer to a look-up.
pub fn answer(
    alloc: Global,
    state: &LogState,
    look_up: &str,
    subject: &str,
) -> Result<String, RowError> {
    match look_up {
        "head" => head(alloc, state.head(), subject),
        "key" => text_of(alloc, state.public_key(&id(alloc, subject)?)),
        "permissions" => permissions(alloc, state.key_permissions(&id(alloc, subject)?)),
        "keys" => keys(alloc, state),
        "releases" => releases(alloc, state),
        "latest" => latest(alloc, state, subject),
        _ => of_version(alloc, state, look_up, subject),
    }
}

fn latest(alloc: Global, state: &LogState, wanted: &str) -> Result<String, RowError> {
    let wanted = VersionReq::parse(alloc, wanted)?;
    match state.find_latest_release(&wanted) {
        Some(release) => shown(alloc, &release.version),
        None => none(alloc),
    }
}

// The keys of the log, each its owner and what it may do.
fn keys(alloc: Global, state: &LogState) -> Result<String, RowError> {
    let mut text = String::from_str(alloc, "only")?;
    for entry in state.keys() {
        let (key, permissions) = (state.public_key(entry.id), state.key_permissions(entry.id));
        let told = key_entry(alloc, entry, key, permissions)?;
        write!(text, " {told}")?;
    }
    Ok(text)
}

fn releases(alloc: Global, state: &LogState) -> Result<String, RowError> {
    let mut text = String::from_str(alloc, "only")?;
    for release in state.releases() {
        let version = &release.version;
        write!(text, " {version}")?;
    }
    Ok(text)
}

// `release`, `content` or `record` of a version.
fn of_version(
    alloc: Global,
    state: &LogState,
    look_up: &str,
    version: &str,
) -> Result<String, RowError> {
    let version = Version::parse(alloc, version)?;
    match state.release(&version) {
        Some(release) => of_release(alloc, release, look_up),
        None => none(alloc),
    }
}

fn of_release(alloc: Global, release: &Release, look_up: &str) -> Result<String, RowError> {
    match look_up {
        "record" => shown(alloc, &release.record_id),
        "content" => text_of(alloc, release.content()),
        _ => told(alloc, release),
    }
}

fn told(alloc: Global, release: &Release) -> Result<String, RowError> {
    let released = deed(alloc, &release.by, release.timestamp)?;
    match &release.state {
        ReleaseState::Released { .. } => Ok(released),
        ReleaseState::Yanked { by, timestamp } => {
            let yanked = deed(alloc, by, *timestamp)?;
            Ok(format!(in alloc; "{released}, yanked {yanked}")?)
        }
    }
}

// Whose it is, and when it was done.
fn deed(alloc: Global, key_id: &KeyID, timestamp: Timestamp) -> Result<String, RowError> {
    let by = owner(key_id);
    let at = time(alloc, timestamp)?;
    Ok(format!(in alloc; "by {by} at {at}")?)
}
