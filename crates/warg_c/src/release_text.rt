//! A release as bytes.
ghost use Rattle.std.specs.Prelude.{◌≡◌, ◌++◌, IfOk, length, string_bytes};
ghost use Rattle.warg_package_log.specs.ReleaseMap.{release_view};
ghost use Rattle.warg_c.specs.ReleaseAnswers.{IsYank, Shows, state_text};

use std::alloc::{AllocError, Global};
use warg_package_log::{Release, ReleaseState};

/// A release. Its texts stand one behind the other: the version, the id of the record that released it, the id of the key that signed that
/// record, and then the content's digest; or, if it was yanked, the id of the key that signed the yank. Times are those of the records, in
/// seconds and nanoseconds since 1970; those of the yank are 0 where there is none.
#[repr(C)]
#[derive(Clone, Copy)]
pub struct ShownRelease {
    pub version_len: usize,
    pub record_id_len: usize,
    pub key_id_len: usize,
    /// The length of the digest's text, or of the id of the key that yanked.
    pub state_len: usize,
    pub seconds: i64,
    pub yanked_seconds: i64,
    pub nanos: u32,
    pub yanked_nanos: u32,
    /// 1 if the release was yanked, otherwise 0.
    pub is_yanked: u32,
}

// The digest of the content, or the id of the key that yanked.
fn state_text(alloc: Global, state: &ReleaseState) -> Result<String, AllocError>
    ensures { IfOk result (λ text. string_bytes text ≡ state_text state.now) }
{
    match state {
        ReleaseState::Released { content } => content.to_string(alloc),
        ReleaseState::Yanked { by, .. } => String::from_str(alloc, by.as_str()),
    }
}

// Four texts one behind the other.
fn join(
    alloc: Global,
    version: &[u8],
    record_id: &[u8],
    key_id: &[u8],
    state: &[u8],
) -> Result<Vec<u8>, AllocError>
    ensures { IfOk result (λ v. v.items ≡ ((version.now ++ record_id.now) ++ key_id.now) ++
        state.now) }
{
    let mut text = Vec::new(alloc);
    text.extend_from_slice(version)?;
    text.extend_from_slice(record_id)?;
    text.extend_from_slice(key_id)?;
    text.extend_from_slice(state)?;
    Ok(text)
}

// The lengths of a release's texts, before anything is said of a yank.
fn shape(
    release: &Release,
    version_len: usize,
    record_id_len: usize,
    state_len: usize,
) -> ShownRelease
    ensures lengths { (result.version_len ≡ version_len) × (result.record_id_len ≡ record_id_len) ×
        (result.state_len ≡ state_len) }
    ensures key_id { result.key_id_len ≡ length release.now.by }
    ensures times { (result.seconds ≡ release.now.timestamp.seconds) ×
        (result.nanos ≡ release.now.timestamp.nanos) }
    ensures yank { IsYank release.now.state result }
{
    let (is_yanked, yanked_seconds, yanked_nanos) = match &release.state {
        ReleaseState::Released { .. } => (0, 0, 0),
        ReleaseState::Yanked { timestamp, .. } => (1, timestamp.seconds(), timestamp.nanos()),
    };
    ShownRelease {
        version_len,
        record_id_len,
        key_id_len: release.by.as_str().as_bytes().len(),
        state_len,
        seconds: release.timestamp.seconds(),
        yanked_seconds,
        nanos: release.timestamp.nanos(),
        yanked_nanos,
        is_yanked,
    }
}

/// A release as bytes: its version, its record's id, its key's id, and its content's digest or the id of the key that
/// yanked it.
pub(crate) fn spell_release(
    alloc: Global,
    release: &Release,
) -> Result<(Vec<u8>, ShownRelease), AllocError>
    ensures { IfOk result (λ p. Shows (release_view release.now) p.1 p.0.items) }
{
    let version = release.version.to_string(alloc)?;
    let record_id = release.record_id.to_string(alloc)?;
    let state = state_text(alloc, &release.state)?;
    let (version, record_id) = (version.as_bytes(), record_id.as_bytes());
    let (key_id, state) = (release.by.as_str().as_bytes(), state.as_bytes());
    let text = join(alloc, version, record_id, key_id, state)?;
    let shown = shape(release, version.len(), record_id.len(), state.len());
    Ok((text, shown))
}
