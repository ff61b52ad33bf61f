//! What the commands say of package logs.

ghost use Rattle.std.specs.Prelude.{◌≡◌, string_bytes, IfOk, OnOk};
ghost use Rattle.semver.specs.Identifiers.{parts_of, parts_text};
ghost use Rattle.warg_protocol.specs.Package.{release_view};
ghost use Rattle.tool_answers.specs.ShownWords.{AreReleaseLines, IsGrownBy, IsReleaseLine, IsStandingLine};
ghost use Rattle.tool_answers.specs.ShownWords.{released_line, yanked_line};

use crate::key_ids::key_ids;
use crate::kind::ToolLog;
use crate::wording::{EntryWords, push_key_lines, push_permissions, push_record, time_words};
use std::alloc::{AllocError, Global};
use warg_permissions::LogPermission;
use warg_printable::printed_line;
use warg_protocol::hash::AnyHash;
use warg_protocol::package::{
    LogState, PackageEntry, PackageRecord, Permission, Release, ReleaseState, Releases,
    ValidationError,
};
use warg_protocol::signing::KeyID;
use warg_protocol::{JsonError, JsonTextError, ProtoEnvelope, Version};

impl EntryWords for PackageEntry {
    ghost use Rattle.warg_protocol.specs.Package.{entry_data};
    ghost use Rattle.tool_answers.specs.ShownWords.{package_entry_words};

    ghost words_of = { λ entry. package_entry_words (entry_data entry) };

    fn push_words(&self, text: &mut String) -> Result<(), AllocError> {
        match self {
            PackageEntry::Init { key, .. } => write!(text, "init {key}"),
            PackageEntry::GrantFlat { key, permissions } => {
                write!(text, "grant {key}")?;
                push_permissions(permissions.as_slice(), text)
            }
            PackageEntry::RevokeFlat {
                key_id,
                permissions,
            } => {
                write!(text, "revoke {key_id}")?;
                push_permissions(permissions.as_slice(), text)
            }
            PackageEntry::Release { version, content } => {
                write!(text, "release {version} {content}")
            }
            PackageEntry::Yank { version } => write!(text, "yank {version}"),
        }
    }
}

// The line of a release that stands.
fn released_line(alloc: Global, version: &Version, content: &AnyHash) -> Result<String, AllocError>
    ensures { IfOk result (λ line. string_bytes line ≡
        released_line (parts_text (parts_of version.now)) content.now) }
{
    let said = format!(in alloc; "release {version} {content}")?;
    printed_line(alloc, said.as_str())
}

// The line of a release that was yanked, by the words of the time.
fn yanked_line(
    alloc: Global,
    version: &Version,
    by: &KeyID,
    time: &str,
) -> Result<String, AllocError>
    ensures { IfOk result (λ line. string_bytes line ≡
        yanked_line (parts_text (parts_of version.now)) by.now time.now) }
{
    let said = format!(in alloc; "release {version} yanked by {by} at {time}")?;
    printed_line(alloc, said.as_str())
}

// The line of a release that stands, or was yanked.
fn standing_line(
    alloc: Global,
    version: &Version,
    state: &ReleaseState,
) -> Result<String, AllocError>
    ensures { IfOk result (λ line. IsStandingLine (parts_text (parts_of version.now))
        state.now (string_bytes line)) }
{
    match state {
        ReleaseState::Released { content } => released_line(alloc, version, content),
        ReleaseState::Yanked { by, timestamp } => {
            let time = time_words(alloc, *timestamp)?;
            yanked_line(alloc, version, by, time.as_str())
        }
    }
}

// The line of a release: its version, and its content's digest or who yanked it and when.
fn release_line(alloc: Global, release: &Release) -> Result<String, AllocError>
    ensures { IfOk result (λ line. IsReleaseLine (release_view release.now) (string_bytes line)) }
{
    standing_line(alloc, &release.version, &release.state)
}

// Appends a line for each release.
fn push_release_lines(
    alloc: Global,
    releases: Releases<'_>,
    text: &mut String,
) -> Result<(), AllocError>
    ensures { OnOk result (IsGrownBy (AreReleaseLines releases.entry)
        (string_bytes text.old) (string_bytes text.new)) }
{
    for release in releases {
        let line = release_line(alloc, release)?;
        text.push_str(line.as_str())?;
    }
    Ok(())
}

impl ToolLog for LogState {
    ghost use Rattle.std.proofs.Common.{ap, sym};
    ghost use Rattle.std.proofs.lemmas.Simd.{map-map};
    ghost use Rattle.std.specs.Prelude.{is_some, map};
    ghost use Rattle.warg_protocol.specs.Json.{in_text, text_of as written_text};
    ghost use Rattle.warg_protocol.specs.Package.{entry_data, permission_text, record_data};
    ghost use Rattle.warg_protocol.specs.Package.{state_in, state_json, view_of};
    ghost use Rattle.warg_package_log.specs.ErrorTexts.{error_text};
    ghost use Rattle.tool_answers.specs.ShownWords.{package_entry_words, says_package_words, shows_releases, words_at};
    ghost use Rattle.tool_answers.specs.Words.{in_package_order, package_order};

    ghost order = { package_order };

    ghost text_of = { permission_text };

    ghost knows = { λ state key. (view_of state).state.authority.has_entry key };

    ghost has_key = { λ state id. is_some ((view_of state).state.authority.key id) };

    ghost json_of = { λ state. written_text (state_json state) };

    ghost state_of = { in_text state_in };

    ghost words_of = { λ it. record {
      time = it.timestamp;
      entries = map (λ entry. package_entry_words (entry_data entry)) it.entries.items;
    } };

    ghost says_words = { says_package_words };

    ghost sentence_of = { error_text };

    ghost shows = { shows_releases };

    ghost tool = { record {} };

    fn permissions(alloc: Global) -> Result<Vec<Permission>, AllocError> {
        Permission::all().to_vec(alloc)
    }

    fn permission_text(permission: Permission) -> &'static str {
        permission.as_text()
    }

    fn has_entry(&self, key_id: &KeyID) -> bool {
        self.key_permissions(key_id).is_some()
    }

    fn key_ids(&self, alloc: Global) -> Result<Vec<KeyID>, AllocError> {
        key_ids(alloc, self.keys())
    }

    fn json_text(&self, alloc: Global) -> Result<String, JsonError> {
        self.to_json(alloc)
    }

    fn of_json_text(alloc: Global, text: &str) -> Result<LogState, JsonTextError> {
        LogState::from_json(alloc, text)
    }

    fn error_sentence(alloc: Global, error: &ValidationError) -> Result<String, AllocError> {
        error.to_string(alloc)
    }

    fn time_text(alloc: Global, record: &PackageRecord) -> Result<String, AllocError> {
        time_words(alloc, record.timestamp)
    }

    fn push_record(
        alloc: Global,
        envelope: &ProtoEnvelope<PackageRecord>,
        text: &mut String,
    ) -> Result<(), AllocError> {
        push_record(alloc, envelope, text)
    }

    fn push_state(&self, alloc: Global, text: &mut String) -> Result<(), AllocError> {
        push_key_lines(alloc, self.keys(), text)?;
        push_release_lines(alloc, self.releases(), text)
    }

    ghost says_its_words = { λ it content e. (
      record_data it,
      e,
      ap (words_at it.timestamp) (sym (map-map package_entry_words entry_data it.entries.items)),
    ) };

    ghost in_order = { in_package_order };
}
