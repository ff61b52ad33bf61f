//! A release as a value of a map of a saved state.
ghost use Rattle.std.specs.Prelude.{◌≡◌, ℕ, List, [], ◌∷◌, Ok, Err, OnOk, IfErr};
ghost use Rattle.warg_crypto.specs.Json.Json.{IsReadBack};
ghost use Rattle.warg_crypto.specs.Json.JsonTexts.{hash_in, hash_json};
ghost use Rattle.warg_crypto.specs.Time.TimeJson.{time_in, time_json};
ghost use Rattle.warg_crypto.specs.Time.TimeText.{time_text};
ghost use Rattle.warg_package_log.specs.ReleaseMap.{release_view};
ghost use Rattle.warg_package_log.specs.ReleaseJson.{release_in, release_json, release_state_json};
ghost use Rattle.warg_package_log.specs.CanonicalReleases.{release_canonical};
ghost use Rattle.warg_package_log.specs.Releases.{ReleaseView};
ghost use Rattle.warg_package_log.specs.declared.release.ReleaseState.TheVariants.{Released, Yanked};
ghost use Rattle.warg_saved_states.specs.Next.{ReadsNext};
ghost use Rattle.warg_saved_states.specs.Writes.{WritesText};

use crate::release::{Release, ReleaseState};
use serde_json::Value;
use std::alloc::Global;
use warg_crypto::hash::AnyHash;
use warg_crypto::json::{JsonError, JsonValue};
use warg_crypto::signing::KeyID;
use warg_crypto::time::Timestamp;
use warg_saved_states::{ReadFault, Reader, SavedValue, Writer, read_value, unless_no_memory};

/// Refuses a time before the epoch.
fn check_time(time: &Timestamp) -> Result<(), JsonError>
    ensures ok { OnOk result ((text : List ℕ) × (time_text time.now ≡ Ok text)) }
    ensures back { OnOk result (IsReadBack time_json time_in (λ a b. a ≡ b) time.now) }
    ensures err { IfErr result (λ e. time_text time.now ≡ Err e) }
{
    let _nanos = time.nanos();
    let seconds = time.seconds();
    if seconds.is_negative() {
        return Err(JsonError::TimeBeforeEpoch);
    }
    Ok(())
}

/// A hash is written as a text that reads back. This does nothing.
fn hash_reads_back(hash: &AnyHash)
    ensures { IsReadBack hash_json hash_in (λ a b. a ≡ b) hash.now }
{
    let _bytes = hash.bytes();
}

/// Writes the state of a release that stands.
fn write_released(content: &AnyHash, out: &mut Writer) -> Result<(), JsonError>
    ensures { WritesText result out.old out.new (release_state_json (Released content.now)) }
{
    let mut buffer = [0u8; 71];
    out.begin_object()?;
    out.key("content")?;
    out.string(content.write_text(&mut buffer))?;
    out.key("status")?;
    out.string("released")?;
    out.end_object()?;
    Ok(())
}

/// Writes the state of a release that was yanked.
fn write_yanked(
    alloc: Global,
    by: &KeyID,
    timestamp: &Timestamp,
    out: &mut Writer,
) -> Result<(), JsonError>
    ensures { WritesText result out.old out.new (release_state_json (Yanked by.now timestamp.now)) }
{
    let time = timestamp.to_text(alloc)?;
    out.begin_object()?;
    out.key("by")?;
    out.string(by.as_str())?;
    out.key("status")?;
    out.string("yanked")?;
    out.key("timestamp")?;
    out.string(time.as_str())?;
    out.end_object()?;
    Ok(())
}

/// Writes what became of a release.
fn write_state(alloc: Global, state: &ReleaseState, out: &mut Writer) -> Result<(), JsonError>
    ensures { WritesText result out.old out.new (release_state_json state.now) }
{
    match state {
        ReleaseState::Released { content } => write_released(content, out),
        ReleaseState::Yanked { by, timestamp } => write_yanked(alloc, by, timestamp, out),
    }
}

/// Writes a release: its members in the order of their names.
fn write_release(alloc: Global, release: &Release, out: &mut Writer) -> Result<(), JsonError>
    ensures { WritesText result out.old out.new (release_json (release_view release.now)) }
{
    let time = release.timestamp.to_text(alloc)?;
    let version = release.version.to_string(alloc)?;
    let mut buffer = [0u8; 71];
    out.begin_object()?;
    out.key("by")?;
    out.string(release.by.as_str())?;
    out.key("recordId")?;
    out.string(AnyHash::from(release.record_id).write_text(&mut buffer))?;
    out.key("state")?;
    write_state(alloc, &release.state, out)?;
    out.key("timestamp")?;
    out.string(time.as_str())?;
    out.key("version")?;
    out.string(version.as_str())?;
    out.end_object()?;
    Ok(())
}

/// The release of the JSON that comes next, of which the members of these names are asked for.
fn next_release(
    alloc: Global,
    reader: &mut Reader<'_>,
    depth: usize,
) -> Result<Result<Release, JsonError>, ReadFault>
    ensures { ReadsNext release_view release_in depth result reader.old reader.new }
{
    let asked = [
        "recordId",
        "version",
        "by",
        "timestamp",
        "state",
        "status",
        "content",
    ];
    match read_value(alloc, reader, depth, &asked, 2) {
        Ok(json) => unless_no_memory(Release::from_value(alloc, &json)),
        Err(fault) => Err(fault),
    }
}

impl SavedValue for Release {
    ghost Plain = { ReleaseView };

    ghost plain = { release_view };

    ghost writes = { release_json };

    ghost reads = { release_in };

    ghost versions = { λ r. r.version ∷ [] };

    ghost canonical = { release_canonical };

    fn can_save(&self) -> Result<(), JsonError> {
        hash_reads_back(&AnyHash::from(self.record_id));
        check_time(&self.timestamp)?;
        match &self.state {
            ReleaseState::Released { content } => {
                hash_reads_back(content);
                Ok(())
            }
            ReleaseState::Yanked { timestamp, .. } => check_time(timestamp),
        }
    }

    fn save(&self, alloc: Global) -> Result<Value, JsonError> {
        self.to_value(alloc)
    }

    fn write(&self, alloc: Global, out: &mut Writer) -> Result<(), JsonError> {
        write_release(alloc, self, out)
    }

    fn load(alloc: Global, value: &Value) -> Result<Release, JsonError> {
        Release::from_value(alloc, value)
    }

    fn read_next(
        alloc: Global,
        reader: &mut Reader<'_>,
        depth: usize,
    ) -> Result<Result<Release, JsonError>, ReadFault> {
        next_release(alloc, reader, depth)
    }
}
