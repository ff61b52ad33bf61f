//! The words of package logs.
mod answers;
mod errors;

use crate::scripts::package::answers::answer;
use crate::scripts::package::errors::{error, words};
use crate::scripts::people::{id, key, signed};
use crate::scripts::script::{ScriptLog, permissions_of};
use crate::scripts::script_draft::ScriptDraft;
use conformance_rows::{RowError, Words};
use std::alloc::Global;
use warg_protocol::hash::HashAlgorithm;
use warg_protocol::package::{
    Head, LogState, PackageEntry, PackageRecord, Permission, ValidationError,
};
use warg_protocol::registry::RecordId;
use warg_protocol::{JsonError, JsonTextError, ProtoEnvelope, Version};

fn content(alloc: Global, text: &str) -> Result<String, RowError> {
    Words::new(text).rest_text(alloc)
}

// Reads `init alice`, `grant bob release yank`, `revoke bob yank`, `release 1.0.0 content` and `yank 1.0.0`.
// A content, which may be a JSON string, is hashed; without one it is empty.
fn entry(alloc: Global, verb: &str, subject: &str, rest: &str) -> Result<PackageEntry, RowError> {
    match verb {
        "init" => Ok(PackageEntry::Init {
            hash_algorithm: HashAlgorithm::Sha256,
            key: key(alloc, subject)?,
        }),
        "grant" => Ok(PackageEntry::GrantFlat {
            key: key(alloc, subject)?,
            permissions: permissions_of(alloc, rest)?,
        }),
        "revoke" => Ok(PackageEntry::RevokeFlat {
            key_id: id(alloc, subject)?,
            permissions: permissions_of(alloc, rest)?,
        }),
        "release" => Ok(PackageEntry::Release {
            version: Version::parse(alloc, subject)?,
            content: HashAlgorithm::Sha256.digest(content(alloc, rest)?.as_bytes()),
        }),
        "yank" => Ok(PackageEntry::Yank {
            version: Version::parse(alloc, subject)?,
        }),
        _ => Err(RowError::new("a strange entry")),
    }
}

impl ScriptLog for LogState {
    type Entry = PackageEntry;

    fn permission(name: &str) -> Result<Permission, RowError> {
        Ok(name.parse::<Permission>()?)
    }

    fn entry(
        alloc: Global,
        verb: &str,
        subject: &str,
        rest: &str,
    ) -> Result<PackageEntry, RowError> {
        entry(alloc, verb, subject, rest)
    }

    fn signed(
        alloc: Global,
        prev: Option<RecordId>,
        draft: &ScriptDraft<'_>,
        entries: Vec<PackageEntry>,
    ) -> Result<ProtoEnvelope<PackageRecord>, RowError> {
        let record = PackageRecord {
            prev,
            version: draft.version,
            timestamp: draft.timestamp()?,
            entries,
        };
        signed(alloc, draft.signer, record)
    }

    fn error(
        alloc: Global,
        case: &str,
        subject: &str,
        permission: &str,
    ) -> Result<ValidationError, RowError> {
        error(alloc, case, subject, permission)
    }

    fn last(&self) -> Option<&Head> {
        self.head().as_ref()
    }

    fn words(alloc: Global, error: &ValidationError) -> Result<String, RowError> {
        words(alloc, error)
    }

    fn next(
        &self,
        alloc: Global,
        draft: &ScriptDraft<'_>,
        entries: Vec<PackageEntry>,
    ) -> Result<ProtoEnvelope<PackageRecord>, RowError> {
        let record = self.next_record(draft.timestamp()?, entries);
        signed(alloc, draft.signer, record)
    }

    fn json(&self, alloc: Global) -> Result<String, JsonError> {
        self.to_json(alloc)
    }

    fn of_json(alloc: Global, json: &str) -> Result<LogState, JsonTextError> {
        LogState::from_json(alloc, json)
    }

    fn answer(&self, alloc: Global, look_up: &str, subject: &str) -> Result<String, RowError> {
        answer(alloc, self, look_up, subject)
    }
}
