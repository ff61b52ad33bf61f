//! The words of operator logs.
mod answers;
mod errors;

use crate::scripts::operator::answers::answer;
use crate::scripts::operator::errors::{error, words};
use crate::scripts::people::{id, key, signed};
use crate::scripts::script::{ScriptLog, permissions_of};
use crate::scripts::script_draft::ScriptDraft;
use conformance_rows::RowError;
use std::alloc::Global;
use warg_protocol::hash::HashAlgorithm;
use warg_protocol::operator::{
    Head, LogState, OperatorEntry, OperatorRecord, Permission, ValidationError,
};
use warg_protocol::registry::RecordId;
use warg_protocol::{JsonError, JsonTextError, ProtoEnvelope};

// Reads `init alice`, `grant bob commit`, `revoke bob commit`, `define name` and `import name registry`.
fn entry(alloc: Global, verb: &str, subject: &str, rest: &str) -> Result<OperatorEntry, RowError> {
    match verb {
        "init" => Ok(OperatorEntry::Init {
            hash_algorithm: HashAlgorithm::Sha256,
            key: key(alloc, subject)?,
        }),
        "grant" => Ok(OperatorEntry::GrantFlat {
            key: key(alloc, subject)?,
            permissions: permissions_of(alloc, rest)?,
        }),
        "revoke" => Ok(OperatorEntry::RevokeFlat {
            key_id: id(alloc, subject)?,
            permissions: permissions_of(alloc, rest)?,
        }),
        "define" => Ok(OperatorEntry::DefineNamespace {
            namespace: String::from_str(alloc, subject)?,
        }),
        "import" => Ok(OperatorEntry::ImportNamespace {
            namespace: String::from_str(alloc, subject)?,
            registry: String::from_str(alloc, rest)?,
        }),
        _ => Err(RowError::new("a strange entry")),
    }
}

impl ScriptLog for LogState {
    type Entry = OperatorEntry;

    fn permission(name: &str) -> Result<Permission, RowError> {
        Ok(name.parse::<Permission>()?)
    }

    fn entry(
        alloc: Global,
        verb: &str,
        subject: &str,
        rest: &str,
    ) -> Result<OperatorEntry, RowError> {
        entry(alloc, verb, subject, rest)
    }

    fn signed(
        alloc: Global,
        prev: Option<RecordId>,
        draft: &ScriptDraft<'_>,
        entries: Vec<OperatorEntry>,
    ) -> Result<ProtoEnvelope<OperatorRecord>, RowError> {
        let record = OperatorRecord {
            prev,
            version: draft.version,
            timestamp: draft.timestamp()?,
            entries,
        };
        signed(alloc, draft.signer, record)
    }

    fn error(
        alloc: Global,
        case: &str,
        subject: &str,
        permission: &str,
    ) -> Result<ValidationError, RowError> {
        error(alloc, case, subject, permission)
    }

    fn last(&self) -> Option<&Head> {
        self.head().as_ref()
    }

    fn words(alloc: Global, error: &ValidationError) -> Result<String, RowError> {
        words(alloc, error)
    }

    fn next(
        &self,
        alloc: Global,
        draft: &ScriptDraft<'_>,
        entries: Vec<OperatorEntry>,
    ) -> Result<ProtoEnvelope<OperatorRecord>, RowError> {
        let record = self.next_record(draft.timestamp()?, entries);
        signed(alloc, draft.signer, record)
    }

    fn json(&self, alloc: Global) -> Result<String, JsonError> {
        self.to_json(alloc)
    }

    fn of_json(alloc: Global, json: &str) -> Result<LogState, JsonTextError> {
        LogState::from_json(alloc, json)
    }

    fn answer(&self, alloc: Global, look_up: &str, subject: &str) -> Result<String, RowError> {
        answer(alloc, self, look_up, subject)
    }
}
