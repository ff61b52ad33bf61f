//! What the commands say of operator logs.

ghost use Rattle.std.specs.Prelude.{◌≡◌, ◌++◌, string_bytes, IfOk, OnOk};
ghost use Rattle.warg_protocol.specs.Operator.{namespace_view};
ghost use Rattle.tool_answers.specs.ShownWords.{namespace_line, namespace_lines, namespace_words};

use crate::key_ids::key_ids;
use crate::kind::ToolLog;
use crate::wording::{EntryWords, push_key_lines, push_permissions, push_record, time_words};
use std::alloc::{AllocError, Global};
use warg_permissions::LogPermission;
use warg_printable::push_printed_line;
use warg_protocol::operator::{
    LogState, NamespaceState, Namespaces, OperatorEntry, OperatorRecord, Permission,
    ValidationError,
};
use warg_protocol::signing::KeyID;
use warg_protocol::{JsonError, JsonTextError, ProtoEnvelope};

impl EntryWords for OperatorEntry {
    ghost use Rattle.warg_protocol.specs.Operator.{entry_data};
    ghost use Rattle.tool_answers.specs.ShownWords.{operator_entry_words};

    ghost words_of = { λ entry. operator_entry_words (entry_data entry) };

    fn push_words(&self, text: &mut String) -> Result<(), AllocError> {
        match self {
            OperatorEntry::Init { key, .. } => write!(text, "init {key}"),
            OperatorEntry::GrantFlat { key, permissions } => {
                write!(text, "grant {key}")?;
                push_permissions(permissions.as_slice(), text)
            }
            OperatorEntry::RevokeFlat {
                key_id,
                permissions,
            } => {
                write!(text, "revoke {key_id}")?;
                push_permissions(permissions.as_slice(), text)
            }
            OperatorEntry::DefineNamespace { namespace } => write!(text, "define {namespace}"),
            OperatorEntry::ImportNamespace {
                namespace,
                registry,
            } => write!(text, "import {namespace} {registry}"),
        }
    }
}

// What is said of a namespace: its name and what it is.
fn namespace_words(alloc: Global, name: &str, state: &NamespaceState) -> Result<String, AllocError>
    ensures { IfOk result (λ said. string_bytes said ≡
        namespace_words name.now (namespace_view state.now)) }
{
    match state {
        NamespaceState::Defined => format!(in alloc; "namespace {name} defined"),
        NamespaceState::Imported { registry } => {
            format!(in alloc; "namespace {name} imported from {registry}")
        }
    }
}

// Appends the line of a namespace.
fn push_namespace_line(
    alloc: Global,
    name: &str,
    state: &NamespaceState,
    text: &mut String,
) -> Result<(), AllocError>
    ensures { OnOk result (string_bytes text.new ≡ string_bytes text.old ++
        namespace_line name.now (namespace_view state.now)) }
{
    let said = namespace_words(alloc, name, state)?;
    push_printed_line(said.as_str(), text)
}

// Appends a line for each namespace.
fn push_namespace_lines(
    alloc: Global,
    namespaces: Namespaces<'_>,
    text: &mut String,
) -> Result<(), AllocError>
    ensures { OnOk result (string_bytes text.new ≡ string_bytes text.old ++
        namespace_lines namespaces.entry) }
{
    for (name, state) in namespaces {
        push_namespace_line(alloc, name, state, text)?;
    }
    Ok(())
}

impl ToolLog for LogState {
    ghost use Rattle.std.proofs.Common.{ap, sym};
    ghost use Rattle.std.proofs.lemmas.Simd.{map-map};
    ghost use Rattle.std.specs.Prelude.{is_some, map};
    ghost use Rattle.warg_protocol.specs.Json.{in_text, text_of as written_text};
    ghost use Rattle.warg_protocol.specs.Operator.{entry_data, permission_text, record_data};
    ghost use Rattle.warg_protocol.specs.Operator.{state_in, state_json, view_of};
    ghost use Rattle.warg_operator_log.specs.ErrorTexts.{error_text};
    ghost use Rattle.tool_answers.specs.ShownWords.{operator_entry_words, says_operator_words};
    ghost use Rattle.tool_answers.specs.ShownWords.{shows_namespaces, words_at};
    ghost use Rattle.tool_answers.specs.Words.{in_operator_order, operator_order};

    ghost order = { operator_order };

    ghost text_of = { permission_text };

    ghost knows = { λ state key. (view_of state).state.authority.has_entry key };

    ghost has_key = { λ state id. is_some ((view_of state).state.authority.key id) };

    ghost json_of = { λ state. written_text (state_json state) };

    ghost state_of = { in_text state_in };

    ghost words_of = { λ it. record {
      time = it.timestamp;
      entries = map (λ entry. operator_entry_words (entry_data entry)) it.entries.items;
    } };

    ghost says_words = { says_operator_words };

    ghost sentence_of = { error_text };

    ghost shows = { shows_namespaces };

    ghost tool = { record {} };

    fn permissions(alloc: Global) -> Result<Vec<Permission>, AllocError> {
        Permission::all().to_vec(alloc)
    }

    fn permission_text(permission: Permission) -> &'static str {
        permission.as_text()
    }

    fn has_entry(&self, key_id: &KeyID) -> bool {
        self.key_permissions(key_id).is_some()
    }

    fn key_ids(&self, alloc: Global) -> Result<Vec<KeyID>, AllocError> {
        key_ids(alloc, self.keys())
    }

    fn json_text(&self, alloc: Global) -> Result<String, JsonError> {
        self.to_json(alloc)
    }

    fn of_json_text(alloc: Global, text: &str) -> Result<LogState, JsonTextError> {
        LogState::from_json(alloc, text)
    }

    fn error_sentence(alloc: Global, error: &ValidationError) -> Result<String, AllocError> {
        error.to_string(alloc)
    }

    fn time_text(alloc: Global, record: &OperatorRecord) -> Result<String, AllocError> {
        time_words(alloc, record.timestamp)
    }

    fn push_record(
        alloc: Global,
        envelope: &ProtoEnvelope<OperatorRecord>,
        text: &mut String,
    ) -> Result<(), AllocError> {
        push_record(alloc, envelope, text)
    }

    fn push_state(&self, alloc: Global, text: &mut String) -> Result<(), AllocError> {
        push_key_lines(alloc, self.keys(), text)?;
        push_namespace_lines(alloc, self.namespaces(), text)
    }

    ghost says_its_words = { λ it content e. (
      record_data it,
      e,
      ap (words_at it.timestamp) (sym (map-map operator_entry_words entry_data it.entries.items)),
    ) };

    ghost in_order = { in_operator_order };
}
