//! What operator logs answer, in words.
use crate::scripts::answers::{head, key_entry, permissions, text_of};
use crate::scripts::checking::check;
use crate::scripts::people::id;
use conformance_rows::RowError;
use std::alloc::Global;
use warg_protocol::operator::{LogState, NamespaceState};

/// The answer to a look-up.
pub fn answer(
    alloc: Global,
    state: &LogState,
    look_up: &str,
    subject: &str,
) -> Result<String, RowError> {
    match look_up {
        "head" => head(alloc, state.head(), subject),
        "key" => text_of(alloc, state.public_key(&id(alloc, subject)?)),
        "permissions" => permissions(alloc, state.key_permissions(&id(alloc, subject)?)),
        "keys" => keys(alloc, state),
        "signs" => signs(alloc, state, subject),
        "namespaces" => namespaces(alloc, state),
        "namespace" => namespace(alloc, state, subject),
        _ => Err(RowError::new("a strange look-up")),
    }
}

fn signs(alloc: Global, state: &LogState, name: &str) -> Result<String, RowError> {
    let signs = state.key_has_permission_to_sign_checkpoints(&id(alloc, name)?);
    Ok(signs.to_string(alloc)?)
}

// The keys of the log, each its owner and what it may do.
fn keys(alloc: Global, state: &LogState) -> Result<String, RowError> {
    let mut text = String::from_str(alloc, "only")?;
    for entry in state.keys() {
        let (key, permissions) = (state.public_key(entry.id), state.key_permissions(entry.id));
        let told = key_entry(alloc, entry, key, permissions)?;
        write!(text, " {told}")?;
    }
    Ok(text)
}

// The namespaces of the log and what they are.
fn namespaces(alloc: Global, state: &LogState) -> Result<String, RowError> {
    let mut text = String::from_str(alloc, "only")?;
    for (name, namespace) in state.namespaces() {
        check(
            state.namespace_state(name) == Some(namespace),
            "another namespace is listed",
        )?;
        let told = told(alloc, Some(namespace))?;
        write!(text, " {name} {told}")?;
    }
    Ok(text)
}

fn namespace(alloc: Global, state: &LogState, name: &str) -> Result<String, RowError> {
    told(alloc, state.namespace_state(name))
}

// What a namespace is, in words.
fn told(alloc: Global, namespace: Option<&NamespaceState>) -> Result<String, RowError> {
    Ok(match namespace {
        Some(NamespaceState::Defined) => String::from_str(alloc, "defined")?,
        Some(NamespaceState::Imported { registry }) => {
            format!(in alloc; "imported from {registry}")?
        }
        None => String::from_str(alloc, "none")?,
    })
}
