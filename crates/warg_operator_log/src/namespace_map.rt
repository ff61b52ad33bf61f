//! The namespaces of a log, by name.
ghost use Rattle.std.specs.Prelude.{◌≡◌, ◌≤◌, [], ◌∷◌, ◌++◌, ℕ, length, List, IfOk, OnOk, OnErr, OnSome, None, Some, if◌then◌else◌, string_bytes, refl, true, is_none, IsTrue};
ghost use Rattle.std.specs.List.{IsDistinct};
ghost use Rattle.std.specs.Map.{keys_of};
ghost use Rattle.std.specs.Str.{bytes_eq};
ghost use Rattle.std.specs.Option.{option_copied, option_map};
ghost use Rattle.std.specs.Cmp.{partial_equiv_from_equiv};
ghost use Rattle.indexmap.specs.IndexMap.{get_by_text};
ghost use Rattle.warg_registry.specs.KebabNames.{IsKebabName, is_kebab_name};
ghost use Rattle.warg_log_records.specs.OperatorEntries.{OperatorOwnEntry, entry_data, record_data};
ghost use Rattle.warg_log_records.specs.OutcomeOffences.{ReturnsOffence};
ghost use Rattle.warg_log.specs.Offences as shared;
ghost use Rattle.warg_log.specs.Rules.{LogOffence};
ghost use Rattle.warg_operator_log.specs.Namespaces.{OwnOffence, Names, Namespace, names, names_over, name_offence, rules, names-none, names-append, equivalent_names_offence, equivalent_names_after};
ghost use Rattle.warg_operator_log.specs.NamespaceMap.{namespace_view, HasKebabNames};
ghost use Rattle.warg_operator_log.specs.SameNamespaces.{same_namespaces};
ghost use Rattle.warg_operator_log.specs.SameNamespaceLaws.{namespaces_decide, namespaces_equiv};
ghost use Rattle.warg_operator_log.specs.State.{offence_of};

mod saved;

use crate::error::ValidationError;
use crate::namespace::NamespaceState;
use crate::namespaces::Namespaces;
use std::alloc::{AllocError, Global};
use std::marker::Model;
use warg_crypto::hash::Sha256;
use warg_crypto::time::Timestamp;
use warg_envelope::ProtoEnvelope;
use warg_log::{EntryRef, LogError, Origin, OwnState, RecordRef};
use warg_log_records::RecordId;
use warg_log_records::operator::{OperatorEntry, OperatorRecord, Permission};
use warg_maps::NameMap;
use warg_permissions::key_maps::put_all;
use warg_registry::PackageName;

/// The namespaces of a log, by name.
#[derive(Debug, Drop)]
pub struct NamespaceMap {
    map: NameMap<String, NamespaceState>,
}

impl Model for NamespaceMap {
    ghost use Rattle.std.specs.Prelude.{List, ℕ};
    ghost use Rattle.warg_operator_log.specs.Namespaces.{Namespace};
    ghost use Rattle.warg_operator_log.specs.NamespaceMap.{namespace_entries, HasKebabNames};

    ghost Value = { List (List ℕ × Namespace) };

    ghost view = { λ a. namespace_entries a.map.entries };

    ghost invariant = { λ a. HasKebabNames (namespace_entries a.map.entries) };
}

/// Whether the entry defines or imports a namespace.
fn adds(entry: &OperatorEntry) -> bool {
    matches!(
        entry,
        OperatorEntry::DefineNamespace { .. } | OperatorEntry::ImportNamespace { .. }
    )
}

/// How many namespaces the last entries of a record add at most.
fn most_added(entries: &[OperatorEntry]) -> usize
    ensures { result ≤ length entries.now }
{
    entries.iter().rev().take_while(|entry| adds(entry)).count()
}

/// The namespace of the name. An empty map is not searched: no hash is made of the name.
fn find<'a>(map: &'a NameMap<String, NamespaceState>, name: &str) -> Option<&'a NamespaceState>
    ensures { option_copied result ≡ get_by_text map.now name.now }
{
    if map.is_empty() {
        return None;
    }
    map.get(name)
}

impl NamespaceMap {
    /// What the namespace of this name is.
    pub fn get(&self, name: &str) -> Option<&NamespaceState>
        ensures value { option_map namespace_view (option_copied result) ≡ names self.now name.now }
        ensures kebab { OnSome result (IsKebabName name.now) }
    {
        find(&self.map, name)
    }

    /// The namespaces, in the order in which they came.
    pub fn namespaces(&self) -> Namespaces<'_>
        ensures list { result ≡ self.now }
        ensures distinct { IsDistinct bytes_eq (keys_of self.now) }
        ensures kebabs { HasKebabNames self.now }
    {
        Namespaces {
            inner: self.map.iter(),
        }
    }

    /// Puts a namespace in the place of the one of its name, or last. The answer is whether its name is new.
    fn put(&mut self, name: String, state: NamespaceState) -> Result<bool, AllocError>
        requires kebab { is_kebab_name (string_bytes name) ≡ true }
        ensures new { IfOk result (λ new. new ≡ is_none (names self.old (string_bytes name))) }
        ensures added { IfOk result (λ new. IsTrue new → self.new ≡ self.old
            ++ (string_bytes name, namespace_view state) ∷ []) }
    {
        let before = self.map.insert(name, state)?;
        Ok(before.is_none())
    }

    /// Adds the namespaces of the changes, or none.
    fn add_all(&mut self, changes: NamespaceMap) -> Result<(), AllocError>
        ensures added { OnOk result ((k : List ℕ) → names self.new k ≡
            names_over self.old changes k) }
        ensures unchanged { OnErr result (self.new ≡ self.old) }
    {
        let NamespaceMap { map } = changes;
        put_all(&mut self.map, map)?;
        Ok(())
    }

    fn define(
        &self,
        changes: &mut NamespaceMap,
        name: &String,
        state: NamespaceState,
    ) -> Result<(), ValidationError>
        ensures judges { ReturnsOffence offence_of (option_map LogOffence.Own
            (name_offence (names_over self.now changes.old) (string_bytes name.now))) result }
        ensures after { OnOk result ((k : List ℕ) → names_over self.now changes.new k
            ≡ (if bytes_eq (string_bytes name.now) k then Some
            (namespace_view state) else names_over self.now changes.old k)) }
    {
        if !PackageName::is_valid_namespace(name.as_str()) {
            return Err(ValidationError::InvalidNamespace {
                namespace: name.clone()?,
            });
        }
        // Behind an error the changes count for nothing, also where a namespace among them was replaced.
        if self.get(name.as_str()).is_some() || !changes.put(name.clone()?, state)? {
            return Err(ValidationError::NamespaceAlreadyDefined {
                namespace: name.clone()?,
            });
        }
        Ok(())
    }
}

impl OwnState for NamespaceMap {
    ghost use Rattle.std.proofs.Common as common;
    ghost use Rattle.warg_operator_log.specs.ErrorLaws as errors;

    type Permission = Permission;

    type Record = OperatorRecord;

    type Entry = OperatorEntry;

    type Error = ValidationError;

    type Change = NamespaceMap;

    ghost Own = { OperatorOwnEntry };

    ghost View = { Names };

    ghost Offence = { OwnOffence };

    ghost rules = { rules };

    ghost view = { names };

    ghost view_with_change = { names_over };

    ghost equivalent = { λ v w. v ≡ w };

    ghost record_data = { record_data };

    ghost entry_data = { entry_data };

    ghost offence_named_by = { offence_of };

    ghost signs_under = { refl };

    ghost one_out_of_memory = { errors.one_out_of_memory };

    ghost equal_errors = { Prim.search common.rules };

    ghost after_none = { names-none };

    ghost after_append = { names-append };

    ghost equals = { namespaces_decide };

    ghost equivalent_self = { λ v. refl };

    ghost equivalent_offence = { equivalent_names_offence };

    ghost equivalent_after = { equivalent_names_after };

    fn new(alloc: Global) -> NamespaceMap {
        empty(alloc)
    }

    fn try_clone(&self) -> Result<NamespaceMap, AllocError> {
        copy_namespaces(self)
    }

    fn by_own_key(version: u32) -> bool {
        version != 0
    }

    fn record_ref(contents: &OperatorRecord) -> RecordRef<'_, OperatorEntry> {
        RecordRef {
            prev: contents.prev,
            version: contents.version,
            timestamp: contents.timestamp,
            entries: contents.entries.as_slice(),
        }
    }

    fn record_id(envelope: &ProtoEnvelope<OperatorRecord>) -> RecordId {
        RecordId::operator_record::<Sha256>(envelope)
    }

    fn required_permission(entry: &OperatorEntry) -> Option<Permission> {
        entry.required_permission()
    }

    fn entry_ref(entry: &OperatorEntry) -> EntryRef<'_, Permission> {
        match entry {
            OperatorEntry::Init {
                hash_algorithm,
                key,
            } => EntryRef::Init {
                hash_algorithm: *hash_algorithm,
                key,
            },
            OperatorEntry::GrantFlat { key, permissions } => EntryRef::GrantFlat {
                key,
                permissions,
            },
            OperatorEntry::RevokeFlat {
                key_id,
                permissions,
            } => EntryRef::RevokeFlat {
                key_id,
                permissions,
            },
            OperatorEntry::DefineNamespace { .. } => EntryRef::Own,
            OperatorEntry::ImportNamespace { .. } => EntryRef::Own,
        }
    }

    fn refused(log_error: LogError<Permission>) -> ValidationError
        ensures { offence_of result ≡ option_map LogOffence.Shared (shared.offence_of log_error) }
    {
        ValidationError::from(log_error)
    }

    fn no_change(
        &self,
        alloc: Global,
        entries: &[OperatorEntry],
    ) -> Result<NamespaceMap, AllocError> {
        let map = NameMap::with_capacity(alloc, most_added(entries))?;
        Ok(NamespaceMap { map })
    }

    fn apply(
        &self,
        change: &mut NamespaceMap,
        entry: &OperatorEntry,
        _origin: &Origin<'_>,
    ) -> Result<(), ValidationError> {
        match entry {
            OperatorEntry::DefineNamespace { namespace } => {
                self.define(change, namespace, NamespaceState::Defined)
            }
            OperatorEntry::ImportNamespace {
                namespace,
                registry,
            } => {
                let registry = registry.clone()?;
                self.define(change, namespace, NamespaceState::Imported { registry })
            }
            _ => Ok(()),
        }
    }

    fn commit(&mut self, change: NamespaceMap) -> Result<(), AllocError> {
        self.add_all(change)
    }
}

/// No namespaces.
fn empty(alloc: Global) -> NamespaceMap
    ensures { result ≡ [] }
{
    NamespaceMap {
        map: NameMap::new(alloc),
    }
}

/// A copy.
fn copy_namespaces(namespaces: &NamespaceMap) -> Result<NamespaceMap, AllocError>
    ensures { IfOk result (λ copy. copy ≡ namespaces.now) }
{
    Ok(NamespaceMap {
        map: namespaces.map.clone()?,
    })
}

impl PartialEq for NamespaceMap {
    ghost eq = { same_namespaces };

    ghost laws = { partial_equiv_from_equiv namespaces_equiv };

    fn eq(&self, other: &NamespaceMap) -> bool {
        self.map == other.map
    }
}

impl Eq for NamespaceMap {
    ghost laws = { namespaces_equiv };
}
