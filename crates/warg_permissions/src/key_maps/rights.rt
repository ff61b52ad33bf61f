//! The permissions of each key, with changes laid over them.
ghost use Rattle.std.specs.Prelude.{◌≡◌, List, ℕ, ◌&&◌, ◌||◌, true, false, Some, if◌then◌else◌, OnOk, IfOk, IfNone, []};
ghost use Rattle.std.specs.List.{list_any};
ghost use Rattle.std.specs.Map.{lookup};
ghost use Rattle.std.specs.Option.{option_copied, option_or};
ghost use Rattle.std.specs.Str.{bytes_eq};
ghost use Rattle.indexmap.specs.IndexSet.{contains};
ghost use Rattle.warg_permissions.specs.Permissions.{lists};
ghost use Rattle.warg_permissions.specs.KeyMaps.Rights.{is_listed, holds_in, value_over, held_over, has_entry_over, first_missing};

use crate::key_maps::sharing::{find_shared, share};
use crate::{LogPermission, PermissionSet};
use indexmap::IndexSet;
use std::alloc::{AllocError, Global};
use warg_crypto::signing::KeyID;
use warg_maps::NameMap;

/// The permissions that stand before a record, by key id, and the sets that keys share.
#[derive(Clone, Copy)]
pub(crate) struct Standing<'a, P: LogPermission> {
    pub(crate) alloc: Global,
    pub(crate) sets: &'a [PermissionSet<P>],
    pub(crate) rights: &'a NameMap<KeyID, PermissionSet<P>>,
}

/// Whether the permission is among those held.
pub fn is_among<P: LogPermission>(held: Option<&PermissionSet<P>>, permission: P) -> bool
    ensures { result ≡ is_listed P.eq (option_copied held.entry) permission }
{
    match held {
        Some(set) => set.as_set().contains(&permission),
        None => false,
    }
}

/// Whether the key holds the permission.
pub fn holds<P: LogPermission>(
    rights: &NameMap<KeyID, PermissionSet<P>>,
    key_id: &KeyID,
    permission: P,
) -> bool
    ensures { result ≡ holds_in P.eq rights.now key_id.now permission }
{
    is_among(rights.get(key_id), permission)
}

/// The value of the key id: that of the changes if they have one, else the one from before them.
pub fn look<'a, X>(
    stood: Option<&'a X>,
    changes: &'a NameMap<KeyID, X>,
    key_id: &KeyID,
) -> Option<&'a X>
    ensures { option_copied result ≡ option_or (lookup (bytes_eq key_id.now) changes.now.entries)
        (option_copied stood.entry) }
{
    if changes.is_empty() {
        return stood;
    }
    if let Some(value) = changes.get(key_id) {
        return Some(value);
    }
    stood
}

/// Puts a value at the key id, among the changes.
pub(crate) fn put<X: Drop>(
    changes: &mut NameMap<KeyID, X>,
    key_id: KeyID,
    value: X,
) -> Result<(), AllocError>
    ensures { OnOk result ((base : List (List ℕ × X)) (k : List ℕ) →
        value_over base changes.new.entries k
        ≡ (if bytes_eq key_id k then Some value else value_over base changes.old.entries k)) }
{
    changes.insert(key_id, value)?;
    Ok(())
}

/// A copy of the permissions.
fn copy_set<P: LogPermission>(set: &PermissionSet<P>) -> Result<IndexSet<P>, AllocError>
    ensures { IfOk result (λ copy. (p : P) → contains P.eq copy p ≡ list_any (P.eq p) set.now) }
{
    set.as_set().clone()
}

/// A copy of what is held, or the empty set.
fn copy_held<P: LogPermission>(
    alloc: Global,
    held: Option<&PermissionSet<P>>,
) -> Result<IndexSet<P>, AllocError>
    ensures { IfOk result (λ set. (p : P) →
        contains P.eq set p ≡ is_listed P.eq (option_copied held.entry) p) }
{
    match held {
        Some(set) => copy_set(set),
        None => Ok(IndexSet::new(alloc)),
    }
}

/// Puts the permissions into the set.
fn add_all<P: LogPermission>(set: &mut IndexSet<P>, permissions: &[P]) -> Result<(), AllocError>
    ensures { OnOk result ((p : P) → contains P.eq set.new p ≡
        (contains P.eq set.old p || lists P.eq permissions.now p)) }
{
    for permission in permissions {
        set.insert(*permission)?;
    }
    Ok(())
}

/// What is held, if anything is, and the permissions beside. Where nothing is held, no set is made if one that is known
/// lists just these.
fn with_permissions<P: LogPermission>(
    stood: &Standing<'_, P>,
    added: &mut Vec<PermissionSet<P>>,
    held: Option<&PermissionSet<P>>,
    permissions: &[P],
) -> Result<PermissionSet<P>, AllocError>
    ensures { IfOk result (λ set. (p : P) → list_any (P.eq p) set
        ≡ (is_listed P.eq (option_copied held.entry) p || lists P.eq permissions.now p)) }
{
    if held.is_none() {
        if let Some(set) = find_shared(stood.sets, added.as_slice(), permissions) {
            return set.try_clone();
        }
    }
    let mut set = copy_held(stood.alloc, held)?;
    add_all(&mut set, permissions)?;
    share(stood.alloc, stood.sets, added, set)
}

/// Gives the key the permissions, among the changes, and an entry even where there are none.
pub(crate) fn give<P: LogPermission>(
    stood: &Standing<'_, P>,
    added: &mut Vec<PermissionSet<P>>,
    changes: &mut NameMap<KeyID, PermissionSet<P>>,
    key_id: KeyID,
    permissions: &[P],
) -> Result<(), AllocError>
    ensures holds { OnOk result ((k : List ℕ) (p : P) →
        held_over P.eq stood.now.rights.now changes.new k p
        ≡ (if bytes_eq key_id k && lists P.eq permissions.now p then true else held_over P.eq
        stood.now.rights.now changes.old k p)) }
    ensures entries { OnOk result ((k : List ℕ) →
        has_entry_over stood.now.rights.now changes.new k ≡
        (has_entry_over stood.now.rights.now changes.old k || bytes_eq key_id k)) }
{
    if let Some(held) = changes.get_mut(&key_id) {
        *held = with_permissions(stood, added, Some(&*held), permissions)?;
        return Ok(());
    }
    let set = with_permissions(stood, added, stood.rights.get(&key_id), permissions)?;
    put(changes, key_id, set)?;
    Ok(())
}

/// Takes the permissions from the set, in order. Where one is not in the set, or no longer, it stops and answers that one.
fn remove_all<P: LogPermission>(set: &mut IndexSet<P>, permissions: &[P]) -> Option<P>
    ensures missing { result ≡ first_missing P.eq (contains P.eq set.old) [] permissions.now }
    ensures taken { IfNone result ((p : P) → contains P.eq set.new p
        ≡ (if lists P.eq permissions.now p then false else contains P.eq set.old p)) }
{
    for permission in permissions {
        if !set.swap_remove(permission) {
            return Some(*permission);
        }
    }
    None
}

/// Takes the permissions from what is held, or answers the first that is not held any more.
fn take_from<P: LogPermission>(
    stood: &Standing<'_, P>,
    added: &mut Vec<PermissionSet<P>>,
    held: &mut PermissionSet<P>,
    permissions: &[P],
) -> Result<Option<P>, AllocError>
    ensures missing { IfOk result (λ missing. missing ≡ first_missing P.eq
        (λ p. list_any (P.eq p) held.old) [] permissions.now) }
    ensures taken { IfOk result (λ missing. IfNone missing ((p : P) → list_any (P.eq p) held.new
        ≡ (if lists P.eq permissions.now p then false else list_any (P.eq p) held.old))) }
{
    let mut set = copy_set(held)?;
    if let Some(missing) = remove_all(&mut set, permissions) {
        return Ok(Some(missing));
    }
    *held = share(stood.alloc, stood.sets, added, set)?;
    Ok(None)
}

/// Takes the permissions from the key, among the changes, or answers the first that it does not hold any more.
pub(crate) fn take_all<P: LogPermission>(
    stood: &Standing<'_, P>,
    added: &mut Vec<PermissionSet<P>>,
    changes: &mut NameMap<KeyID, PermissionSet<P>>,
    key_id: &KeyID,
    permissions: &[P],
) -> Result<Option<P>, AllocError>
    ensures missing { IfOk result (λ missing. missing ≡ first_missing P.eq
        (held_over P.eq stood.now.rights.now changes.old key_id.now) [] permissions.now) }
    ensures holds { IfOk result (λ missing. IfNone missing
        ((k : List ℕ) (p : P) → held_over P.eq stood.now.rights.now changes.new k p
        ≡ (if bytes_eq key_id.now k && lists P.eq permissions.now p then false else held_over P.eq
        stood.now.rights.now changes.old k p))) }
    ensures entries { IfOk result (λ missing. IfNone missing
        ((k : List ℕ) → has_entry_over stood.now.rights.now changes.new k ≡
        has_entry_over stood.now.rights.now changes.old k)) }
{
    if permissions.is_empty() {
        return Ok(None);
    }
    if let Some(held) = changes.get_mut(key_id) {
        return take_from(stood, added, held, permissions);
    }
    let Some(held) = stood.rights.get(key_id) else {
        return Ok(permissions.first().copied());
    };
    let mut set = held.try_clone()?;
    if let Some(missing) = take_from(stood, added, &mut set, permissions)? {
        return Ok(Some(missing));
    }
    put(changes, key_id.clone()?, set)?;
    Ok(None)
}
