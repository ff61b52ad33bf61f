//! The maps of an authority: who may do what, and whose key is which.
ghost use Rattle.std.specs.Prelude.{◌≡◌, List, ℕ, [], Option, ◌&&◌, ◌||◌, true, false, Some, if◌then◌else◌, OnOk, IfOk, IfNone};
ghost use Rattle.std.specs.Str.{bytes_eq};
ghost use Rattle.indexmap.specs.IndexMap.{get};
ghost use Rattle.warg_crypto.specs.NamedBytes.{NamedBytes, fingerprint_of, same_named_bytes};
ghost use Rattle.warg_permissions.specs.Permissions.{lists};
ghost use Rattle.warg_permissions.specs.PermissionSets.{same_sets};
ghost use Rattle.warg_crypto.specs.declared.hash.HashAlgorithm.{HashAlgorithm};
ghost use Rattle.warg_permissions.specs.KeyMaps.AuthorityData.{access_view, authority_data};
ghost use Rattle.warg_permissions.specs.KeyMaps.Changes.{HasRoomFor};
ghost use Rattle.warg_permissions.specs.KeyMaps.Equal.{same_maps};
ghost use Rattle.warg_permissions.specs.KeyMaps.Keys.{AreKeysOf, with_rights};
ghost use Rattle.warg_permissions.specs.KeyMaps.Rights.{value_over, held_over, has_entry_over, first_missing};

use crate::key_maps::keys::Keys;
use crate::key_maps::map_changes::{lay_over, make_room};
use crate::key_maps::rights::{self, Standing};
use crate::{LogPermission, PermissionSet};
use std::alloc::{AllocError, Global};
use warg_crypto::signing::{KeyID, PublicKey};
use warg_maps::NameMap;

/// The maps of an authority, or of changes of one: by key id, the permissions and the keys.
#[derive(Drop)]
pub struct KeyTable<P: LogPermission> {
    /// The permissions of each id that has an entry.
    pub permissions: NameMap<KeyID, PermissionSet<P>>,
    /// The keys by their ids.
    pub keys: NameMap<KeyID, PublicKey>,
    /// The sets that are shared; among changes, those that are not among the log's yet.
    pub sets: Vec<PermissionSet<P>>,
}

impl<P: LogPermission> KeyTable<P> {
    /// Maps with no entry.
    pub fn new(alloc: Global) -> KeyTable<P>
        ensures permissions { result.permissions.entries ≡ [] }
        ensures keys { result.keys.entries ≡ [] }
    {
        KeyTable {
            permissions: NameMap::new(alloc),
            keys: NameMap::new(alloc),
            sets: Vec::new(alloc),
        }
    }

    /// The keys, each with its permissions.
    pub fn listed_keys(&self) -> Keys<'_, P>
        ensures list { result ≡ with_rights self.now.permissions.entries self.now.keys.entries }
        ensures keys { (algorithm : Option HashAlgorithm) → AreKeysOf P.eq (access_view P.eq
            (authority_data algorithm self.now.permissions self.now.keys)) result }
    {
        Keys {
            keys: self.keys.iter(),
            rights: &self.permissions,
        }
    }

    /// Whether the two have the same entries, with the same permissions and the same keys.
    pub fn is_same(&self, other: &KeyTable<P>) -> bool
        ensures { result ≡ (same_maps (same_sets P.eq) self.now.permissions.entries
            other.now.permissions.entries && same_maps same_named_bytes self.now.keys.entries
            other.now.keys.entries) }
    {
        same_rights(&self.permissions, &other.permissions)
            && same_registered(&self.keys, &other.keys)
    }

    /// The permissions and the shared sets, as what stands before a record.
    fn standing(&self, alloc: Global) -> Standing<'_, P>
        ensures { result.rights.now ≡ self.now.permissions }
    {
        Standing {
            alloc,
            sets: self.sets.as_slice(),
            rights: &self.permissions,
        }
    }

    /// Gives the key the permissions, among the changes, and an entry even where there are none.
    fn give(
        &self,
        alloc: Global,
        changes: &mut KeyTable<P>,
        key_id: KeyID,
        permissions: &[P],
    ) -> Result<(), AllocError>
        ensures holds { OnOk result ((k : List ℕ) (p : P) →
            held_over P.eq self.now.permissions changes.new.permissions k p
            ≡ (if bytes_eq key_id k && lists P.eq permissions.now p then true else held_over P.eq
            self.now.permissions changes.old.permissions k p)) }
        ensures entries { OnOk result ((k : List ℕ) →
            has_entry_over self.now.permissions changes.new.permissions k ≡
            (has_entry_over self.now.permissions changes.old.permissions k || bytes_eq key_id k)) }
        ensures keys { changes.new.keys ≡ changes.old.keys }
    {
        let stood = self.standing(alloc);
        let added = &mut changes.sets;
        rights::give(&stood, added, &mut changes.permissions, key_id, permissions)
    }

    /// Takes the permissions from the key, among the changes, or answers the first that it does not hold any more.
    pub fn take(
        &self,
        alloc: Global,
        changes: &mut KeyTable<P>,
        key_id: &KeyID,
        permissions: &[P],
    ) -> Result<Option<P>, AllocError>
        ensures missing { IfOk result (λ missing. missing ≡ first_missing P.eq
            (held_over P.eq self.now.permissions changes.old.permissions key_id.now) []
            permissions.now) }
        ensures holds { IfOk result (λ missing. IfNone missing ((k : List ℕ) (p : P) →
            held_over P.eq self.now.permissions changes.new.permissions k p
            ≡ (if bytes_eq key_id.now k && lists P.eq permissions.now p then false else held_over
            P.eq self.now.permissions changes.old.permissions k p))) }
        ensures entries { IfOk result (λ missing. IfNone missing ((k : List ℕ) →
            has_entry_over self.now.permissions changes.new.permissions k ≡
            has_entry_over self.now.permissions changes.old.permissions k)) }
        ensures keys { changes.new.keys ≡ changes.old.keys }
    {
        let stood = self.standing(alloc);
        let added = &mut changes.sets;
        rights::take_all(&stood, added, &mut changes.permissions, key_id, permissions)
    }

    /// Puts a copy of the key at its id.
    fn register(&mut self, key_id: KeyID, key: &PublicKey) -> Result<(), AllocError>
        ensures keys { OnOk result ((base : List (List ℕ × NamedBytes)) (k : List ℕ) →
            value_over base self.new.keys.entries k
            ≡ (if bytes_eq key_id k then Some key.now else value_over base self.old.keys.entries k)) }
        ensures permissions { self.new.permissions ≡ self.old.permissions }
    {
        let key = key.clone()?;
        rights::put(&mut self.keys, key_id, key)
    }

    /// Gives the key all permissions of the kind, among the changes.
    fn give_all(
        &self,
        alloc: Global,
        changes: &mut KeyTable<P>,
        key_id: &KeyID,
    ) -> Result<(), AllocError>
        ensures holds { OnOk result ((k : List ℕ) (p : P) →
            held_over P.eq self.now.permissions changes.new.permissions k p
            ≡ (if bytes_eq key_id.now k then true else held_over P.eq self.now.permissions
            changes.old.permissions k p)) }
        ensures entries { OnOk result ((k : List ℕ) →
            has_entry_over self.now.permissions changes.new.permissions k ≡
            (has_entry_over self.now.permissions changes.old.permissions k || bytes_eq key_id.now
            k)) }
        ensures keys { changes.new.keys ≡ changes.old.keys }
    {
        let all = P::all(alloc)?;
        self.give(alloc, changes, key_id.clone()?, &all)
    }

    /// Gives the signer all permissions of the kind, among the changes, and puts a copy of the key at its id.
    pub fn begin(
        &self,
        alloc: Global,
        changes: &mut KeyTable<P>,
        signer: &KeyID,
        key_id: KeyID,
        key: &PublicKey,
    ) -> Result<(), AllocError>
        ensures holds { OnOk result ((k : List ℕ) (p : P) →
            held_over P.eq self.now.permissions changes.new.permissions k p
            ≡ (if bytes_eq signer.now k then true else held_over P.eq self.now.permissions
            changes.old.permissions k p)) }
        ensures entries { OnOk result ((k : List ℕ) →
            has_entry_over self.now.permissions changes.new.permissions k ≡
            (has_entry_over self.now.permissions changes.old.permissions k || bytes_eq signer.now
            k)) }
        ensures keys { OnOk result ((base : List (List ℕ × NamedBytes)) (k : List ℕ) →
            value_over base changes.new.keys.entries k ≡ (if bytes_eq key_id k then Some key.now
            else value_over base changes.old.keys.entries k)) }
    {
        self.give_all(alloc, changes, signer)?;
        changes.register(key_id, key)?;
        Ok(())
    }

    /// Gives the key the permissions, among the changes, and puts a copy of it at its id.
    pub fn grant(
        &self,
        alloc: Global,
        changes: &mut KeyTable<P>,
        key: &PublicKey,
        permissions: &[P],
    ) -> Result<(), AllocError>
        ensures holds { OnOk result ((k : List ℕ) (p : P) →
            held_over P.eq self.now.permissions changes.new.permissions k p
            ≡ (if bytes_eq (fingerprint_of key.now) k && lists P.eq permissions.now p then true
            else held_over P.eq self.now.permissions changes.old.permissions k p)) }
        ensures entries { OnOk result ((k : List ℕ) →
            has_entry_over self.now.permissions changes.new.permissions k ≡
            (has_entry_over self.now.permissions changes.old.permissions k || bytes_eq
            (fingerprint_of key.now) k)) }
        ensures keys { OnOk result ((base : List (List ℕ × NamedBytes)) (k : List ℕ) →
            value_over base changes.new.keys.entries k
            ≡ (if bytes_eq (fingerprint_of key.now) k then Some key.now else value_over base
            changes.old.keys.entries k)) }
    {
        let key_id = key.fingerprint(alloc)?.share()?;
        changes.register(key_id.clone()?, key)?;
        self.give(alloc, changes, key_id, permissions)?;
        Ok(())
    }

    /// Makes the room that `lay_over` asks for, and keeps the shared sets of the changes. No entry changes.
    pub fn make_room(&mut self, changes: &mut KeyTable<P>) -> Result<(), AllocError>
        ensures entries { (self.new.permissions.entries ≡ self.old.permissions.entries) ×
            (self.new.keys.entries ≡ self.old.keys.entries) }
        ensures changes { (changes.new.permissions.entries ≡ changes.old.permissions.entries) ×
            (changes.new.keys.entries ≡ changes.old.keys.entries) }
        ensures room { OnOk result ((HasRoomFor self.new.permissions changes.new.permissions) ×
            (HasRoomFor self.new.keys changes.new.keys)) }
    {
        make_room(&mut self.permissions, &mut changes.permissions)?;
        make_room(&mut self.keys, &mut changes.keys)?;
        self.sets.append(&mut changes.sets)
    }

    /// Lays the changes over these maps: each key has what they say of it, else what it had.
    pub fn lay_over(&mut self, changes: KeyTable<P>)
        requires permissions { HasRoomFor self.old.permissions changes.permissions }
        requires keys { HasRoomFor self.old.keys changes.keys }
        ensures permissions { (k : List ℕ) → get bytes_eq self.new.permissions k ≡
            value_over self.old.permissions.entries changes.permissions.entries k }
        ensures keys { (k : List ℕ) → get bytes_eq self.new.keys k ≡
            value_over self.old.keys.entries changes.keys.entries k }
    {
        lay_over(&mut self.permissions, changes.permissions);
        lay_over(&mut self.keys, changes.keys);
    }

    /// A copy.
    pub fn try_clone(&self) -> Result<KeyTable<P>, AllocError>
        ensures permissions { IfOk result (λ copy. copy.permissions.entries ≡
            self.now.permissions.entries) }
        ensures keys { IfOk result (λ copy. copy.keys.entries ≡ self.now.keys.entries) }
    {
        Ok(KeyTable {
            permissions: self.permissions.clone()?,
            keys: self.keys.clone()?,
            sets: self.sets.clone()?,
        })
    }
}

/// Whether the two have the same entries, with the same permissions.
fn same_rights<P: LogPermission>(
    a: &NameMap<KeyID, PermissionSet<P>>,
    b: &NameMap<KeyID, PermissionSet<P>>,
) -> bool
    ensures { result ≡ same_maps (same_sets P.eq) a.now.entries b.now.entries }
{
    *a == *b
}

/// Whether the two have the same keys.
fn same_registered(a: &NameMap<KeyID, PublicKey>, b: &NameMap<KeyID, PublicKey>) -> bool
    ensures { result ≡ same_maps same_named_bytes a.now.entries b.now.entries }
{
    *a == *b
}
