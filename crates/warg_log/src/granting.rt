//! What a record's entries ask of an authority. They are judged by it with the changes that the entries before them
//! make laid over it; what they change is noted among these changes. `before` is what the signer held before them, so
//! that it is looked up once a record.
ghost use Rattle.std.specs.Prelude.{◌≡◌, ◌||◌, [], ◌∷◌, OnOk, IfOk, is_some, not};
ghost use Rattle.std.specs.Str.{bytes_eq};
ghost use Rattle.std.specs.Option.{option_copied};
ghost use Rattle.warg_crypto.specs.NamedBytes.{fingerprint_of};
ghost use Rattle.warg_log_records.specs.RecordData.{Init, GrantFlat, RevokeFlat};
ghost use Rattle.warg_log.specs.SignedEntries.{after};
ghost use Rattle.warg_permissions.specs.KeyMaps.AuthorityData.{rights_at, access_view_over};
ghost use Rattle.warg_log_records.specs.OutcomeOffences.{ReturnsOffence};
ghost use Rattle.warg_permissions.specs.KeyMaps.Rights.{is_listed};
ghost use Rattle.warg_log.specs.Offences.{offence_of, first_unauthorized, permission_offence, required_offence, not_begun, unless, KeyIDNotRecognized, empty_grant, init_offence, grant_offence, revoke_offence};

use crate::authority::Authority;
use crate::log_error::LogError;
use crate::own_state::Origin;
use std::alloc::Global;
use warg_crypto::hash::HashAlgorithm;
use warg_crypto::signing::{KeyID, PublicKey};
use warg_permissions::key_maps::rights;
use warg_permissions::{LogPermission, PermissionSet};

/// Refuses an Init whose signer has to own its key, and does not.
fn check_owner<P>(by_own_key: bool, signer: &KeyID, key_id: &KeyID) -> Result<(), LogError<P>>
    ensures { ReturnsOffence offence_of
        (unless (not by_own_key || bytes_eq signer.now key_id.now) (KeyIDNotRecognized signer.now))
        result }
{
    if by_own_key && *signer != *key_id {
        return Err(LogError::KeyIDNotRecognized {
            key_id: signer.clone()?,
        });
    }
    Ok(())
}

/// The id of the key of an Init, whose signer has to own it or not.
fn id_of_owner<P>(
    alloc: Global,
    by_own_key: bool,
    signer: &KeyID,
    key: &PublicKey,
) -> Result<KeyID, LogError<P>>
    ensures judges { ReturnsOffence offence_of
        (unless (not by_own_key || bytes_eq signer.now (fingerprint_of key.now))
        (KeyIDNotRecognized signer.now)) result }
    ensures id { IfOk result (λ id. id ≡ fingerprint_of key.now) }
{
    let key_id = key.fingerprint(alloc)?.share()?;
    check_owner(by_own_key, signer, &key_id)?;
    Ok(key_id)
}

impl<P: LogPermission> Authority<P> {
    /// Whether an Init stands.
    pub fn is_begun(&self, changes: &Authority<P>) -> bool
        ensures { result ≡ is_some (access_view_over P.eq self.now changes.now).algorithm }
    {
        changes.algorithm.is_some() || self.algorithm.is_some()
    }

    /// The permissions of the key, if it has an entry.
    fn rights_with<'a>(
        &'a self,
        changes: &'a Authority<P>,
        key_id: &KeyID,
        before: Option<&'a PermissionSet<P>>,
    ) -> Option<&'a PermissionSet<P>>
        requires { option_copied before ≡ rights_at self.now key_id.now }
        ensures { (p : P) → is_listed P.eq (option_copied result) p
            ≡ (access_view_over P.eq self.now changes.now).holds key_id.now p }
    {
        rights::look(before, &changes.maps.permissions, key_id)
    }

    /// Whether the key holds the permission.
    fn holds_with(
        &self,
        changes: &Authority<P>,
        key_id: &KeyID,
        before: Option<&PermissionSet<P>>,
        permission: P,
    ) -> bool
        requires { option_copied before ≡ rights_at self.now key_id.now }
        ensures { result ≡ (access_view_over P.eq self.now changes.now).holds
            key_id.now permission }
    {
        rights::is_among(self.rights_with(changes, key_id, before), permission)
    }

    /// The key of the id.
    pub fn key_with<'a>(
        &'a self,
        changes: &'a Authority<P>,
        key_id: &KeyID,
    ) -> Option<&'a PublicKey>
        ensures { option_copied result ≡
            (access_view_over P.eq self.now changes.now).key key_id.now }
    {
        rights::look(self.maps.keys.get(key_id), &changes.maps.keys, key_id)
    }

    /// Refuses where the key lacks the permission.
    fn check_permission(
        &self,
        changes: &Authority<P>,
        key_id: &KeyID,
        before: Option<&PermissionSet<P>>,
        permission: P,
    ) -> Result<(), LogError<P>>
        requires { option_copied before ≡ rights_at self.now key_id.now }
        ensures { ReturnsOffence offence_of
            (permission_offence (access_view_over P.eq self.now changes.now) key_id.now permission)
            result }
    {
        if !self.holds_with(changes, key_id, before, permission) {
            return Err(LogError::UnauthorizedAction {
                key_id: key_id.clone()?,
                needed_permission: permission,
            });
        }
        Ok(())
    }

    /// Refuses where the key lacks the permission that an entry asks, if it asks one.
    pub fn check_required(
        &self,
        changes: &Authority<P>,
        key_id: &KeyID,
        before: Option<&PermissionSet<P>>,
        required: Option<P>,
    ) -> Result<(), LogError<P>>
        requires { option_copied before ≡ rights_at self.now key_id.now }
        ensures { ReturnsOffence offence_of (required_offence
            (access_view_over P.eq self.now changes.now) key_id.now required) result }
    {
        match required {
            Some(permission) => self.check_permission(changes, key_id, before, permission),
            None => Ok(()),
        }
    }

    /// Checks that the log has an Init.
    pub fn check_begun(&self, changes: &Authority<P>) -> Result<(), LogError<P>>
        ensures { ReturnsOffence offence_of (not_begun (access_view_over P.eq self.now changes.now))
            result }
    {
        if self.is_begun(changes) {
            Ok(())
        } else {
            Err(LogError::FirstEntryIsNotInit)
        }
    }

    /// Refuses the first of the permissions that the key lacks.
    fn check_permissions(
        &self,
        changes: &Authority<P>,
        key_id: &KeyID,
        before: Option<&PermissionSet<P>>,
        permissions: &[P],
    ) -> Result<(), LogError<P>>
        requires { option_copied before ≡ rights_at self.now key_id.now }
        ensures { ReturnsOffence offence_of (first_unauthorized
            (access_view_over P.eq self.now changes.now) key_id.now permissions.now) result }
    {
        if permissions.is_empty() {
            return Ok(());
        }
        let held = self.rights_with(changes, key_id, before);
        for permission in permissions {
            if !rights::is_among(held, *permission) {
                return Err(LogError::UnauthorizedAction {
                    key_id: key_id.clone()?,
                    needed_permission: *permission,
                });
            }
        }
        Ok(())
    }

    /// Checks an Init and notes what it changes. Its signer gets all permissions of the kind.
    pub fn init(
        &self,
        changes: &mut Authority<P>,
        by_own_key: bool,
        signer: &KeyID,
        hash_algorithm: HashAlgorithm,
        key: &PublicKey,
    ) -> Result<(), LogError<P>>
        ensures judges { ReturnsOffence offence_of (init_offence by_own_key
            (access_view_over P.eq self.now changes.old) signer.now key.now) result }
        ensures after { OnOk result (access_view_over P.eq self.now changes.new ≡ after P.eq
            (access_view_over P.eq self.now changes.old)
            (record { signer = signer.now; entry = Init hash_algorithm key.now } ∷ [])) }
    {
        if self.is_begun(changes) {
            return Err(LogError::InitialEntryAfterBeginning);
        }
        let key_id = id_of_owner(self.alloc, by_own_key, signer, key)?;
        changes.algorithm = Some(hash_algorithm);
        let noted = &mut changes.maps;
        Ok(self.maps.begin(self.alloc, noted, signer, key_id, key)?)
    }

    /// Refuses a grant of no permission to the key, but in a record of version 0.
    fn check_grant(
        &self,
        version: u32,
        key: &PublicKey,
        permissions: &[P],
    ) -> Result<(), LogError<P>>
        ensures { ReturnsOffence offence_of
            (empty_grant version (fingerprint_of key.now) permissions.now) result }
    {
        if version != 0 && permissions.is_empty() {
            return Err(LogError::EmptyGrant {
                key_id: key.fingerprint(self.alloc)?,
            });
        }
        Ok(())
    }

    /// Checks a GrantFlat and notes what it changes.
    pub fn grant(
        &self,
        changes: &mut Authority<P>,
        origin: &Origin<'_>,
        before: Option<&PermissionSet<P>>,
        key: &PublicKey,
        permissions: &[P],
    ) -> Result<(), LogError<P>>
        requires { option_copied before ≡ rights_at self.now origin.now.signer.now }
        ensures judges { ReturnsOffence offence_of (grant_offence origin.now.version
            (access_view_over P.eq self.now changes.old) origin.now.signer.now key.now
            permissions.now) result }
        ensures after { OnOk result (access_view_over P.eq self.now changes.new ≡ after P.eq
            (access_view_over P.eq self.now changes.old)
            (record {
              signer = origin.now.signer.now;
              entry = GrantFlat key.now permissions.now;
            } ∷ [])) }
    {
        self.check_begun(changes)?;
        self.check_grant(origin.version, key, permissions)?;
        self.check_permissions(changes, origin.signer, before, permissions)?;
        let noted = &mut changes.maps;
        Ok(self.maps.grant(self.alloc, noted, key, permissions)?)
    }

    /// Checks a RevokeFlat and notes what it changes.
    pub fn revoke(
        &self,
        changes: &mut Authority<P>,
        signer: &KeyID,
        before: Option<&PermissionSet<P>>,
        key_id: &KeyID,
        permissions: &[P],
    ) -> Result<(), LogError<P>>
        requires { option_copied before ≡ rights_at self.now signer.now }
        ensures judges { ReturnsOffence offence_of (revoke_offence P.eq
            (access_view_over P.eq self.now changes.old) signer.now key_id.now permissions.now)
            result }
        ensures after { OnOk result (access_view_over P.eq self.now changes.new ≡ after P.eq
            (access_view_over P.eq self.now changes.old)
            (record { signer = signer.now; entry = RevokeFlat key_id.now permissions.now } ∷ [])) }
    {
        self.check_begun(changes)?;
        self.check_permissions(changes, signer, before, permissions)?;
        let missing = self
            .maps
            .take(self.alloc, &mut changes.maps, key_id, permissions)?;
        if let Some(permission) = missing {
            return Err(LogError::PermissionNotFoundToRevoke {
                permission,
                key_id: key_id.clone()?,
            });
        }
        Ok(())
    }
}
