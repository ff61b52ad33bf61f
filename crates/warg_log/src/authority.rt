//! Who may do what in a log, and whose key is which.
ghost use Rattle.std.specs.Prelude.{◌≡◌, OnOk, OnErr, IfOk, IfSome, is_some};
ghost use Rattle.std.specs.Cmp.{partial_equiv_from_equiv};
ghost use Rattle.std.specs.Option.{option_copied, option_eq};
ghost use Rattle.indexmap.specs.IndexSet.{contains};
ghost use Rattle.warg_permissions.specs.KeyMaps.AuthorityData.{AuthorityData, empty_access, rights_at, access_view, access_view_over};
ghost use Rattle.warg_permissions.specs.KeyMaps.Equal.{same_authority_data, same_algorithm};
ghost use Rattle.warg_permissions.specs.KeyMaps.EqualLaws.{authority_data_equiv};
ghost use Rattle.warg_permissions.specs.KeyMaps.Keys.{AreKeysOf, authority_keys};

mod saved;

use crate::own_state::OwnState;
use indexmap::IndexSet;
use std::alloc::{AllocError, Global};
use std::fmt;
use std::marker::Model;
use warg_crypto::hash::HashAlgorithm;
use warg_crypto::signing::{KeyID, PublicKey};
use warg_permissions::key_maps::{KeyTable, Keys, rights};
use warg_permissions::{LogPermission, PermissionSet};

/// Who may do what in a log, and whose key is which.
#[derive(Drop)]
pub struct Authority<P: LogPermission> {
    pub(crate) alloc: Global,
    pub(crate) algorithm: Option<HashAlgorithm>,
    pub(crate) maps: KeyTable<P>,
}

impl<P: LogPermission> Model for Authority<P> {
    ghost use Rattle.warg_permissions.specs.KeyMaps.AuthorityData.{AuthorityData, authority_data};

    ghost Value = { AuthorityData P };

    ghost view = { λ a. authority_data a.algorithm a.maps.permissions a.maps.keys };
}

impl<P: LogPermission> Authority<P> {
    /// What stands before any entry. Laid over another authority it changes nothing.
    pub fn new(alloc: Global) -> Authority<P>
        ensures start { access_view P.eq result ≡ empty_access }
        ensures no_change { (c : AuthorityData P) →
            access_view_over P.eq c result ≡ access_view P.eq c }
    {
        Authority {
            alloc,
            algorithm: None,
            maps: KeyTable::new(alloc),
        }
    }

    /// Whether the key holds the permission.
    pub fn holds(&self, key_id: &KeyID, permission: P) -> bool
        ensures { result ≡ (access_view P.eq self.now).holds key_id.now permission }
    {
        rights::holds(&self.maps.permissions, key_id, permission)
    }

    /// The key of the id.
    pub fn public_key(&self, key_id: &KeyID) -> Option<&PublicKey>
        ensures { option_copied result ≡ (access_view P.eq self.now).key key_id.now }
    {
        self.maps.keys.get(key_id)
    }

    /// What the key holds, if it has an entry.
    pub(crate) fn held(&self, key_id: &KeyID) -> Option<&PermissionSet<P>>
        ensures { option_copied result ≡ rights_at self.now key_id.now }
    {
        self.maps.permissions.get(key_id)
    }

    /// The permissions of the key, if it has an entry.
    pub fn key_permissions(&self, key_id: &KeyID) -> Option<&IndexSet<P>>
        ensures entry { is_some result ≡ (access_view P.eq self.now).has_entry key_id.now }
        ensures holds { IfSome result (λ set. (p : P) →
            contains P.eq set.now p ≡ (access_view P.eq self.now).holds key_id.now p) }
    {
        Some(self.held(key_id)?.as_set())
    }

    /// The keys, each with its permissions.
    pub fn listed_keys(&self) -> Keys<'_, P>
        ensures list { result ≡ authority_keys self.now }
        ensures keys { AreKeysOf P.eq (access_view P.eq self.now) result }
    {
        self.maps.listed_keys()
    }

    /// The id as the keys here hold it, or the one given where none has it.
    fn known_id<'a>(&'a self, key_id: &'a KeyID) -> &'a KeyID
        ensures { result.now ≡ key_id.now }
    {
        match self.maps.keys.get_index_of(key_id) {
            Some(place) => &self.maps.keys.keys().as_slice()[place],
            None => key_id,
        }
    }

    /// A copy of the id that shares its text with the key of this id, if there is one.
    pub fn shared_id(&self, key_id: &KeyID) -> Result<KeyID, AllocError>
        ensures { IfOk result (λ id. id ≡ key_id.now) }
    {
        self.known_id(key_id).try_clone()?.share()
    }

    /// Makes the changes here, and the kind's beside, or none.
    pub fn commit<M: OwnState>(
        &mut self,
        changes: Authority<P>,
        own_state: &mut M,
        change: M::Change,
    ) -> Result<(), AllocError>
        ensures made { OnOk result (access_view P.eq self.new ≡
            access_view_over P.eq self.old changes) }
        ensures own_state { OnOk result (M.view own_state.new ≡ M.view_with_change own_state.old
            change) }
        ensures unchanged { OnErr result (self.new ≡ self.old) }
        ensures own_state_unchanged { OnErr result (own_state.new ≡ own_state.old) }
    {
        let Authority {
            algorithm,
            mut maps,
            ..
        } = changes;
        self.maps.make_room(&mut maps)?;
        own_state.commit(change)?;
        self.maps.lay_over(maps);
        self.algorithm = algorithm.or(self.algorithm);
        Ok(())
    }

    /// A copy.
    pub fn try_clone(&self) -> Result<Authority<P>, AllocError>
        ensures { IfOk result (λ copy. copy ≡ self.now) }
    {
        Ok(Authority {
            alloc: self.alloc,
            algorithm: self.algorithm,
            maps: self.maps.try_clone()?,
        })
    }
}

impl<P: LogPermission + fmt::Debug> fmt::Debug for Authority<P> {
    fn fmt<W: fmt::Write>(&self, f: &mut fmt::Formatter<W>) -> fmt::Result {
        f.debug_struct("Authority")
            .field("algorithm", &self.algorithm)
            .field("permissions", &self.maps.permissions)
            .field("keys", &self.maps.keys)
            .finish()
    }
}

impl<P: LogPermission> PartialEq for Authority<P> {
    ghost eq = { same_authority_data P.eq };

    ghost laws = { partial_equiv_from_equiv (authority_data_equiv P.Eq.laws) };

    fn eq(&self, other: &Authority<P>) -> bool {
        same_algorithms(&self.algorithm, &other.algorithm) && self.maps.is_same(&other.maps)
    }
}

impl<P: LogPermission> Eq for Authority<P> {
    ghost laws = { authority_data_equiv P.Eq.laws };
}

/// Whether the two name the same algorithm.
fn same_algorithms(a: &Option<HashAlgorithm>, b: &Option<HashAlgorithm>) -> bool
    ensures { result ≡ option_eq same_algorithm a.now b.now }
{
    *a == *b
}
