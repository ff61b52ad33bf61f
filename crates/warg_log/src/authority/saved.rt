//! An authority as its maps.
ghost use Rattle.std.specs.Prelude.{◌≡◌};
ghost use Rattle.warg_permissions.specs.KeyMaps.AuthorityData.{authority_data};

use crate::authority::Authority;
use std::alloc::Global;
use warg_crypto::hash::HashAlgorithm;
use warg_crypto::signing::{KeyID, PublicKey};
use warg_maps::NameMap;
use warg_permissions::key_maps::KeyTable;
use warg_permissions::{LogPermission, PermissionSet};

impl<P: LogPermission> Authority<P> {
    /// The authority of these maps.
    pub(crate) fn restore(
        alloc: Global,
        algorithm: Option<HashAlgorithm>,
        permissions: NameMap<KeyID, PermissionSet<P>>,
        keys: NameMap<KeyID, PublicKey>,
    ) -> Authority<P>
        ensures { result ≡ authority_data algorithm permissions keys }
    {
        Authority {
            alloc,
            algorithm,
            maps: KeyTable {
                permissions,
                keys,
                sets: Vec::new(alloc),
            },
        }
    }

    /// How the log names records.
    pub(crate) fn algorithm(&self) -> &Option<HashAlgorithm>
        ensures { result.now ≡ self.now.algorithm }
    {
        &self.algorithm
    }

    /// The permissions of each id that has an entry.
    pub(crate) fn permissions(&self) -> &NameMap<KeyID, PermissionSet<P>>
        ensures { result.now.entries ≡ self.now.rights }
    {
        &self.maps.permissions
    }

    /// The keys by their ids.
    pub(crate) fn keys(&self) -> &NameMap<KeyID, PublicKey>
        ensures { result.now.entries ≡ self.now.keys }
    {
        &self.maps.keys
    }
}
