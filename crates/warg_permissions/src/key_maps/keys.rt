//! The keys of a log, one after another.
ghost use Rattle.std.specs.Prelude.{◌≡◌, ⊤, length, IfSome, Some};
ghost use Rattle.std.specs.Iterator.{UpTo, at_most};
ghost use Rattle.std.specs.Iterator.SizeHint.{IsWithinCount};
ghost use Rattle.std.specs.Map.{lookup};
ghost use Rattle.std.specs.Map.Iter.{TakesFirst};
ghost use Rattle.std.specs.Option.{option_map};
ghost use Rattle.std.specs.Str.{bytes_eq};
ghost use Rattle.warg_permissions.specs.KeyMaps.KeyEntries.{key_data};

use crate::{LogPermission, PermissionSet};
use indexmap::IndexSet;
use std::alloc::AllocError;
use std::fmt;
use std::iter::FusedIterator;
use std::marker::Model;
use warg_crypto::signing::{KeyID, PublicKey};
use warg_maps::{Iter, NameMap};

/// A key of a log.
#[derive(Clone, Copy, Debug)]
pub struct KeyEntry<'a, P: LogPermission> {
    /// The key's id.
    pub id: &'a KeyID,
    /// The key.
    pub key: &'a PublicKey,
    /// What the key may do: an empty set where all was taken from it again, and `None` where it signed no init and was
    /// named in no grant.
    pub permissions: Option<&'a IndexSet<P>>,
}

/// The keys of a log, in the order in which they came to it. Those of a state that was read back come first, in the
/// order of the bytes of their ids.
#[derive(Drop)]
pub struct Keys<'a, P: LogPermission> {
    pub(crate) keys: Iter<'a, KeyID, PublicKey>,
    pub(crate) rights: &'a NameMap<KeyID, PermissionSet<P>>,
}

impl<'a, P: LogPermission> Model for Keys<'a, P> {
    ghost use Rattle.std.specs.Prelude.{List};
    ghost use Rattle.warg_permissions.specs.KeyMaps.Keys.{KeyData, with_rights};

    ghost Value = { List (KeyData P) };

    ghost view = { λ a. with_rights a.rights.now.entries a.keys };
}

/// What the key holds, if it has an entry.
fn set_of<'a, P: LogPermission>(
    rights: &'a NameMap<KeyID, PermissionSet<P>>,
    id: &KeyID,
) -> Option<&'a IndexSet<P>>
    ensures { option_map (λ set. set.now.keys) result ≡
        lookup (bytes_eq id.now) rights.now.entries }
{
    Some(rights.get(id)?.as_set())
}

impl<'a, P: LogPermission> Iterator for Keys<'a, P> {
    type Item = KeyEntry<'a, P>;

    ghost next_gives = { TakesFirst key_data };

    ghost remaining = { λ s. at_most (length s) };

    fn next(&mut self) -> Option<KeyEntry<'a, P>> {
        let (id, key) = self.keys.next()?;
        let permissions = set_of(self.rights, id);
        Some(KeyEntry {
            id,
            key,
            permissions,
        })
    }

    fn size_hint(&self) -> (usize, Option<usize>)
        ensures exact { result ≡ (length self.now, Some (length self.now)) }
        ensures lower { IsWithinCount result.0 (at_most (length self.now)) }
        ensures upper { IfSome result.1 (UpTo (at_most (length self.now))) }
    {
        let len = self.len();
        (len, Some(len))
    }
}

impl<'a, P: LogPermission> ExactSizeIterator for Keys<'a, P> {
    fn len(&self) -> usize {
        self.keys.len()
    }
}

impl<'a, P: LogPermission> FusedIterator for Keys<'a, P> {}

impl<'a, P: LogPermission> Clone for Keys<'a, P> {
    ghost is_clone = { λ s r. r ≡ s };

    ghost is_infallible = { λ _. ⊤ };

    fn clone(&self) -> Result<Keys<'a, P>, AllocError> {
        Ok(Keys {
            keys: self.keys.clone()?,
            rights: self.rights,
        })
    }
}

impl<'a, P: LogPermission + fmt::Debug> fmt::Debug for Keys<'a, P> {
    fn fmt<W: fmt::Write>(&self, f: &mut fmt::Formatter<W>) -> fmt::Result {
        f.debug_list().entries(self.clone().unwrap()).finish()
    }
}
