//! Sets of permissions that keys share.
ghost use Rattle.std.specs.Prelude.{◌≡◌, IfOk, IfSome};

use crate::{LogPermission, PermissionSet};
use indexmap::IndexSet;
use std::alloc::{AllocError, Global};

/// The first of the sets that lists just these permissions, in this order.
fn find_set<'a, P: LogPermission>(
    sets: &'a [PermissionSet<P>],
    permissions: &[P],
) -> Option<&'a PermissionSet<P>>
    ensures { IfSome result (λ set. set.now ≡ permissions.now) }
{
    'sets: for set in sets {
        if *set.as_set().as_slice() == *permissions {
            return Some(set);
        }
    }
    None
}

/// The first of the known sets, or of those added beside, that lists just these permissions, in this order.
pub(crate) fn find_shared<'a, P: LogPermission>(
    known: &'a [PermissionSet<P>],
    added: &'a [PermissionSet<P>],
    permissions: &[P],
) -> Option<&'a PermissionSet<P>>
    ensures { IfSome result (λ set. set.now ≡ permissions.now) }
{
    match find_set(known, permissions) {
        Some(set) => Some(set),
        None => find_set(added, permissions),
    }
}

/// The set, as one of those that are known or added where it is among them, else as a new one, which is added.
pub(crate) fn share<P: LogPermission>(
    alloc: Global,
    known: &[PermissionSet<P>],
    added: &mut Vec<PermissionSet<P>>,
    set: IndexSet<P>,
) -> Result<PermissionSet<P>, AllocError>
    ensures { IfOk result (λ shared. shared ≡ set.keys) }
{
    if let Some(shared) = find_shared(known, added.as_slice(), set.as_slice()) {
        return shared.try_clone();
    }
    let shared = PermissionSet::new(alloc, set)?;
    added.push(shared.try_clone()?)?;
    Ok(shared)
}
