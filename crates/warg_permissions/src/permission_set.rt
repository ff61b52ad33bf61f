//! Sets of permissions that keys share.
ghost use Rattle.std.specs.Prelude.{◌≡◌, IfOk};
ghost use Rattle.std.specs.Cmp.{partial_equiv_from_equiv};
ghost use Rattle.warg_permissions.specs.PermissionSets.{same_sets};
ghost use Rattle.warg_permissions.specs.PermissionSetLaws.{sets_equiv};

use crate::permission::LogPermission;
use indexmap::IndexSet;
use std::alloc::{AllocError, Global};
use std::fmt;
use std::marker::Model;
use std::sync::Arc;

/// A set of permissions. Keys that hold the same permissions share one set, so that a key takes a few bytes for it.
#[derive(Drop)]
pub struct PermissionSet<P: LogPermission> {
    set: Arc<IndexSet<P>>,
}

impl<P: LogPermission> Model for PermissionSet<P> {
    ghost use Rattle.std.specs.Arc.{arc_value};
    ghost use Rattle.std.specs.Prelude.{List};

    ghost Value = { List P };

    ghost view = { λ s. (arc_value s.set).keys };
}

impl<P: LogPermission> PermissionSet<P> {
    /// A set that is shared with no key yet.
    pub fn new(alloc: Global, set: IndexSet<P>) -> Result<PermissionSet<P>, AllocError>
        ensures { IfOk result (λ shared. shared ≡ set.keys) }
    {
        let set = Arc::new(alloc, set)?;
        Ok(PermissionSet { set })
    }

    /// The set.
    pub fn as_set(&self) -> &IndexSet<P>
        ensures { result.now.keys ≡ self.now }
    {
        &*self.set
    }

    /// A copy, which shares the set and takes no memory.
    pub fn try_clone(&self) -> Result<PermissionSet<P>, AllocError>
        ensures { IfOk result (λ copy. copy ≡ self.now) }
    {
        Ok(PermissionSet {
            set: Arc::try_clone(&self.set)?,
        })
    }
}

impl<P: LogPermission> Clone for PermissionSet<P> {
    ghost is_clone = { λ a b. b ≡ a };

    fn clone(&self) -> Result<PermissionSet<P>, AllocError> {
        self.try_clone()
    }
}

impl<P: LogPermission + fmt::Debug> fmt::Debug for PermissionSet<P> {
    fn fmt<W: fmt::Write>(&self, f: &mut fmt::Formatter<W>) -> fmt::Result {
        fmt::Debug::fmt(self.as_set(), f)
    }
}

impl<P: LogPermission> PartialEq for PermissionSet<P> {
    ghost eq = { same_sets P.eq };

    ghost laws = { partial_equiv_from_equiv (sets_equiv P.Eq.laws) };

    fn eq(&self, other: &PermissionSet<P>) -> bool {
        *self.as_set() == *other.as_set()
    }
}

impl<P: LogPermission> Eq for PermissionSet<P> {
    ghost laws = { sets_equiv P.Eq.laws };
}
