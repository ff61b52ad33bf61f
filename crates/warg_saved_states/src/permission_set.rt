//! A set of permissions as JSON: the list of their names.
ghost use Rattle.std.specs.Prelude.{List, []};
ghost use Rattle.warg_saved_states.specs.CanonicalLaws.{texts_canonical};
ghost use Rattle.warg_saved_states.specs.SavedPermissions.{permissions_in, permissions_json};

use crate::error::ReadFault;
use crate::value::SavedValue;
use indexmap::IndexSet;
use json::{Reader, Writer};
use serde_json::Value;
use std::alloc::Global;
use warg_crypto::json::JsonError;
use warg_permissions::{LogPermission, PermissionSet};

impl<P: LogPermission> SavedValue for PermissionSet<P> {
    ghost Plain = { List P };

    ghost plain = { λ s. s };

    ghost writes = { permissions_json P.text_of };

    ghost reads = { permissions_in P.eq P.permission_named };

    ghost versions = { λ _. [] };

    ghost canonical = { λ ps. texts_canonical 124 P.text_of ps };

    fn can_save(&self) -> Result<(), JsonError> {
        self.as_set().can_save()
    }

    fn save(&self, alloc: Global) -> Result<Value, JsonError> {
        self.as_set().save(alloc)
    }

    fn write(&self, alloc: Global, out: &mut Writer) -> Result<(), JsonError> {
        self.as_set().write(alloc, out)
    }

    fn load(alloc: Global, value: &Value) -> Result<PermissionSet<P>, JsonError> {
        let set = IndexSet::<P>::load(alloc, value)?;
        Ok(PermissionSet::new(alloc, set)?)
    }

    fn read_next(
        alloc: Global,
        reader: &mut Reader<'_>,
        depth: usize,
    ) -> Result<Result<PermissionSet<P>, JsonError>, ReadFault> {
        match IndexSet::<P>::read_next(alloc, reader, depth)? {
            Ok(set) => Ok(Ok(PermissionSet::new(alloc, set)?)),
            Err(fault) => Ok(Err(fault)),
        }
    }
}
