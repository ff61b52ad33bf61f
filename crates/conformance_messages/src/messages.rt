//! Messages of `warg_protobuf`.
mod outer;

use crate::fields::{
    Fields, put_braced, put_message, put_number, put_numbers, put_present_text, put_text,
};
use crate::text_codec::{TextCodec, ToText};
use conformance_rows::{RowError, bytes, hex};
pub(crate) use outer::Outer;
use std::alloc::Global;
use warg_protobuf::{
    GrantFlat, Init, Message, OperatorDefineNamespace, OperatorEntry, OperatorImportNamespace,
    PackageEntry, PackageRelease, PackageYank, Record, RevokeFlat, TimestampPair, operator_entry,
    package_entry,
};

/// A message in its bytes.
#[derive(Drop, PartialEq)]
pub(crate) struct Wire<M> {
    message: M,
}

impl<M: Fields> ToText for Wire<M> {
    fn text(&self, alloc: Global) -> Result<String, RowError> {
        let mut text = String::new(alloc);
        put_braced(alloc, &mut text, &self.message)?;
        Ok(text)
    }
}

impl<M: Message + Fields + PartialEq> TextCodec for Wire<M> {
    fn read(alloc: Global, word: &str) -> Result<Result<Wire<M>, String>, RowError> {
        match M::decode(alloc, bytes(alloc, word)?.as_slice()) {
            Ok(message) => Ok(Ok(Wire { message })),
            Err(fault) => Ok(Err(fault.to_string(alloc)?)),
        }
    }

    fn write(&self, alloc: Global) -> Result<String, RowError> {
        hex(alloc, self.message.encode(alloc)?.as_slice())
    }
}

impl Fields for TimestampPair {
    fn put(&self, _alloc: Global, out: &mut String) -> Result<(), RowError> {
        put_number(out, "seconds", self.seconds)?;
        put_number(out, "nanos", i64::from(self.nanos))
    }
}

impl Fields for Init {
    fn put(&self, alloc: Global, out: &mut String) -> Result<(), RowError> {
        put_text(alloc, out, "key", self.key.as_str())?;
        put_text(alloc, out, "hash_algorithm", self.hash_algorithm.as_str())
    }
}

impl Fields for GrantFlat {
    fn put(&self, alloc: Global, out: &mut String) -> Result<(), RowError> {
        put_text(alloc, out, "key", self.key.as_str())?;
        put_numbers(out, "permissions", self.permissions.as_slice())
    }
}

impl Fields for RevokeFlat {
    fn put(&self, alloc: Global, out: &mut String) -> Result<(), RowError> {
        put_text(alloc, out, "key_id", self.key_id.as_str())?;
        put_numbers(out, "permissions", self.permissions.as_slice())
    }
}

impl Fields for PackageRelease {
    fn put(&self, alloc: Global, out: &mut String) -> Result<(), RowError> {
        put_text(alloc, out, "version", self.version.as_str())?;
        put_text(alloc, out, "content_hash", self.content_hash.as_str())
    }
}

impl Fields for PackageYank {
    fn put(&self, alloc: Global, out: &mut String) -> Result<(), RowError> {
        put_text(alloc, out, "version", self.version.as_str())
    }
}

impl Fields for OperatorDefineNamespace {
    fn put(&self, alloc: Global, out: &mut String) -> Result<(), RowError> {
        put_text(alloc, out, "namespace", self.namespace.as_str())
    }
}

impl Fields for OperatorImportNamespace {
    fn put(&self, alloc: Global, out: &mut String) -> Result<(), RowError> {
        put_text(alloc, out, "namespace", self.namespace.as_str())?;
        put_text(alloc, out, "registry", self.registry.as_str())
    }
}

impl Fields for package_entry::Contents {
    fn put(&self, alloc: Global, out: &mut String) -> Result<(), RowError> {
        match self {
            package_entry::Contents::Init(init) => put_message(alloc, out, "init", init),
            package_entry::Contents::GrantFlat(grant) => {
                put_message(alloc, out, "grant_flat", grant)
            }
            package_entry::Contents::RevokeFlat(revoke) => {
                put_message(alloc, out, "revoke_flat", revoke)
            }
            package_entry::Contents::Release(release) => {
                put_message(alloc, out, "release", release)
            }
            package_entry::Contents::Yank(yank) => put_message(alloc, out, "yank", yank),
        }
    }
}

impl Fields for operator_entry::Contents {
    fn put(&self, alloc: Global, out: &mut String) -> Result<(), RowError> {
        match self {
            operator_entry::Contents::Init(init) => put_message(alloc, out, "init", init),
            operator_entry::Contents::GrantFlat(grant) => {
                put_message(alloc, out, "grant_flat", grant)
            }
            operator_entry::Contents::RevokeFlat(revoke) => {
                put_message(alloc, out, "revoke_flat", revoke)
            }
            operator_entry::Contents::DefineNamespace(define) => {
                put_message(alloc, out, "define_namespace", define)
            }
            operator_entry::Contents::ImportNamespace(import) => {
                put_message(alloc, out, "import_namespace", import)
            }
        }
    }
}

// The member of a oneof that is there.
fn put_member<C: Fields>(
    alloc: Global,
    out: &mut String,
    member: &Option<C>,
) -> Result<(), RowError> {
    match member {
        Some(member) => member.put(alloc, out),
        None => Ok(()),
    }
}

impl Fields for PackageEntry {
    fn put(&self, alloc: Global, out: &mut String) -> Result<(), RowError> {
        put_member(alloc, out, &self.contents)
    }
}

impl Fields for OperatorEntry {
    fn put(&self, alloc: Global, out: &mut String) -> Result<(), RowError> {
        put_member(alloc, out, &self.contents)
    }
}

impl<E: Fields> Fields for Record<Vec<E>> {
    fn put(&self, alloc: Global, out: &mut String) -> Result<(), RowError> {
        if let Some(prev) = &self.prev {
            put_present_text(alloc, out, "prev", prev.as_str())?;
        }
        put_number(out, "version", i64::from(self.version))?;
        if let Some(time) = &self.time {
            put_message(alloc, out, "time", time)?;
        }
        for entry in &self.entries {
            put_message(alloc, out, "entries", entry)?;
        }
        Ok(())
    }
}
