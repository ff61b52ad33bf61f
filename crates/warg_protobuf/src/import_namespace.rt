//! The entry that imports a namespace.

ghost use Rattle.std.specs.Prelude.{◌≡◌, IfOk, IsOk};
ghost use Rattle.warg_protobuf.specs.MessageDrafts.{two_texts_kept, import_namespace_made};
ghost use Rattle.warg_protobuf.specs.ImportNamespace.{import_namespace_table, ImportNamespaceValue, import_namespace_view, import_namespace_from, IsImportNamespaceOf, import_namespace_fields, IsSoundImportNamespace};

use crate::error::WireError;
use crate::message::Codec;
use crate::message_draft::read_draft;
use crate::shape::{TwoTexts, push_two_texts};
use std::alloc::{AllocError, Global};

/// Imports a namespace of another registry.
#[derive(Debug, Drop, PartialEq, Eq)]
pub struct OperatorImportNamespace {
    /// Field 1: the namespace.
    pub namespace: String,
    /// Field 2: the registry that owns it.
    pub registry: String,
}

impl OperatorImportNamespace {
    /// The message of what is kept.
    pub(crate) fn finish(
        alloc: Global,
        draft: TwoTexts<'_>,
    ) -> Result<OperatorImportNamespace, AllocError>
        ensures { IfOk result (λ v. import_namespace_view v ≡
            import_namespace_made (two_texts_kept draft.entry)) }
    {
        Ok(OperatorImportNamespace {
            namespace: String::from_str(alloc, draft.first)?,
            registry: String::from_str(alloc, draft.second)?,
        })
    }
}

impl Codec for OperatorImportNamespace {
    ghost table = { import_namespace_table };

    ghost View = { ImportNamespaceValue };

    ghost view = { import_namespace_view };

    ghost Says = { IsImportNamespaceOf };

    ghost value = { import_namespace_from };

    ghost TakesMemory = { λ said. IsOk said };

    fn read(alloc: Global, bytes: &[u8]) -> Result<OperatorImportNamespace, WireError> {
        let draft = read_draft::<TwoTexts<'_>>(alloc, bytes)?;
        Ok(OperatorImportNamespace::finish(alloc, draft)?)
    }

    ghost written_fields = { import_namespace_fields };

    ghost is_sound = { IsSoundImportNamespace };

    fn write(&self, _alloc: Global, out: &mut Vec<u8>) -> Result<(), AllocError> {
        push_two_texts(out, &self.namespace, &self.registry)
    }

    fn laws() {}
}
