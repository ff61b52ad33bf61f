//! The entry that defines a namespace.

ghost use Rattle.std.specs.Prelude.{◌≡◌, IfOk, IsOk};
ghost use Rattle.warg_protobuf.specs.MessageDrafts.{one_text_kept, define_namespace_made};
ghost use Rattle.warg_protobuf.specs.DefineNamespace.{define_namespace_table, DefineNamespaceValue, define_namespace_view, define_namespace_from, IsDefineNamespaceOf, define_namespace_fields, IsSoundDefineNamespace};

use crate::error::WireError;
use crate::message::Codec;
use crate::message_draft::read_draft;
use crate::shape::{OneText, push_one_text};
use std::alloc::{AllocError, Global};

/// Defines a namespace of this registry.
#[derive(Debug, Drop, PartialEq, Eq)]
pub struct OperatorDefineNamespace {
    /// Field 1: the namespace.
    pub namespace: String,
}

impl OperatorDefineNamespace {
    /// The message of what is kept.
    pub(crate) fn finish(
        alloc: Global,
        draft: OneText<'_>,
    ) -> Result<OperatorDefineNamespace, AllocError>
        ensures { IfOk result (λ v. define_namespace_view v ≡
            define_namespace_made (one_text_kept draft.entry)) }
    {
        Ok(OperatorDefineNamespace {
            namespace: String::from_str(alloc, draft.text)?,
        })
    }
}

impl Codec for OperatorDefineNamespace {
    ghost table = { define_namespace_table };

    ghost View = { DefineNamespaceValue };

    ghost view = { define_namespace_view };

    ghost Says = { IsDefineNamespaceOf };

    ghost value = { define_namespace_from };

    ghost TakesMemory = { λ said. IsOk said };

    fn read(alloc: Global, bytes: &[u8]) -> Result<OperatorDefineNamespace, WireError> {
        let draft = read_draft::<OneText<'_>>(alloc, bytes)?;
        Ok(OperatorDefineNamespace::finish(alloc, draft)?)
    }

    ghost written_fields = { define_namespace_fields };

    ghost is_sound = { IsSoundDefineNamespace };

    fn write(&self, _alloc: Global, out: &mut Vec<u8>) -> Result<(), AllocError> {
        push_one_text(out, &self.namespace)
    }

    fn laws() {}
}
