//! Entries that revoke permissions.

ghost use Rattle.std.specs.Prelude.{◌≡◌, IfOk};
ghost use Rattle.warg_protobuf.specs.MessageDrafts.{text_and_numbers_kept, revoke_flat_made};
ghost use Rattle.warg_protobuf.specs.RevokeFlat.{revoke_flat_table, RevokeFlatValue, revoke_flat_view, revoke_flat_from, IsRevokeFlatOf, revoke_flat_fields, IsSoundRevokeFlat};

use crate::error::WireError;
use crate::message::Codec;
use crate::message_draft::read_draft;
use crate::shape::{TextAndNumbers, push_text_and_numbers};
use std::alloc::{AllocError, Global};

/// Takes permissions from a key.
#[derive(Debug, Drop, PartialEq, Eq)]
pub struct RevokeFlat {
    /// Field 1: the id of the key that loses the permissions.
    pub key_id: String,
    /// Field 2: permissions by number, in order; packed when written, packed and unpacked mixed when read.
    pub permissions: Vec<i32>,
}

/// In an operator log.
pub type OperatorRevokeFlat = RevokeFlat;

/// In a package log.
pub type PackageRevokeFlat = RevokeFlat;

impl RevokeFlat {
    /// The message of what is kept.
    pub(crate) fn finish(alloc: Global, draft: TextAndNumbers<'_>) -> Result<RevokeFlat, AllocError>
        ensures { IfOk result (λ v. revoke_flat_view v ≡
            revoke_flat_made (text_and_numbers_kept draft.entry)) }
    {
        Ok(RevokeFlat {
            key_id: String::from_str(alloc, draft.text)?,
            permissions: draft.numbers,
        })
    }
}

impl Codec for RevokeFlat {
    ghost table = { revoke_flat_table };

    ghost View = { RevokeFlatValue };

    ghost view = { revoke_flat_view };

    ghost Says = { IsRevokeFlatOf };

    ghost value = { revoke_flat_from };

    ghost TakesMemory = { λ _. Unit {0} };

    fn read(alloc: Global, bytes: &[u8]) -> Result<RevokeFlat, WireError> {
        let draft = read_draft::<TextAndNumbers<'_>>(alloc, bytes)?;
        Ok(RevokeFlat::finish(alloc, draft)?)
    }

    ghost written_fields = { revoke_flat_fields };

    ghost is_sound = { IsSoundRevokeFlat };

    fn write(&self, alloc: Global, out: &mut Vec<u8>) -> Result<(), AllocError> {
        push_text_and_numbers(alloc, out, &self.key_id, &self.permissions)
    }

    fn laws() {}
}
