//! Entries that grant permissions.

ghost use Rattle.std.specs.Prelude.{◌≡◌, IfOk};
ghost use Rattle.warg_protobuf.specs.MessageDrafts.{text_and_numbers_kept, grant_flat_made};
ghost use Rattle.warg_protobuf.specs.GrantFlat.{grant_flat_table, GrantFlatValue, grant_flat_view, grant_flat_from, IsGrantFlatOf, grant_flat_fields, IsSoundGrantFlat};

use crate::error::WireError;
use crate::message::Codec;
use crate::message_draft::read_draft;
use crate::shape::{TextAndNumbers, push_text_and_numbers};
use std::alloc::{AllocError, Global};

/// Gives permissions to a key.
#[derive(Debug, Drop, PartialEq, Eq)]
pub struct GrantFlat {
    /// Field 1: the text of the key that gains the permissions.
    pub key: String,
    /// Field 2: permissions by number, in order; packed when written, packed and unpacked mixed when read.
    pub permissions: Vec<i32>,
}

/// In an operator log.
pub type OperatorGrantFlat = GrantFlat;

/// In a package log.
pub type PackageGrantFlat = GrantFlat;

impl GrantFlat {
    /// The message of what is kept.
    pub(crate) fn finish(alloc: Global, draft: TextAndNumbers<'_>) -> Result<GrantFlat, AllocError>
        ensures { IfOk result (λ v. grant_flat_view v ≡
            grant_flat_made (text_and_numbers_kept draft.entry)) }
    {
        Ok(GrantFlat {
            key: String::from_str(alloc, draft.text)?,
            permissions: draft.numbers,
        })
    }
}

impl Codec for GrantFlat {
    ghost table = { grant_flat_table };

    ghost View = { GrantFlatValue };

    ghost view = { grant_flat_view };

    ghost Says = { IsGrantFlatOf };

    ghost value = { grant_flat_from };

    ghost TakesMemory = { λ _. Unit {0} };

    fn read(alloc: Global, bytes: &[u8]) -> Result<GrantFlat, WireError> {
        let draft = read_draft::<TextAndNumbers<'_>>(alloc, bytes)?;
        Ok(GrantFlat::finish(alloc, draft)?)
    }

    ghost written_fields = { grant_flat_fields };

    ghost is_sound = { IsSoundGrantFlat };

    fn write(&self, alloc: Global, out: &mut Vec<u8>) -> Result<(), AllocError> {
        push_text_and_numbers(alloc, out, &self.key, &self.permissions)
    }

    fn laws() {}
}
