//! The entry that yanks a version.

ghost use Rattle.std.specs.Prelude.{◌≡◌, IfOk, IsOk};
ghost use Rattle.warg_protobuf.specs.MessageDrafts.{one_text_kept, yank_made};
ghost use Rattle.warg_protobuf.specs.Yank.{yank_table, YankValue, yank_view, yank_from, IsYankOf, yank_fields, IsSoundYank};

use crate::error::WireError;
use crate::message::Codec;
use crate::message_draft::read_draft;
use crate::shape::{OneText, push_one_text};
use std::alloc::{AllocError, Global};

/// Yanks a released version of a package.
#[derive(Debug, Drop, PartialEq, Eq)]
pub struct PackageYank {
    /// Field 1: the version's text.
    pub version: String,
}

impl PackageYank {
    /// The message of what is kept.
    pub(crate) fn finish(alloc: Global, draft: OneText<'_>) -> Result<PackageYank, AllocError>
        ensures { IfOk result (λ v. yank_view v ≡ yank_made (one_text_kept draft.entry)) }
    {
        Ok(PackageYank {
            version: String::from_str(alloc, draft.text)?,
        })
    }
}

impl Codec for PackageYank {
    ghost table = { yank_table };

    ghost View = { YankValue };

    ghost view = { yank_view };

    ghost Says = { IsYankOf };

    ghost value = { yank_from };

    ghost TakesMemory = { λ said. IsOk said };

    fn read(alloc: Global, bytes: &[u8]) -> Result<PackageYank, WireError> {
        let draft = read_draft::<OneText<'_>>(alloc, bytes)?;
        Ok(PackageYank::finish(alloc, draft)?)
    }

    ghost written_fields = { yank_fields };

    ghost is_sound = { IsSoundYank };

    fn write(&self, _alloc: Global, out: &mut Vec<u8>) -> Result<(), AllocError> {
        push_one_text(out, &self.version)
    }

    fn laws() {}
}
