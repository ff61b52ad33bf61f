//! The entry that releases a version.

ghost use Rattle.std.specs.Prelude.{◌≡◌, IfOk, IsOk};
ghost use Rattle.warg_protobuf.specs.MessageDrafts.{two_texts_kept, release_made};
ghost use Rattle.warg_protobuf.specs.Release.{release_table, ReleaseValue, release_view, release_from, IsReleaseOf, release_fields, IsSoundRelease};

use crate::error::WireError;
use crate::message::Codec;
use crate::message_draft::read_draft;
use crate::shape::{TwoTexts, push_two_texts};
use std::alloc::{AllocError, Global};

/// Releases a version of a package.
#[derive(Debug, Drop, PartialEq, Eq)]
pub struct PackageRelease {
    /// Field 1: the version's text.
    pub version: String,
    /// Field 2: the text of the content's hash.
    pub content_hash: String,
}

impl PackageRelease {
    /// The message of what is kept.
    pub(crate) fn finish(alloc: Global, draft: TwoTexts<'_>) -> Result<PackageRelease, AllocError>
        ensures { IfOk result (λ v. release_view v ≡ release_made (two_texts_kept draft.entry)) }
    {
        Ok(PackageRelease {
            version: String::from_str(alloc, draft.first)?,
            content_hash: String::from_str(alloc, draft.second)?,
        })
    }
}

impl Codec for PackageRelease {
    ghost table = { release_table };

    ghost View = { ReleaseValue };

    ghost view = { release_view };

    ghost Says = { IsReleaseOf };

    ghost value = { release_from };

    ghost TakesMemory = { λ said. IsOk said };

    fn read(alloc: Global, bytes: &[u8]) -> Result<PackageRelease, WireError> {
        let draft = read_draft::<TwoTexts<'_>>(alloc, bytes)?;
        Ok(PackageRelease::finish(alloc, draft)?)
    }

    ghost written_fields = { release_fields };

    ghost is_sound = { IsSoundRelease };

    fn write(&self, _alloc: Global, out: &mut Vec<u8>) -> Result<(), AllocError> {
        push_two_texts(out, &self.version, &self.content_hash)
    }

    fn laws() {}
}
