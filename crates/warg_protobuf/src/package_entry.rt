//! An entry of a package log.

ghost use Rattle.std.specs.Prelude.{◌≡◌, Option, IfOk};
ghost use Rattle.warg_protobuf.specs.MessageDrafts.{one_text_kept, two_texts_kept, member_kept, package_entry_made};
ghost use Rattle.warg_protobuf.specs.PackageEntry.{package_entry_table, PackageMember, package_entry_view, package_entry_from, IsPackageEntryOf, package_entry_fields, IsSoundPackageEntry};

use crate::entry::{EntryDraft, MemberDraft};
use crate::error::WireError;
use crate::grant_flat::PackageGrantFlat;
use crate::init::PackageInit;
use crate::message::Codec;
use crate::message_draft::read_draft;
use crate::nested::push_message;
use crate::release::PackageRelease;
use crate::revoke_flat::PackageRevokeFlat;
use crate::shape::{OneText, TwoTexts};
use crate::yank::PackageYank;
use std::alloc::{AllocError, Global};

/// The members of the oneof.
#[derive(Debug, Drop, PartialEq, Eq)]
pub enum Contents {
    /// Field 1.
    Init(PackageInit),
    /// Field 2.
    GrantFlat(PackageGrantFlat),
    /// Field 3.
    RevokeFlat(PackageRevokeFlat),
    /// Field 4.
    Release(PackageRelease),
    /// Field 5.
    Yank(PackageYank),
}

/// An entry of a package record; without a member it has no contents.
#[derive(Debug, Drop, PartialEq, Eq)]
pub struct PackageEntry {
    /// The longest final run of one member, its pieces joined.
    pub contents: Option<Contents>,
}

/// An entry that is read.
type MessageDraft<'a> = EntryDraft<'a, TwoTexts<'a>, OneText<'a>>;

impl PackageEntry {
    /// The message of what is kept.
    fn finish(alloc: Global, draft: MessageDraft<'_>) -> Result<PackageEntry, AllocError>
        ensures { IfOk result (λ v. package_entry_view v ≡ package_entry_made
            (member_kept two_texts_kept one_text_kept draft.entry.member)) }
    {
        let contents = match draft.member {
            MemberDraft::Absent => return Ok(PackageEntry { contents: None }),
            MemberDraft::Init(draft) => Contents::Init(PackageInit::finish(alloc, draft)?),
            MemberDraft::GrantFlat(draft) => Contents::GrantFlat(PackageGrantFlat::finish(
                alloc, draft,
            )?),
            MemberDraft::RevokeFlat(draft) => Contents::RevokeFlat(PackageRevokeFlat::finish(
                alloc, draft,
            )?),
            MemberDraft::FirstOwn(draft) => Contents::Release(PackageRelease::finish(
                alloc, draft,
            )?),
            MemberDraft::SecondOwn(draft) => Contents::Yank(PackageYank::finish(alloc, draft)?),
        };
        Ok(PackageEntry {
            contents: Some(contents),
        })
    }
}

impl Codec for PackageEntry {
    ghost table = { package_entry_table };

    ghost View = { Option PackageMember };

    ghost view = { package_entry_view };

    ghost Says = { IsPackageEntryOf };

    ghost value = { package_entry_from };

    ghost TakesMemory = { λ _. Unit {0} };

    fn read(alloc: Global, bytes: &[u8]) -> Result<PackageEntry, WireError> {
        let draft = read_draft::<MessageDraft<'_>>(alloc, bytes)?;
        Ok(PackageEntry::finish(alloc, draft)?)
    }

    ghost written_fields = { package_entry_fields };

    ghost is_sound = { IsSoundPackageEntry };

    fn write(&self, alloc: Global, out: &mut Vec<u8>) -> Result<(), AllocError> {
        match &self.contents {
            None => Ok(()),
            Some(Contents::Init(member)) => push_message::<PackageInit>(alloc, out, 1, member),
            Some(Contents::GrantFlat(member)) => push_message::<PackageGrantFlat>(
                alloc, out, 2, member,
            ),
            Some(Contents::RevokeFlat(member)) => push_message::<PackageRevokeFlat>(
                alloc, out, 3, member,
            ),
            Some(Contents::Release(member)) => push_message::<PackageRelease>(
                alloc, out, 4, member,
            ),
            Some(Contents::Yank(member)) => push_message::<PackageYank>(alloc, out, 5, member),
        }
    }

    fn laws() {}
}
