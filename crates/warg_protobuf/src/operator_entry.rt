//! An entry of an operator log.

ghost use Rattle.std.specs.Prelude.{◌≡◌, Option, IfOk};
ghost use Rattle.warg_protobuf.specs.MessageDrafts.{one_text_kept, two_texts_kept, member_kept, operator_entry_made};
ghost use Rattle.warg_protobuf.specs.OperatorEntry.{operator_entry_table, OperatorMember, operator_entry_view, operator_entry_from, IsOperatorEntryOf, operator_entry_fields, IsSoundOperatorEntry};

use crate::define_namespace::OperatorDefineNamespace;
use crate::entry::{EntryDraft, MemberDraft};
use crate::error::WireError;
use crate::grant_flat::OperatorGrantFlat;
use crate::import_namespace::OperatorImportNamespace;
use crate::init::OperatorInit;
use crate::message::Codec;
use crate::message_draft::read_draft;
use crate::nested::push_message;
use crate::revoke_flat::OperatorRevokeFlat;
use crate::shape::{OneText, TwoTexts};
use std::alloc::{AllocError, Global};

/// The members of the oneof.
#[derive(Debug, Drop, PartialEq, Eq)]
pub enum Contents {
    /// Field 1.
    Init(OperatorInit),
    /// Field 2.
    GrantFlat(OperatorGrantFlat),
    /// Field 3.
    RevokeFlat(OperatorRevokeFlat),
    /// Field 4.
    DefineNamespace(OperatorDefineNamespace),
    /// Field 5.
    ImportNamespace(OperatorImportNamespace),
}

/// An entry of an operator record; without a member it has no contents.
#[derive(Debug, Drop, PartialEq, Eq)]
pub struct OperatorEntry {
    /// The longest final run of one member, its pieces joined.
    pub contents: Option<Contents>,
}

/// An entry that is read.
type MessageDraft<'a> = EntryDraft<'a, OneText<'a>, TwoTexts<'a>>;

impl OperatorEntry {
    /// The message of what is kept.
    fn finish(alloc: Global, draft: MessageDraft<'_>) -> Result<OperatorEntry, AllocError>
        ensures { IfOk result (λ v. operator_entry_view v ≡ operator_entry_made
            (member_kept one_text_kept two_texts_kept draft.entry.member)) }
    {
        let contents = match draft.member {
            MemberDraft::Absent => return Ok(OperatorEntry { contents: None }),
            MemberDraft::Init(draft) => Contents::Init(OperatorInit::finish(alloc, draft)?),
            MemberDraft::GrantFlat(draft) => Contents::GrantFlat(OperatorGrantFlat::finish(
                alloc, draft,
            )?),
            MemberDraft::RevokeFlat(draft) => Contents::RevokeFlat(OperatorRevokeFlat::finish(
                alloc, draft,
            )?),
            MemberDraft::FirstOwn(draft) => Contents::DefineNamespace(
                OperatorDefineNamespace::finish(alloc, draft)?,
            ),
            MemberDraft::SecondOwn(draft) => Contents::ImportNamespace(
                OperatorImportNamespace::finish(alloc, draft)?,
            ),
        };
        Ok(OperatorEntry {
            contents: Some(contents),
        })
    }
}

impl Codec for OperatorEntry {
    ghost table = { operator_entry_table };

    ghost View = { Option OperatorMember };

    ghost view = { operator_entry_view };

    ghost Says = { IsOperatorEntryOf };

    ghost value = { operator_entry_from };

    ghost TakesMemory = { λ _. Unit {0} };

    fn read(alloc: Global, bytes: &[u8]) -> Result<OperatorEntry, WireError> {
        let draft = read_draft::<MessageDraft<'_>>(alloc, bytes)?;
        Ok(OperatorEntry::finish(alloc, draft)?)
    }

    ghost written_fields = { operator_entry_fields };

    ghost is_sound = { IsSoundOperatorEntry };

    fn write(&self, alloc: Global, out: &mut Vec<u8>) -> Result<(), AllocError> {
        match &self.contents {
            None => Ok(()),
            Some(Contents::Init(member)) => push_message::<OperatorInit>(alloc, out, 1, member),
            Some(Contents::GrantFlat(member)) => push_message::<OperatorGrantFlat>(
                alloc, out, 2, member,
            ),
            Some(Contents::RevokeFlat(member)) => push_message::<OperatorRevokeFlat>(
                alloc, out, 3, member,
            ),
            Some(Contents::DefineNamespace(member)) => push_message::<OperatorDefineNamespace>(
                alloc, out, 4, member,
            ),
            Some(Contents::ImportNamespace(member)) => push_message::<OperatorImportNamespace>(
                alloc, out, 5, member,
            ),
        }
    }

    fn laws() {}
}
