//! The oneof of an entry while it is read: the run of the member that came last.

ghost use Rattle.std.specs.Prelude.{◌≡◌};
ghost use Rattle.warg_protobuf.specs.MessageDrafts.{TwoTextsKept, two_texts_kept, TextAndNumbersKept, text_and_numbers_kept, MemberKept, member_kept, no_member, member_with, init_so_far, grant_flat_so_far, revoke_flat_so_far, first_own_so_far, second_own_so_far};
ghost use Rattle.warg_protobuf.specs.Entry.{entry_table};
ghost use Rattle.warg_protobuf.specs.Table.{takes};

use crate::error::WireError;
use crate::field::{RawField, RawPayload};
use crate::message_draft::{MessageDraft, grown};
use crate::shape::{TextAndNumbers, TwoTexts};
use std::alloc::Global;
use std::mem;

/// What is kept of the last member's run. The last two members are those of the entry's own kind.
#[derive(Drop)]
pub(crate) enum MemberDraft<'a, F, G> {
    Absent,
    Init(TwoTexts<'a>),
    GrantFlat(TextAndNumbers<'a>),
    RevokeFlat(TextAndNumbers<'a>),
    FirstOwn(F),
    SecondOwn(G),
}

/// An entry that is read. Where another member begins, the run before it is dropped; its faults have counted.
#[derive(Drop)]
pub(crate) struct EntryDraft<'a, F, G> {
    alloc: Global,
    pub member: MemberDraft<'a, F, G>,
}

impl<'a, F: MessageDraft<'a>, G: MessageDraft<'a>> EntryDraft<'a, F, G> {
    fn take_init(&mut self) -> TwoTexts<'a>
        ensures { two_texts_kept result ≡
            init_so_far (member_kept F.kept_data G.kept_data self.old.member) }
    {
        match mem::replace(&mut self.member, MemberDraft::Absent) {
            MemberDraft::Init(draft) => draft,
            _ => TwoTexts::new(self.alloc),
        }
    }

    fn take_grant_flat(&mut self) -> TextAndNumbers<'a>
        ensures { text_and_numbers_kept result ≡
            grant_flat_so_far (member_kept F.kept_data G.kept_data self.old.member) }
    {
        match mem::replace(&mut self.member, MemberDraft::Absent) {
            MemberDraft::GrantFlat(draft) => draft,
            _ => TextAndNumbers::new(self.alloc),
        }
    }

    fn take_revoke_flat(&mut self) -> TextAndNumbers<'a>
        ensures { text_and_numbers_kept result ≡
            revoke_flat_so_far (member_kept F.kept_data G.kept_data self.old.member) }
    {
        match mem::replace(&mut self.member, MemberDraft::Absent) {
            MemberDraft::RevokeFlat(draft) => draft,
            _ => TextAndNumbers::new(self.alloc),
        }
    }

    fn take_first_own(&mut self) -> F
        ensures { F.kept_data result ≡ first_own_so_far F.empty
            (member_kept F.kept_data G.kept_data self.old.member) }
    {
        match mem::replace(&mut self.member, MemberDraft::Absent) {
            MemberDraft::FirstOwn(draft) => draft,
            _ => F::new(self.alloc),
        }
    }

    fn take_second_own(&mut self) -> G
        ensures { G.kept_data result ≡ second_own_so_far G.empty
            (member_kept F.kept_data G.kept_data self.old.member) }
    {
        match mem::replace(&mut self.member, MemberDraft::Absent) {
            MemberDraft::SecondOwn(draft) => draft,
            _ => G::new(self.alloc),
        }
    }
}

impl<'a, F: MessageDraft<'a>, G: MessageDraft<'a>> MessageDraft<'a> for EntryDraft<'a, F, G> {
    ghost table = { entry_table F.table G.table };

    ghost KeptData = { MemberKept F.KeptData G.KeptData };

    ghost kept_data = { λ d. member_kept F.kept_data G.kept_data d.member };

    ghost empty = { no_member };

    ghost with_field = { member_with F.table F.with_field F.empty G.table G.with_field G.empty };

    ghost TakesMemory = { Unit {0} };

    fn new(alloc: Global) -> Self {
        EntryDraft {
            alloc,
            member: MemberDraft::Absent,
        }
    }

    fn takes(number: u32, wire_type: u32) -> bool
        ensures { result ≡ takes (entry_table F.table G.table) number wire_type }
    {
        match number {
            1 | 2 | 3 | 4 | 5 => wire_type == 2,
            _ => true,
        }
    }

    #[tactic(auto, unfolding(crate::specs::Reading::payload_fault))]
    fn grow(&mut self, field: RawField<'a>) -> Result<(), WireError> {
        let RawPayload::Bytes(bytes) = field.payload else {
            return Ok(());
        };
        match field.number {
            1 => self.member = MemberDraft::Init(grown(self.take_init(), bytes)?),
            2 => self.member = MemberDraft::GrantFlat(grown(self.take_grant_flat(), bytes)?),
            3 => self.member = MemberDraft::RevokeFlat(grown(self.take_revoke_flat(), bytes)?),
            4 => self.member = MemberDraft::FirstOwn(grown(self.take_first_own(), bytes)?),
            5 => self.member = MemberDraft::SecondOwn(grown(self.take_second_own(), bytes)?),
            _ => {}
        }
        Ok(())
    }
}
