//! The head of a saved state.
ghost use Rattle.std.specs.Prelude.{◌≡◌, OnErr, OnOk, Some, codes};
ghost use Rattle.std.specs.Option.{option_map};
ghost use Rattle.serde_json.specs.View.{members_view, view};
ghost use Rattle.warg_crypto.specs.Json.Json.{ReturnsOrNoMemory, IsReadBack};
ghost use Rattle.warg_crypto.specs.Json.Members.{optional_member, put_option};
ghost use Rattle.warg_saved_states.specs.Texts.{PutsText};
ghost use Rattle.warg_log.specs.HeadJson.{head_in, head_json};
ghost use Rattle.warg_log.specs.declared.head.Head.{Head as OfHead};

use crate::head::Head;
use serde_json::{Map, Value};
use std::alloc::Global;
use warg_crypto::json::JsonError;
use warg_crypto::json::members::{optional_member, put_value};
use warg_saved_states::MemberTexts;

/// Puts the head, if there is one. Where that fails, the object is as it was.
pub fn put_head(
    members: &mut Map<String, Value>,
    alloc: Global,
    head: &Option<Head>,
) -> Result<(), JsonError>
    ensures written { ReturnsOrNoMemory (λ _. members_view members.new.entries) result
        (put_option head_json (codes "head") head.now (members_view members.old.entries)) }
    ensures back { OnOk result ((h : OfHead) → head.now ≡ Some h →
        IsReadBack head_json head_in (λ x y. x ≡ y) h) }
    ensures kept { OnErr result (members_view members.new.entries ≡
        members_view members.old.entries) }
{
    let Some(head) = head else {
        return Ok(());
    };
    put_value(members, alloc, "head", head)
}

/// Puts the head as text, if there is one. After an error the texts are of no use.
pub fn put_head_text(members: &mut MemberTexts, head: &Option<Head>) -> Result<(), JsonError>
    ensures written { PutsText (put_option head_json (codes "head") head.now) result
        members.old members.new }
    ensures back { OnOk result ((h : OfHead) → head.now ≡ Some h →
        IsReadBack head_json head_in (λ x y. x ≡ y) h) }
{
    members.put_optional("head", head)
}

/// The head of a state, where a missing one and null are none.
pub fn head_member(alloc: Global, value: &Value) -> Result<Option<Head>, JsonError>
    ensures { ReturnsOrNoMemory (λ h. h) result
        (optional_member head_in (codes "head") (view value.now)) }
{
    optional_member::<Head>(alloc, value, "head")
}

/// The version of the head, if there is one.
pub fn head_version(head: &Option<Head>) -> Option<u32>
    ensures { result ≡ option_map (λ h. h.version) head.now }
{
    match head {
        Some(head) => Some(head.version),
        None => None,
    }
}
