//! Laws over all logs of a kind, and when the public types of plain data are equal. They have no effect.
ghost use Rattle.std.specs.Prelude.{◌≡◌, ◌↔◌, ◌⊎◌, ◌<◌, ◌+◌, ◌++◌, ℕ, List, [], length, take, Option, Some, slice_index_or, true, false};
ghost use Rattle.warg_envelope.specs.EnvelopeData.{EnvelopeData};
ghost use Rattle.warg_log_records.specs.declared.record_id.RecordId.{RecordId};
ghost use Rattle.warg_log_records.specs.Effects.{holds};
ghost use Rattle.warg_log_records.specs.Kinds.{SignatureRelation, IsAccepted};
ghost use Rattle.warg_replay.specs.AuditedLog.Chains.{Entry, entries_of, held_by, IsHeld};
ghost use Rattle.warg_replay.specs.AuditedLog.Comparisons.{IsComparison};
ghost use Rattle.warg_replay.specs.AuditedLog.Extinction.{StaysExtinct};
ghost use Rattle.warg_replay.specs.AuditedLog.Heads.{HaveCollision};
ghost use Rattle.warg_replay.specs.AuditedLog.Log.{contents};
ghost use Rattle.warg_replay.specs.declared.audited_log.comparison.Comparison.{Comparison};
ghost use Rattle.warg_replay.specs.declared.audited_log.heads.HeadComparison.{HeadComparison};
ghost use Rattle.warg_replay.specs.declared.audited_log.link.Link.{Link};

use crate::Validator;
use crate::audited_log::comparison::Comparison;
use crate::audited_log::heads::HeadComparison;
use crate::audited_log::link::Link;

/// Accepted logs with equal heads have equal content bytes, record for record, or two of their records
/// collide, whoever verified them.
pub fn equal_heads<L: Validator>()
    ensures { (b d : SignatureRelation) (es fs : List EnvelopeData) → IsAccepted L.kind b es →
        IsAccepted L.kind d fs →
        L.kind.head (L.kind.view_of es) ≡ L.kind.head (L.kind.view_of fs) →
        (contents es ≡ contents fs) ⊎ HaveCollision L.kind.id (contents es) (contents fs) }
{}

/// Accepted logs with equal content bytes, record for record, have one head.
pub fn equal_contents<L: Validator>()
    ensures { (b d : SignatureRelation) (es fs : List EnvelopeData) → IsAccepted L.kind b es →
        IsAccepted L.kind d fs →
        contents es ≡ contents fs → L.kind.head (L.kind.view_of es) ≡
        L.kind.head (L.kind.view_of fs) }
{}

/// An accepted log whose head is the id of a record of another has the contents of the other up to that
/// record, or two of their records collide.
pub fn fronts<L: Validator>()
    ensures { (b d : SignatureRelation) (es fs : List EnvelopeData) (n : ℕ) →
        IsAccepted L.kind b es →
        IsAccepted L.kind d fs → n < length fs →
        L.kind.head (L.kind.view_of es) ≡ Some (L.kind.id (slice_index_or (contents fs) n [])) →
        (contents es ≡ take (n + 1) (contents fs)) ⊎
        HaveCollision L.kind.id (contents es) (contents fs) }
{}

/// Exactly one comparison holds of two accepted logs: some does, and two that hold are one.
pub fn one_comparison<L: Validator>()
    ensures some { (b d : SignatureRelation) (es fs : List EnvelopeData) → IsAccepted L.kind b es →
        IsAccepted L.kind d fs →
        ((c : Comparison) × IsComparison (L.kind.head (L.kind.view_of es))
        (L.kind.head (L.kind.view_of fs))
        (contents es) (contents fs) c) }
    ensures only { (left right : Option RecordId) (ls rs : List (List ℕ)) (c e : Comparison) →
        IsComparison left right ls rs c → IsComparison left right ls rs e → c ≡ e }
{}

/// A permission that no key id holds after the records of a log that has any, none holds after more of them.
pub fn extinction<L: Validator>()
    ensures { (b : SignatureRelation) (es fs : List EnvelopeData) → IsAccepted L.kind b (es ++ fs) →
        StaysExtinct L.effects es (es ++ fs) }
{}

/// A key id holds a permission after entries exactly if the last of them that speaks of both gives it, and the
/// entries of records are all of theirs, in one list.
pub fn last_entry_decides<L: Validator>()
    ensures held { (h : List (Entry L.Permission)) (k : List ℕ) (p : L.Permission) →
        (held_by false h k p ≡ true) ↔
        IsHeld h k p }
    ensures records { (es : List EnvelopeData) (k : List ℕ) (p : L.Permission) →
        held_by false (entries_of L.effects es) k p ≡ holds L.effects es k p }
{}

/// `==` of two comparisons of logs, of two comparisons of heads, and of two places of entries, is true exactly where they
/// are identical.
pub fn equality()
    ensures comparisons { (a b : Comparison) →
        (⟦<Comparison as PartialEq>⟧.eq a b ≡ true) ↔ (a ≡ b) }
    ensures head_comparisons { (a b : HeadComparison) →
        (⟦<HeadComparison as PartialEq>⟧.eq a b ≡ true) ↔ (a ≡ b) }
    ensures links { (a b : Link) → (⟦<Link as PartialEq>⟧.eq a b ≡ true) ↔ (a ≡ b) }
{}
