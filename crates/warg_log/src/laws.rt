//! What holds of every log of every kind.
ghost use Rattle.std.specs.Prelude.{◌≡◌, ◌↔◌, ℕ, List, Result, true, IfSome, ◌<◌, IsOk, All, length, map};
ghost use Rattle.warg_envelope.specs.Faults.{RecordFault};
ghost use Rattle.warg_envelope.specs.EnvelopeData.{EnvelopeData};
ghost use Rattle.warg_log_records.specs.RecordData.{EntryData, RecordData};
ghost use Rattle.warg_log_records.specs.declared.effect.Effect.TheVariants.{Gives};
ghost use Rattle.warg_log_records.specs.Effects as effects;
ghost use Rattle.warg_log_records.specs.Effects.{GivesWhatIsHeld};
ghost use Rattle.warg_log_records.specs.Kinds.{SignatureRelation, KindLaws, view_after, IsAccepted};
ghost use Rattle.warg_log.specs.Admissions.{NoKeyBringsItselfIn};
ghost use Rattle.warg_permissions.specs.KeyMaps.AuthorityData.{AuthorityData};
ghost use Rattle.warg_log.specs.Equal.{IsEquivalent, same_states};
ghost use Rattle.warg_log.specs.Forms.{HasForm};
ghost use Rattle.warg_log.specs.History.{PlacedEvent, Holds, holds, entry_on};
ghost use Rattle.warg_log.specs.Rules.{View, SignedRecord, record_offence, start, Event};
ghost use Rattle.warg_log.specs.Listings.{IsGift};
ghost use Rattle.warg_log.specs.KindOfRules.{kind_of, effects_of, effect_of, signed_record_of};
ghost use Rattle.warg_log.specs.Offences.{offence_of};
ghost use Rattle.warg_log.specs.PossibleOffences.{IsPossible};
ghost use Rattle.warg_log.specs.States.{State, view_of_state};
ghost use Rattle.warg_log.specs.declared.head.Head.{Head};
ghost use Rattle.warg_log.specs.declared.log_error.LogError.{LogError};

use crate::head::Head;
use crate::own_state::OwnState;

/// The rules of a log are those of a kind, whatever content bytes are read as: what lawful records say
/// together, by one list of their entries, is what they make one by one.
pub fn is_a_kind<M: OwnState>()
    ensures { (read : List ℕ → Result (RecordData M.Permission M.Own) RecordFault) →
        KindLaws (kind_of M.rules M.Permission.eq read (M.rules.after M.rules.start)) }
{}

/// What an entry of a lawful record gives, its signer held, but for the Init that begins the log.
pub fn gives_what_is_held<M: OwnState>()
    ensures { (read : List ℕ → Result (RecordData M.Permission M.Own) RecordFault) →
        GivesWhatIsHeld (kind_of M.rules M.Permission.eq read (M.rules.after M.rules.start))
        (effects_of M.rules M.Permission.eq read) }
{}

/// Logs are equal exactly if their views are equivalent.
pub fn equal_logs_are_equivalent<M: OwnState>()
    ensures { (s t : State (AuthorityData M.Permission) M) →
        (same_states M.Permission.eq M.eq s t ≡ true) ↔
        IsEquivalent M.equivalent (view_of_state M.Permission.eq M.view s)
        (view_of_state M.Permission.eq M.view t) }
{}

/// `==` of two heads is true exactly where they are identical.
pub fn equal_heads()
    ensures { (a b : Head) → (⟦<Head as PartialEq>⟧.eq a b ≡ true) ↔ (a ≡ b) }
{}

/// No two errors name the same offence.
pub fn refusals_tell_apart<P>()
    ensures { (r s : LogError P) → offence_of r ≡ offence_of s → r ≡ s }
{}

/// What is wrong with a record is never out of memory within another error, nor a second algorithm,
/// nor that its bytes are no record: the record is held.
pub fn offences_are_possible<M: OwnState>()
    ensures { (belongs : SignatureRelation) (v : View M.Permission M.View)
        (e : SignedRecord M.Permission M.Own) →
        IfSome (record_offence M.rules M.Permission.eq belongs v e) IsPossible }
{}

/// What the entries of records do to permissions, one after another, is what the view of those records holds.
pub fn effects_are_what_is_held<M: OwnState>()
    ensures { (read : List ℕ → Result (RecordData M.Permission M.Own) RecordFault)
        (es : List EnvelopeData)
        (k : List ℕ)
        (p : M.Permission) → effects.holds (effects_of M.rules M.Permission.eq read) es k p ≡
        (view_after (kind_of M.rules M.Permission.eq read (M.rules.after M.rules.start))
        (start M.rules M.Permission.eq) es).state.authority.holds k p }
{}

/// A key holds a permission exactly if some entry speaks of both, and the last such entry gives.
pub fn last_entry_decides<M: OwnState>()
    ensures { (h : List (PlacedEvent (EntryData M.Permission M.Own))) (k : List ℕ)
        (p : M.Permission) →
        (holds M.Permission.eq h k p ≡ true) ↔ Holds M.Permission.eq h k p }
{}

/// An entry gives a permission to a key exactly if it is an Init that the key signed, or a grant to the
/// key that lists it.
pub fn gifts<M: OwnState>()
    ensures { (signer k : List ℕ) (p : M.Permission) (r : EntryData M.Permission M.Own) →
        (effect_of (entry_on M.Permission.eq k p signer r) ≡ Gives) ↔
        IsGift M.Permission.eq k p signer r }
{}

/// The contents of an accepted log are records. Where it has any, their times never fall, the first
/// alone has no prev, one Init stands, as the first entry of the first, and each id with an entry has a
/// key: whatever content bytes are read as, and whatever the kind says of its own entries.
pub fn form<M: OwnState>()
    ensures records { (read : List ℕ → Result (RecordData M.Permission M.Own) RecordFault)
        (own_state : List (Event M.Own) → M.View) →
        KindLaws (kind_of M.rules M.Permission.eq read own_state) →
        (b : SignatureRelation) (es : List EnvelopeData) →
        IsAccepted (kind_of M.rules M.Permission.eq read own_state) b es →
        All (λ e. IsOk (read e.content)) es }
    ensures form { (read : List ℕ → Result (RecordData M.Permission M.Own) RecordFault)
        (own_state : List (Event M.Own) → M.View) →
        KindLaws (kind_of M.rules M.Permission.eq read own_state) →
        (b : SignatureRelation) (es : List EnvelopeData) → 0 < length es →
        IsAccepted (kind_of M.rules M.Permission.eq read own_state) b es →
        HasForm M.rules.id_of (map (signed_record_of M.rules M.Permission.eq read) es) }
{}

/// In an accepted log whose records all have version 1 no key brings itself in: each signer signed the
/// first record, or an entry of an earlier record grants a permission to a key whose fingerprint is the
/// signer's id. That is so in each kind that asks the signer of an Init of version 1 to own its key,
/// whatever content bytes are read as.
pub fn no_key_brings_itself_in<M: OwnState>()
    ensures { M.rules.by_own_key 1 ≡ true →
        (read : List ℕ → Result (RecordData M.Permission M.Own) RecordFault)
        (own_state : List (Event M.Own) → M.View) →
        KindLaws (kind_of M.rules M.Permission.eq read own_state) →
        (b : SignatureRelation) (es : List EnvelopeData) →
        IsAccepted (kind_of M.rules M.Permission.eq read own_state) b es →
        All (λ r. r.contents.version ≡ 1) (map (signed_record_of M.rules M.Permission.eq read) es) →
        NoKeyBringsItselfIn (map (signed_record_of M.rules M.Permission.eq read) es) }
{}
