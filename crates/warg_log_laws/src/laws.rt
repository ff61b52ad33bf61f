//! Laws over all logs of a kind that is given by rules. They have no effect.
ghost use Rattle.std.specs.Prelude.{◌≡◌, ◌↔◌, ◌++◌, ℕ, List, [], length, map, take, Option, Some, None};
ghost use Rattle.std.specs.Prelude.{is_some, true, false, Result, slice_get};
ghost use Rattle.std.specs.Option.{option_map};
ghost use Rattle.warg_replay.specs.AuditedLog.AuditedWords.{IsAudited};
ghost use Rattle.warg_replay.specs.AuditedLog.Chains.{IsChainAnswer};
ghost use Rattle.warg_replay.specs.AuditedLog.Extinction.{IsExtinct};
ghost use Rattle.warg_replay.specs.AuditedLog.Log.{envelopes};
ghost use Rattle.warg_replay.specs.declared.audited_log.link.Link.{Link};
ghost use Rattle.warg_envelope.specs.EnvelopeData.{DecodedEnvelope, EnvelopeData};
ghost use Rattle.warg_envelope.specs.EnvelopeRelations.{IsEnvelope, HasEnvelopeFault};
ghost use Rattle.warg_envelope.specs.Envelopes.{EnvelopeFault};
ghost use Rattle.warg_envelope.specs.Faults.{RecordFault};
ghost use Rattle.warg_log.specs.History.{PlacedEvent, Holds, entry_on, record_history};
ghost use Rattle.warg_log.specs.Listings.{IsGift};
ghost use Rattle.warg_log.specs.KindOfRules.{effect_of};
ghost use Rattle.warg_log.specs.Rules.{SignedRecord, View, LogOffence};
ghost use Rattle.warg_log.specs.Rules.{events_offence, record_events, state_view_after};
ghost use Rattle.warg_log_laws.specs.GrantChains.{IsGrantTo};
ghost use Rattle.warg_log_laws.specs.Grammars.{IsCause, IsReading};
ghost use Rattle.warg_log_laws.specs.RuledLogs.{IsChainOfGrants, IsHeldByNoKey, effects, entry_offence};
ghost use Rattle.warg_log_laws.specs.RuledLogs.{history, is_held, is_held_by, kind, records_of, state_view_of};
ghost use Rattle.warg_log_records.specs.RecordData.{EntryData};
ghost use Rattle.warg_log_records.specs.Effects.{holds, GivesWhatIsHeld, HoldsByEffects};
ghost use Rattle.warg_log_records.specs.Kinds.{SignatureRelation, KindLaws, IsAccepted, StandsFor};
ghost use Rattle.warg_replay.specs.LogWords.{IsRun, named_cause, why_not};
ghost use Rattle.warg_replay.specs.OutcomeRuns.{IfStarted};
ghost use Rattle.warg_replay.specs.Inputs.{Cause};
ghost use Rattle.warg_log_records.specs.Walks.{IsFound, IsAccepted as AllLawful};
ghost use Rattle.warg_log_records.specs.declared.effect.Effect.TheVariants.{Gives};
ghost use Rattle.warg_replay.specs.declared.replay.RunError.{RunError};

use crate::ruled::RuledLog;

/// Who holds what is one thing: what the effects of a log's entries leave, what its history says, and what a
/// state says that stands for the log.
pub fn holding<L: RuledLog>()
    ensures effects { (es : List EnvelopeData) (k : List ℕ) (p : L.Permission) →
        holds (effects L.ruled) es k p ≡ is_held L.ruled es k p }
    ensures state { (s : L) (es : List EnvelopeData) → StandsFor (kind L.ruled) L.says s es →
        (k : List ℕ) (p : L.Permission) →
        (L.says s).state.authority.holds k p ≡ is_held L.ruled es k p }
{}

/// `permission_chain` gives a chain exactly where the key holds the permission, by the log's history and by
/// its state.
pub fn chains_where_held<L: RuledLog>()
    ensures history { (es : List EnvelopeData) (k : List ℕ) (p : L.Permission)
        (chain : Option (List Link)) → IsChainAnswer (effects L.ruled) es k p chain →
        is_some chain ≡ is_held L.ruled es k p }
    ensures state { (b : SignatureRelation) (s : L) (records : List (DecodedEnvelope L.Record)) →
        IsAudited L.log L.Record.reading b s records →
        (k : List ℕ) (p : L.Permission) (chain : Option (List Link)) →
        IsChainAnswer (effects L.ruled) (envelopes records) k p chain →
        is_some chain ≡ (L.says s).state.authority.holds k p }
{}

/// A chain of an accepted log leads from its Init to the key: each later link is a grant that lists the
/// permission, signed by the key to which the link before gave it, and each is the last entry on that key and
/// the permission before the next. The key has one chain where it holds the permission, and else none.
pub fn chains_of_grants<L: RuledLog>()
    ensures answer { (b : SignatureRelation) (es : List EnvelopeData) →
        IsAccepted (kind L.ruled) b es → (k : List ℕ) (p : L.Permission) (links : List Link) →
        IsChainAnswer (effects L.ruled) es k p (Some links) ↔ IsChainOfGrants L.ruled es k p links }
    ensures held { (b : SignatureRelation) (es : List EnvelopeData) →
        IsAccepted (kind L.ruled) b es → (k : List ℕ) (p : L.Permission) (links : List Link) →
        IsChainOfGrants L.ruled es k p links → is_held L.ruled es k p ≡ true }
    ensures one { (b : SignatureRelation) (es : List EnvelopeData) →
        IsAccepted (kind L.ruled) b es → (k : List ℕ) (p : L.Permission)
        (links : List Link) → IsChainOfGrants L.ruled es k p links →
        (others : List Link) → IsChainOfGrants L.ruled es k p others → others ≡ links }
{}

/// A permission is extinct exactly where no key holds it, by the log's history and by a state that stands
/// for the log.
pub fn extinct_permissions<L: RuledLog>()
    ensures history { (es : List EnvelopeData) (p : L.Permission) →
        IsExtinct (effects L.ruled) es p ↔ ((k : List ℕ) → is_held L.ruled es k p ≡ false) }
    ensures state { (s : L) (es : List EnvelopeData) → StandsFor (kind L.ruled) L.says s es →
        (p : L.Permission) → IsExtinct (effects L.ruled) es p ↔ IsHeldByNoKey (L.says s) p }
{}

/// A log keeps the laws of every kind of log: what lawful records say together, by one list of their entries, is
/// what they make one by one.
pub fn is_a_kind<L: RuledLog>()
    ensures { KindLaws (kind L.ruled) }
{}

/// An entry gives a permission to a key exactly if it is an Init that the key signed, or a grant to the key
/// that lists it.
pub fn gifts<L: RuledLog>()
    ensures { (signer k : List ℕ) (p : L.Permission) (entry : EntryData L.Permission L.Own) →
        (effect_of (entry_on L.same k p signer entry) ≡ Gives) ↔
        IsGift L.same k p signer entry }
{}

/// A key holds a permission exactly if some entry of the log speaks of both, and the last such entry gives.
pub fn last_entry_decides<L: RuledLog>()
    ensures { (es : List EnvelopeData) (k : List ℕ) (p : L.Permission) →
        (is_held L.ruled es k p ≡ true) ↔ Holds L.same (history L.ruled es) k p }
{}

/// What the entries of records do to permissions, one after another, is what the view of those records
/// holds.
pub fn effects_are_what_is_held<L: RuledLog>()
    ensures { HoldsByEffects (kind L.ruled) (effects L.ruled)
        (λ v k p. v.state.authority.holds k p) }
{}

/// What an entry of a lawful record gives, its signer held, but for the Init that begins the log.
pub fn gives_what_is_held<L: RuledLog>()
    ensures effects { GivesWhatIsHeld (kind L.ruled) (effects L.ruled) }

    // What a grant of an accepted log lists, its signer held by the entries before it.
    ensures grants { (b : SignatureRelation) (es : List EnvelopeData) →
        IsAccepted (kind L.ruled) b es →
        (place : ℕ) (r : SignedRecord L.Permission L.Own) →
        slice_get (records_of L.ruled es) place ≡ Some r →
        let entries = record_history L.rules.id_of (place, r) in
        (n : ℕ) (e : PlacedEvent (EntryData L.Permission L.Own)) →
        slice_get entries n ≡ Some e →
        (k : List ℕ) (p : L.Permission) → IsGrantTo L.same p k e.event.entry →
        is_held_by L.ruled (history L.ruled (take place es) ++ take n entries) e.event.signer p
        ≡ true }
{}

/// An entry is asked after the one list of the log's entries and those before it in its record.
pub fn entries_in_turn<L: RuledLog>()
    // After lawful entries of a record, the view that is asked of the next is that of the one list.
    ensures view { (b : SignatureRelation) (es : List EnvelopeData) →
        IsAccepted (kind L.ruled) b es →
        (version : ℕ) (before : List (PlacedEvent (EntryData L.Permission L.Own))) →
        let events = map (λ e. e.event) before in
        let view = ((kind L.ruled).view_of es).state in
        events_offence L.rules L.same version view [] events ≡ None →
        state_view_after L.rules L.same view events
        ≡ state_view_of L.ruled (history L.ruled es ++ before) }

    // What is wrong with the entries of a record is what is wrong with the first that has an offence
    // after that list.
    ensures first { (b : SignatureRelation) (es : List EnvelopeData) →
        IsAccepted (kind L.ruled) b es →
        (r : SignedRecord L.Permission L.Own) →
        (found : Option (ℕ × LogOffence L.Permission L.OwnOffence)) ×
        IsFound (entry_offence L.ruled r.contents.version)
        (λ before. state_view_of L.ruled (history L.ruled es ++ before))
        (record_history L.rules.id_of (length es, r)) found ×
        (events_offence L.rules L.same r.contents.version ((kind L.ruled).view_of es).state []
        (record_events L.rules.id_of r) ≡ option_map (λ f. f.1) found) }

    // In an accepted log no entry has one.
    ensures accepted { (b : SignatureRelation) (es : List EnvelopeData) →
        IsAccepted (kind L.ruled) b es →
        (place : ℕ) (r : SignedRecord L.Permission L.Own) →
        slice_get (records_of L.ruled es) place ≡ Some r →
        AllLawful (entry_offence L.ruled r.contents.version)
        (λ before. state_view_of L.ruled (history L.ruled (take place es) ++ before))
        (record_history L.rules.id_of (place, r)) }
{}

/// `run` answers by the grammar: a state exactly where the inputs are envelopes that are an accepted log,
/// for which it stands; else the first input that can't come after the log of those before it, and why. Why
/// one can't come is read so too.
pub fn run_by_grammar<L: RuledLog>()
    ensures reading { (b : SignatureRelation) (strings : List (List ℕ))
        (answer : Result L (RunError L.Error)) →
        IfStarted (IsRun L.log L.Record.reading b strings) answer →
        IfStarted (IsReading (kind L.ruled) b (IsEnvelope L.IsContent L.HasContentFault)
        (HasEnvelopeFault L.IsContent L.HasContentFault) L.says
        (named_cause L.ruled_log L.ruled_reading) strings) answer }
    ensures run { (b : SignatureRelation) (strings : List (List ℕ))
        (answer : Result L (RunError L.Error)) →
        IfStarted (IsReading (kind L.ruled) b (IsEnvelope L.IsContent L.HasContentFault)
        (HasEnvelopeFault L.IsContent L.HasContentFault) L.says
        (named_cause L.ruled_log L.ruled_reading) strings) answer →
        IfStarted (IsRun L.log L.Record.reading b strings) answer }
    ensures cause { (b : SignatureRelation) (v : View L.Permission L.OwnView) (s : List ℕ)
        (c : Cause (EnvelopeFault RecordFault) (LogOffence L.Permission L.OwnOffence)) →
        (why_not L.ruled_log L.ruled_reading b v s ≡ Some c) ↔
        IsCause (kind L.ruled) b (IsEnvelope L.IsContent L.HasContentFault)
        (HasEnvelopeFault L.IsContent L.HasContentFault) v s c }
{
    L::reading_computes();
}
