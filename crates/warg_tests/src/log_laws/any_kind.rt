//! Callers of the laws of logs, at every kind.
ghost use Rattle.std.specs.Prelude.{◌≡◌, ◌↔◌, ◌⊎◌, ◌++◌, ◌<◌, ◌+◌, ℕ, List, [], ◌∷◌, length, map, take};
ghost use Rattle.std.specs.Prelude.{Option, Some, None, is_some, true, Result, IfOk, IfSome};
ghost use Rattle.std.specs.Prelude.{slice_get, slice_index_or};
ghost use Rattle.warg_envelope.specs.EnvelopeRelations.{IsEnvelope, HasEnvelopeFault};
ghost use Rattle.warg_log_laws.specs.Grammars.{IsCause, IsReading};
ghost use Rattle.warg_log_laws.specs.GrantChains.{IsGrantTo};
ghost use Rattle.warg_log_laws.specs.RuledLogs.{is_held, is_held_by, IsChainOfGrants, IsHeldByNoKey, effects};
ghost use Rattle.warg_log_laws.specs.RuledLogs.{entry_offence, history, kind, records_of, state_view_of};
ghost use Rattle.warg_log.specs.History.{PlacedEvent, Holds, entry_on, record_history};
ghost use Rattle.warg_log.specs.Listings.{IsGift};
ghost use Rattle.warg_log.specs.KindOfRules.{effect_of};
ghost use Rattle.warg_log.specs.Rules.{SignedRecord, View as LogView};
ghost use Rattle.warg_log.specs.States.{as_data};
ghost use Rattle.warg_protocol.specs.LogWords.{IsRun, named_cause, why_not};
ghost use Rattle.warg_protocol.specs.Logs.{EnvelopeData, Cause, EnvelopeFault, HasForm, HaveCollision, IfStarted};
ghost use Rattle.warg_protocol.specs.Logs.{IsAccepted, IsChainAnswer, IsExtinct, KindLaws, LogOffence, contents};
ghost use Rattle.warg_protocol.specs.Logs.{SignatureRelation, StandsFor, StaysExtinct, envelopes};
ghost use Rattle.warg_protocol.specs.Records.{EntryData, RecordFault, RecordId as OfRecordId};
ghost use Rattle.warg_protocol.specs.Transparency as checkpoints;
ghost use Rattle.sha2.specs.Sha256.{sha256};
ghost use Rattle.warg_registry.specs.declared.checkpoint.Checkpoint.{Checkpoint};
ghost use Rattle.warg_registry.specs.declared.log_id.LogId.{LogId};
ghost use Rattle.warg_replay.specs.declared.audited_log.link.Link.{Link as OfLink};
ghost use Rattle.warg_log_records.specs.Effects as by_effects;
ghost use Rattle.warg_log_records.specs.Effects.{GivesWhatIsHeld, HoldsByEffects};
ghost use Rattle.warg_log_records.specs.Walks.{IsAccepted as AllLawful};
ghost use Rattle.warg_log_records.specs.declared.effect.Effect.TheVariants.{Gives};
ghost use Rattle.warg_replay.specs.declared.replay.RunError.{RunError};

use std::alloc::AllocError;
use warg_log_laws as laws;
use warg_log_laws::{RuledLog, audited};
use warg_protocol::laws::{audited_logs, logs, runs, transparency};
use warg_protocol::signing::{KeyID, Verifier};
use warg_protocol::{AuditedLog, Link, ProtoEnvelope, Validator};

/// The key holds the permission exactly where a chain is given.
pub fn chain_exactly_where_held<L: RuledLog, V: Verifier + Drop>(
    log: &AuditedLog<L, V>,
    key_id: &KeyID,
    permission: L::Permission,
) -> Result<Option<Vec<Link>>, AllocError>
    ensures history { IfOk result (λ chain.
        is_some chain ≡ is_held L.ruled (envelopes log.now.records) key_id.now permission) }
    ensures state { IfOk result (λ chain.
        is_some chain ≡ (L.says log.now.state).state.authority.holds key_id.now permission) }
    ensures grants { IfOk result (λ chain. IfSome chain (λ links.
        IsChainOfGrants L.ruled (envelopes log.now.records) key_id.now permission links.items)) }
{
    audited::permission_chain(log, key_id, permission)
}

/// Whether a chain is there is what the state's look-up says.
pub fn has_chain<L: RuledLog, V: Verifier + Drop>(
    log: &AuditedLog<L, V>,
    key_id: &KeyID,
    permission: L::Permission,
) -> bool
    ensures { (chain : Option (List OfLink)) →
        IsChainAnswer (effects L.ruled) (envelopes log.now.records) key_id.now permission chain →
        is_some chain ≡ result }
{
    laws::chains_where_held::<L>();
    audited::holds(log, key_id, permission)
}

/// The records of an audited log have its form.
pub fn formed_records<L: RuledLog, V: Verifier + Drop>(
    log: &AuditedLog<L, V>,
) -> &[ProtoEnvelope<L::Record>]
    ensures { 0 < length result.now →
        HasForm L.rules.id_of (map (as_data L.record_data) result.now) }
{
    audited::records(log)
}

/// Who holds what, by effects, by history and by a state.
pub fn one_holding<L: RuledLog>()
    ensures effects { (es : List EnvelopeData) (k : List ℕ) (p : L.Permission) →
        by_effects.holds (effects L.ruled) es k p ≡ is_held L.ruled es k p }
    ensures state { (s : L) (es : List EnvelopeData) →
        StandsFor (kind L.ruled) L.says s es → (k : List ℕ) (p : L.Permission) →
        (L.says s).state.authority.holds k p ≡ is_held L.ruled es k p }
{
    laws::holding::<L>();
}

/// The chain of an accepted log is one of grants, and no others are.
pub fn chains_of_grants<L: RuledLog>()
    ensures answer { (b : SignatureRelation) (es : List EnvelopeData) →
        IsAccepted (kind L.ruled) b es → (k : List ℕ) (p : L.Permission) (links : List OfLink) →
        IsChainAnswer (effects L.ruled) es k p (Some links) ↔ IsChainOfGrants L.ruled es k p links }
    ensures held { (b : SignatureRelation) (es : List EnvelopeData) →
        IsAccepted (kind L.ruled) b es → (k : List ℕ) (p : L.Permission) (links : List OfLink) →
        IsChainOfGrants L.ruled es k p links → is_held L.ruled es k p ≡ true }
    ensures one { (b : SignatureRelation) (es : List EnvelopeData) →
        IsAccepted (kind L.ruled) b es → (k : List ℕ) (p : L.Permission)
        (links : List OfLink) → IsChainOfGrants L.ruled es k p links →
        (others : List OfLink) → IsChainOfGrants L.ruled es k p others → others ≡ links }
{
    laws::chains_of_grants::<L>();
}

/// What no key holds is extinct.
pub fn extinct_where_unheld<L: RuledLog>()
    ensures { (s : L) (es : List EnvelopeData) →
        StandsFor (kind L.ruled) L.says s es → (p : L.Permission) →
        IsExtinct (effects L.ruled) es p ↔ IsHeldByNoKey (L.says s) p }
{
    laws::extinct_permissions::<L>();
}

/// The kind's laws, and what its entries give.
pub fn entries_give<L: RuledLog>()
    ensures laws { KindLaws (kind L.ruled) }
    ensures gifts { (signer k : List ℕ) (p : L.Permission)
        (entry : EntryData L.Permission L.Own) →
        (effect_of (entry_on L.same k p signer entry) ≡ Gives) ↔
        IsGift L.same k p signer entry }
    ensures last { (es : List EnvelopeData) (k : List ℕ) (p : L.Permission) →
        (is_held L.ruled es k p ≡ true) ↔ Holds L.same (history L.ruled es) k p }
    ensures held { HoldsByEffects (kind L.ruled) (effects L.ruled)
        (λ v k p. v.state.authority.holds k p) }
    ensures gives { GivesWhatIsHeld (kind L.ruled) (effects L.ruled) }
    ensures grants { (b : SignatureRelation) (es : List EnvelopeData) →
        IsAccepted (kind L.ruled) b es →
        (place : ℕ) (r : SignedRecord L.Permission L.Own) →
        slice_get (records_of L.ruled es) place ≡ Some r →
        (n : ℕ) (e : PlacedEvent (EntryData L.Permission L.Own)) →
        slice_get (record_history L.rules.id_of (place, r)) n ≡ Some e →
        (k : List ℕ) (p : L.Permission) → IsGrantTo L.same p k e.event.entry →
        is_held_by L.ruled (history L.ruled (take place es)
        ++ take n (record_history L.rules.id_of (place, r))) e.event.signer p ≡ true }
{
    laws::is_a_kind::<L>();
    laws::gifts::<L>();
    laws::last_entry_decides::<L>();
    laws::effects_are_what_is_held::<L>();
    laws::gives_what_is_held::<L>();
}

/// No entry of an accepted log has an offence after the one list of those before it.
pub fn entries_in_turn<L: RuledLog>()
    ensures { (b : SignatureRelation) (es : List EnvelopeData) → IsAccepted (kind L.ruled) b es →
        (place : ℕ) (r : SignedRecord L.Permission L.Own) →
        slice_get (records_of L.ruled es) place ≡ Some r →
        AllLawful (entry_offence L.ruled r.contents.version)
        (λ before. state_view_of L.ruled (history L.ruled (take place es) ++ before))
        (record_history L.rules.id_of (place, r)) }
{
    laws::entries_in_turn::<L>();
}

/// What `run` answers, by the grammar.
pub fn run_by_grammar<L: RuledLog>()
    ensures reading { (b : SignatureRelation) (inputs : List (List ℕ))
        (answer : Result L (RunError L.Error)) →
        IfStarted (IsRun L.log L.Record.reading b inputs) answer →
        IfStarted (IsReading (kind L.ruled) b (IsEnvelope L.IsContent L.HasContentFault)
        (HasEnvelopeFault L.IsContent L.HasContentFault) L.says
        (named_cause L.ruled_log L.ruled_reading) inputs) answer }
    ensures cause { (b : SignatureRelation) (v : LogView L.Permission L.OwnView) (s : List ℕ)
        (c : Cause (EnvelopeFault RecordFault) (LogOffence L.Permission L.OwnOffence)) →
        (why_not L.ruled_log L.ruled_reading b v s ≡ Some c) ↔
        IsCause (kind L.ruled) b (IsEnvelope L.IsContent L.HasContentFault)
        (HasEnvelopeFault L.IsContent L.HasContentFault) v s c }
{
    laws::run_by_grammar::<L>();
}

/// The laws of all audited logs.
pub fn audited_logs<L: Validator>()
    ensures heads { (b d : SignatureRelation) (es fs : List EnvelopeData) →
        IsAccepted L.kind b es → IsAccepted L.kind d fs →
        L.kind.head (L.kind.view_of es) ≡ L.kind.head (L.kind.view_of fs) →
        (contents es ≡ contents fs) ⊎ HaveCollision L.kind.id (contents es) (contents fs) }
    ensures contents { (b d : SignatureRelation) (es fs : List EnvelopeData) →
        IsAccepted L.kind b es → IsAccepted L.kind d fs → contents es ≡ contents fs →
        L.kind.head (L.kind.view_of es) ≡ L.kind.head (L.kind.view_of fs) }
    ensures fronts { (b d : SignatureRelation) (es fs : List EnvelopeData) (n : ℕ) →
        IsAccepted L.kind b es → IsAccepted L.kind d fs → n < length fs →
        L.kind.head (L.kind.view_of es) ≡ Some (L.kind.id (slice_index_or (contents fs) n [])) →
        (contents es ≡ take (n + 1) (contents fs))
        ⊎ HaveCollision L.kind.id (contents es) (contents fs) }
    ensures extinction { (b : SignatureRelation) (es fs : List EnvelopeData) →
        IsAccepted L.kind b (es ++ fs) → StaysExtinct L.effects es (es ++ fs) }
{
    audited_logs::equal_heads::<L>();
    audited_logs::equal_contents::<L>();
    audited_logs::fronts::<L>();
    audited_logs::extinction::<L>();
    audited_logs::last_entry_decides::<L>();
    logs::equal_heads();
    logs::refusals_tell_apart::<L::Permission>();
}

/// Logs whose heads are shown under one checkpoint.
pub fn heads_under_one_checkpoint<L: Validator>()
    ensures { (b d : SignatureRelation) (es fs : List EnvelopeData) (head other : OfRecordId)
        (checkpoint : Checkpoint) (log_id : LogId) (proof other_proof : List (List ℕ)) →
        IsAccepted L.kind b es → IsAccepted L.kind d fs →
        L.kind.head (L.kind.view_of es) ≡ Some head → L.kind.head (L.kind.view_of fs) ≡ Some other →
        checkpoints.ShowsHead checkpoint log_id head proof →
        checkpoints.ShowsHead checkpoint log_id other other_proof →
        (contents es ≡ contents fs) ⊎ HaveCollision L.kind.id (contents es) (contents fs)
        ⊎ checkpoints.HaveCollision sha256
        (checkpoints.path_inputs_for log_id (checkpoints.head_leaf head) proof)
        (checkpoints.path_inputs_for log_id (checkpoints.head_leaf other) other_proof) }
{
    transparency::heads::<L>();
}

/// The laws of all runs.
pub fn runs<L: Validator>()
    ensures more { (b : SignatureRelation) (es : List EnvelopeData) (e : EnvelopeData) →
        IsAccepted L.kind b (es ++ e ∷ []) ↔
        (IsAccepted L.kind b es × (L.kind.offence b (L.kind.view_of es) e ≡ None)) }
    ensures determined { (b d : SignatureRelation) (es fs : List EnvelopeData) →
        IsAccepted L.kind b es → IsAccepted L.kind d fs → map (λ e. e.content) es ≡
        map (λ e. e.content) fs →
        map (λ e. e.key_id) es ≡ map (λ e. e.key_id) fs → L.kind.view_of es ≡ L.kind.view_of fs }
{
    runs::one_more::<L>();
    runs::links::<L>();
    runs::determination::<L>();
    runs::one_state::<L>();
    runs::saved_versions::<L>();
    runs::strings_are_accepted::<L>();
    runs::first_offence::<L>();
    runs::resumption::<L>();
    runs::two_verifiers::<L>();
    runs::equality::<L::Error>();
}
