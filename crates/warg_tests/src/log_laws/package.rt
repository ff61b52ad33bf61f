//! Callers of the laws of package logs.
ghost use Rattle.std.specs.Prelude.{◌≡◌, ◌↔◌, ◌⊎◌, ◌++◌, ◌<◌, ◌+◌, ℕ, List, [], ◌∷◌, length, map, take, All, Option};
ghost use Rattle.std.specs.Prelude.{Some, None, is_some, true, Result, IfOk, IfSome, OnErr, slice_get, slice_index_or};
ghost use Rattle.warg_log_laws.specs.Grammars.{IsCause, IsReading};
ghost use Rattle.warg_log_laws.specs.GrantChains.{IsGrantTo};
ghost use Rattle.warg_envelope.specs.EnvelopeRelations.{IsEnvelope, HasEnvelopeFault};
ghost use Rattle.warg_log_laws.specs.PackageKind.{IsContent, HasContentFault, ruled};
ghost use Rattle.warg_log_laws.specs.RuledLogs.{is_held, is_held_by, IsChainOfGrants, IsHeldByNoKey, state_view_of};
ghost use Rattle.warg_log_laws.specs.RuledLogs.{entry_offence};
ghost use Rattle.warg_log.specs.History.{PlacedEvent, Holds, entry_on, record_history};
ghost use Rattle.warg_log.specs.Listings.{IsGift};
ghost use Rattle.warg_log.specs.KindOfRules.{effect_of};
ghost use Rattle.warg_log.specs.Rules.{SignedRecord};
ghost use Rattle.warg_package_log.specs.Extensions.{IsExtension};
ghost use Rattle.warg_package_log.specs.Releases.{record_id_of};
ghost use Rattle.warg_package_log.specs.StateHistory.{OneYankEach};
ghost use Rattle.warg_protocol.specs.History.{AuthorityData, State};
ghost use Rattle.warg_protocol.specs.Logs.{EnvelopeData, Cause, EnvelopeFault, HasForm, HaveCollision, IfStarted};
ghost use Rattle.warg_protocol.specs.Logs.{IsAccepted, IsChainAnswer, IsExtinct, IsRun, KindLaws, NoKeyBringsItselfIn};
ghost use Rattle.warg_protocol.specs.Logs.{SignatureRelation, StandsFor, StaysExtinct, LogOffence, cause_next};
ghost use Rattle.warg_protocol.specs.Logs.{contents, envelope_fault_of, envelope_of, envelopes, cause_named_by};
ghost use Rattle.warg_protocol.specs.Package.{AreDistinct, OwnOffence, ReleaseView, Permission as OfPermission};
ghost use Rattle.warg_protocol.specs.Package.{PackageOwnEntry, View, effects, history, kind, offence_of};
ghost use Rattle.warg_protocol.specs.Package.{package_record_of, envelope_as_data, records_of, same_permission};
ghost use Rattle.warg_protocol.specs.Package.{versions, view_of};
ghost use Rattle.warg_protocol.specs.Records.{EntryData, RecordFault, RecordId as OfRecordId, fault_of};
ghost use Rattle.warg_protocol.specs.Transparency as checkpoints;
ghost use Rattle.sha2.specs.Sha256.{sha256};
ghost use Rattle.warg_registry.specs.declared.checkpoint.Checkpoint.{Checkpoint};
ghost use Rattle.warg_registry.specs.declared.log_id.LogId.{LogId};
ghost use Rattle.warg_replay.specs.declared.audited_log.link.Link.{Link as OfLink};
ghost use Rattle.warg_package_log.specs.declared.error.ValidationError.{ValidationError as OfError};
ghost use Rattle.warg_log_records.specs.Effects as by_effects;
ghost use Rattle.warg_log_records.specs.Effects.{GivesWhatIsHeld, HoldsByEffects};
ghost use Rattle.warg_log_records.specs.Walks.{IsAccepted as AllLawful};
ghost use Rattle.warg_log_records.specs.declared.effect.Effect.TheVariants.{Gives};
ghost use Rattle.warg_replay.specs.declared.replay.RunError.{RunError};

use std::alloc::AllocError;
use warg_log_laws as laws;
use warg_log_laws::audited;
use warg_protocol::laws::{audited_logs, logs, package, runs, transparency};
use warg_protocol::package::{LogState, PackageRecord, Permission, ValidationError};
use warg_protocol::signing::{KeyID, Verifier};
use warg_protocol::{AuditedLog, Link, ProtoEnvelope, RunCause};

/// The key holds the permission exactly where a chain is given.
pub fn chain_exactly_where_held<V: Verifier + Drop>(
    log: &AuditedLog<LogState, V>,
    key_id: &KeyID,
    permission: Permission,
) -> Result<Option<Vec<Link>>, AllocError>
    ensures history { IfOk result (λ chain.
        is_some chain ≡ is_held ruled (envelopes log.now.records) key_id.now permission) }
    ensures state { IfOk result (λ chain.
        is_some chain ≡ (view_of log.now.state).state.authority.holds key_id.now permission) }
    ensures grants { IfOk result (λ chain. IfSome chain (λ links.
        IsChainOfGrants ruled (envelopes log.now.records) key_id.now permission links.items)) }
{
    audited::permission_chain(log, key_id, permission)
}

/// Whether a chain is there is what the state's look-up says.
pub fn has_chain<V: Verifier + Drop>(
    log: &AuditedLog<LogState, V>,
    key_id: &KeyID,
    permission: Permission,
) -> bool
    ensures { (chain : Option (List OfLink)) →
        IsChainAnswer effects (envelopes log.now.records) key_id.now permission chain →
        is_some chain ≡ result }
{
    laws::chains_where_held::<LogState>();
    audited::holds(log, key_id, permission)
}

/// An appended record loses no release.
pub fn append_keeping_releases<V: Verifier + Drop>(
    log: &mut AuditedLog<LogState, V>,
    input: &[u8],
) -> Result<(), RunCause<ValidationError>>
    ensures kept { IsExtension (view_of log.old.state).state.own_state
        (view_of log.new.state).state.own_state }
    ensures unchanged { OnErr result (log.new ≡ log.old) }
{
    audited::append(log, input)
}

/// The records of an audited log have its form.
pub fn formed_records<V: Verifier + Drop>(
    log: &AuditedLog<LogState, V>,
) -> &[ProtoEnvelope<PackageRecord>]
    ensures { 0 < length result.now → HasForm record_id_of (map envelope_as_data result.now) }
{
    audited::records(log)
}

/// Who holds what, by effects, by history and by a state.
pub fn one_holding()
    ensures effects { (es : List EnvelopeData) (k : List ℕ) (p : OfPermission) →
        by_effects.holds effects es k p ≡ is_held ruled es k p }
    ensures state { (s : State (AuthorityData OfPermission) (List ReleaseView))
        (es : List EnvelopeData) → StandsFor kind view_of s es → (k : List ℕ) (p : OfPermission) →
        (view_of s).state.authority.holds k p ≡ is_held ruled es k p }
{
    laws::holding::<LogState>();
}

/// The chain of an accepted log is one of grants, and no others are.
pub fn chains_of_grants()
    ensures answer { (b : SignatureRelation) (es : List EnvelopeData) → IsAccepted kind b es →
        (k : List ℕ) (p : OfPermission) (links : List OfLink) →
        IsChainAnswer effects es k p (Some links) ↔ IsChainOfGrants ruled es k p links }
    ensures held { (b : SignatureRelation) (es : List EnvelopeData) → IsAccepted kind b es →
        (k : List ℕ) (p : OfPermission) (links : List OfLink) →
        IsChainOfGrants ruled es k p links → is_held ruled es k p ≡ true }
    ensures one { (b : SignatureRelation) (es : List EnvelopeData) → IsAccepted kind b es →
        (k : List ℕ) (p : OfPermission) (links : List OfLink) → IsChainOfGrants ruled es k p links →
        (others : List OfLink) → IsChainOfGrants ruled es k p others → others ≡ links }
{
    laws::chains_of_grants::<LogState>();
}

/// What no key holds is extinct.
pub fn extinct_where_unheld()
    ensures { (s : State (AuthorityData OfPermission) (List ReleaseView))
        (es : List EnvelopeData) → StandsFor kind view_of s es → (p : OfPermission) →
        IsExtinct effects es p ↔ IsHeldByNoKey (view_of s) p }
{
    laws::extinct_permissions::<LogState>();
}

/// The kind's laws, and what its entries give.
pub fn entries_give()
    ensures laws { KindLaws kind }
    ensures gifts { (signer k : List ℕ) (p : OfPermission)
        (entry : EntryData OfPermission PackageOwnEntry) →
        (effect_of (entry_on same_permission k p signer entry) ≡ Gives) ↔
        IsGift same_permission k p signer entry }
    ensures last { (es : List EnvelopeData) (k : List ℕ) (p : OfPermission) →
        (is_held ruled es k p ≡ true) ↔ Holds same_permission (history es) k p }
    ensures held { HoldsByEffects kind effects (λ v k p. v.state.authority.holds k p) }
    ensures gives { GivesWhatIsHeld kind effects }
    ensures grants { (b : SignatureRelation) (es : List EnvelopeData) → IsAccepted kind b es →
        (place : ℕ) (r : SignedRecord OfPermission PackageOwnEntry) →
        slice_get (records_of es) place ≡ Some r →
        (n : ℕ) (e : PlacedEvent (EntryData OfPermission PackageOwnEntry)) →
        slice_get (record_history record_id_of (place, r)) n ≡ Some e →
        (k : List ℕ) (p : OfPermission) → IsGrantTo same_permission p k e.event.entry →
        is_held_by ruled (history (take place es)
        ++ take n (record_history record_id_of (place, r))) e.event.signer p ≡ true }
{
    laws::is_a_kind::<LogState>();
    laws::gifts::<LogState>();
    laws::last_entry_decides::<LogState>();
    laws::effects_are_what_is_held::<LogState>();
    laws::gives_what_is_held::<LogState>();
}

/// No entry of an accepted log has an offence after the one list of those before it.
pub fn entries_in_turn()
    ensures { (b : SignatureRelation) (es : List EnvelopeData) → IsAccepted kind b es →
        (place : ℕ) (r : SignedRecord OfPermission PackageOwnEntry) →
        slice_get (records_of es) place ≡ Some r →
        AllLawful (entry_offence ruled r.contents.version)
        (λ before. state_view_of ruled (history (take place es) ++ before))
        (record_history record_id_of (place, r)) }
{
    laws::entries_in_turn::<LogState>();
}

/// What `run` answers, by the grammar.
pub fn run_by_grammar()
    ensures reading { let read = envelope_of package_record_of in
        let named_by = cause_named_by (envelope_fault_of fault_of) offence_of in
        (b : SignatureRelation) (inputs : List (List ℕ))
        (answer : Result (State (AuthorityData OfPermission) (List ReleaseView))
        (RunError OfError)) →
        IfStarted (IsRun kind b read kind.view_of view_of named_by ◌≡◌ inputs) answer →
        IfStarted (IsReading kind b (IsEnvelope IsContent HasContentFault)
        (HasEnvelopeFault IsContent HasContentFault) view_of named_by inputs) answer }
    ensures cause { (b : SignatureRelation) (v : View) (s : List ℕ)
        (c : Cause (EnvelopeFault RecordFault) (LogOffence OfPermission OwnOffence)) →
        (cause_next kind b (envelope_of package_record_of) v s ≡ Some c) ↔
        IsCause kind b (IsEnvelope IsContent HasContentFault)
        (HasEnvelopeFault IsContent HasContentFault) v s c }
{
    laws::run_by_grammar::<LogState>();
}

/// The laws of all audited logs, at this kind.
pub fn audited_logs()
    ensures heads { (b d : SignatureRelation) (es fs : List EnvelopeData) →
        IsAccepted kind b es → IsAccepted kind d fs →
        kind.head (kind.view_of es) ≡ kind.head (kind.view_of fs) →
        (contents es ≡ contents fs) ⊎ HaveCollision kind.id (contents es) (contents fs) }
    ensures contents { (b d : SignatureRelation) (es fs : List EnvelopeData) →
        IsAccepted kind b es → IsAccepted kind d fs → contents es ≡ contents fs →
        kind.head (kind.view_of es) ≡ kind.head (kind.view_of fs) }
    ensures fronts { (b d : SignatureRelation) (es fs : List EnvelopeData) (n : ℕ) →
        IsAccepted kind b es → IsAccepted kind d fs → n < length fs →
        kind.head (kind.view_of es) ≡ Some (kind.id (slice_index_or (contents fs) n [])) →
        (contents es ≡ take (n + 1) (contents fs))
        ⊎ HaveCollision kind.id (contents es) (contents fs) }
    ensures extinction { (b : SignatureRelation) (es fs : List EnvelopeData) →
        IsAccepted kind b (es ++ fs) → StaysExtinct effects es (es ++ fs) }
{
    audited_logs::equal_heads::<LogState>();
    audited_logs::equal_contents::<LogState>();
    audited_logs::fronts::<LogState>();
    audited_logs::extinction::<LogState>();
    audited_logs::last_entry_decides::<LogState>();
    logs::equal_heads();
    logs::refusals_tell_apart::<Permission>();
}

/// Logs whose heads are shown under one checkpoint, at this kind.
pub fn heads_under_one_checkpoint()
    ensures { (b d : SignatureRelation) (es fs : List EnvelopeData) (head other : OfRecordId)
        (checkpoint : Checkpoint) (log_id : LogId) (proof other_proof : List (List ℕ)) →
        IsAccepted kind b es → IsAccepted kind d fs →
        kind.head (kind.view_of es) ≡ Some head → kind.head (kind.view_of fs) ≡ Some other →
        checkpoints.ShowsHead checkpoint log_id head proof →
        checkpoints.ShowsHead checkpoint log_id other other_proof →
        (contents es ≡ contents fs) ⊎ HaveCollision kind.id (contents es) (contents fs)
        ⊎ checkpoints.HaveCollision sha256
        (checkpoints.path_inputs_for log_id (checkpoints.head_leaf head) proof)
        (checkpoints.path_inputs_for log_id (checkpoints.head_leaf other) other_proof) }
{
    transparency::heads::<LogState>();
}

/// The laws of all runs, at this kind.
pub fn runs()
    ensures more { (b : SignatureRelation) (es : List EnvelopeData) (e : EnvelopeData) →
        IsAccepted kind b (es ++ e ∷ []) ↔
        (IsAccepted kind b es × (kind.offence b (kind.view_of es) e ≡ None)) }
    ensures determined { (b d : SignatureRelation) (es fs : List EnvelopeData) →
        IsAccepted kind b es → IsAccepted kind d fs → map (λ e. e.content) es ≡
        map (λ e. e.content) fs →
        map (λ e. e.key_id) es ≡ map (λ e. e.key_id) fs → kind.view_of es ≡ kind.view_of fs }
{
    runs::one_more::<LogState>();
    runs::links::<LogState>();
    runs::determination::<LogState>();
    runs::one_state::<LogState>();
    runs::saved_versions::<LogState>();
    runs::strings_are_accepted::<LogState>();
    runs::first_offence::<LogState>();
    runs::resumption::<LogState>();
    runs::two_verifiers::<LogState>();
    runs::equality::<ValidationError>();
}

/// The laws of the kind.
pub fn kind_laws()
    ensures extension { (b : SignatureRelation) (es fs : List EnvelopeData) →
        IsAccepted kind b (es ++ fs) →
        IsExtension (kind.view_of es).state.own_state (kind.view_of (es ++ fs)).state.own_state }
    ensures versions { (b : SignatureRelation) (es : List EnvelopeData) → IsAccepted kind b es →
        AreDistinct (versions (kind.view_of es).state.own_state) }
    ensures yanks { (b : SignatureRelation) (es : List EnvelopeData) → IsAccepted kind b es →
        OneYankEach (history es) }
    ensures form { (b : SignatureRelation) (es : List EnvelopeData) → 0 < length es →
        IsAccepted kind b es → HasForm record_id_of (records_of es) }
    ensures admitted { (b : SignatureRelation) (es : List EnvelopeData) → IsAccepted kind b es →
        All (λ r. r.contents.version ≡ 1) (records_of es) → NoKeyBringsItselfIn (records_of es) }
{
    package::extension();
    package::distinct_versions();
    package::one_yank_each();
    package::form();
    package::no_key_brings_itself_in();
    package::states_tell_history();
    package::offences_are_possible();
    package::errors_tell_apart();
    package::equality();
    package::newest_version();
}
