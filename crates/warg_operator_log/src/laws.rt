//! Laws over all operator logs. They have no effect.
ghost use Rattle.std.specs.Prelude.{◌≡◌, ◌↔◌, ◌≤◌, ℕ, List, ◌++◌, None, Some, true, ◌<◌, length, Result, IfOk, IsOk, All, IfSome};
ghost use Rattle.warg_envelope.specs.EnvelopeData.{EnvelopeData};
ghost use Rattle.warg_log_records.specs.Kinds.{SignatureRelation, IsAccepted, StandsFor};
ghost use Rattle.std.specs.Prelude.{Option};
ghost use Rattle.warg_log.specs.RecordOffences.{version_offence};
ghost use Rattle.warg_log.specs.declared.head.Head.{Head};
ghost use Rattle.warg_operator_log.specs.NamespaceMap.{namespace_view};
ghost use Rattle.warg_operator_log.specs.Namespaces.{Namespace, record_id_of};
ghost use Rattle.warg_operator_log.specs.State.{offence_of, view_of, View, record_offence};
ghost use Rattle.warg_log_records.specs.OperatorEntries.{OperatorOwnEntry};
ghost use Rattle.warg_permissions.specs.declared.operator.Permission.{Permission};
ghost use Rattle.warg_log.specs.Rules.{SignedRecord};
ghost use Rattle.warg_log.specs.PossibleOffences.{IsPossible};
ghost use Rattle.warg_operator_log.specs.StateLaws.{kind, operator_log, AreEquivalent};
ghost use Rattle.warg_operator_log.specs.declared.namespace.NamespaceState.{NamespaceState};
ghost use Rattle.warg_operator_log.specs.declared.error.ValidationError.{ValidationError};
ghost use Rattle.warg_operator_log.specs.declared.error.ValidationError.TheVariants.{OutOfMemory};
ghost use Rattle.warg_envelope.specs.ReadingWords.{envelope_in};
ghost use Rattle.warg_log_records.specs.OperatorReading.{operator_record_of};
ghost use Rattle.warg_log_records.specs.Readings.{operator_reading};
ghost use Rattle.warg_replay.specs.LogWords.{IsRun};
ghost use Rattle.warg_replay.specs.OutcomeRuns.{IfStarted};
ghost use Rattle.warg_replay.specs.Inputs.{read_all};
ghost use Rattle.warg_replay.specs.declared.replay.RunError.{RunError};
ghost use Rattle.warg_log.specs.Admissions.{NoKeyBringsItselfIn};
ghost use Rattle.warg_permissions.specs.KeyMaps.AuthorityData.{AuthorityData};
ghost use Rattle.warg_log.specs.Forms.{HasForm};
ghost use Rattle.warg_log.specs.States.{State};
ghost use Rattle.warg_operator_log.specs.StateHistory.{TellsHistory, OneEntryEach, records_of, history};

use warg_log::Head;
use warg_log_records::operator::OPERATOR_RECORD_VERSION;

/// Each namespace of an accepted log keeps its state in each accepted log that goes on from it.
pub fn extension()
    ensures { (b : SignatureRelation) (es fs : List EnvelopeData) → IsAccepted kind b (es ++ fs) →
        (name : List ℕ) (s : Namespace) →
        (kind.view_of es).state.own_state name ≡ Some s →
        (kind.view_of (es ++ fs)).state.own_state name ≡ Some s }
{}

/// Errors are equal exactly if they name the same offence, and only out of memory names none.
pub fn errors_tell_apart()
    ensures apart { (e f : ValidationError) →
        (⟦<crate::error::ValidationError as PartialEq>⟧.eq e f ≡ true)
        ↔ (offence_of e ≡ offence_of f) }
    ensures memory { (e : ValidationError) → (offence_of e ≡ None) ↔ (e ≡ OutOfMemory) }
{}

/// Each namespace of an accepted log has one entry, which says what it is.
pub fn one_entry_each()
    ensures { (b : SignatureRelation) (es : List EnvelopeData) → IsAccepted kind b es →
        OneEntryEach (history es) }
{}

/// The contents of an accepted log are records. Where it has any, their times never fall, the first
/// alone has no prev, one Init stands, as the first entry of the first, and each id with an entry has a
/// key.
pub fn form()
    ensures records { (b : SignatureRelation) (es : List EnvelopeData) → IsAccepted kind b es →
        All (λ e. IsOk (operator_record_of e.content)) es }
    ensures form { (b : SignatureRelation) (es : List EnvelopeData) →
        0 < length es → IsAccepted kind b es →
        HasForm record_id_of (records_of es) }
{}

/// A state that stands for a log says what the log's history says: who holds what, who has
/// an entry, whose key is which, the namespaces by name and the head, from which the look-ups answer.
/// What `run` answers as a state is one for an accepted log, the envelopes of the inputs.
pub fn states_tell_history()
    ensures stands { (s : State (AuthorityData Permission) (List (List ℕ × Namespace)))
        (es : List EnvelopeData) →
        StandsFor kind view_of s es → TellsHistory s es }
    ensures run { (b : SignatureRelation) (strings : List (List ℕ))
        (answer : Result (State (AuthorityData Permission) (List (List ℕ × Namespace)))
        (RunError ValidationError)) →
        IfStarted (IsRun operator_log operator_reading b strings) answer →
        IfOk answer (λ s. let es = read_all (envelope_in operator_reading) strings in
        IsAccepted kind b es × TellsHistory s es) }
{}

/// What is wrong with a record is never out of memory within another error, nor a second algorithm:
/// no record is refused by `IncorrectHashAlgorithm`, or by a `SignatureError` but `Refused`.
pub fn offences_are_possible()
    ensures { (b : SignatureRelation) (v : View) (e : SignedRecord Permission OperatorOwnEntry) →
        IfSome (record_offence b v e) IsPossible }
{}

/// When `==` is true: of heads exactly where they are identical, of namespaces exactly where their texts are, and of
/// states exactly where their views are equivalent.
pub fn equality()
    ensures heads { (a b : Head) → (⟦<Head as PartialEq>⟧.eq a b ≡ true) ↔ (a ≡ b) }
    ensures namespaces { (a b : NamespaceState) →
        (⟦<crate::namespace::NamespaceState as PartialEq>⟧.eq a b ≡ true) ↔
        (namespace_view a ≡ namespace_view b) }
    ensures states { (s t : State (AuthorityData Permission) (List (List ℕ × Namespace))) →
        (⟦<crate::state::LogState as PartialEq>⟧.eq s t ≡ true) ↔
        AreEquivalent (view_of s) (view_of t) }
{}

/// A record's version is lawful exactly if it is at most `OPERATOR_RECORD_VERSION`, the newest, and not below the
/// head's.
pub fn newest_version()
    ensures { (head : Option Head) (version : ℕ) →
        (version_offence {P = Permission} head version ≡ None) ↔
        ((version ≤ OPERATOR_RECORD_VERSION) × IfSome head (λ h. h.version ≤ version)) }
{}

/// In an accepted log whose records all have version 1 no key brings itself in: each signer signed the
/// first record, or an entry of an earlier record grants a permission to a key whose fingerprint is the
/// signer's id.
pub fn no_key_brings_itself_in()
    ensures { (b : SignatureRelation) (es : List EnvelopeData) → IsAccepted kind b es →
        All (λ r. r.contents.version ≡ 1) (records_of es) → NoKeyBringsItselfIn (records_of es) }
{}
