//! Laws over all logs of a kind. They have no effect.
ghost use Rattle.std.specs.Prelude.{◌≡◌, ◌==◌, ◌&&◌, ◌↔◌, ℕ, ◌+◌, List, [], ◌∷◌, ◌++◌, length, map, take, Option, Some, None, true};
ghost use Rattle.std.specs.List.{slice_get};
ghost use Rattle.warg_crypto.specs.Json.Json.{AreReadBack};
ghost use Rattle.warg_envelope.specs.Envelopes.{EnvelopeFault};
ghost use Rattle.warg_envelope.specs.EnvelopeData.{EnvelopeData};
ghost use Rattle.warg_log_records.specs.Kinds.{SignatureRelation, accepted_by_either, IsAccepted, StandsFor, last_id};
ghost use Rattle.warg_replay.specs.LogWords.{HasNoOffence, HasNoOffenceAfter, IsFirstOffence, IsFirstOffenceAfter, IsFoundBy, envelopes_said, first_offence_from};
ghost use Rattle.warg_replay.specs.OutcomeRuns.{same_cause};
ghost use Rattle.warg_replay.specs.Inputs.{Cause};
ghost use Rattle.warg_replay.specs.declared.replay.RunCause.{RunCause};
ghost use Rattle.warg_replay.specs.declared.replay.RunError.{RunError};

use crate::replay::{RunCause, RunError};
use crate::validator::Validator;
use warg_envelope::ParseEnvelopeError;

/// A log with one record more is accepted exactly if the log is and the record has no offence after
/// it, and then says what the record makes of what the log said.
pub fn one_more<L: Validator>()
    ensures accepted { (b : SignatureRelation) (es : List EnvelopeData) (e : EnvelopeData) →
        IsAccepted L.kind b (es ++ e ∷ []) ↔
        (IsAccepted L.kind b es × (L.kind.offence b (L.kind.view_of es) e ≡ None)) }
    ensures view { (b : SignatureRelation) (es : List EnvelopeData) (e : EnvelopeData) →
        IsAccepted L.kind b (es ++ e ∷ []) →
        L.kind.view_of (es ++ e ∷ []) ≡ L.kind.after (L.kind.view_of es) e }
{}

/// The head of an accepted log is the id of its last record, and each record names the id of the one
/// before it, the first none.
pub fn links<L: Validator>()
    ensures head { (b : SignatureRelation) (es : List EnvelopeData) → IsAccepted L.kind b es →
        L.kind.head (L.kind.view_of es) ≡ last_id L.kind es }
    ensures link { (b : SignatureRelation) (es : List EnvelopeData) → IsAccepted L.kind b es →
        (i : ℕ) (e : EnvelopeData) → slice_get es i ≡ Some e →
        L.kind.prev e.content ≡ last_id L.kind (take i es) }
{}

/// Accepted logs with equal content bytes and equal key ids, record for record, say the same, and
/// states that stand for them are equal, whatever the signatures and whoever verified them.
pub fn determination<L: Validator>()
    ensures views { (b d : SignatureRelation) (es fs : List EnvelopeData) → IsAccepted L.kind b es →
        IsAccepted L.kind d fs → map (λ e. e.content) es ≡ map (λ e. e.content) fs →
        map (λ e. e.key_id) es ≡ map (λ e. e.key_id) fs → L.kind.view_of es ≡ L.kind.view_of fs }
    ensures states { (b d : SignatureRelation) (es fs : List EnvelopeData) →
        IsAccepted L.kind b es → IsAccepted L.kind d fs → map (λ e. e.content) es ≡
        map (λ e. e.content) fs → map (λ e. e.key_id) es ≡ map (λ e. e.key_id) fs → (s t : L) →
        StandsFor L.kind L.view s es → StandsFor L.kind L.view t fs → L.eq s t ≡ true }
{}

/// States that stand for one log are equal, also where the view of one is only equivalent to that of such a state.
pub fn one_state<L: Validator>()
    ensures same { (es : List EnvelopeData) (s t : L) → StandsFor L.kind L.view s es →
        StandsFor L.kind L.view t es → L.eq s t ≡ true }
    ensures equivalent { (es : List EnvelopeData) (s t : L) →
        L.Validator.equivalent (L.view s) (L.kind.view_of es) →
        StandsFor L.kind L.view t es → L.eq s t ≡ true }
{}

/// What was saved of a state of an accepted log reads back, as a value and as a text: the texts of its versions do, which
/// is all that those calls ask.
pub fn saved_versions<L: Validator>()
    ensures { (b : SignatureRelation) (es : List EnvelopeData) → IsAccepted L.kind b es →
        (s : L) → StandsFor L.kind L.view s es →
        AreReadBack (L.JsonValue.versions (L.JsonValue.plain s)) }
{}

/// Inputs without offence are an accepted log.
pub fn strings_are_accepted<L: Validator>()
    ensures { (b : SignatureRelation) (ss : List (List ℕ)) →
        HasNoOffence L.log L.Record.reading b ss →
        IsAccepted L.kind b (envelopes_said L.Record.reading ss) }
{}

/// The first offence is one place and one cause, or there is none: a search from the front, view by
/// view, finds it.
pub fn first_offence<L: Validator>()
    ensures { (b : SignatureRelation) (ss : List (List ℕ))
        (o : Option (ℕ × Cause (EnvelopeFault L.Record.Fault) L.Offence)) →
        IsFoundBy L.log L.Record.reading b ss o ↔
        (first_offence_from L.log L.Record.reading b L.kind.start ss ≡ o) }
{}

/// A log in two parts: the whole has no offence exactly if neither the first part has one nor the
/// second after the first, and an offence of the second is one of the whole, as many places later.
pub fn resumption<L: Validator>()
    ensures lawful { (b : SignatureRelation) (ss ts : List (List ℕ)) →
        HasNoOffence L.log L.Record.reading b (ss ++ ts) ↔
        (HasNoOffence L.log L.Record.reading b ss ×
        HasNoOffenceAfter L.log L.Record.reading (envelopes_said L.Record.reading ss) b ts) }
    ensures first { (b : SignatureRelation) (ss ts : List (List ℕ)) →
        HasNoOffence L.log L.Record.reading b ss →
        (i : ℕ) (c : Cause (EnvelopeFault L.Record.Fault) L.Offence) →
        IsFirstOffenceAfter L.log L.Record.reading (envelopes_said L.Record.reading ss) b ts i c →
        IsFirstOffence L.log L.Record.reading b (ss ++ ts) (length ss + i) c }
{}

/// A log whose front one verifier accepted, and whose other inputs another: one that takes whatever
/// either takes accepts the whole.
pub fn two_verifiers<L: Validator>()
    ensures { (d b : SignatureRelation) (es : List EnvelopeData) (ss : List (List ℕ)) →
        IsAccepted L.kind d es →
        HasNoOffenceAfter L.log L.Record.reading es b ss →
        IsAccepted L.kind (accepted_by_either d b) (es ++ envelopes_said L.Record.reading ss) }
{}

/// When `==` is true: of errors exactly where their places and causes are equal; of causes exactly where both are
/// faults of reading or both offences of a record, and these are equal.
pub fn equality<E: PartialEq>()
    ensures causes { (a b : RunCause E) → ⟦<RunCause<E> as PartialEq>⟧.eq a b
        ≡ same_cause ⟦<ParseEnvelopeError as PartialEq>⟧.eq E.eq a b }
    ensures errors { (a b : RunError E) → ⟦<RunError<E> as PartialEq>⟧.eq a b ≡
        (a.index == b.index && ⟦<RunCause<E> as PartialEq>⟧.eq a.cause b.cause) }
{}
