//! What answers say of a log, for every kind of log: clauses to call, with no code.
ghost use Rattle.std.specs.Prelude.{◌≡◌, ◌↔◌, List, None};
ghost use Rattle.warg_envelope.specs.EnvelopeData.{EnvelopeData};
ghost use Rattle.warg_log_records.specs.Kinds.{SignatureRelation, AcceptsNoMore, IsAccepted};
ghost use Rattle.warg_replay.specs.Telling.{verdict_belongs, Holds, Answers, HoldsOfAsked};
ghost use Rattle.warg_replay.specs.declared.external.signature_verdict.SignatureVerdict.{SignatureVerdict};

use crate::external::externally_verified::ExternallyVerified;

/// A log that is accepted under some relation is accepted under another exactly if that holds of all that its records ask.
pub fn accepted_as_asked<L: ExternallyVerified>()
    ensures { (b d : SignatureRelation) (es : List EnvelopeData) → IsAccepted L.kind b es →
        (IsAccepted L.kind d es ↔ HoldsOfAsked L.kind d es) }
{}

/// Where an answer makes a record lawful, the host said yes to just what the record asks.
pub fn answers_what_is_asked<L: ExternallyVerified>()
    ensures { (t : SignatureVerdict) (v : L.View) (e : EnvelopeData) →
        L.kind.offence (verdict_belongs t) v e ≡ None →
        Answers L.kind v e t }
{}

/// A relation holds of an answer exactly if it holds of all that the answer takes.
pub fn holds_within()
    ensures { (b : SignatureRelation) (t : SignatureVerdict) → Holds b t ↔ AcceptsNoMore (verdict_belongs t) b }
{}
