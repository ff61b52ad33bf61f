//! Logs that judge all of a record but its signature.
ghost use Rattle.std.specs.Prelude.{◌≡◌, IfOk, IfErr};

use crate::validator::Validator;
use warg_envelope::ProtoEnvelope;
use warg_log_records::SignatureCheck;

/// A state that judges all of a record but its signature, in place.
pub trait ExternallyVerified: Validator {
    ghost use Rattle.warg_envelope.specs.ReadingWords.{ContentsMatchBytes};
    ghost use Rattle.warg_log_records.specs.Asked.{AsksOf, RefusesAlways, AsksWhereLawful};

    /// What is to be verified of a record that may come next, or what is wrong with it, whatever its signature.
    fn ask(&self, envelope: &ProtoEnvelope<Self::Record>) -> Result<SignatureCheck, Self::Error>
        ensures asks { ContentsMatchBytes Self.Record.reading envelope.now →
            IfOk result (λ q. AsksOf Self.Validator.kind (Self.Validator.view self.now)
            envelope.now.envelope q) }
        ensures refused { ContentsMatchBytes Self.Record.reading envelope.now →
            IfErr result (λ e. RefusesAlways Self.Validator.kind
            (Self.Validator.view self.now) envelope.now.envelope
            (Self.Validator.offence_of e)) };

    // A record that may come asks for one signature.
    ghost asks_where_lawful: { AsksWhereLawful Self.Validator.kind };
}
