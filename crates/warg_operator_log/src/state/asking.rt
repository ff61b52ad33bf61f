//! What is to be verified of a record, where the signature is left to another.
ghost use Rattle.std.specs.Prelude.{IfOk, IfErr};
ghost use Rattle.warg_permissions.specs.OperatorPermissions.{same_permission};
ghost use Rattle.warg_log.specs.Asking.{Asks, RefusesAnyway};
ghost use Rattle.warg_operator_log.specs.Namespaces.{rules};
ghost use Rattle.warg_operator_log.specs.State.{view_of, offence_of, envelope_as_data};

use crate::error::ValidationError;
use crate::state::LogState;
use warg_envelope::ProtoEnvelope;
use warg_log_records::operator::OperatorRecord;
use warg_replay::external::SignatureCheck;

impl LogState {
    /// Judges all of a record but its signature, which is left to the caller: the record is lawful exactly if the
    /// signature of the answer belongs. Anything else is what is wrong first, whatever the signature.
    pub fn ask(
        &self,
        envelope: &ProtoEnvelope<OperatorRecord>,
    ) -> Result<SignatureCheck, ValidationError>
        ensures asks { IfOk result (λ q. Asks rules same_permission (view_of self.now)
            (envelope_as_data envelope.now) q) }
        ensures refused { IfErr result
            (λ e. RefusesAnyway rules same_permission (offence_of e) (view_of self.now)
            (envelope_as_data envelope.now)) }
    {
        self.log.ask(envelope)
    }
}
