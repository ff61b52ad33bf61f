//! An operator log leaves signatures to a host, as any log does.
use crate::error::ValidationError;
use crate::state::LogState;
use warg_envelope::ProtoEnvelope;
use warg_log_records::operator::OperatorRecord;
use warg_replay::external::{ExternallyVerified, SignatureCheck};

impl ExternallyVerified for LogState {
    ghost use Rattle.warg_operator_log.specs.StateLaws as law;

    ghost asks_where_lawful = { law.state_asks };

    fn ask(
        &self,
        envelope: &ProtoEnvelope<OperatorRecord>,
    ) -> Result<SignatureCheck, ValidationError> {
        LogState::ask(self, envelope)
    }
}
