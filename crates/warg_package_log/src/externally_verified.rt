//! A package log leaves signatures to a host, as any log does.
use crate::error::ValidationError;
use crate::state::LogState;
use warg_envelope::ProtoEnvelope;
use warg_log_records::package::PackageRecord;
use warg_replay::external::{ExternallyVerified, SignatureCheck};

impl ExternallyVerified for LogState {
    ghost use Rattle.warg_package_log.specs.StateLaws as law;

    ghost asks_where_lawful = { law.state_asks };

    fn ask(
        &self,
        envelope: &ProtoEnvelope<PackageRecord>,
    ) -> Result<SignatureCheck, ValidationError> {
        LogState::ask(self, envelope)
    }
}
