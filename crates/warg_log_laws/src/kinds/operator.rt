//! Operator logs, by their rules.
use crate::ruled::RuledLog;
use warg_log_records::laws::envelope_reading_computes;
use warg_operator_log::LogState;

impl RuledLog for LogState {
    ghost use Rattle.std.specs.Prelude.{refl};
    ghost use Rattle.warg_log_laws.specs.OperatorKind as kind;
    ghost use Rattle.warg_log_records.specs.OperatorEntries as entries;
    ghost use Rattle.warg_log_records.specs.OperatorReading as reading;
    ghost use Rattle.warg_log_records.specs.Readings.{operator_reading};
    ghost use Rattle.warg_operator_log.proofs.AcceptedLaws.{accepted-extension};
    ghost use Rattle.warg_operator_log.specs.Namespaces as own;
    ghost use Rattle.warg_operator_log.specs.State as state;
    ghost use Rattle.warg_operator_log.specs.StateLaws as law;
    ghost use Rattle.warg_permissions.specs.OperatorPermissions as permissions;

    ghost Own = { entries.OperatorOwnEntry };

    ghost OwnView = { own.Names };

    ghost OwnOffence = { own.OwnOffence };

    ghost rules = { own.rules };

    ghost same = { permissions.same_permission };

    ghost read = { reading.operator_record_of };

    ghost listed = { law.listed_namespaces };

    ghost ruled = { kind.ruled };

    ghost record_data = { entries.record_data };

    ghost says = { state.view_of };

    ghost offence_named_by = { state.offence_of };

    ghost ruled_log = { law.operator_log };

    ghost ruled_reading = { operator_reading };

    // Each namespace keeps its state.
    ghost keeps = { kind.KeepsNamespaces };

    ghost IsContent = { kind.IsContent };

    ghost HasContentFault = { kind.HasContentFault };

    fn reading_computes() {
        envelope_reading_computes();
    }

    ghost one_permission_each = { permissions.same_permission-is };

    ghost owns_its_key = { refl };

    ghost after_none = { own.names-none };

    ghost after_append = { own.names-append };

    ghost by_list = { λ es lawful. refl };

    ghost longer_keeps = { accepted-extension };

    ghost effects_by_rules = { refl };

    ghost holds_by_rules = { λ s k p. refl };

    ghost audited_by_rules = { λ b s records audited. audited };

    ghost run_by_rules = { λ b strings answer. (λ run. run, λ run. run) };
}
