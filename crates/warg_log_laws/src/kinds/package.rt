//! Package logs, by their rules.
use crate::ruled::RuledLog;
use warg_log_records::laws::envelope_reading_computes;
use warg_package_log::LogState;

impl RuledLog for LogState {
    ghost use Rattle.std.specs.Prelude.{List, refl};
    ghost use Rattle.warg_log_laws.specs.PackageKind as kind;
    ghost use Rattle.warg_log_records.specs.PackageEntries as entries;
    ghost use Rattle.warg_log_records.specs.PackageReading as reading;
    ghost use Rattle.warg_log_records.specs.Readings.{package_reading};
    ghost use Rattle.warg_package_log.proofs.AcceptedLaws.{accepted-extension};
    ghost use Rattle.warg_package_log.specs.Extensions.{IsExtension};
    ghost use Rattle.warg_package_log.specs.ListedReleaseLaws.{releases-listed};
    ghost use Rattle.warg_package_log.specs.ListedReleases.{listed_releases};
    ghost use Rattle.warg_package_log.specs.ReleaseLaws.{releases-append, releases-none};
    ghost use Rattle.warg_package_log.specs.Releases as own;
    ghost use Rattle.warg_package_log.specs.State as state;
    ghost use Rattle.warg_package_log.specs.StateLaws as law;
    ghost use Rattle.warg_permissions.specs.PackagePermissions as permissions;

    ghost Own = { entries.PackageOwnEntry };

    ghost OwnView = { List own.ReleaseView };

    ghost OwnOffence = { own.OwnOffence };

    ghost rules = { own.rules };

    ghost same = { permissions.same_permission };

    ghost read = { reading.package_record_of };

    ghost listed = { listed_releases };

    ghost ruled = { kind.ruled };

    ghost record_data = { entries.record_data };

    ghost says = { state.view_of };

    ghost offence_named_by = { state.offence_of };

    ghost ruled_log = { law.package_log };

    ghost ruled_reading = { package_reading };

    // No release is lost, moved or changed, but that it may be yanked.
    ghost keeps = { IsExtension };

    ghost IsContent = { kind.IsContent };

    ghost HasContentFault = { kind.HasContentFault };

    fn reading_computes() {
        envelope_reading_computes();
    }

    ghost one_permission_each = { permissions.same_permission-is };

    ghost owns_its_key = { refl };

    ghost after_none = { releases-none };

    ghost after_append = { releases-append };

    ghost by_list = { releases-listed };

    ghost longer_keeps = { accepted-extension };

    ghost effects_by_rules = { refl };

    ghost holds_by_rules = { λ s k p. refl };

    ghost audited_by_rules = { λ b s records audited. audited };

    ghost run_by_rules = { λ b strings answer. (λ run. run, λ run. run) };
}
