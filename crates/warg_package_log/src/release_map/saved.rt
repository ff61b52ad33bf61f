//! The releases of a log as their map, which is saved and restored.
ghost use Rattle.std.specs.Prelude.{◌≡◌, None, map};
ghost use Rattle.semver.specs.Identifiers.{parts_of};
ghost use Rattle.warg_crypto.specs.Json.Pairs.{plain_pairs};
ghost use Rattle.warg_package_log.specs.ReleaseMap.{release_view};
ghost use Rattle.warg_package_log.specs.SavedState.{named_releases, releases_case};

use crate::release::Release;
use crate::release_map::ReleaseMap;
use semver::Version;
use warg_maps::NameMap;

impl ReleaseMap {
    /// The releases by their versions.
    pub(crate) fn as_map(&self) -> &NameMap<Version, Release>
        ensures { plain_pairs parts_of release_view result.now.entries ≡ named_releases self.now }
    {
        &self.map
    }

    /// The releases of the map, each of which has to stand under its version.
    pub(crate) fn restore(releases: NameMap<Version, Release>) -> ReleaseMap
        requires { releases_case (plain_pairs parts_of release_view releases.entries) ≡ None }
        ensures { result ≡ map (λ e. e.1) (plain_pairs parts_of release_view releases.entries) }
    {
        let _entries = releases.iter();
        ReleaseMap { map: releases }
    }
}
