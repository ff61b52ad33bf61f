//! The greatest release that meets a requirement.
ghost use Rattle.std.specs.Prelude.{◌≡◌};
ghost use Rattle.std.specs.Option.{option_copied};
ghost use Rattle.semver.specs.Identifiers.{parts_of};
ghost use Rattle.warg_package_log.specs.Latest.{IsGreatest, greater_of, is_candidate, release_cmp, parts_cmp};

use crate::release::Release;
use semver::{Version, VersionReq};
use std::cmp::Ordering;

fn compare(a: &Version, b: &Version) -> Ordering
    ensures { result ≡ parts_cmp (parts_of a.now) (parts_of b.now) }
{
    a.cmp(b)
}

/// The greater of the best so far and a release, where the release meets the requirement and was not yanked.
fn greater<'a>(
    best: Option<&'a Release>,
    release: &'a Release,
    req: &VersionReq,
) -> Option<&'a Release>
    ensures { option_copied result ≡ greater_of (is_candidate req.now.comparators.items) release_cmp
        (option_copied best.entry) release.now }
{
    if release.yanked() || !req.matches(&release.version) {
        return best;
    }
    match best {
        None => Some(release),
        Some(other) => {
            if compare(&release.version, &other.version) == Ordering::Less {
                return Some(other);
            }
            Some(release)
        }
    }
}

/// The greatest release that meets the requirement and was not yanked.
pub(crate) fn latest<'a>(releases: &'a [Release], req: &VersionReq) -> Option<&'a Release>
    ensures { IsGreatest (is_candidate req.now.comparators.items) release_cmp releases.now
        (option_copied result) }
{
    let mut best: Option<&'a Release> = None;
    for release in releases {
        best = greater(best, release, req);
    }
    best
}
