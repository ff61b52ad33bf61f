//! A release of a package, and what became of it.
ghost use Rattle.std.specs.Prelude.{◌≡◌, IfOk};
ghost use Rattle.std.specs.Option.{option_copied};
ghost use Rattle.std.specs.Cmp.{partial_equiv_from_equiv};

mod json;
mod saved;

use semver::Version;
use std::alloc::AllocError;
use warg_crypto::hash::AnyHash;
use warg_crypto::signing::KeyID;
use warg_crypto::time::Timestamp;
use warg_log_records::RecordId;

/// What became of a release.
#[derive(Debug, Drop)]
pub enum ReleaseState {
    /// The release stands.
    Released {
        /// The hash of the content.
        content: AnyHash,
    },
    /// The release was yanked.
    Yanked {
        /// The id of the key.
        by: KeyID,
        /// The time of the record.
        timestamp: Timestamp,
    },
}

impl ReleaseState {
    /// A copy.
    pub fn try_clone(&self) -> Result<ReleaseState, AllocError>
        ensures { IfOk result (λ copy. copy ≡ self.now) }
    {
        Ok(match self {
            ReleaseState::Released { content } => ReleaseState::Released { content: *content },
            ReleaseState::Yanked { by, timestamp } => ReleaseState::Yanked {
                by: by.clone()?,
                timestamp: *timestamp,
            },
        })
    }
}

impl Clone for ReleaseState {
    ghost is_clone = { λ a b. b ≡ a };

    fn clone(&self) -> Result<ReleaseState, AllocError> {
        self.try_clone()
    }
}

impl PartialEq for ReleaseState {
    ghost use Rattle.warg_package_log.specs.SameReleases.{same_state};
    ghost use Rattle.warg_package_log.specs.SameReleaseLaws.{state_equiv};

    ghost eq = { same_state };

    ghost laws = { partial_equiv_from_equiv state_equiv };

    fn eq(&self, other: &ReleaseState) -> bool {
        match (self, other) {
            (ReleaseState::Released { content: a }, ReleaseState::Released { content: b }) => {
                *a == *b
            }
            (
                ReleaseState::Yanked {
                    by: a,
                    timestamp: s,
                },
                ReleaseState::Yanked {
                    by: b,
                    timestamp: t,
                },
            ) => *a == *b && *s == *t,
            _ => false,
        }
    }
}

impl Eq for ReleaseState {
    ghost use Rattle.warg_package_log.specs.SameReleaseLaws.{state_equiv};

    ghost laws = { state_equiv };
}

/// A release of a package.
#[derive(Debug, Drop)]
pub struct Release {
    /// The id of the record that released the version.
    pub record_id: RecordId,
    /// The version.
    pub version: Version,
    /// The key that signed that record.
    pub by: KeyID,
    /// The time of that record.
    pub timestamp: Timestamp,
    /// What became of the release.
    pub state: ReleaseState,
}

impl Release {
    ghost use Rattle.warg_package_log.specs.Releases.{is_yanked, content_of};
    ghost use Rattle.warg_package_log.specs.ReleaseMap.{release_view};

    /// Whether the release was yanked.
    pub fn yanked(&self) -> bool
        ensures { result ≡ is_yanked self.now.state }
    {
        matches!(&self.state, ReleaseState::Yanked { .. })
    }

    /// The hash of the content, or `None` once the release is yanked.
    pub fn content(&self) -> Option<&AnyHash>
        ensures { option_copied result ≡ content_of self.now.state }
    {
        match &self.state {
            ReleaseState::Released { content } => Some(content),
            ReleaseState::Yanked { .. } => None,
        }
    }

    /// A copy, with this state in place of its own.
    pub(crate) fn with_state(&self, state: ReleaseState) -> Result<Release, AllocError>
        ensures { IfOk result (λ copy. release_view copy ≡
            record (release_view self.now) { state = state }) }
    {
        Ok(Release {
            record_id: self.record_id,
            version: self.version.clone()?,
            by: self.by.clone()?,
            timestamp: self.timestamp,
            state,
        })
    }

    /// A copy.
    pub fn try_clone(&self) -> Result<Release, AllocError>
        ensures { IfOk result (λ copy. release_view copy ≡ release_view self.now) }
    {
        Ok(Release {
            record_id: self.record_id,
            version: self.version.clone()?,
            by: self.by.clone()?,
            timestamp: self.timestamp,
            state: self.state.try_clone()?,
        })
    }
}

impl Clone for Release {
    ghost use Rattle.warg_package_log.specs.ReleaseMap.{release_view};

    ghost is_clone = { λ a b. release_view b ≡ release_view a };

    fn clone(&self) -> Result<Release, AllocError> {
        self.try_clone()
    }
}

impl PartialEq for Release {
    ghost use Rattle.warg_package_log.specs.ReleaseMap.{release_view};
    ghost use Rattle.warg_package_log.specs.SameReleases.{same_release};
    ghost use Rattle.warg_package_log.specs.SameReleaseLaws.{shown_equiv};

    ghost eq = { λ a b. same_release (release_view a) (release_view b) };

    ghost laws = { partial_equiv_from_equiv shown_equiv };

    fn eq(&self, other: &Release) -> bool {
        self.record_id == other.record_id
            && self.version == other.version
            && self.by == other.by
            && self.timestamp == other.timestamp
            && self.state == other.state
    }
}

impl Eq for Release {
    ghost use Rattle.warg_package_log.specs.SameReleaseLaws.{shown_equiv};

    ghost laws = { shown_equiv };
}
