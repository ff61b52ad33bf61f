//! What is reported of package logs.

ghost use Rattle.std.specs.Prelude.{◌≡◌, ◌++◌, OnOk, string_bytes};
ghost use Rattle.warg_package_log.specs.ReleaseMap.{release_view};
ghost use Rattle.warg_audit.specs.ReleaseLines.{release_line, release_state_text};

use crate::report::Report;
use std::alloc::{AllocError, Global};
use warg_package_log::{LogState, Release, ReleaseState, ValidationError};

// Appends what became of a release.
fn append_state(state: &ReleaseState, text: &mut String) -> Result<(), AllocError>
    ensures { OnOk result (string_bytes text.new ≡ string_bytes text.old ++
        release_state_text state.now) }
{
    match state {
        ReleaseState::Released { content } => {
            let mut buffer = [0u8; 71];
            text.push_str(" released ")?;
            text.push_str(content.write_text(&mut buffer))
        }
        ReleaseState::Yanked { .. } => text.push_str(" yanked"),
    }
}

// Appends the line of one release.
fn append_line(alloc: Global, release: &Release, text: &mut String) -> Result<(), AllocError>
    ensures { OnOk result (string_bytes text.new ≡ string_bytes text.old ++
        release_line (release_view release.now)) }
{
    let version = release.version.to_string(alloc)?;
    text.push_str(version.as_str())?;
    append_state(&release.state, text)?;
    text.push('\n')
}

impl Report for LogState {
    ghost use Rattle.std.specs.Option.{option_map};
    ghost use Rattle.warg_package_log.specs.State.{view_of, offence_of};
    ghost use Rattle.warg_package_log.specs.OffenceNames.{offence_name};
    ghost use Rattle.warg_audit.specs.ReleaseLines.{release_lines};

    ghost name_of = { λ e. option_map offence_name (offence_of e) };

    ghost lines_of = { λ state. release_lines (view_of state).state.own_state };

    ghost report = { record {} };

    fn error_name(error: &ValidationError) -> Option<&'static str> {
        match error {
            ValidationError::OutOfMemory => None,
            _ => Some(error.name()),
        }
    }

    fn append_lines(&self, alloc: Global, text: &mut String) -> Result<(), AllocError> {
        'releases: for release in self.releases() {
            append_line(alloc, release, text)?;
        }
        Ok(())
    }
}
