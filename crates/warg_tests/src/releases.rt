//! The releases of a log as an iterator.
ghost use Rattle.std.specs.Iterator.{IsFinite};

use crate::samples::state;
use std::alloc::Global;
use std::process::Abort;
use std::test::Fail;
use warg_protocol::package::{LogState, Release};

const LOG: &str = "
    alice 1.0: init alice, release 1.0.0, release 1.1.0
    alice 2.0: release 0.9.0, yank 1.0.0
";

// The versions, with spaces between them.
fn versions<'a, I: Iterator<Item = &'a Release>>(alloc: Global, releases: I) -> Result<String, Fail>
    requires can { I.can_next releases }
    requires ends { IsFinite (I.remaining releases) }
{
    let mut text = String::new(alloc);
    for release in releases {
        let version = &release.version;
        write!(text, "{version} ")?;
    }
    Ok(text)
}

fn come_from_both_ends(rt: &impl Abort, alloc: Global, state: &LogState) -> Result<(), Fail> {
    let releases = state.releases();
    assert_eq!(rt; releases.len(), 3);
    assert_eq!(rt;
        versions(alloc, releases.clone()?)?.as_str(),
        "1.0.0 1.1.0 0.9.0 "
    );
    assert_eq!(rt;
        versions(alloc, releases.rev())?.as_str(),
        "0.9.0 1.1.0 1.0.0 "
    );
    Ok(())
}

#[test]
fn releases_come_from_both_ends(rt: HostRuntime) -> Result<(), Fail> {
    let alloc = rt.alloc();
    come_from_both_ends(&rt, alloc, &state::<LogState>(alloc, LOG)?)
}

fn are_shown_as_a_list(rt: &impl Abort, alloc: Global, state: &LogState) -> Result<(), Fail> {
    let shown = format!(in alloc; "{:?}", state.releases())?;
    assert!(rt; shown.as_str().starts_with("[Release { record_id: "));
    assert!(rt; shown.as_str().ends_with(" }]"));
    Ok(())
}

#[test]
fn releases_are_shown_as_a_list(rt: HostRuntime) -> Result<(), Fail> {
    let alloc = rt.alloc();
    are_shown_as_a_list(&rt, alloc, &state::<LogState>(alloc, LOG)?)
}
