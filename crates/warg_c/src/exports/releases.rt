//! The releases of a package log.
ghost use Rattle.std.specs.Prelude.{◌≡◌, ◌≢◌, ◌≤◌, ◌⊎◌, Ok, Some, None, ◌↔◌, IsTrue, IfOk, IfErr};
ghost use Rattle.std.specs.Prelude.{[], ◌∷◌, IsSome, IsSomeAnd, map, length, take, drop};
ghost use Rattle.std.specs.Option.{option_copied, option_map};
ghost use Rattle.warg_package_log.specs.Releases.{ReleaseView};
ghost use Rattle.semver.specs.Identifiers.{comparator_view, parts_of};
ghost use Rattle.semver.specs.Parse.{memory_error, req_of, version_parts};
ghost use Rattle.warg_package_log.specs.ReleaseMap.{release_view};
ghost use Rattle.warg_c.specs.ReleaseAnswers.{IsAt, IsLatest, IsNoRequirement, IsNoVersion, IsReleaseOf, Shows};
ghost use Rattle.warg_c.specs.ReleaseAnswers.{is_package, latest_bad, latest_lacks, latest_tells, place_bad};
ghost use Rattle.warg_c.specs.ReleaseAnswers.{place_lacks, place_takes, place_tells, release_bad, release_lacks};
ghost use Rattle.warg_c.specs.ReleaseAnswers.{release_tells};
ghost use Rattle.warg_c.specs.ArgumentErrors.{argument_error_text, package_argument_error};
ghost use Rattle.warg_c.specs.Statuses.{WARG_OK, WARG_NOT_OPEN, WARG_OUT_OF_MEMORY, WARG_TOO_SMALL, WARG_NONE};
ghost use Rattle.warg_c.specs.Statuses.{WARG_BAD_ARGUMENT, IsOneOf, Unless};
ghost use Rattle.warg_c.specs.Texts.{Always, ErrorsAs, IsGiven, NeedsRoom};
ghost use Rattle.warg_c.specs.declared.argument_error.ArgumentError.TheVariants.{BadRequirement, BadVersion, WrongKind};

use crate::any_log::AnyLog;
use crate::argument_error::ArgumentError;
use crate::call_error::{CallError, status};
use crate::given::finish_with;
use crate::handle::WargLog;
use crate::release_text::{ShownRelease, spell_release};
use semver::{Error as VersionError, Version, VersionReq};
use std::alloc::{AllocError, Global};
use warg_package_log::{LogState, Release};

// Whether an error of a version or a requirement is one of memory.
fn is_memory(error: &VersionError) -> bool
    ensures { IsTrue result ↔ (error.now ≡ memory_error) }
{
    *error == VersionError::from(AllocError)
}

// The requirement that a text says.
fn parse_requirement(alloc: Global, text: &[u8]) -> Result<VersionReq, CallError>
    ensures ok { IfOk result (λ r. req_of text.now ≡ Ok (map comparator_view r.comparators.items)) }
    ensures err { IfErr result (ErrorsAs Always ⊥ (IsNoRequirement text.now)) }
{
    let Ok(text) = str::from_utf8(text) else {
        return Err(CallError::BadArgument);
    };
    match VersionReq::parse(alloc, text) {
        Ok(requirement) => Ok(requirement),
        Err(error) if is_memory(&error) => Err(CallError::OutOfMemory),
        Err(_) => Err(CallError::BadArgument),
    }
}

// The version that a text says.
fn parse_version(alloc: Global, text: &[u8]) -> Result<Version, CallError>
    ensures ok { IfOk result (λ v. version_parts text.now ≡ Ok (parts_of v)) }
    ensures err { IfErr result (ErrorsAs Always ⊥ (IsNoVersion text.now)) }
{
    let Ok(text) = str::from_utf8(text) else {
        return Err(CallError::BadArgument);
    };
    match Version::parse(alloc, text) {
        Ok(version) => Ok(version),
        Err(error) if is_memory(&error) => Err(CallError::OutOfMemory),
        Err(_) => Err(CallError::BadArgument),
    }
}

// A release as bytes, if there is one.
fn shown(alloc: Global, release: Option<&Release>) -> Result<(Vec<u8>, ShownRelease), CallError>
    ensures ok { IfOk result (λ p. (r : ReleaseView) ×
        (option_map release_view (option_copied release.entry) ≡ Some r) × Shows r p.1 p.0.items) }
    ensures err { IfErr result (ErrorsAs
        (IsSome (option_map release_view (option_copied release.entry)))
        (option_map release_view (option_copied release.entry) ≡ None) ⊥) }
{
    let Some(release) = release else {
        return Err(CallError::Absent);
    };
    match spell_release(alloc, release) {
        Ok(spelled) => Ok(spelled),
        Err(_) => Err(CallError::OutOfMemory),
    }
}

fn latest_in(
    alloc: Global,
    state: &LogState,
    requirement: &[u8],
) -> Result<(Vec<u8>, ShownRelease), CallError>
    ensures ok { IfOk result (λ p. (r : ReleaseView) ×
        IsLatest state.now.own_state requirement.now (Some r) × Shows r p.1 p.0.items) }
    ensures err { IfErr result (ErrorsAs Always
        (IsLatest state.now.own_state requirement.now None)
        (IsNoRequirement requirement.now)) }
{
    let requirement = parse_requirement(alloc, requirement)?;
    shown(alloc, state.find_latest_release(&requirement))
}

fn latest_of(
    alloc: Global,
    held: &AnyLog,
    requirement: &[u8],
) -> Result<(Vec<u8>, ShownRelease), CallError>
    ensures ok { IfOk result (λ p. latest_tells held.now requirement.now p.1 p.0.items) }
    ensures err { IfErr result (ErrorsAs (is_package held.now)
        (latest_lacks held.now requirement.now) (latest_bad held.now requirement.now)) }
{
    match held {
        AnyLog::Package(log) => latest_in(alloc, log.state(), requirement),
        AnyLog::Operator(_) => Err(CallError::BadArgument),
    }
}

/// The release that is not yanked, meets the requirement (as ">=1.2, <2"), and has the greatest version.
///   WARG_NONE: there is none.
///   WARG_BAD_ARGUMENT: the text is no requirement (BadRequirement), or the log is one of operators (WrongKind).
#[unsafe(no_mangle)]
pub extern "C" fn warg_latest(
    alloc: Global,
    log: &mut WargLog,
    requirement: &[u8],
    text: &mut [u8],
    used: &mut usize,
    release: &mut ShownRelease,
) -> u32
    ensures statuses { IsOneOf (WARG_OK ∷ WARG_NOT_OPEN ∷ WARG_OUT_OF_MEMORY ∷ WARG_TOO_SMALL ∷
        WARG_NONE ∷ WARG_BAD_ARGUMENT ∷ []) result }
    ensures not_open { (result ≡ WARG_NOT_OPEN) ↔ (log.old.owned.kept ≡ None) }
    ensures ok { result ≡ WARG_OK → IsSomeAnd log.old.owned.kept (λ held.
        latest_tells held requirement.now release.new (take used.new text.new)) }
    ensures out_of_memory { result ≡ WARG_OUT_OF_MEMORY → IsSomeAnd log.old.owned.kept (λ held.
        is_package held) }
    ensures too_small { result ≡ WARG_TOO_SMALL → IsSomeAnd log.old.owned.kept (λ held.
        NeedsRoom (latest_tells held requirement.now release.new) used.new text.old) }
    ensures none { result ≡ WARG_NONE → IsSomeAnd log.old.owned.kept (λ held.
        latest_lacks held requirement.now) }
    ensures bad_argument { result ≡ WARG_BAD_ARGUMENT → IsSomeAnd log.old.owned.kept (λ held.
        latest_bad held requirement.now ×
        IsGiven (argument_error_text (package_argument_error held BadRequirement)) used.new text.new) }
    ensures unchanged { log.new.owned.kept ≡ log.old.owned.kept }
    ensures buffer { Unless (WARG_OK ∷ WARG_BAD_ARGUMENT ∷ []) result (text.new ≡ text.old) }
    ensures used { Unless (WARG_OK ∷ WARG_TOO_SMALL ∷ WARG_BAD_ARGUMENT ∷ []) result
        (used.new ≡ 0) }
    ensures behind { drop used.new text.new ≡ drop used.new text.old }
    ensures kept { Unless (WARG_OK ∷ WARG_TOO_SMALL ∷ []) result (release.new ≡ release.old) }
    ensures within { result ≢ WARG_TOO_SMALL → used.new ≤ length text.new }
{
    *used = 0;
    let Some(held) = log.take(alloc) else {
        return status(Err(CallError::NotOpen));
    };
    let outcome = latest_of(alloc, &held, requirement);
    let wrong = held.package_argument_error(ArgumentError::BadRequirement);
    log.put(held);
    finish_with(outcome, wrong, text, used, release)
}

fn release_in(
    alloc: Global,
    state: &LogState,
    version: &[u8],
) -> Result<(Vec<u8>, ShownRelease), CallError>
    ensures ok { IfOk result (λ p. (r : ReleaseView) ×
        IsReleaseOf state.now.own_state version.now (Some r) × Shows r p.1 p.0.items) }
    ensures err { IfErr result (ErrorsAs Always
        (IsReleaseOf state.now.own_state version.now None)
        (IsNoVersion version.now)) }
{
    let version = parse_version(alloc, version)?;
    shown(alloc, state.release(&version))
}

fn release_of(
    alloc: Global,
    held: &AnyLog,
    version: &[u8],
) -> Result<(Vec<u8>, ShownRelease), CallError>
    ensures ok { IfOk result (λ p. release_tells held.now version.now p.1 p.0.items) }
    ensures err { IfErr result (ErrorsAs (is_package held.now) (release_lacks held.now version.now)
        (release_bad held.now version.now)) }
{
    match held {
        AnyLog::Package(log) => release_in(alloc, log.state(), version),
        AnyLog::Operator(_) => Err(CallError::BadArgument),
    }
}

/// The release of a version, yanked or not.
///   WARG_NONE: the version was not released.
///   WARG_BAD_ARGUMENT: the text is no version (BadVersion), or the log is one of operators (WrongKind).
#[unsafe(no_mangle)]
pub extern "C" fn warg_release(
    alloc: Global,
    log: &mut WargLog,
    version: &[u8],
    text: &mut [u8],
    used: &mut usize,
    release: &mut ShownRelease,
) -> u32
    ensures statuses { IsOneOf (WARG_OK ∷ WARG_NOT_OPEN ∷ WARG_OUT_OF_MEMORY ∷ WARG_TOO_SMALL ∷
        WARG_NONE ∷ WARG_BAD_ARGUMENT ∷ []) result }
    ensures not_open { (result ≡ WARG_NOT_OPEN) ↔ (log.old.owned.kept ≡ None) }
    ensures ok { result ≡ WARG_OK → IsSomeAnd log.old.owned.kept (λ held.
        release_tells held version.now release.new (take used.new text.new)) }
    ensures out_of_memory { result ≡ WARG_OUT_OF_MEMORY → IsSomeAnd log.old.owned.kept (λ held.
        is_package held) }
    ensures too_small { result ≡ WARG_TOO_SMALL → IsSomeAnd log.old.owned.kept (λ held.
        NeedsRoom (release_tells held version.now release.new) used.new text.old) }
    ensures none { result ≡ WARG_NONE → IsSomeAnd log.old.owned.kept (λ held.
        release_lacks held version.now) }
    ensures bad_argument { result ≡ WARG_BAD_ARGUMENT → IsSomeAnd log.old.owned.kept (λ held.
        release_bad held version.now ×
        IsGiven (argument_error_text (package_argument_error held BadVersion)) used.new text.new) }
    ensures unchanged { log.new.owned.kept ≡ log.old.owned.kept }
    ensures buffer { Unless (WARG_OK ∷ WARG_BAD_ARGUMENT ∷ []) result (text.new ≡ text.old) }
    ensures used { Unless (WARG_OK ∷ WARG_TOO_SMALL ∷ WARG_BAD_ARGUMENT ∷ []) result
        (used.new ≡ 0) }
    ensures behind { drop used.new text.new ≡ drop used.new text.old }
    ensures kept { Unless (WARG_OK ∷ WARG_TOO_SMALL ∷ []) result (release.new ≡ release.old) }
    ensures within { result ≢ WARG_TOO_SMALL → used.new ≤ length text.new }
{
    *used = 0;
    let Some(held) = log.take(alloc) else {
        return status(Err(CallError::NotOpen));
    };
    let outcome = release_of(alloc, &held, version);
    let wrong = held.package_argument_error(ArgumentError::BadVersion);
    log.put(held);
    finish_with(outcome, wrong, text, used, release)
}

// The release at a place.
fn place_in(state: &LogState, place: usize) -> Option<&Release>
    ensures { IsAt place state.now.own_state (option_map release_view (option_copied result)) }
{
    state.releases().nth(place)
}

fn release_at(
    alloc: Global,
    held: &AnyLog,
    place: usize,
) -> Result<(Vec<u8>, ShownRelease), CallError>
    ensures ok { IfOk result (λ p. place_tells held.now place p.1 p.0.items) }
    ensures err { IfErr result (ErrorsAs (place_takes held.now place) (place_lacks held.now place)
        (place_bad held.now)) }
{
    match held {
        AnyLog::Package(log) => shown(alloc, place_in(log.state(), place)),
        AnyLog::Operator(_) => Err(CallError::BadArgument),
    }
}

/// The release at a place, counted from 0, in the order in which they were released; those of a resumed log come first, by the bytes of their
/// versions.
///   WARG_NONE: there are not so many releases.
///   WARG_BAD_ARGUMENT (WrongKind): the log is one of operators.
#[unsafe(no_mangle)]
pub extern "C" fn warg_releases(
    alloc: Global,
    log: &mut WargLog,
    place: usize,
    text: &mut [u8],
    used: &mut usize,
    release: &mut ShownRelease,
) -> u32
    ensures statuses { IsOneOf (WARG_OK ∷ WARG_NOT_OPEN ∷ WARG_OUT_OF_MEMORY ∷ WARG_TOO_SMALL ∷
        WARG_NONE ∷ WARG_BAD_ARGUMENT ∷ []) result }
    ensures not_open { (result ≡ WARG_NOT_OPEN) ↔ (log.old.owned.kept ≡ None) }
    ensures ok { result ≡ WARG_OK → IsSomeAnd log.old.owned.kept (λ held.
        place_tells held place release.new (take used.new text.new)) }
    ensures out_of_memory { result ≡ WARG_OUT_OF_MEMORY → IsSomeAnd log.old.owned.kept (λ held.
        place_takes held place) }
    ensures too_small { result ≡ WARG_TOO_SMALL → IsSomeAnd log.old.owned.kept (λ held.
        NeedsRoom (place_tells held place release.new) used.new text.old) }
    ensures none { result ≡ WARG_NONE → IsSomeAnd log.old.owned.kept (λ held.
        place_lacks held place) }
    ensures bad_argument { result ≡ WARG_BAD_ARGUMENT → IsSomeAnd log.old.owned.kept (λ held.
        place_bad held × IsGiven (argument_error_text WrongKind) used.new text.new) }
    ensures unchanged { log.new.owned.kept ≡ log.old.owned.kept }
    ensures buffer { Unless (WARG_OK ∷ WARG_BAD_ARGUMENT ∷ []) result (text.new ≡ text.old) }
    ensures used { Unless (WARG_OK ∷ WARG_TOO_SMALL ∷ WARG_BAD_ARGUMENT ∷ []) result
        (used.new ≡ 0) }
    ensures behind { drop used.new text.new ≡ drop used.new text.old }
    ensures kept { Unless (WARG_OK ∷ WARG_TOO_SMALL ∷ []) result (release.new ≡ release.old) }
    ensures within { result ≢ WARG_TOO_SMALL → used.new ≤ length text.new }
{
    *used = 0;
    let Some(held) = log.take(alloc) else {
        return status(Err(CallError::NotOpen));
    };
    let outcome = release_at(alloc, &held, place);
    log.put(held);
    finish_with(outcome, ArgumentError::WrongKind, text, used, release)
}
