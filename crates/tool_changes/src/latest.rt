//! `latest`: the greatest release that meets a requirement.

ghost use Rattle.std.specs.Prelude.{◌≡◌, ◌↔◌, IfOk, IfErr, IsErr, IsTrue};
ghost use Rattle.std.specs.Option.{option_copied, option_map};
ghost use Rattle.semver.specs.Parse.{memory_error, req_of};
ghost use Rattle.warg_protocol.specs.Package.{release_view, view_of};
ghost use Rattle.warg_audit.specs.LogKinds.{package_log};
ghost use Rattle.warg_audit.specs.Files.Answers.{output_data, Answers, IfOutput, IsUnusable};
ghost use Rattle.tool_changes.specs.Latest.{IsLatestOf, IsLatestText, IsRequirement, latest_text};
ghost use Rattle.warg_audit.specs.Files.RecordLines.{record_lines};
ghost use Rattle.tool_answers.specs.Verdicts.{IsPrintedOf};

use semver::Error;
use std::alloc::{AllocError, Global};
use tool_answers::loading::load_state;
use warg_audit::files::command_error::{CommandError, unusable};
use warg_audit::files::command_output::CommandOutput;
use warg_audit::files::input::Input;
use warg_printable::printed_line;
use warg_protocol::VersionReq;
use warg_protocol::package::{LogState, Release};
use warg_protocol::signing::Verifier;

// The line of a release, if there is one.
fn release_answer(alloc: Global, release: Option<&Release>) -> Result<CommandOutput, AllocError>
    ensures { IfOk result (λ answer. output_data answer ≡
        latest_text (option_map release_view (option_copied release.entry))) }
{
    let Some(release) = release else {
        return CommandOutput::fixed(alloc, "none\n", 1);
    };
    match release.content() {
        Some(content) => {
            let version = release.version.to_string(alloc)?;
            let text = format!(in alloc; "{version} {content}\n")?;
            Ok(CommandOutput::new(alloc, text, 0))
        }
        None => CommandOutput::fixed(alloc, "none\n", 1),
    }
}

/// The answer of a state: the greatest release that meets the requirement and is not yanked.
fn latest_of(
    alloc: Global,
    state: &LogState,
    wanted: &VersionReq,
) -> Result<CommandOutput, AllocError>
    ensures { IfOk result (λ answer. IsLatestText (view_of state.now).state.own_state
        wanted.now.comparators.items
        (output_data answer)) }
{
    release_answer(alloc, state.find_latest_release(wanted))
}

// Why a word says no requirement.
fn requirement_sentence(alloc: Global, word: &str, error: &Error) -> Result<String, AllocError> {
    let said = format!(in alloc; "weoldrin: \"{word}\" is no requirement of versions: {error}")?;
    printed_line(alloc, said.as_str())
}

// Whether an error of a requirement is one of memory.
fn is_memory(error: &Error) -> bool
    ensures { IsTrue result ↔ (error.now ≡ memory_error) }
{
    *error == Error::from(AllocError)
}

/// The requirement that the word says.
pub fn requirement_of(alloc: Global, word: &str) -> Result<VersionReq, CommandError>
    ensures ok { IfOk result (λ wanted. IsRequirement word.now wanted.comparators.items) }
    ensures err { IfErr result (IfOutput (λ printed.
        IsErr (req_of word.now) × IsUnusable printed)) }
{
    match VersionReq::parse(alloc, word) {
        Ok(wanted) => Ok(wanted),
        Err(error) if is_memory(&error) => Err(CommandError::OutOfMemory),
        Err(error) => Err(unusable(alloc, requirement_sentence(alloc, word, &error))),
    }
}

/// The version and the content of the release of the log in a file that meets the requirement best.
pub fn latest_answer<V: Verifier>(
    alloc: Global,
    verifier: &V,
    wanted: &VersionReq,
    input: Input<'_>,
) -> Result<CommandOutput, CommandError>
    ensures { Answers (IsPrintedOf package_log (V.belongs verifier.now)
        (IsLatestOf wanted.now.comparators.items)
        (record_lines input.entry.bytes.items)) result }
{
    match load_state::<LogState, V>(alloc, verifier, input) {
        Ok((state, _)) => Ok(latest_of(alloc, &state, wanted)?),
        Err(error) => Err(error),
    }
}
