//! Saving a state, and going on from one.
ghost use Rattle.std.specs.Prelude.{◌≡◌, ◌≢◌, ◌≤◌, ◌⊎◌, ◌↔◌, [], ◌∷◌, None, Some, Err, IfOk, IfErr, IsOk, IsSomeAnd};
ghost use Rattle.std.specs.Prelude.{length, take, drop};
ghost use Rattle.std.specs.Str.{IsUtf8};
ghost use Rattle.warg_crypto.specs.Json.Json.{AreReadBack};
ghost use Rattle.warg_saved_states.specs.JsonText.{TextReadsBack};
ghost use Rattle.warg_saved_states.specs.Texts.{text_of};
ghost use Rattle.warg_saved_states.specs.declared.error.JsonTextError.TheVariants as json;
ghost use Rattle.warg_c.specs.declared.call_error.CallError.TheVariants.{OutOfMemory, BadArgument};
ghost use Rattle.warg_c.specs.AnyLogs.{IsNoKind, IsOfKind, kind_numbered};
ghost use Rattle.warg_c.specs.Saved.{IsWritten, SaysNoState, fault_text, value_text, reads_back, save_tells};
ghost use Rattle.warg_c.specs.Saved.{save_lacks, saved_text, resume_gives, resume_gives_number, is_no_saved};
ghost use Rattle.warg_c.specs.Statuses.{WARG_OK, WARG_NOT_OPEN, WARG_OUT_OF_MEMORY, WARG_TOO_SMALL, WARG_NONE};
ghost use Rattle.warg_c.specs.Statuses.{WARG_BAD_ARGUMENT, IsOneOf, Unless};
ghost use Rattle.warg_c.specs.Texts.{Always, ErrorsAs, IsGiven, NeedsRoom};

use crate::any_log::{AnyLog, LogKind};
use crate::argument_error::ArgumentError;
use crate::call_error::{CallError, status};
use crate::given::{finish, give_if_room};
use crate::handle::WargLog;
use crate::log_or_state::LogOrState;
use std::alloc::Global;
use warg_crypto::json::JsonError;
use warg_operator_log::LogState as OperatorState;
use warg_package_log::LogState as PackageState;
use warg_replay::PersistentState;
use warg_saved_states::JsonTextError;

// A state as a text of JSON.
fn state_text<L: PersistentState>(alloc: Global, state: &L) -> Result<Vec<u8>, CallError>
    ensures written { IsWritten (λ v. v.items)
        (text_of (L.JsonValue.writes (L.JsonValue.plain state.now))) result }
    ensures back { AreReadBack (L.JsonValue.versions (L.JsonValue.plain state.now)) →
        IfOk result (λ v. TextReadsBack L.JsonValue.reads L.JsonValue.equivalent
        (L.JsonValue.plain state.now) v.items) }
{
    match state.to_json(alloc) {
        Ok(text) => Ok(text.into_bytes()),
        Err(JsonError::OutOfMemory) => Err(CallError::OutOfMemory),
        Err(_) => Err(CallError::Absent),
    }
}

// The state of a log as a text of JSON.
fn saved_text(alloc: Global, held: &AnyLog) -> Result<Vec<u8>, CallError>
    ensures written { IsWritten (λ v. v.items) (saved_text held.now) result }
    ensures back { IfOk result (λ v. reads_back held.now v.items) }
{
    match held {
        AnyLog::Package(log) => state_text(alloc, log.state()),
        AnyLog::Operator(log) => state_text(alloc, log.state()),
    }
}

/// The state of the log as a text of JSON: all that further records are judged by, and that is looked up, but no records.
///   WARG_NONE: a time of the state lies before 1970, which its text can't say.
#[unsafe(no_mangle)]
pub extern "C" fn warg_save(
    alloc: Global,
    log: &mut WargLog,
    text: &mut [u8],
    used: &mut usize,
) -> u32
    ensures statuses { IsOneOf (WARG_OK ∷ WARG_NOT_OPEN ∷ WARG_OUT_OF_MEMORY ∷ WARG_TOO_SMALL ∷
        WARG_NONE ∷ []) result }
    ensures not_open { (result ≡ WARG_NOT_OPEN) ↔ (log.old.owned.kept ≡ None) }
    ensures ok { result ≡ WARG_OK → IsSomeAnd log.old.owned.kept (λ held.
        save_tells held (take used.new text.new)) }
    ensures back { result ≡ WARG_OK → IsSomeAnd log.old.owned.kept (λ held.
        reads_back held (take used.new text.new)) }
    ensures too_small { result ≡ WARG_TOO_SMALL → IsSomeAnd log.old.owned.kept (λ held.
        NeedsRoom (save_tells held) used.new text.old) }
    ensures none { result ≡ WARG_NONE → IsSomeAnd log.old.owned.kept (λ held. save_lacks held) }
    ensures unchanged { log.new.owned.kept ≡ log.old.owned.kept }
    ensures buffer { result ≢ WARG_OK → text.new ≡ text.old }
    ensures used { Unless (WARG_OK ∷ WARG_TOO_SMALL ∷ []) result (used.new ≡ 0) }
    ensures behind { drop used.new text.new ≡ drop used.new text.old }
    ensures within { result ≢ WARG_TOO_SMALL → used.new ≤ length text.new }
{
    *used = 0;
    let Some(held) = log.take(alloc) else {
        return status(Err(CallError::NotOpen));
    };
    let outcome = saved_text(alloc, &held);
    log.put(held);
    finish(outcome, text, used)
}

// What is wrong with the JSON of a saved state.
fn value_text(fault: JsonError) -> &'static str
    ensures { result.now ≡ value_text fault }
{
    match fault {
        JsonError::WrongType => "WrongType: a value is of another type",
        JsonError::Missing => "Missing: a member is missing",
        JsonError::BadText => "BadText: a text is not of its form",
        JsonError::TimeBeforeEpoch => "TimeBeforeEpoch: a time lies before 1970",
        JsonError::TimeOutOfRange => "TimeOutOfRange: a time is out of range",
        JsonError::Incoherent(_) => "Incoherent: the state is that of no log",
        JsonError::OutOfMemory => "OutOfMemory: there was no memory",
    }
}

// What is wrong with a saved text.
fn fault_text(fault: JsonTextError) -> &'static str
    ensures { result.now ≡ fault_text fault }
{
    match fault {
        JsonTextError::NotJson => "NotJson: the text is no JSON",
        JsonTextError::Value(fault) => value_text(fault),
        JsonTextError::OutOfMemory => "OutOfMemory: there was no memory",
    }
}

/// Says why a text is no JSON of what is read, where there is room for it.
pub(crate) fn refuse_saved(error: JsonTextError, text: &mut [u8], used: &mut usize) -> CallError
    ensures call_error { (result ≡ OutOfMemory) ⊎ ((result ≡ BadArgument) ×
        (error ≢ json.OutOfMemory) × IsGiven (fault_text error) used.new text.new) }
    ensures behind { used.old ≡ 0 → drop used.new text.new ≡ drop used.new text.old }
    ensures within { used.old ≡ 0 → used.new ≤ length text.new }
    ensures quiet { used.old ≡ 0 → result ≢ BadArgument → used.new ≡ 0 }
    ensures buffer { result ≢ BadArgument → text.new ≡ text.old }
{
    if let JsonTextError::OutOfMemory | JsonTextError::Value(JsonError::OutOfMemory) = error {
        return CallError::OutOfMemory;
    }
    give_if_room(fault_text(error), text, used);
    CallError::BadArgument
}

// The log of a state's text, which has so many records, where that is known.
fn read_saved(
    alloc: Global,
    kind: LogKind,
    saved: &str,
    count: Option<usize>,
) -> Result<AnyLog, JsonTextError>
    ensures ok { IfOk result (λ held. IsOfKind kind held × resume_gives saved.now count held) }
    ensures err { IfErr result (λ e. (e ≡ json.OutOfMemory) ⊎ SaysNoState kind saved.now e) }
{
    match kind {
        LogKind::Package => {
            let state = PackageState::from_json(alloc, saved)?;
            Ok(AnyLog::Package(LogOrState::Resumed { state, count }))
        }
        LogKind::Operator => {
            let state = OperatorState::from_json(alloc, saved)?;
            Ok(AnyLog::Operator(LogOrState::Resumed { state, count }))
        }
    }
}

fn resumed(
    alloc: Global,
    kind: u32,
    saved: &[u8],
    count: Option<usize>,
    text: &mut [u8],
    used: &mut usize,
) -> Result<Box<AnyLog>, CallError>
    ensures ok { IfOk result (λ b. resume_gives_number kind saved.now count b.value) }
    ensures err { IfErr result (ErrorsAs (IsOk (kind_numbered kind)) ⊥
        (is_no_saved kind saved.now used.new text.new)) }
    ensures behind { drop used.new text.new ≡ drop used.new text.old }
    ensures within { used.new ≤ length text.new }
    ensures quiet { (used.new ≡ 0) ⊎ (result ≡ Err BadArgument) }
{
    *used = 0;
    let Ok(kind) = LogKind::numbered(kind) else {
        give_if_room(ArgumentError::NoKind.text(), text, used);
        return Err(CallError::BadArgument);
    };
    let Ok(saved) = str::from_utf8(saved) else {
        return Err(refuse_saved(JsonTextError::NotJson, text, used));
    };
    match read_saved(alloc, kind, saved, count) {
        Ok(held) => match held.boxed(alloc) {
            Ok(held) => Ok(held),
            Err(_) => Err(CallError::OutOfMemory),
        },
        Err(error) => Err(refuse_saved(error, text, used)),
    }
}

// What the handle holds after it goes on from a saved state.
fn resume(
    alloc: Global,
    log: &mut WargLog,
    kind: u32,
    saved: &[u8],
    count: Option<usize>,
    text: &mut [u8],
    used: &mut usize,
) -> u32
    ensures statuses { IsOneOf (WARG_OK ∷ WARG_OUT_OF_MEMORY ∷ WARG_BAD_ARGUMENT ∷ []) result }
    ensures ok { result ≡ WARG_OK →
        IsSomeAnd log.new.owned.kept (resume_gives_number kind saved.now count) }
    ensures out_of_memory { result ≡ WARG_OUT_OF_MEMORY → IsOk (kind_numbered kind) }
    ensures bad_argument { result ≡ WARG_BAD_ARGUMENT →
        is_no_saved kind saved.now used.new text.new }
    ensures unchanged { result ≢ WARG_OK → log.new.owned.kept ≡ log.old.owned.kept }
    ensures used { result ≢ WARG_BAD_ARGUMENT → used.new ≡ 0 }
    ensures behind { drop used.new text.new ≡ drop used.new text.old }
    ensures within { used.new ≤ length text.new }
{
    match resumed(alloc, kind, saved, count, text, used) {
        Ok(held) => {
            log.put(held);
            status(Ok(()))
        }
        Err(call_error) => status(Err(call_error)),
    }
}

/// Goes on from a saved state of one of `enum warg_kind`. A log that was open is closed first. Of a resumed log nothing is known of its
/// records, those that are appended to it included: `warg_length`, `warg_record`, `warg_chain` and `warg_compare` are not for it. All else is as if its
/// records were there. Whether the text is what was saved is the caller's to keep.
///   WARG_BAD_ARGUMENT: no such kind (NoKind), or the text is no saved state of this kind (NotJson, WrongType, Missing, BadText,
///     TimeBeforeEpoch, TimeOutOfRange, Incoherent). The log is as it was.
#[unsafe(no_mangle)]
pub extern "C" fn warg_resume(
    alloc: Global,
    log: &mut WargLog,
    kind: u32,
    saved: &[u8],
    text: &mut [u8],
    used: &mut usize,
) -> u32
    ensures statuses { IsOneOf (WARG_OK ∷ WARG_OUT_OF_MEMORY ∷ WARG_BAD_ARGUMENT ∷ []) result }
    ensures ok { result ≡ WARG_OK →
        IsSomeAnd log.new.owned.kept (resume_gives_number kind saved.now None) }
    ensures out_of_memory { result ≡ WARG_OUT_OF_MEMORY → IsOk (kind_numbered kind) }
    ensures bad_argument { result ≡ WARG_BAD_ARGUMENT →
        is_no_saved kind saved.now used.new text.new }
    ensures unchanged { result ≢ WARG_OK → log.new.owned.kept ≡ log.old.owned.kept }
    ensures used { result ≢ WARG_BAD_ARGUMENT → used.new ≡ 0 }
    ensures behind { drop used.new text.new ≡ drop used.new text.old }
    ensures within { used.new ≤ length text.new }
{
    resume(alloc, log, kind, saved, None, text, used)
}

/// The same of a log that had so many records when its state was saved, as `warg_head_of` then said: it says how many there are from here on,
/// each record that is appended included. Whether the number is right is the caller's to keep, as the text is.
///   WARG_BAD_ARGUMENT: as of `warg_resume`.
#[unsafe(no_mangle)]
pub extern "C" fn warg_resume_counted(
    alloc: Global,
    log: &mut WargLog,
    kind: u32,
    saved: &[u8],
    count: usize,
    text: &mut [u8],
    used: &mut usize,
) -> u32
    ensures statuses { IsOneOf (WARG_OK ∷ WARG_OUT_OF_MEMORY ∷ WARG_BAD_ARGUMENT ∷ []) result }
    ensures ok { result ≡ WARG_OK →
        IsSomeAnd log.new.owned.kept (resume_gives_number kind saved.now (Some count)) }
    ensures out_of_memory { result ≡ WARG_OUT_OF_MEMORY → IsOk (kind_numbered kind) }
    ensures bad_argument { result ≡ WARG_BAD_ARGUMENT →
        is_no_saved kind saved.now used.new text.new }
    ensures unchanged { result ≢ WARG_OK → log.new.owned.kept ≡ log.old.owned.kept }
    ensures used { result ≢ WARG_BAD_ARGUMENT → used.new ≡ 0 }
    ensures behind { drop used.new text.new ≡ drop used.new text.old }
    ensures within { used.new ≤ length text.new }
{
    resume(alloc, log, kind, saved, Some(count), text, used)
}
