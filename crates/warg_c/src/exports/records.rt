//! The records of a log.
ghost use Rattle.std.specs.Prelude.{◌≡◌, ◌≢◌, ◌≤◌, ◌⊎◌, ◌↔◌, [], ◌∷◌, ◌++◌, None, Some, IfOk, IfErr, IsSome, IsSomeAnd};
ghost use Rattle.std.specs.Prelude.{length, take, drop};
ghost use Rattle.std.specs.Option.{option_copied};
ghost use Rattle.warg_c.specs.Lookups.{IdText, LengthIs, IsBeyond, IsRecord, IsRecordAt, head_of, length_tells};
ghost use Rattle.warg_c.specs.Lookups.{ShowsLast, count_of, last_of, shown_last};
ghost use Rattle.warg_c.specs.Lookups.{has_no_records, record_takes, record_tells, record_lacks};
ghost use Rattle.warg_c.specs.Logs.{whole_of};
ghost use Rattle.warg_c.specs.Statuses.{WARG_OK, WARG_NOT_OPEN, WARG_OUT_OF_MEMORY, WARG_TOO_SMALL, WARG_NONE};
ghost use Rattle.warg_c.specs.Statuses.{WARG_BAD_ARGUMENT, IsOneOf, Unless};
ghost use Rattle.warg_c.specs.ArgumentErrors.{argument_error_text};
ghost use Rattle.warg_c.specs.Texts.{Always, ErrorsAs, IsGiven, NeedsRoom};
ghost use Rattle.warg_c.specs.declared.argument_error.ArgumentError.TheVariants.{Resumed};

use crate::any_log::AnyLog;
use crate::argument_error::ArgumentError;
use crate::call_error::{CallError, status};
use crate::given::{finish, finish_value, finish_with};
use crate::handle::WargLog;
use crate::log_or_state::LogOrState;
use std::alloc::{AllocError, Global};
use warg_envelope::ProtoEnvelope;
use warg_log::Head;
use warg_log_records::RecordId;
use warg_replay::Validator;

/// How many bytes of a kept record are its envelope, and the text of its id behind it.
#[repr(C)]
#[derive(Clone, Copy)]
pub struct KeptLengths {
    pub envelope_len: usize,
    pub id_len: usize,
}

/// The time of a log's last record, in seconds and nanoseconds since 1970, its version, and how many records the log has.
#[repr(C)]
#[derive(Clone, Copy)]
pub struct ShownHead {
    pub seconds: i64,
    /// 0 where it is not known.
    pub count: usize,
    pub nanos: u32,
    pub version: u32,
    /// 1 if `count` says how many records there are, 0 where that is not known: `warg_resume` was not told it, or a
    /// `size_t` can't say it.
    pub is_counted: u32,
}

// The text of an id.
pub(crate) fn id_text(alloc: Global, id: &RecordId) -> Result<Vec<u8>, CallError>
    ensures ok { IfOk result (λ v. IdText (Some id.now) v.items) }
    ensures err { IfErr result (ErrorsAs Always ⊥ ⊥) }
{
    match id.to_string(alloc) {
        Ok(text) => Ok(text.into_bytes()),
        Err(_) => Err(CallError::OutOfMemory),
    }
}

// The id of the last record.
fn head_of(held: &AnyLog) -> Option<&RecordId>
    ensures { option_copied result ≡ head_of held.now }
{
    match held {
        AnyLog::Package(log) => log.state().head_digest(),
        AnyLog::Operator(log) => log.state().head_digest(),
    }
}

fn head_text(alloc: Global, held: &AnyLog) -> Result<Vec<u8>, CallError>
    ensures ok { IfOk result (λ v. IdText (head_of held.now) v.items) }
    ensures err { IfErr result (ErrorsAs (IsSome (head_of held.now)) (head_of held.now ≡ None) ⊥) }
{
    match head_of(held) {
        Some(id) => id_text(alloc, id),
        None => Err(CallError::Absent),
    }
}

/// The text of the id of the last record.
///   WARG_NONE: there was no record yet.
#[unsafe(no_mangle)]
pub extern "C" fn warg_head(
    alloc: Global,
    log: &mut WargLog,
    text: &mut [u8],
    used: &mut usize,
) -> u32
    ensures statuses { IsOneOf (WARG_OK ∷ WARG_NOT_OPEN ∷ WARG_OUT_OF_MEMORY ∷ WARG_TOO_SMALL ∷
        WARG_NONE ∷ []) result }
    ensures not_open { (result ≡ WARG_NOT_OPEN) ↔ (log.old.owned.kept ≡ None) }
    ensures ok { result ≡ WARG_OK → IsSomeAnd log.old.owned.kept (λ held.
        IdText (head_of held) (take used.new text.new)) }
    ensures out_of_memory { result ≡ WARG_OUT_OF_MEMORY → IsSomeAnd log.old.owned.kept (λ held.
        IsSome (head_of held)) }
    ensures too_small { result ≡ WARG_TOO_SMALL → IsSomeAnd log.old.owned.kept (λ held.
        NeedsRoom (IdText (head_of held)) used.new text.old) }
    ensures none { result ≡ WARG_NONE → IsSomeAnd log.old.owned.kept (λ held. head_of held ≡ None) }
    ensures unchanged { log.new.owned.kept ≡ log.old.owned.kept }
    ensures buffer { result ≢ WARG_OK → text.new ≡ text.old }
    ensures used { Unless (WARG_OK ∷ WARG_TOO_SMALL ∷ []) result (used.new ≡ 0) }
    ensures behind { drop used.new text.new ≡ drop used.new text.old }
    ensures within { result ≢ WARG_TOO_SMALL → used.new ≤ length text.new }
{
    *used = 0;
    let Some(held) = log.take(alloc) else {
        return status(Err(CallError::NotOpen));
    };
    let outcome = head_text(alloc, &held);
    log.put(held);
    finish(outcome, text, used)
}

// The last record, and how many there are.
fn last_of(held: &AnyLog) -> (&Option<Head>, Option<usize>)
    ensures last { result.0.now ≡ last_of held.now }
    ensures count { result.1 ≡ count_of held.now }
{
    match held {
        AnyLog::Package(log) => (log.state().head(), log.count()),
        AnyLog::Operator(log) => (log.state().head(), log.count()),
    }
}

// What is told of the last record.
fn shown_last(held: &AnyLog) -> Result<ShownHead, CallError>
    ensures ok { IfOk result (ShowsLast held.now) }
    ensures err { IfErr result (ErrorsAs ⊥ (last_of held.now ≡ None) ⊥) }
{
    let (last, count) = last_of(held);
    let Some(head) = last else {
        return Err(CallError::Absent);
    };
    let (count, is_counted) = match count {
        Some(count) => (count, 1),
        None => (0, 0),
    };
    Ok(ShownHead {
        seconds: head.timestamp.seconds(),
        count,
        nanos: head.timestamp.nanos(),
        version: head.version,
        is_counted,
    })
}

/// The time and the version of the last record, and how many records there are, as far as that is known. Its id is told by
/// `warg_head`.
///   WARG_NONE: there was no record yet.
#[unsafe(no_mangle)]
pub extern "C" fn warg_head_of(alloc: Global, log: &mut WargLog, head: &mut ShownHead) -> u32
    ensures statuses { IsOneOf (WARG_OK ∷ WARG_NOT_OPEN ∷ WARG_NONE ∷ []) result }
    ensures not_open { (result ≡ WARG_NOT_OPEN) ↔ (log.old.owned.kept ≡ None) }
    ensures ok { result ≡ WARG_OK → IsSomeAnd log.old.owned.kept (λ held. ShowsLast held head.new) }
    ensures none { result ≡ WARG_NONE → IsSomeAnd log.old.owned.kept (λ held. last_of held ≡ None) }
    ensures unchanged { log.new.owned.kept ≡ log.old.owned.kept }
    ensures kept { result ≢ WARG_OK → head.new ≡ head.old }
{
    let Some(held) = log.take(alloc) else {
        return status(Err(CallError::NotOpen));
    };
    let outcome = shown_last(&held);
    log.put(held);
    finish_value(outcome, head)
}

fn length_of_log<L: Validator>(log: &LogOrState<L>) -> Result<usize, CallError>
    ensures ok { IfOk result (λ n. LengthIs (whole_of log.now) n) }
    ensures err { IfErr result (ErrorsAs ⊥ ⊥ (whole_of log.now ≡ None)) }
{
    match log.whole() {
        Some(log) => Ok(log.len()),
        None => Err(CallError::BadArgument),
    }
}

fn length_of(held: &AnyLog) -> Result<usize, CallError>
    ensures ok { IfOk result (length_tells held.now) }
    ensures err { IfErr result (ErrorsAs ⊥ ⊥ (has_no_records held.now)) }
{
    match held {
        AnyLog::Package(log) => length_of_log(log),
        AnyLog::Operator(log) => length_of_log(log),
    }
}

/// How many records the log has.
///   WARG_BAD_ARGUMENT: the log was resumed.
#[unsafe(no_mangle)]
pub extern "C" fn warg_length(alloc: Global, log: &mut WargLog, length: &mut usize) -> u32
    ensures statuses { IsOneOf (WARG_OK ∷ WARG_NOT_OPEN ∷ WARG_BAD_ARGUMENT ∷ []) result }
    ensures not_open { (result ≡ WARG_NOT_OPEN) ↔ (log.old.owned.kept ≡ None) }
    ensures ok { result ≡ WARG_OK → IsSomeAnd log.old.owned.kept (λ held.
        length_tells held length.new) }
    ensures bad_argument { result ≡ WARG_BAD_ARGUMENT → IsSomeAnd log.old.owned.kept (λ held.
        has_no_records held) }
    ensures unchanged { log.new.owned.kept ≡ log.old.owned.kept }
    ensures kept { result ≢ WARG_OK → length.new ≡ length.old }
{
    let Some(held) = log.take(alloc) else {
        return status(Err(CallError::NotOpen));
    };
    let outcome = length_of(&held);
    log.put(held);
    finish_value(outcome, length)
}

// A record as bytes: its envelope, and the text of its id.
fn spell_record<L: Validator>(
    alloc: Global,
    envelope: &ProtoEnvelope<L::Record>,
) -> Result<(Vec<u8>, KeptLengths), AllocError>
    ensures { IfOk result (λ p. IsRecord L.kind envelope.now.envelope p.1 p.0.items) }
{
    let mut bytes = envelope.to_protobuf(alloc)?;
    let envelope_len = bytes.len();
    let id = L::record_id(envelope).to_string(alloc)?;
    bytes.extend_from_slice(id.as_bytes())?;
    let lengths = KeptLengths {
        envelope_len,
        id_len: id.as_bytes().len(),
    };
    Ok((bytes, lengths))
}

fn record_of<L: Validator>(
    alloc: Global,
    log: &LogOrState<L>,
    place: usize,
) -> Result<(Vec<u8>, KeptLengths), CallError>
    ensures ok { IfOk result (λ p. IsRecordAt L.kind (whole_of log.now) place p.1 p.0.items) }
    ensures err { IfErr result (ErrorsAs (IsSome (whole_of log.now))
        (IsBeyond (whole_of log.now) place) (whole_of log.now ≡ None)) }
{
    let Some(log) = log.whole() else {
        return Err(CallError::BadArgument);
    };
    let Some(envelope) = log.records().get(place) else {
        return Err(CallError::Absent);
    };
    match spell_record::<L>(alloc, envelope) {
        Ok(spelled) => Ok(spelled),
        Err(_) => Err(CallError::OutOfMemory),
    }
}

fn record_in(
    alloc: Global,
    held: &AnyLog,
    place: usize,
) -> Result<(Vec<u8>, KeptLengths), CallError>
    ensures ok { IfOk result (λ p. record_tells held.now place p.1 p.0.items) }
    ensures err { IfErr result (ErrorsAs (record_takes held.now) (record_lacks held.now place)
        (has_no_records held.now)) }
{
    match held {
        AnyLog::Package(log) => record_of(alloc, log, place),
        AnyLog::Operator(log) => record_of(alloc, log, place),
    }
}

/// The record at a place, counted from 0: its envelope, and the text of its id behind it. The envelope is written anew, so it may differ from
/// the bytes that were appended: it has the contents, the key id and the signature that came, and nothing else that stood there, such as fields
/// that no envelope has. Its record has the same id.
///   WARG_NONE: the log has no record at this place.
///   WARG_BAD_ARGUMENT (Resumed): the log was resumed.
#[unsafe(no_mangle)]
pub extern "C" fn warg_record(
    alloc: Global,
    log: &mut WargLog,
    place: usize,
    bytes: &mut [u8],
    used: &mut usize,
    kept: &mut KeptLengths,
) -> u32
    ensures statuses { IsOneOf (WARG_OK ∷ WARG_NOT_OPEN ∷ WARG_OUT_OF_MEMORY ∷ WARG_TOO_SMALL ∷
        WARG_NONE ∷ WARG_BAD_ARGUMENT ∷ []) result }
    ensures not_open { (result ≡ WARG_NOT_OPEN) ↔ (log.old.owned.kept ≡ None) }
    ensures ok { result ≡ WARG_OK → IsSomeAnd log.old.owned.kept (λ held.
        record_tells held place kept.new (take used.new bytes.new)) }
    ensures out_of_memory { result ≡ WARG_OUT_OF_MEMORY → IsSomeAnd log.old.owned.kept (λ held.
        record_takes held) }
    ensures too_small { result ≡ WARG_TOO_SMALL → IsSomeAnd log.old.owned.kept (λ held.
        NeedsRoom (record_tells held place kept.new) used.new bytes.old) }
    ensures none { result ≡ WARG_NONE → IsSomeAnd log.old.owned.kept (λ held.
        record_lacks held place) }
    ensures bad_argument { result ≡ WARG_BAD_ARGUMENT → IsSomeAnd log.old.owned.kept (λ held.
        has_no_records held × IsGiven (argument_error_text Resumed) used.new bytes.new) }
    ensures unchanged { log.new.owned.kept ≡ log.old.owned.kept }
    ensures buffer { Unless (WARG_OK ∷ WARG_BAD_ARGUMENT ∷ []) result (bytes.new ≡ bytes.old) }
    ensures used { Unless (WARG_OK ∷ WARG_TOO_SMALL ∷ WARG_BAD_ARGUMENT ∷ []) result
        (used.new ≡ 0) }
    ensures behind { drop used.new bytes.new ≡ drop used.new bytes.old }
    ensures unshown { Unless (WARG_OK ∷ WARG_TOO_SMALL ∷ []) result (kept.new ≡ kept.old) }
    ensures within { result ≢ WARG_TOO_SMALL → used.new ≤ length bytes.new }
{
    *used = 0;
    let Some(held) = log.take(alloc) else {
        return status(Err(CallError::NotOpen));
    };
    let outcome = record_in(alloc, &held, place);
    log.put(held);
    finish_with(outcome, ArgumentError::Resumed, bytes, used, kept)
}
