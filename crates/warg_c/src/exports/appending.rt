//! Appending, by what the caller says of a signature, or by what the library verifies itself.
ghost use Rattle.std.specs.Prelude.{◌≡◌, ◌≢◌, ◌≤◌, ◌↔◌, [], ◌∷◌, None, IfOk, IfErr, IsSomeAnd, OnOk, OnErr, length, take, drop};
ghost use Rattle.warg_replay.specs.Telling.{Holds, verdict_belongs};
ghost use Rattle.warg_p256.specs.Scheme.{p256_belongs};
ghost use Rattle.warg_log_records.specs.Kinds.{SignatureRelation, AcceptsNoMore};
ghost use Rattle.warg_c.specs.AppendAnswers.{ask_tells, asks_other, may_come, append_does, told_moves, signed_moves};
ghost use Rattle.warg_c.specs.AppendAnswers.{is_never_read, is_never_lawful, is_unread, is_unlawful, OfAnswer};
ghost use Rattle.warg_c.specs.AppendErrors.{ask_errors, append_refuses, append_errors, signed_errors};
ghost use Rattle.warg_c.specs.ArgumentErrors.{argument_error_text};
ghost use Rattle.warg_c.specs.Questions.{HoldsOf, SaysNone};
ghost use Rattle.warg_c.specs.Runs.{IsCall, ByCaller, ByLibrary, call_of};
ghost use Rattle.warg_c.specs.Statuses.{WARG_OK, WARG_NOT_OPEN, WARG_OUT_OF_MEMORY, WARG_TOO_SMALL, WARG_NO_ENVELOPE};
ghost use Rattle.warg_c.specs.Statuses.{WARG_REFUSED, WARG_BAD_ARGUMENT, WARG_UNKNOWN_ALGORITHM, IsOneOf, Unless};
ghost use Rattle.warg_c.specs.Texts.{IsGiven, IsQuiet, IsWithin, NeedsRoom};
ghost use Rattle.warg_c.specs.declared.call_error.CallError.TheVariants.{BadArgument, NoEnvelope, Refused, TooSmall};
ghost use Rattle.warg_c.specs.declared.argument_error.ArgumentError.TheVariants.{BadQuestion};

use crate::any_log::AnyLog;
use crate::argument_error::ArgumentError;
use crate::asking::{append_log, append_signed_to, ask_log};
use crate::call_error::{CallError, status};
use crate::given::give_if_room;
use crate::handle::WargLog;
use crate::pending_check::answer_for;
use crate::question::Asked;
use std::alloc::Global;
use warg_replay::external::SignatureVerdict;

fn ask_held(
    alloc: Global,
    held: &mut AnyLog,
    envelope: &[u8],
    bytes: &mut [u8],
    used: &mut usize,
    asked: &mut Asked,
) -> Result<(), CallError>
    ensures asked { OnOk result (ask_tells held.old envelope.now asked.new
        (take used.new bytes.new)) }
    ensures err { IfErr result (ask_errors held.old envelope.now asked.new
        bytes.old used.new bytes.new) }
    ensures buffer { IfErr result (λ f. f ≡ TooSmall → bytes.new ≡ bytes.old) }
    ensures behind { used.old ≡ 0 → drop used.new bytes.new ≡ drop used.new bytes.old }
    ensures kept { IfErr result (λ f. f ≢ TooSmall → asked.new ≡ asked.old) }
    ensures unchanged { held.new ≡ held.old }
    ensures within { used.old ≡ 0 → IsWithin result used.new bytes.new }
    ensures quiet { used.old ≡ 0 → IfErr result (λ f. f ≢ TooSmall → f ≢ NoEnvelope →
        f ≢ Refused → used.new ≡ 0) }
{
    match held {
        AnyLog::Package(log) => ask_log(alloc, log, envelope, bytes, used, asked),
        AnyLog::Operator(log) => ask_log(alloc, log, envelope, bytes, used, asked),
    }
}

/// Says what has to be verified before the record of an envelope can be appended. Changes nothing, but a log that has its records keeps a
/// copy of the envelope until the next append, which then need not read it again.
///   WARG_OK: the record is lawful exactly if the signature that stands in the question belongs to the message under the key. The question
///     is in `bytes`: the key's text, the message, the signature's text; `used` and `asked` say how much of it is what.
///   WARG_TOO_SMALL: as WARG_OK, but there was no room for the question. `asked` is written too.
///   WARG_NO_ENVELOPE: the bytes are no envelope. The error's text is in `bytes`.
///   WARG_REFUSED: the record is unlawful, whatever its signature. The error's text is in `bytes`; an envelope's length and 512 more are
///     room enough for it where key ids are short.
#[unsafe(no_mangle)]
pub extern "C" fn warg_ask(
    alloc: Global,
    log: &mut WargLog,
    envelope: &[u8],
    bytes: &mut [u8],
    used: &mut usize,
    asked: &mut Asked,
) -> u32
    ensures statuses { IsOneOf (WARG_OK ∷ WARG_NOT_OPEN ∷ WARG_OUT_OF_MEMORY ∷ WARG_TOO_SMALL ∷
        WARG_NO_ENVELOPE ∷ WARG_REFUSED ∷ []) result }
    ensures not_open { (result ≡ WARG_NOT_OPEN) ↔ (log.old.owned.kept ≡ None) }
    ensures ok { result ≡ WARG_OK → IsSomeAnd log.old.owned.kept (λ held.
        ask_tells held envelope.now asked.new (take used.new bytes.new)) }
    ensures too_small { result ≡ WARG_TOO_SMALL → IsSomeAnd log.old.owned.kept (λ held.
        NeedsRoom (ask_tells held envelope.now asked.new) used.new bytes.old) }
    ensures no_envelope { result ≡ WARG_NO_ENVELOPE → IsSomeAnd log.old.owned.kept (λ held.
        is_never_read held envelope.now used.new bytes.new) }
    ensures refused { result ≡ WARG_REFUSED → IsSomeAnd log.old.owned.kept (λ held.
        is_never_lawful held envelope.now used.new bytes.new) }
    ensures unchanged { log.new.owned.kept ≡ log.old.owned.kept }
    ensures buffer { result ≡ WARG_TOO_SMALL → bytes.new ≡ bytes.old }
    ensures behind { drop used.new bytes.new ≡ drop used.new bytes.old }
    ensures kept { Unless (WARG_OK ∷ WARG_TOO_SMALL ∷ []) result (asked.new ≡ asked.old) }
    ensures used { Unless (WARG_OK ∷ WARG_TOO_SMALL ∷ WARG_NO_ENVELOPE ∷ WARG_REFUSED ∷ []) result
        (used.new ≡ 0) }
    ensures within { result ≢ WARG_TOO_SMALL → used.new ≤ length bytes.new }
{
    *used = 0;
    let Some(mut held) = log.take(alloc) else {
        return status(Err(CallError::NotOpen));
    };
    let outcome = ask_held(alloc, &mut held, envelope, bytes, used, asked);
    log.put(held);
    status(outcome)
}

fn append_held(
    alloc: Global,
    held: &mut AnyLog,
    envelope: &[u8],
    answer: &SignatureVerdict,
    text: &mut [u8],
    used: &mut usize,
) -> Result<(), CallError>
    ensures appended { OnOk result ((b : SignatureRelation) → Holds b answer.now →
        append_does b envelope.now held.old held.new) }
    ensures err { IfErr result (append_refuses held.old answer.now
        envelope.now used.new text.new) }
    ensures unchanged { OnErr result (held.new ≡ held.old) }
    ensures behind { used.old ≡ 0 → drop used.new text.new ≡ drop used.new text.old }
    ensures within { used.old ≡ 0 → used.new ≤ length text.new }
    ensures quiet { used.old ≡ 0 → IsQuiet result used.new }
{
    match held {
        AnyLog::Package(log) => append_log(alloc, log, envelope, answer, text, used),
        AnyLog::Operator(log) => append_log(alloc, log, envelope, answer, text, used),
    }
}

// The caller's verdict on a question: its bytes, the lengths of its parts, and whether they belong together.
#[derive(Clone, Copy)]
struct CallerVerdict<'a> {
    question: &'a [u8],
    asked: &'a Asked,
    belongs: bool,
}

// The record of the bytes, appended by the caller's verdict on a question.
fn append_told(
    alloc: Global,
    held: &mut AnyLog,
    envelope: &[u8],
    verdict: &CallerVerdict<'_>,
    text: &mut [u8],
    used: &mut usize,
) -> Result<(), CallError>
    ensures appended { OnOk result ((b : SignatureRelation) →
        HoldsOf b verdict.now.belongs verdict.now.asked.now verdict.now.question.now →
        append_does b envelope.now held.old held.new) }
    ensures err { IfErr result (append_errors held.old verdict.now.belongs verdict.now.asked.now
        verdict.now.question.now envelope.now used.new text.new) }
    ensures unchanged { OnErr result (held.new ≡ held.old) }
    ensures behind { used.old ≡ 0 → drop used.new text.new ≡ drop used.new text.old }
    ensures within { used.old ≡ 0 → used.new ≤ length text.new }
    ensures quiet { used.old ≡ 0 → OnOk result (used.new ≡ 0) ×
        IfErr result (λ f. f ≢ NoEnvelope → f ≢ Refused → f ≢ BadArgument → used.new ≡ 0) }
{
    let kept = held.take_pending();
    match answer_for(
        alloc,
        kept,
        verdict.question,
        verdict.asked,
        verdict.belongs,
    ) {
        Ok(answer) => append_held(alloc, held, envelope, &answer, text, used),
        Err(call_error) => {
            if call_error == CallError::BadArgument {
                give_if_room(ArgumentError::BadQuestion.text(), text, used);
            }
            Err(call_error)
        }
    }
}

/// Appends the record of an envelope, by the caller's word for its signature. `question` and `asked` are what `warg_ask` gave for it, and
/// `belongs` says whether the signature belongs to the message under the key.
///   WARG_OK: the record is the log's last one now. Where the caller's yeses were right, a log that was opened has at any time just the
///     records that were taken, in order, each lawful after those before it, and a resumed one goes on by just these.
///   WARG_NO_ENVELOPE: as of `warg_ask`. The error's text is in `text`.
///   WARG_REFUSED: the record is unlawful after those of the log; the error's text is in `text`. So is every record whose `belongs` is
///     false, and one whose question is not the one that is passed (also where another record was appended in between, if that changes
///     the key): they are refused as wrong signatures.
///   WARG_BAD_ARGUMENT (BadQuestion): the bytes are no question: the lengths reach beyond its end, or the key or the signature can't be
///     read.
#[unsafe(no_mangle)]
pub extern "C" fn warg_append(
    alloc: Global,
    log: &mut WargLog,
    envelope: &[u8],
    question: &[u8],
    asked: &Asked,
    belongs: bool,
    text: &mut [u8],
    used: &mut usize,
) -> u32
    ensures statuses { IsOneOf (WARG_OK ∷ WARG_NOT_OPEN ∷ WARG_OUT_OF_MEMORY ∷ WARG_NO_ENVELOPE ∷
        WARG_REFUSED ∷ WARG_BAD_ARGUMENT ∷ []) result }
    ensures not_open { (result ≡ WARG_NOT_OPEN) ↔ (log.old.owned.kept ≡ None) }

    // Whatever relation holds of what the caller said to belong: what was accepted under it still is, with the record.
    ensures ok { result ≡ WARG_OK → IsSomeAnd log.old.owned.kept (λ held.
        told_moves belongs asked.now question.now envelope.now held log.new.owned.kept) }

    // Under the answer that the caller gave, as the only one.
    ensures no_envelope { result ≡ WARG_NO_ENVELOPE → IsSomeAnd log.old.owned.kept (λ held.
        OfAnswer belongs asked.now question.now (λ answer.
        is_unread (verdict_belongs answer) held envelope.now used.new text.new)) }
    ensures refused { result ≡ WARG_REFUSED → IsSomeAnd log.old.owned.kept (λ held.
        OfAnswer belongs asked.now question.now (λ answer.
        is_unlawful (verdict_belongs answer) held envelope.now used.new text.new)) }
    ensures bad_argument { result ≡ WARG_BAD_ARGUMENT → SaysNone asked.now question.now ×
        IsGiven (argument_error_text BadQuestion) used.new text.new }
    ensures unchanged { result ≢ WARG_OK → log.new.owned.kept ≡ log.old.owned.kept }
    ensures used { Unless (WARG_NO_ENVELOPE ∷ WARG_REFUSED ∷ WARG_BAD_ARGUMENT ∷ []) result
        (used.new ≡ 0) }
    ensures behind { drop used.new text.new ≡ drop used.new text.old }
    ensures within { used.new ≤ length text.new }

    // As `laws::runs` takes it, among other such calls.
    ensures call { IsCall (call_of envelope.now (ByCaller question.now asked.now belongs) result)
        log.old.owned.kept log.new.owned.kept }
{
    *used = 0;
    let Some(mut held) = log.take(alloc) else {
        return status(Err(CallError::NotOpen));
    };
    let verdict = CallerVerdict {
        question,
        asked,
        belongs,
    };
    let outcome = append_told(alloc, &mut held, envelope, &verdict, text, used);
    log.put(held);
    status(outcome)
}

// The record of the bytes, appended if its signature is verified.
fn append_signed_held(
    alloc: Global,
    held: &mut AnyLog,
    envelope: &[u8],
    text: &mut [u8],
    used: &mut usize,
) -> Result<(), CallError>
    ensures appended { OnOk result ((b : SignatureRelation) → AcceptsNoMore p256_belongs b →
        append_does b envelope.now held.old held.new) }
    ensures lawful { OnOk result (may_come p256_belongs envelope.now held.old) }
    ensures err { IfErr result (signed_errors held.old envelope.now used.new text.new) }
    ensures unchanged { OnErr result (held.new ≡ held.old) }
    ensures behind { used.old ≡ 0 → drop used.new text.new ≡ drop used.new text.old }
    ensures within { used.old ≡ 0 → used.new ≤ length text.new }
    ensures quiet { used.old ≡ 0 → IsQuiet result used.new }
{
    match held {
        AnyLog::Package(log) => append_signed_to(alloc, log, envelope, text, used),
        AnyLog::Operator(log) => append_signed_to(alloc, log, envelope, text, used),
    }
}

/// Appends the record of an envelope, whose signature the library verifies itself: ECDSA on the curve P-256 with SHA-256, which keys and
/// signatures name `ecdsa-p256`. A key is a point of SEC 1, compressed or not, and a signature is the DER of RFC 3279. No question is asked
/// before; where one was, the envelope need not be read again.
///   WARG_OK: the record is the log's last one now, and lawful, and its signature belongs to it under the key of its signer. A log that was
///     opened and had this call alone has at any time just the records that were taken, in order, each lawful after those before it.
///   WARG_NO_ENVELOPE: as of `warg_ask`. The error's text is in `text`.
///   WARG_REFUSED: the record is unlawful after those of the log, or its signature does not belong. The error's text is in `text`.
///   WARG_UNKNOWN_ALGORITHM: the record is lawful exactly if its signature belongs, and its key is of another algorithm. The log is as it
///     was: `warg_ask` says what has to be verified, and `warg_append` appends by what the caller found.
#[unsafe(no_mangle)]
pub extern "C" fn warg_append_signed(
    alloc: Global,
    log: &mut WargLog,
    envelope: &[u8],
    text: &mut [u8],
    used: &mut usize,
) -> u32
    ensures statuses { IsOneOf (WARG_OK ∷ WARG_NOT_OPEN ∷ WARG_OUT_OF_MEMORY ∷ WARG_NO_ENVELOPE ∷
        WARG_REFUSED ∷ WARG_UNKNOWN_ALGORITHM ∷ []) result }
    ensures not_open { (result ≡ WARG_NOT_OPEN) ↔ (log.old.owned.kept ≡ None) }

    // The record is lawful by a signature of `ecdsa-p256`. Whatever relation holds of all such signatures: what was
    // accepted under it still is, with the record.
    ensures ok { result ≡ WARG_OK → IsSomeAnd log.old.owned.kept (λ held.
        signed_moves envelope.now held log.new.owned.kept) }
    ensures no_envelope { result ≡ WARG_NO_ENVELOPE → IsSomeAnd log.old.owned.kept (λ held.
        is_unread p256_belongs held envelope.now used.new text.new) }
    ensures refused { result ≡ WARG_REFUSED → IsSomeAnd log.old.owned.kept (λ held.
        is_unlawful p256_belongs held envelope.now used.new text.new ×
        (¬ asks_other held envelope.now)) }
    ensures unknown_algorithm { result ≡ WARG_UNKNOWN_ALGORITHM →
        IsSomeAnd log.old.owned.kept (λ held. asks_other held envelope.now) }
    ensures unchanged { result ≢ WARG_OK → log.new.owned.kept ≡ log.old.owned.kept }
    ensures used { Unless (WARG_NO_ENVELOPE ∷ WARG_REFUSED ∷ []) result (used.new ≡ 0) }
    ensures behind { drop used.new text.new ≡ drop used.new text.old }
    ensures within { used.new ≤ length text.new }

    // As `laws::runs` takes it, among other such calls.
    ensures call { IsCall (call_of envelope.now ByLibrary result) log.old.owned.kept
        log.new.owned.kept }
{
    *used = 0;
    let Some(mut held) = log.take(alloc) else {
        return status(Err(CallError::NotOpen));
    };
    let outcome = append_signed_held(alloc, &mut held, envelope, text, used);
    log.put(held);
    status(outcome)
}
