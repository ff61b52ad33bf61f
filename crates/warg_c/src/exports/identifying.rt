//! The id of an envelope's record.
ghost use Rattle.std.specs.Prelude.{◌≡◌, ◌≢◌, ◌≤◌, ◌⊎◌, [], ◌∷◌, Ok, Some, IfErr, IsOk, OnOk, length, take, drop};
ghost use Rattle.warg_c.specs.AnyLogs.{IsNoKind, kind_numbered};
ghost use Rattle.warg_c.specs.Ids.{IsIdIn, IdErrorsIn, id_tells, id_errors, is_no_envelope};
ghost use Rattle.warg_c.specs.ArgumentErrors.{argument_error_text};
ghost use Rattle.warg_c.specs.Statuses.{WARG_OK, WARG_OUT_OF_MEMORY, WARG_TOO_SMALL, WARG_NO_ENVELOPE, WARG_REFUSED};
ghost use Rattle.warg_c.specs.Statuses.{WARG_BAD_ARGUMENT, IsOneOf, Unless};
ghost use Rattle.warg_c.specs.Texts.{IsGiven, IsWithin, NeedsRoom, SaysCause};
ghost use Rattle.warg_c.specs.declared.call_error.CallError.TheVariants.{BadArgument, NoEnvelope, Refused, TooSmall};
ghost use Rattle.warg_c.specs.declared.argument_error.ArgumentError.TheVariants.{NoKind};

use crate::any_log::LogKind;
use crate::argument_error::ArgumentError;
use crate::call_error::{CallError, status};
use crate::error_text::refuse;
use crate::exports::records::id_text;
use crate::given::{give, give_if_room};
use std::alloc::Global;
use std::fmt;
use warg_envelope::ProtoEnvelope;
use warg_operator_log::LogState as OperatorState;
use warg_package_log::LogState as PackageState;
use warg_replay::{Named, RunCause, Validator};

// The text of the id of an envelope's record.
fn id_in<L: Validator>(
    alloc: Global,
    envelope: &[u8],
    text: &mut [u8],
    used: &mut usize,
) -> Result<(), CallError>
where
    L::Error: Named + fmt::Display,
    ensures ok { OnOk result (IsIdIn L.log L.Record.reading envelope.now
        (take used.new text.new)) }
    ensures err { IfErr result (IdErrorsIn L.log L.Record.reading
        (SaysCause L.Error.name_of L.Error.output) envelope.now text.old used.new text.new) }
    ensures buffer { IfErr result (λ f. f ≡ TooSmall → text.new ≡ text.old) }
    ensures behind { used.old ≡ 0 → drop used.new text.new ≡ drop used.new text.old }
    ensures within { used.old ≡ 0 → IsWithin result used.new text.new }
    ensures quiet { used.old ≡ 0 → IfErr result (λ f. f ≢ TooSmall → f ≢ NoEnvelope →
        f ≢ Refused → used.new ≡ 0) }
{
    let envelope = match ProtoEnvelope::<L::Record>::from_protobuf(alloc, envelope) {
        Ok(envelope) => envelope,
        Err(error) => {
            let cause: RunCause<L::Error> = RunCause::Parse(error);
            return Err(refuse::<L>(alloc, &cause, text, used));
        }
    };
    let id = id_text(alloc, &L::record_id(&envelope))?;
    give(id.as_slice(), text, used)
}

fn id_of(
    alloc: Global,
    kind: u32,
    envelope: &[u8],
    text: &mut [u8],
    used: &mut usize,
) -> Result<(), CallError>
    ensures ok { OnOk result (id_tells kind envelope.now (take used.new text.new)) }
    ensures err { IfErr result (id_errors kind envelope.now text.old used.new text.new) }
    ensures buffer { IfErr result (λ f. f ≡ TooSmall → text.new ≡ text.old) }
    ensures behind { used.old ≡ 0 → drop used.new text.new ≡ drop used.new text.old }
    ensures within { used.old ≡ 0 → IsWithin result used.new text.new }
    ensures quiet { used.old ≡ 0 → IfErr result (λ f. f ≢ TooSmall → f ≢ NoEnvelope →
        f ≢ Refused → f ≢ BadArgument → used.new ≡ 0) }
{
    match LogKind::numbered(kind) {
        Ok(LogKind::Package) => id_in::<PackageState>(alloc, envelope, text, used),
        Ok(LogKind::Operator) => id_in::<OperatorState>(alloc, envelope, text, used),
        Err(call_error) => {
            give_if_room(ArgumentError::NoKind.text(), text, used);
            Err(call_error)
        }
    }
}

/// The text of the id of an envelope's record, of one of `enum warg_kind`. No log is needed, and the record need not be lawful.
///   WARG_NO_ENVELOPE: the error's text is in `text`.
///   WARG_BAD_ARGUMENT (NoKind): no such kind.
#[unsafe(no_mangle)]
pub extern "C" fn warg_id(
    alloc: Global,
    kind: u32,
    envelope: &[u8],
    text: &mut [u8],
    used: &mut usize,
) -> u32
    ensures statuses { IsOneOf (WARG_OK ∷ WARG_OUT_OF_MEMORY ∷ WARG_TOO_SMALL ∷ WARG_NO_ENVELOPE ∷
        WARG_BAD_ARGUMENT ∷ []) result }
    ensures ok { result ≡ WARG_OK → id_tells kind envelope.now (take used.new text.new) }
    ensures out_of_memory { result ≡ WARG_OUT_OF_MEMORY → IsOk (kind_numbered kind) }
    ensures too_small { result ≡ WARG_TOO_SMALL →
        NeedsRoom (id_tells kind envelope.now) used.new text.old }
    ensures no_envelope { result ≡ WARG_NO_ENVELOPE →
        is_no_envelope kind envelope.now used.new text.new }
    ensures bad_argument { result ≡ WARG_BAD_ARGUMENT →
        IsNoKind kind × IsGiven (argument_error_text NoKind) used.new text.new }
    ensures buffer { result ≡ WARG_TOO_SMALL → text.new ≡ text.old }
    ensures used { Unless (WARG_OK ∷ WARG_TOO_SMALL ∷ WARG_NO_ENVELOPE ∷ WARG_REFUSED ∷
        WARG_BAD_ARGUMENT ∷ []) result (used.new ≡ 0) }
    ensures behind { drop used.new text.new ≡ drop used.new text.old }
    ensures within { result ≢ WARG_TOO_SMALL → used.new ≤ length text.new }
{
    *used = 0;
    status(id_of(alloc, kind, envelope, text, used))
}
