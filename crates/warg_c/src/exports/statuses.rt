//! The names of statuses.
ghost use Rattle.std.specs.Prelude.{◌≡◌, ◌≢◌, ◌≤◌, [], ◌∷◌, None, Some, IfOk, IfErr, length, take, drop};
ghost use Rattle.warg_c.specs.Statuses.{WARG_OK, WARG_TOO_SMALL, WARG_NONE, IsOneOf, Unless, status_name};
ghost use Rattle.warg_c.specs.Texts.{ErrorsAs, NeedsRoom};

use crate::call_error::{CallError, status};
use crate::given::give;

// The name of a status, if the number is one.
fn name_of(number: u32) -> Result<&'static str, CallError>
    ensures ok { IfOk result (λ name. status_name number ≡ Some name.now) }
    ensures err { IfErr result (ErrorsAs ⊥ (status_name number ≡ None) ⊥) }
{
    match number {
        0 => Ok("Ok"),
        1 => Ok("NotOpen"),
        2 => Ok("OutOfMemory"),
        3 => Ok("TooSmall"),
        4 => Ok("NoEnvelope"),
        5 => Ok("Refused"),
        6 => Ok("None"),
        7 => Ok("BadArgument"),
        8 => Ok("UnknownAlgorithm"),
        _ => Err(CallError::Absent),
    }
}

/// The name of one of `enum warg_status`: Ok, NotOpen, OutOfMemory, TooSmall, NoEnvelope, Refused, None, BadArgument or UnknownAlgorithm.
///   WARG_NONE: the number is no status.
#[unsafe(no_mangle)]
pub extern "C" fn warg_status_name(number: u32, text: &mut [u8], used: &mut usize) -> u32
    ensures statuses { IsOneOf (WARG_OK ∷ WARG_TOO_SMALL ∷ WARG_NONE ∷ []) result }
    ensures ok { result ≡ WARG_OK → status_name number ≡ Some (take used.new text.new) }
    ensures too_small { result ≡ WARG_TOO_SMALL →
        NeedsRoom (λ name. status_name number ≡ Some name) used.new text.old }
    ensures none { result ≡ WARG_NONE → status_name number ≡ None }
    ensures buffer { result ≢ WARG_OK → text.new ≡ text.old }
    ensures used { Unless (WARG_OK ∷ WARG_TOO_SMALL ∷ []) result (used.new ≡ 0) }
    ensures behind { drop used.new text.new ≡ drop used.new text.old }
    ensures within { result ≢ WARG_TOO_SMALL → used.new ≤ length text.new }
{
    *used = 0;
    match name_of(number) {
        Ok(name) => status(give(name.as_bytes(), text, used)),
        Err(call_error) => status(Err(call_error)),
    }
}
