//! What calls give.
ghost use Rattle.std.specs.Prelude.{◌≡◌, ◌≢◌, ◌<◌, ◌≤◌, Err, IfOk, IfErr, OnOk, OnErr, length, take, drop};
ghost use Rattle.warg_c.specs.ArgumentErrors.{argument_error_text};
ghost use Rattle.warg_c.specs.Statuses.{status_of};
ghost use Rattle.warg_c.specs.Texts.{IsFinish, IsGiven, IsWithin};
ghost use Rattle.warg_c.specs.declared.call_error.CallError.TheVariants.{BadArgument, TooSmall};

use crate::argument_error::ArgumentError;
use crate::call_error::{CallError, status};

/// Copies the items to the start of the buffer, if there is room, and says how many they are.
pub(crate) fn give<T: Copy>(items: &[T], out: &mut [T], used: &mut usize) -> Result<(), CallError>
    ensures used { used.new ≡ length items.now }
    ensures length { length out.new ≡ length out.old }
    ensures given { OnOk result (take (length items.now) out.new ≡ items.now) }
    ensures too_small { IfErr result (λ f. (f ≡ TooSmall) × (length out.old < length items.now)) }
    ensures unchanged { OnErr result (out.new ≡ out.old) }
    ensures behind { drop used.new out.new ≡ drop used.new out.old }
    ensures within { IsWithin result used.new out.new }
{
    let len = items.len();
    *used = len;
    if out.len() < len {
        return Err(CallError::TooSmall);
    }
    out[..len].copy_from_slice(items);
    Ok(())
}

/// Writes the text where there is room for it.
pub(crate) fn give_if_room(told: &str, text: &mut [u8], used: &mut usize)
    ensures text { IsGiven told.now used.new text.new }
    ensures length { length text.new ≡ length text.old }
    ensures behind { drop used.new text.new ≡ drop used.new text.old }
    ensures within { used.new ≤ length text.new }
{
    if give(told.as_bytes(), text, used).is_err() {
        *used = 0;
    }
}

/// Gives the items that were found, and returns the status.
pub(crate) fn finish<T: Copy>(
    outcome: Result<Vec<T>, CallError>,
    out: &mut [T],
    used: &mut usize,
) -> u32
    ensures text { IsFinish (λ v. v.items) outcome out.old result used.new out.new }
    ensures status { result ≤ 8 }
    ensures buffer { result ≢ 0 → out.new ≡ out.old }
    ensures used { result ≢ 0 → result ≢ 3 → used.new ≡ 0 }
    ensures behind { drop used.new out.new ≡ drop used.new out.old }
    ensures within { result ≢ 3 → used.new ≤ length out.new }
{
    *used = 0;
    match outcome {
        Ok(items) => status(give(items.as_slice(), out, used)),
        Err(call_error) => status(Err(call_error)),
    }
}

/// The same of a text. Of a bad argument it tells what is wrong.
pub(crate) fn finish_text(
    outcome: Result<Vec<u8>, CallError>,
    wrong: ArgumentError,
    out: &mut [u8],
    used: &mut usize,
) -> u32
    ensures text { IsFinish (λ v. v.items) outcome out.old result used.new out.new }
    ensures told { outcome ≡ Err BadArgument → IsGiven (argument_error_text wrong) used.new out.new }
    ensures status { result ≤ 8 }
    ensures buffer { result ≢ 0 → result ≢ 7 → out.new ≡ out.old }
    ensures used { result ≢ 0 → result ≢ 3 → result ≢ 7 → used.new ≡ 0 }
    ensures behind { drop used.new out.new ≡ drop used.new out.old }
    ensures within { result ≢ 3 → used.new ≤ length out.new }
{
    if let Err(CallError::BadArgument) = outcome {
        give_if_room(wrong.text(), out, used);
        return status(Err(CallError::BadArgument));
    }
    finish(outcome, out, used)
}

/// The same with what else was found.
pub(crate) fn finish_with<T: Copy>(
    outcome: Result<(Vec<u8>, T), CallError>,
    wrong: ArgumentError,
    out: &mut [u8],
    used: &mut usize,
    shown: &mut T,
) -> u32
    ensures text { IsFinish (λ p. p.0.items) outcome out.old result used.new out.new }
    ensures told { outcome ≡ Err BadArgument → IsGiven (argument_error_text wrong) used.new out.new }
    ensures status { result ≤ 8 }
    ensures buffer { result ≢ 0 → result ≢ 7 → out.new ≡ out.old }
    ensures used { result ≢ 0 → result ≢ 3 → result ≢ 7 → used.new ≡ 0 }
    ensures behind { drop used.new out.new ≡ drop used.new out.old }
    ensures within { result ≢ 3 → used.new ≤ length out.new }
    ensures shown { IfOk outcome (λ p. shown.new ≡ p.1) }
    ensures kept { OnErr outcome (shown.new ≡ shown.old) }
    ensures unshown { result ≢ 0 → result ≢ 3 → shown.new ≡ shown.old }
{
    match outcome {
        Ok((bytes, found)) => {
            *shown = found;
            status(give(bytes.as_slice(), out, used))
        }
        Err(call_error) => finish_text(Err(call_error), wrong, out, used),
    }
}

/// The same where nothing is told of a bad argument.
pub(crate) fn finish_shown<T: Copy>(
    outcome: Result<(Vec<u8>, T), CallError>,
    out: &mut [u8],
    used: &mut usize,
    shown: &mut T,
) -> u32
    ensures text { IsFinish (λ p. p.0.items) outcome out.old result used.new out.new }
    ensures status { result ≤ 8 }
    ensures buffer { result ≢ 0 → out.new ≡ out.old }
    ensures used { result ≢ 0 → result ≢ 3 → used.new ≡ 0 }
    ensures behind { drop used.new out.new ≡ drop used.new out.old }
    ensures within { result ≢ 3 → used.new ≤ length out.new }
    ensures shown { IfOk outcome (λ p. shown.new ≡ p.1) }
    ensures unshown { result ≢ 0 → result ≢ 3 → shown.new ≡ shown.old }
{
    match outcome {
        Ok((bytes, told)) => {
            *shown = told;
            status(give(bytes.as_slice(), out, used))
        }
        Err(call_error) => finish(Err(call_error), out, used),
    }
}

/// Gives a value that was found, and returns the status.
pub(crate) fn finish_value<T: Copy>(outcome: Result<T, CallError>, value: &mut T) -> u32
    ensures code { result ≡ status_of outcome }
    ensures status { result ≤ 8 }
    ensures value { IfOk outcome (λ found. value.new ≡ found) }
    ensures kept { result ≢ 0 → value.new ≡ value.old }
{
    match outcome {
        Ok(found) => {
            *value = found;
            status(Ok(()))
        }
        Err(call_error) => status(Err(call_error)),
    }
}
