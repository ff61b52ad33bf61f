//! The texts of errors.
ghost use Rattle.std.specs.Prelude.{◌≡◌, ◌≢◌, ◌⊎◌, ◌++◌, ◌∷◌, ◌≤◌, None, IfErr, IfOk, OnOk, length, drop, string_bytes};
ghost use Rattle.warg_replay.specs.LogWords.{named_cause};
ghost use Rattle.warg_c.specs.Texts.{IsErrorLine, IsErrorText, IsNameOrLine, SaysCause, error_by};
ghost use Rattle.warg_c.specs.declared.call_error.CallError.TheVariants.{NoEnvelope, OutOfMemory, Refused, TooSmall};

use crate::call_error::CallError;
use crate::given::give_if_room;
use std::alloc::{AllocError, Global};
use std::fmt;
use warg_envelope::ParseEnvelopeError;
use warg_replay::{Named, RunCause, Validator};

/// Which error of a call a cause is.
pub(crate) fn error_of<L: Validator>(cause: &RunCause<L::Error>) -> CallError
    ensures call_error { result ≡ error_by (named_cause L.log L.Record.reading cause.now) }
    ensures other { result ≢ TooSmall }
    ensures kinds { (result ≡ OutOfMemory) ⊎ ((result ≡ NoEnvelope) ⊎ (result ≡ Refused)) }
{
    match cause {
        RunCause::Parse(ParseEnvelopeError::OutOfMemory) => CallError::OutOfMemory,
        RunCause::Parse(_) => CallError::NoEnvelope,
        RunCause::Validation(error) if L::is_out_of_memory(error) => CallError::OutOfMemory,
        RunCause::Validation(_) => CallError::Refused,
    }
}

/// An error where the cause names nothing, as memory ran out.
pub(crate) fn check_named<L: Validator>(cause: &RunCause<L::Error>) -> Result<(), CallError>
    ensures named { OnOk result (named_cause L.log L.Record.reading cause.now ≢ None) }
    ensures err { IfErr result (λ f. f ≡ OutOfMemory) }
{
    if error_of::<L>(cause) == CallError::OutOfMemory {
        return Err(CallError::OutOfMemory);
    }
    Ok(())
}

// The name, a colon, a space, and the sentence.
fn line_of(alloc: Global, name: &str, sentence: &str) -> Result<String, AllocError>
    ensures { IfOk result (λ told. string_bytes told ≡ name.now ++ 58 ∷ 32 ∷ sentence.now) }
{
    let mut told = String::from_str(alloc, name)?;
    told.push_str(": ")?;
    told.push_str(sentence)?;
    Ok(told)
}

// The name, a colon, a space, and the error's sentence: what is printed of the error.
fn sentence_of<E: fmt::Display>(alloc: Global, name: &str, error: &E) -> Result<String, AllocError>
    ensures { IfOk result (λ told. IsErrorLine name.now (E.output error.now) (string_bytes told)) }
{
    let sentence = error.to_string(alloc)?;
    line_of(alloc, name, sentence.as_str())
}

// Writes the text of an error where there is room for it. Where there is no memory for the sentence, it is the name alone.
fn tell_text<E: fmt::Display>(
    alloc: Global,
    name: &str,
    error: &E,
    text: &mut [u8],
    used: &mut usize,
)
    ensures text { IsErrorText (IsNameOrLine name.now (E.output error.now)) used.new text.new }
    ensures length { length text.new ≡ length text.old }
    ensures behind { drop used.new text.new ≡ drop used.new text.old }
    ensures within { used.new ≤ length text.new }
{
    match sentence_of(alloc, name, error) {
        Ok(told) => give_if_room(told.as_str(), text, used),
        Err(_) => give_if_room(name, text, used),
    }
}

/// Says why a record is refused, as an error and, where there is room for it, as a text.
pub(crate) fn refuse<L: Validator>(
    alloc: Global,
    cause: &RunCause<L::Error>,
    text: &mut [u8],
    used: &mut usize,
) -> CallError
where
    L::Error: Named + fmt::Display,
    ensures call_error { result ≡ error_by (named_cause L.log L.Record.reading cause.now) }
    ensures other { result ≢ TooSmall }
    ensures text { result ≢ OutOfMemory →
        IsErrorText (SaysCause L.Error.name_of L.Error.output cause.now) used.new text.new }
    ensures quiet { result ≢ NoEnvelope → result ≢ Refused → used.new ≡ 0 }
    ensures length { length text.new ≡ length text.old }
    ensures behind { drop used.new text.new ≡ drop used.new text.old }
    ensures within { used.new ≤ length text.new }
{
    let call_error = error_of::<L>(cause);
    if call_error == CallError::OutOfMemory {
        *used = 0;
        return call_error;
    }
    tell_text(alloc, cause.name(), cause, text, used);
    call_error
}
