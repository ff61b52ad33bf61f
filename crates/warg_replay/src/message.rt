//! The names of causes and errors, and their texts.
ghost use Rattle.std.specs.Prelude.{◌≡◌, ℕ, List};
ghost use Rattle.warg_replay.specs.Messages.{cause_name, cause_text, run_error_text};

use crate::replay::{RunCause, RunError};
use std::error::Error;
use std::fmt;
use warg_envelope::ParseEnvelopeError;

/// An error that has a short name, as `YankOfYanked`.
pub trait Named {
    // The name.
    ghost name_of: { Self → List ℕ };

    /// The name of the error's case. It takes no memory.
    fn name(&self) -> &'static str
        ensures { result.now ≡ name_of self.now };
}

impl<E: Named> RunCause<E> {
    /// The name of the error that it holds, as `Contents.Prev.BadHex` or `YankOfYanked`. `OutOfMemory` is the name
    /// where memory was refused.
    pub fn name(&self) -> &'static str
        ensures { result.now ≡ cause_name E.name_of self.now }
    {
        match self {
            RunCause::Parse(error) => error.name(),
            RunCause::Validation(error) => error.name(),
        }
    }
}

impl<E: Named> RunError<E> {
    /// The name of the cause.
    pub fn name(&self) -> &'static str
        ensures { result.now ≡ cause_name E.name_of self.now.cause }
    {
        self.cause.name()
    }
}

impl<E: fmt::Display> fmt::Display for RunCause<E> {
    ghost output = { λ cause. cause_text ⟦<ParseEnvelopeError as fmt::Display>⟧.output E.output cause };

    fn fmt<W: fmt::Write>(&self, f: &mut fmt::Formatter<W>) -> fmt::Result {
        match self {
            RunCause::Parse(error) => fmt::Display::fmt(error, f),
            RunCause::Validation(error) => fmt::Display::fmt(error, f),
        }
    }
}

impl<E: fmt::Display> fmt::Display for RunError<E> {
    ghost output = { λ error. run_error_text error.index
        (cause_text ⟦<ParseEnvelopeError as fmt::Display>⟧.output E.output error.cause) };

    fn fmt<W: fmt::Write>(&self, f: &mut fmt::Formatter<W>) -> fmt::Result {
        write!(f, "record {}: {}", self.index, self.cause)
    }
}

impl<E: fmt::Debug + fmt::Display + Drop> Error for RunCause<E> {}

impl<E: fmt::Debug + fmt::Display + Drop> Error for RunError<E> {}
