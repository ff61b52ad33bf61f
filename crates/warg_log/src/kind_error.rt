//! Why a log of one kind refuses a record, before the kind makes its error of it.
ghost use Rattle.std.specs.Prelude.{◌≡◌};
ghost use Rattle.warg_log.specs.States.{offence_of_kind_error};

use crate::log_error::LogError;
use crate::own_state::OwnState;
use std::alloc::AllocError;

/// Why a log of one kind refuses a record: as any log does, or by an error of its own.
#[derive(Drop)]
pub(crate) enum KindError<P, E> {
    /// By what any log refuses.
    Shared(LogError<P>),
    /// By the kind's own error.
    Own(E),
}

impl<P, E> From<LogError<P>> for KindError<P, E> {
    ghost use Rattle.warg_log.specs.declared.kind_error.KindError.TheVariants.{Shared};

    ghost from_gives = { λ r f. f ≡ Shared r };

    fn from(log_error: LogError<P>) -> KindError<P, E> {
        KindError::Shared(log_error)
    }
}

impl<P, E> From<AllocError> for KindError<P, E> {
    ghost use Rattle.warg_log.specs.declared.kind_error.KindError.TheVariants.{Shared};
    ghost use Rattle.warg_log.specs.declared.log_error.LogError.TheVariants.{OutOfMemory};

    ghost from_gives = { λ _ f. f ≡ Shared OutOfMemory };

    fn from(_error: AllocError) -> KindError<P, E> {
        KindError::Shared(LogError::OutOfMemory)
    }
}

/// The kind's error of it.
pub(crate) fn error_of<M: OwnState>(kind_error: KindError<M::Permission, M::Error>) -> M::Error
    ensures { M.offence_named_by result ≡ offence_of_kind_error M.offence_named_by kind_error }
{
    match kind_error {
        KindError::Shared(log_error) => M::refused(log_error),
        KindError::Own(error) => error,
    }
}
