//! Why a record is refused, and for which of its entries.
ghost use Rattle.std.specs.Prelude.{◌≡◌};

use crate::kind_error::KindError;
use crate::log_error::LogError;
use std::alloc::AllocError;

/// Why a record is refused, and the place of the entry for which it is, if it is for one.
#[derive(Drop)]
pub(crate) struct Refusal<P, E> {
    pub(crate) error: KindError<P, E>,
    pub(crate) entry: Option<usize>,
}

impl<P, E> From<LogError<P>> for Refusal<P, E> {
    ghost use Rattle.std.specs.Prelude.{None};
    ghost use Rattle.warg_log.specs.declared.kind_error.KindError.TheVariants.{Shared};

    ghost from_gives = { λ r f. f ≡ record { error = Shared r; entry = None } };

    fn from(log_error: LogError<P>) -> Refusal<P, E> {
        Refusal {
            error: KindError::Shared(log_error),
            entry: None,
        }
    }
}

impl<P, E> From<AllocError> for Refusal<P, E> {
    ghost use Rattle.std.specs.Prelude.{None};
    ghost use Rattle.warg_log.specs.declared.kind_error.KindError.TheVariants.{Shared};
    ghost use Rattle.warg_log.specs.declared.log_error.LogError.TheVariants.{OutOfMemory};

    ghost from_gives = { λ _ f. f ≡ record { error = Shared OutOfMemory; entry = None } };

    fn from(_error: AllocError) -> Refusal<P, E> {
        Refusal {
            error: KindError::Shared(LogError::OutOfMemory),
            entry: None,
        }
    }
}

impl<P, E> From<Refusal<P, E>> for KindError<P, E> {
    ghost from_gives = { λ r f. f ≡ r.error };

    fn from(refusal: Refusal<P, E>) -> KindError<P, E> {
        refusal.error
    }
}
