//! The first fault of an entry, which is kept while the rest of the record is read.

ghost use Rattle.std.specs.Prelude.{◌≢◌};
ghost use Rattle.warg_crypto.specs.declared.coding.DecodeError.TheVariants.{OutOfMemory};

use warg_crypto::DecodeError;

/// A fault of an entry. Refused memory is none: it ends the reading at once.
#[derive(Drop)]
pub(crate) struct KeptFault {
    pub error: DecodeError,

    ghost is_fault: { error ≢ OutOfMemory },
}
