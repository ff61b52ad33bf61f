//! Signatures of ECDSA on the curve P-256, verified here: nothing is handed in.

ghost use Rattle.std.specs.Prelude.{map};
ghost use Rattle.std.specs.Vec.{vec_items};
ghost use Rattle.warg_replay.specs.LogWords.{IsRun};
ghost use Rattle.warg_replay.specs.OutcomeRuns.{IfStarted};
ghost use Rattle.warg_p256.specs.Scheme.{p256_belongs};

use std::alloc::Global;
pub use warg_p256::{ALGORITHM, KnownKeys, P256Verifier, laws, verify};
use warg_replay::{RunError, Validator, run};

/// Reads a whole log whose records are signed by `ecdsa-p256` keys. The result is its state, or the first input that
/// is refused, as of [`run`](crate::run). A signature by another algorithm is refused.
pub fn run_signed<L: Validator>(alloc: Global, inputs: &[Vec<u8>]) -> Result<L, RunError<L::Error>>
    ensures { let strings = map vec_items inputs.now in
        IfStarted (IsRun L.log L.Record.reading p256_belongs strings) result }
{
    run(alloc, &KnownKeys::new(alloc), inputs)
}
