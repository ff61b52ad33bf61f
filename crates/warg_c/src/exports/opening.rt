//! Opening and closing.
ghost use Rattle.std.specs.Prelude.{◌≡◌, ◌≢◌, ◌⊎◌, [], ◌∷◌, None, Some, IfOk, IfErr, IsOk, IsSomeAnd};
ghost use Rattle.warg_c.specs.AnyLogs.{IsNew, IsOfNumber, IsNoKind, kind_numbered};
ghost use Rattle.warg_c.specs.Statuses.{WARG_OK, WARG_OUT_OF_MEMORY, WARG_BAD_ARGUMENT, IsOneOf};
ghost use Rattle.warg_c.specs.Texts.{ErrorsAs};

use crate::any_log::{AnyLog, LogKind};
use crate::call_error::{CallError, status};
use crate::handle::WargLog;
use std::alloc::Global;

// A log of no records, of the kind that the number names.
fn opened(alloc: Global, kind: u32) -> Result<Box<AnyLog>, CallError>
    ensures ok { IfOk result (λ b. IsNew b.value × IsOfNumber kind b.value) }
    ensures err { IfErr result (ErrorsAs (IsOk (kind_numbered kind)) ⊥ (IsNoKind kind)) }
{
    let kind = LogKind::numbered(kind)?;
    let Ok(held) = AnyLog::new(alloc, kind) else {
        return Err(CallError::OutOfMemory);
    };
    match held.boxed(alloc) {
        Ok(held) => Ok(held),
        Err(_) => Err(CallError::OutOfMemory),
    }
}

/// Begins a log of no records, of one of `enum warg_kind`. A log that was open is closed first.
///   WARG_OUT_OF_MEMORY, WARG_BAD_ARGUMENT (no such kind): the log is as it was, open if it was open.
#[unsafe(no_mangle)]
pub extern "C" fn warg_open(alloc: Global, log: &mut WargLog, kind: u32) -> u32
    ensures statuses { IsOneOf (WARG_OK ∷ WARG_OUT_OF_MEMORY ∷ WARG_BAD_ARGUMENT ∷ []) result }
    ensures ok { result ≡ WARG_OK →
        IsSomeAnd log.new.owned.kept (λ held. IsNew held × IsOfNumber kind held) }
    ensures out_of_memory { result ≡ WARG_OUT_OF_MEMORY → IsOk (kind_numbered kind) }
    ensures bad_argument { result ≡ WARG_BAD_ARGUMENT → IsNoKind kind }
    ensures unchanged { result ≢ WARG_OK → log.new.owned.kept ≡ log.old.owned.kept }
{
    match opened(alloc, kind) {
        Ok(held) => {
            log.put(held);
            status(Ok(()))
        }
        Err(call_error) => status(Err(call_error)),
    }
}

/// Closes a log and gives its memory back: it is none then. A log that is none stays so; closing twice is harmless.
#[unsafe(no_mangle)]
pub extern "C" fn warg_close(alloc: Global, log: &mut WargLog)
    ensures { log.new.owned.kept ≡ None }
{
    log.take(alloc);
}
