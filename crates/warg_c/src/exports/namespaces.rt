//! The namespaces of an operator log.
ghost use Rattle.std.specs.Prelude.{◌≡◌, ◌≢◌, ◌≤◌, ◌⊎◌, ◌↔◌, [], ◌∷◌, None, Some, IfOk, IfErr, IsSome, IsSomeAnd};
ghost use Rattle.std.specs.Prelude.{length, take, drop};
ghost use Rattle.std.specs.Option.{option_copied, option_map};
ghost use Rattle.std.specs.Str.{IsUtf8};
ghost use Rattle.warg_operator_log.specs.NamespaceMap.{namespace_view};
ghost use Rattle.warg_operator_log.specs.State.{view_of};
ghost use Rattle.warg_c.specs.ArgumentErrors.{argument_error_text, operator_argument_error};
ghost use Rattle.warg_c.specs.NamespaceAnswers.{NamespaceIs, namespace_takes, namespace_tells};
ghost use Rattle.warg_c.specs.NamespaceAnswers.{namespace_lacks, namespace_bad};
ghost use Rattle.warg_c.specs.Statuses.{WARG_OK, WARG_NOT_OPEN, WARG_OUT_OF_MEMORY, WARG_TOO_SMALL, WARG_NONE};
ghost use Rattle.warg_c.specs.Statuses.{WARG_BAD_ARGUMENT, IsOneOf, Unless};
ghost use Rattle.warg_c.specs.Texts.{ErrorsAs, IsGiven, NeedsRoom};
ghost use Rattle.warg_c.specs.declared.argument_error.ArgumentError.TheVariants.{NotUtf8};

use crate::any_log::AnyLog;
use crate::argument_error::ArgumentError;
use crate::call_error::{CallError, status};
use crate::given::finish_with;
use crate::handle::WargLog;
use std::alloc::{AllocError, Global};
use warg_operator_log::{LogState, NamespaceState};

// What a namespace is, as bytes and a number.
fn spell_namespace(alloc: Global, state: &NamespaceState) -> Result<(Vec<u8>, u32), AllocError>
    ensures { IfOk result (λ p. NamespaceIs (Some (namespace_view state.now)) p.1 p.0.items) }
{
    match state {
        NamespaceState::Defined => Ok((Vec::new(alloc), 0)),
        NamespaceState::Imported { registry } => {
            let name = Vec::from_slice(alloc, registry.as_bytes())?;
            Ok((name, 1))
        }
    }
}

fn namespace_in(alloc: Global, state: &LogState, name: &[u8]) -> Result<(Vec<u8>, u32), CallError>
    ensures ok { IfOk result (λ p. NamespaceIs ((view_of state.now).state.own_state name.now) p.1
        p.0.items) }
    ensures err { IfErr result (ErrorsAs
        (IsSome ((view_of state.now).state.own_state name.now))
        ((view_of state.now).state.own_state name.now ≡ None)
        (IsUtf8 name.now → ⊥)) }
{
    let Ok(name) = str::from_utf8(name) else {
        return Err(CallError::BadArgument);
    };
    let Some(found) = state.namespace_state(name) else {
        return Err(CallError::Absent);
    };
    match spell_namespace(alloc, found) {
        Ok(spelled) => Ok(spelled),
        Err(_) => Err(CallError::OutOfMemory),
    }
}

fn namespace_of(alloc: Global, held: &AnyLog, name: &[u8]) -> Result<(Vec<u8>, u32), CallError>
    ensures ok { IfOk result (λ p. namespace_tells held.now name.now p.1 p.0.items) }
    ensures err { IfErr result (ErrorsAs (namespace_takes held.now name.now)
        (namespace_lacks held.now name.now)
        (namespace_bad held.now name.now)) }
{
    match held {
        AnyLog::Package(_) => Err(CallError::BadArgument),
        AnyLog::Operator(log) => namespace_in(alloc, log.state(), name),
    }
}

/// What a namespace is. `is_imported` is 0 where this registry defines it, and `text` is empty; it is 1 where its packages are those of another
/// registry, and `text` is that one's name.
///   WARG_NONE: the log has no such namespace.
///   WARG_BAD_ARGUMENT: the name is no UTF-8 (NotUtf8), or the log is one of a package (WrongKind).
#[unsafe(no_mangle)]
pub extern "C" fn warg_namespace(
    alloc: Global,
    log: &mut WargLog,
    name: &[u8],
    text: &mut [u8],
    used: &mut usize,
    is_imported: &mut u32,
) -> u32
    ensures statuses { IsOneOf (WARG_OK ∷ WARG_NOT_OPEN ∷ WARG_OUT_OF_MEMORY ∷ WARG_TOO_SMALL ∷
        WARG_NONE ∷ WARG_BAD_ARGUMENT ∷ []) result }
    ensures not_open { (result ≡ WARG_NOT_OPEN) ↔ (log.old.owned.kept ≡ None) }
    ensures ok { result ≡ WARG_OK → IsSomeAnd log.old.owned.kept (λ held.
        namespace_tells held name.now is_imported.new (take used.new text.new)) }
    ensures out_of_memory { result ≡ WARG_OUT_OF_MEMORY → IsSomeAnd log.old.owned.kept (λ held.
        namespace_takes held name.now) }
    ensures too_small { result ≡ WARG_TOO_SMALL → IsSomeAnd log.old.owned.kept (λ held.
        NeedsRoom (namespace_tells held name.now is_imported.new) used.new text.old) }
    ensures none { result ≡ WARG_NONE → IsSomeAnd log.old.owned.kept (λ held.
        namespace_lacks held name.now) }
    ensures bad_argument { result ≡ WARG_BAD_ARGUMENT → IsSomeAnd log.old.owned.kept (λ held.
        namespace_bad held name.now ×
        IsGiven (argument_error_text (operator_argument_error held NotUtf8)) used.new text.new) }
    ensures unchanged { log.new.owned.kept ≡ log.old.owned.kept }
    ensures buffer { Unless (WARG_OK ∷ WARG_BAD_ARGUMENT ∷ []) result (text.new ≡ text.old) }
    ensures used { Unless (WARG_OK ∷ WARG_TOO_SMALL ∷ WARG_BAD_ARGUMENT ∷ []) result
        (used.new ≡ 0) }
    ensures behind { drop used.new text.new ≡ drop used.new text.old }
    ensures kept { Unless (WARG_OK ∷ WARG_TOO_SMALL ∷ []) result
        (is_imported.new ≡ is_imported.old) }
    ensures within { result ≢ WARG_TOO_SMALL → used.new ≤ length text.new }
{
    *used = 0;
    let Some(held) = log.take(alloc) else {
        return status(Err(CallError::NotOpen));
    };
    let outcome = namespace_of(alloc, &held, name);
    let wrong = held.operator_argument_error(ArgumentError::NotUtf8);
    log.put(held);
    finish_with(outcome, wrong, text, used, is_imported)
}
