//! Keys, and what they may do. A key id is the fingerprint of a key, and permissions are `release` and `yank` of package logs, and
//! `commit`, `defineNamespace` and `importNamespace` of operator logs.
ghost use Rattle.std.specs.Prelude.{◌≡◌, ◌≢◌, ◌≤◌, ◌⊎◌, ◌↔◌, [], ◌∷◌, None, Some, true, false, Bool, IfOk, IfErr};
ghost use Rattle.std.specs.Prelude.{IsSome, IsSomeAnd, OnOk, take, drop, length};
ghost use Rattle.std.specs.Option.{option_copied};
ghost use Rattle.std.specs.Str.{IsUtf8};
ghost use Rattle.warg_c.specs.Keys.{HoldsIs, IsNoPermission, KeyText, with_name, holds_tells, holds_bad};
ghost use Rattle.warg_c.specs.Keys.{is_permission, key_of, PackageText, OperatorText, permissions_tell};
ghost use Rattle.warg_c.specs.Keys.{permissions_lack, held_names};
ghost use Rattle.warg_operator_log.specs.State as operators;
ghost use Rattle.warg_package_log.specs.State as packages;
ghost use Rattle.warg_c.specs.Logs.{state_of};
ghost use Rattle.warg_c.specs.Statuses.{WARG_OK, WARG_NOT_OPEN, WARG_OUT_OF_MEMORY, WARG_TOO_SMALL, WARG_NONE};
ghost use Rattle.warg_c.specs.Statuses.{WARG_BAD_ARGUMENT, IsOneOf, Unless};
ghost use Rattle.warg_c.specs.ArgumentErrors.{argument_error_text};
ghost use Rattle.warg_c.specs.Texts.{Always, ErrorsAs, IsGiven, NeedsRoom};
ghost use Rattle.warg_c.specs.declared.argument_error.ArgumentError.TheVariants.{NotUtf8};

use crate::any_log::AnyLog;
use crate::argument::{key_id_of, permission_of};
use crate::argument_error::ArgumentError;
use crate::call_error::{CallError, status};
use crate::given::finish_text;
use crate::handle::WargLog;
use crate::log_or_state::LogOrState;
use std::alloc::{AllocError, Global};
use warg_crypto::signing::{KeyID, PublicKey};
use warg_operator_log::LogState as OperatorState;
use warg_package_log::LogState as PackageState;
use warg_permissions::LogPermission;
use warg_replay::Validator;

fn log_holds<L: Validator>(
    alloc: Global,
    log: &LogOrState<L>,
    key_id: &[u8],
    permission: &[u8],
) -> Result<(), CallError>
where
    L::Permission: LogPermission,
    ensures ok { OnOk result (HoldsIs L.Permission.permission_named
        (L.holds (L.view (state_of log.now)))
        key_id.now permission.now true) }
    ensures err { IfErr result (ErrorsAs (IsSome (L.Permission.permission_named permission.now))
        (HoldsIs L.Permission.permission_named (L.holds (L.view (state_of log.now)))
        key_id.now permission.now false)
        (IsNoPermission L.Permission.permission_named key_id.now permission.now)) }
{
    let permission = permission_of::<L::Permission>(permission)?;
    let key_id = key_id_of(alloc, key_id)?;
    if log.state().holds(&key_id, permission) {
        Ok(())
    } else {
        Err(CallError::Absent)
    }
}

fn holds(alloc: Global, held: &AnyLog, key_id: &[u8], permission: &[u8]) -> Result<(), CallError>
    ensures ok { OnOk result (holds_tells held.now key_id.now permission.now true) }
    ensures err { IfErr result (ErrorsAs (is_permission held.now permission.now)
        (holds_tells held.now key_id.now permission.now false)
        (holds_bad held.now key_id.now permission.now)) }
{
    match held {
        AnyLog::Package(log) => log_holds(alloc, log, key_id, permission),
        AnyLog::Operator(log) => log_holds(alloc, log, key_id, permission),
    }
}

/// Whether a key id holds a permission: WARG_OK if it does, WARG_NONE if it does not.
///   WARG_BAD_ARGUMENT: the key id is no UTF-8, or logs of this kind have no such permission.
#[unsafe(no_mangle)]
pub extern "C" fn warg_holds(
    alloc: Global,
    log: &mut WargLog,
    key_id: &[u8],
    permission: &[u8],
) -> u32
    ensures statuses { IsOneOf (WARG_OK ∷ WARG_NOT_OPEN ∷ WARG_OUT_OF_MEMORY ∷ WARG_NONE ∷
        WARG_BAD_ARGUMENT ∷ []) result }
    ensures not_open { (result ≡ WARG_NOT_OPEN) ↔ (log.old.owned.kept ≡ None) }
    ensures ok { result ≡ WARG_OK → IsSomeAnd log.old.owned.kept (λ held.
        holds_tells held key_id.now permission.now true) }
    ensures out_of_memory { result ≡ WARG_OUT_OF_MEMORY → IsSomeAnd log.old.owned.kept (λ held.
        is_permission held permission.now) }
    ensures none { result ≡ WARG_NONE → IsSomeAnd log.old.owned.kept (λ held.
        holds_tells held key_id.now permission.now false) }
    ensures bad_argument { result ≡ WARG_BAD_ARGUMENT → IsSomeAnd log.old.owned.kept (λ held.
        holds_bad held key_id.now permission.now) }
    ensures unchanged { log.new.owned.kept ≡ log.old.owned.kept }
{
    let Some(held) = log.take(alloc) else {
        return status(Err(CallError::NotOpen));
    };
    let outcome = holds(alloc, &held, key_id, permission);
    log.put(held);
    status(outcome)
}

// Adds a name to the text, behind a space where it is not the first, if it is held.
fn add(text: &mut Vec<u8>, is_held: bool, name: &str) -> Result<(), AllocError>
    ensures { OnOk result (text.new.items ≡ with_name text.old.items is_held name.now) }
{
    if is_held {
        if !text.is_empty() {
            text.push(b' ')?;
        }
        text.extend_from_slice(name.as_bytes())?;
    }
    Ok(())
}

// The names of the permissions that a key id holds, by their numbers.
fn held_names<L: Validator>(alloc: Global, state: &L, key_id: &KeyID) -> Result<Vec<u8>, AllocError>
where
    L::Permission: LogPermission,
    ensures { IfOk result (λ v. v.items ≡ held_names L.Permission.text_of
        (L.holds (L.view state.now) key_id.now) L.Permission.listed) }
{
    let mut text = Vec::new(alloc);
    let permissions = L::Permission::all(alloc)?;
    for permission in permissions {
        let is_held = state.holds(key_id, permission);
        add(&mut text, is_held, permission.as_text())?;
    }
    Ok(text)
}

// What a key id holds in a package log.
fn package_permissions(
    alloc: Global,
    state: &PackageState,
    key_id: &KeyID,
) -> Result<Vec<u8>, CallError>
    ensures ok { IfOk result (λ v. PackageText (packages.view_of state.now) key_id.now v.items) }
    ensures err { IfErr result (ErrorsAs Always
        ((packages.view_of state.now).state.authority.has_entry key_id.now ≡ false) ⊥) }
{
    let Some(_set) = state.key_permissions(key_id) else {
        return Err(CallError::Absent);
    };
    match held_names(alloc, state, key_id) {
        Ok(text) => Ok(text),
        Err(_) => Err(CallError::OutOfMemory),
    }
}

// What a key id holds in an operator log.
fn operator_permissions(
    alloc: Global,
    state: &OperatorState,
    key_id: &KeyID,
) -> Result<Vec<u8>, CallError>
    ensures ok { IfOk result (λ v. OperatorText (operators.view_of state.now) key_id.now v.items) }
    ensures err { IfErr result (ErrorsAs Always
        ((operators.view_of state.now).state.authority.has_entry key_id.now ≡ false) ⊥) }
{
    let Some(_set) = state.key_permissions(key_id) else {
        return Err(CallError::Absent);
    };
    match held_names(alloc, state, key_id) {
        Ok(text) => Ok(text),
        Err(_) => Err(CallError::OutOfMemory),
    }
}

fn permissions_of(alloc: Global, held: &AnyLog, key_id: &[u8]) -> Result<Vec<u8>, CallError>
    ensures ok { IfOk result (λ v. permissions_tell held.now key_id.now v.items) }
    ensures err { IfErr result (ErrorsAs Always (permissions_lack held.now key_id.now)
        (IsUtf8 key_id.now → ⊥)) }
{
    let key_id = key_id_of(alloc, key_id)?;
    match held {
        AnyLog::Package(log) => package_permissions(alloc, log.state(), &key_id),
        AnyLog::Operator(log) => operator_permissions(alloc, log.state(), &key_id),
    }
}

/// The permissions of a key id, with a space between two: no text where it holds none.
///   WARG_NONE: the log does not know the key id.
///   WARG_BAD_ARGUMENT (NotUtf8): the key id is no UTF-8.
#[unsafe(no_mangle)]
pub extern "C" fn warg_permissions(
    alloc: Global,
    log: &mut WargLog,
    key_id: &[u8],
    text: &mut [u8],
    used: &mut usize,
) -> u32
    ensures statuses { IsOneOf (WARG_OK ∷ WARG_NOT_OPEN ∷ WARG_OUT_OF_MEMORY ∷ WARG_TOO_SMALL ∷
        WARG_NONE ∷ WARG_BAD_ARGUMENT ∷ []) result }
    ensures not_open { (result ≡ WARG_NOT_OPEN) ↔ (log.old.owned.kept ≡ None) }
    ensures ok { result ≡ WARG_OK → IsSomeAnd log.old.owned.kept (λ held.
        permissions_tell held key_id.now (take used.new text.new)) }
    ensures too_small { result ≡ WARG_TOO_SMALL → IsSomeAnd log.old.owned.kept (λ held.
        NeedsRoom (permissions_tell held key_id.now) used.new text.old) }
    ensures none { result ≡ WARG_NONE → IsSomeAnd log.old.owned.kept (λ held.
        permissions_lack held key_id.now) }
    ensures bad_argument { result ≡ WARG_BAD_ARGUMENT →
        (IsUtf8 key_id.now → ⊥) × IsGiven (argument_error_text NotUtf8) used.new text.new }
    ensures unchanged { log.new.owned.kept ≡ log.old.owned.kept }
    ensures buffer { Unless (WARG_OK ∷ WARG_BAD_ARGUMENT ∷ []) result (text.new ≡ text.old) }
    ensures used { Unless (WARG_OK ∷ WARG_TOO_SMALL ∷ WARG_BAD_ARGUMENT ∷ []) result
        (used.new ≡ 0) }
    ensures behind { drop used.new text.new ≡ drop used.new text.old }
    ensures within { result ≢ WARG_TOO_SMALL → used.new ≤ length text.new }
{
    *used = 0;
    let Some(held) = log.take(alloc) else {
        return status(Err(CallError::NotOpen));
    };
    let outcome = permissions_of(alloc, &held, key_id);
    log.put(held);
    finish_text(outcome, ArgumentError::NotUtf8, text, used)
}

// The key of an id.
fn key_of<'a>(held: &'a AnyLog, key_id: &KeyID) -> Option<&'a PublicKey>
    ensures { option_copied result ≡ key_of held.now key_id.now }
{
    match held {
        AnyLog::Package(log) => log.state().public_key(key_id),
        AnyLog::Operator(log) => log.state().public_key(key_id),
    }
}

fn key_text(alloc: Global, held: &AnyLog, key_id: &[u8]) -> Result<Vec<u8>, CallError>
    ensures ok { IfOk result (λ v. KeyText (key_of held.now key_id.now) v.items) }
    ensures err { IfErr result (ErrorsAs Always (key_of held.now key_id.now ≡ None)
        (IsUtf8 key_id.now → ⊥)) }
{
    let key_id = key_id_of(alloc, key_id)?;
    let Some(key) = key_of(held, &key_id) else {
        return Err(CallError::Absent);
    };
    match key.to_text(alloc) {
        Ok(text) => Ok(text.into_bytes()),
        Err(_) => Err(CallError::OutOfMemory),
    }
}

/// The text of the key of a key id.
///   WARG_NONE: the log does not know the key.
///   WARG_BAD_ARGUMENT (NotUtf8): the key id is no UTF-8.
#[unsafe(no_mangle)]
pub extern "C" fn warg_key(
    alloc: Global,
    log: &mut WargLog,
    key_id: &[u8],
    text: &mut [u8],
    used: &mut usize,
) -> u32
    ensures statuses { IsOneOf (WARG_OK ∷ WARG_NOT_OPEN ∷ WARG_OUT_OF_MEMORY ∷ WARG_TOO_SMALL ∷
        WARG_NONE ∷ WARG_BAD_ARGUMENT ∷ []) result }
    ensures not_open { (result ≡ WARG_NOT_OPEN) ↔ (log.old.owned.kept ≡ None) }
    ensures ok { result ≡ WARG_OK → IsSomeAnd log.old.owned.kept (λ held.
        KeyText (key_of held key_id.now) (take used.new text.new)) }
    ensures too_small { result ≡ WARG_TOO_SMALL → IsSomeAnd log.old.owned.kept (λ held.
        NeedsRoom (KeyText (key_of held key_id.now)) used.new text.old) }
    ensures none { result ≡ WARG_NONE → IsSomeAnd log.old.owned.kept (λ held.
        key_of held key_id.now ≡ None) }
    ensures bad_argument { result ≡ WARG_BAD_ARGUMENT →
        (IsUtf8 key_id.now → ⊥) × IsGiven (argument_error_text NotUtf8) used.new text.new }
    ensures unchanged { log.new.owned.kept ≡ log.old.owned.kept }
    ensures buffer { Unless (WARG_OK ∷ WARG_BAD_ARGUMENT ∷ []) result (text.new ≡ text.old) }
    ensures used { Unless (WARG_OK ∷ WARG_TOO_SMALL ∷ WARG_BAD_ARGUMENT ∷ []) result
        (used.new ≡ 0) }
    ensures behind { drop used.new text.new ≡ drop used.new text.old }
    ensures within { result ≢ WARG_TOO_SMALL → used.new ≤ length text.new }
{
    *used = 0;
    let Some(held) = log.take(alloc) else {
        return status(Err(CallError::NotOpen));
    };
    let outcome = key_text(alloc, &held, key_id);
    log.put(held);
    finish_text(outcome, ArgumentError::NotUtf8, text, used)
}
