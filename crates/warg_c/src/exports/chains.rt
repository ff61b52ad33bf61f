//! By which entries keys came to hold permissions.
ghost use Rattle.std.specs.Prelude.{◌≡◌, ◌≢◌, ◌≤◌, ◌⊎◌, ◌↔◌, [], ◌∷◌, None, IfErr, IfOk, IsSome, IsSomeAnd, map};
ghost use Rattle.std.specs.Prelude.{length, take, drop};
ghost use Rattle.warg_c.specs.ChainAnswers.{ChainIs, NoChain, chain_bad, chain_lacks, chain_takes};
ghost use Rattle.warg_c.specs.ChainAnswers.{chain_tells, shown_link};
ghost use Rattle.warg_c.specs.Keys.{IsNoPermission};
ghost use Rattle.warg_c.specs.Logs.{whole_of};
ghost use Rattle.warg_c.specs.Statuses.{WARG_OK, WARG_NOT_OPEN, WARG_OUT_OF_MEMORY, WARG_TOO_SMALL, WARG_NONE};
ghost use Rattle.warg_c.specs.Statuses.{WARG_BAD_ARGUMENT, IsOneOf, Unless};
ghost use Rattle.warg_c.specs.Texts.{ErrorsAs, NeedsRoom};

use crate::any_log::AnyLog;
use crate::argument::{key_id_of, permission_of};
use crate::call_error::{CallError, status};
use crate::given::finish;
use crate::handle::WargLog;
use crate::log_or_state::LogOrState;
use std::alloc::{AllocError, Global};
use warg_permissions::LogPermission;
use warg_replay::Validator;
use warg_replay::audited_log::Link as LogLink;

/// The place of an entry, counted from 0: of its record in the log, and of the entry in the record.
#[repr(C)]
#[derive(Clone, Copy)]
pub struct Link {
    pub record_index: usize,
    pub entry_index: usize,
}

fn shown(link: &LogLink) -> Link
    ensures { result ≡ shown_link link.now }
{
    Link {
        record_index: link.record_index,
        entry_index: link.entry_index,
    }
}

// The links for the caller.
fn shown_all(alloc: Global, found: &[LogLink]) -> Result<Vec<Link>, AllocError>
    ensures { IfOk result (λ v. v.items ≡ map shown_link found.now) }
{
    found.iter().map(|link| shown(link)).collect(alloc)
}

// The chain of a key's permission.
fn chain_of_log<L: Validator>(
    alloc: Global,
    log: &LogOrState<L>,
    key_id: &[u8],
    permission: &[u8],
) -> Result<Vec<Link>, CallError>
where
    L::Permission: LogPermission,
    ensures ok { IfOk result (λ v. ChainIs L.effects L.Permission.permission_named
        (whole_of log.now)
        key_id.now permission.now v.items) }
    ensures err { IfErr result (ErrorsAs
        (IsSome (whole_of log.now) × IsSome (L.Permission.permission_named permission.now))
        (NoChain L.effects L.Permission.permission_named (whole_of log.now) key_id.now
        permission.now)
        ((whole_of log.now ≡ None) ⊎ IsNoPermission L.Permission.permission_named key_id.now
        permission.now)) }
{
    let Some(log) = log.whole() else {
        return Err(CallError::BadArgument);
    };
    let permission = permission_of::<L::Permission>(permission)?;
    let key_id = key_id_of(alloc, key_id)?;
    let found = match log.permission_chain(&key_id, permission) {
        Ok(Some(found)) => found,
        Ok(None) => return Err(CallError::Absent),
        Err(_) => return Err(CallError::OutOfMemory),
    };
    match shown_all(alloc, found.as_slice()) {
        Ok(links) => Ok(links),
        Err(_) => Err(CallError::OutOfMemory),
    }
}

fn chain_of(
    alloc: Global,
    held: &AnyLog,
    key_id: &[u8],
    permission: &[u8],
) -> Result<Vec<Link>, CallError>
    ensures ok { IfOk result (λ v. chain_tells held.now key_id.now permission.now v.items) }
    ensures err { IfErr result (ErrorsAs (chain_takes held.now permission.now)
        (chain_lacks held.now key_id.now permission.now)
        (chain_bad held.now key_id.now permission.now)) }
{
    match held {
        AnyLog::Package(log) => chain_of_log(alloc, log, key_id, permission),
        AnyLog::Operator(log) => chain_of_log(alloc, log, key_id, permission),
    }
}

/// By which entries a key id came to hold a permission, from the log's first entry on. `links_len` is how many links there is room for, and
/// `used` how many there are; at WARG_TOO_SMALL, how many there have to be room for.
///   WARG_NONE: the key id does not hold the permission.
///   WARG_BAD_ARGUMENT: as of `warg_holds`, or the log was resumed.
#[unsafe(no_mangle)]
pub extern "C" fn warg_chain(
    alloc: Global,
    log: &mut WargLog,
    key_id: &[u8],
    permission: &[u8],
    links: &mut [Link],
    used: &mut usize,
) -> u32
    ensures statuses { IsOneOf (WARG_OK ∷ WARG_NOT_OPEN ∷ WARG_OUT_OF_MEMORY ∷ WARG_TOO_SMALL ∷
        WARG_NONE ∷ WARG_BAD_ARGUMENT ∷ []) result }
    ensures not_open { (result ≡ WARG_NOT_OPEN) ↔ (log.old.owned.kept ≡ None) }
    ensures ok { result ≡ WARG_OK → IsSomeAnd log.old.owned.kept (λ held.
        chain_tells held key_id.now permission.now (take used.new links.new)) }
    ensures out_of_memory { result ≡ WARG_OUT_OF_MEMORY → IsSomeAnd log.old.owned.kept (λ held.
        chain_takes held permission.now) }
    ensures too_small { result ≡ WARG_TOO_SMALL → IsSomeAnd log.old.owned.kept (λ held.
        NeedsRoom (chain_tells held key_id.now permission.now) used.new links.old) }
    ensures none { result ≡ WARG_NONE → IsSomeAnd log.old.owned.kept (λ held.
        chain_lacks held key_id.now permission.now) }
    ensures bad_argument { result ≡ WARG_BAD_ARGUMENT → IsSomeAnd log.old.owned.kept (λ held.
        chain_bad held key_id.now permission.now) }
    ensures unchanged { log.new.owned.kept ≡ log.old.owned.kept }
    ensures buffer { result ≢ WARG_OK → links.new ≡ links.old }
    ensures used { Unless (WARG_OK ∷ WARG_TOO_SMALL ∷ []) result (used.new ≡ 0) }
    ensures behind { drop used.new links.new ≡ drop used.new links.old }
    ensures within { result ≢ WARG_TOO_SMALL → used.new ≤ length links.new }
{
    *used = 0;
    let Some(held) = log.take(alloc) else {
        return status(Err(CallError::NotOpen));
    };
    let outcome = chain_of(alloc, &held, key_id, permission);
    log.put(held);
    finish(outcome, links, used)
}
