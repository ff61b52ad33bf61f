//! The ids of logs by the names of their packages, and the leaves of a registry's log.
ghost use Rattle.std.specs.Prelude.{◌≡◌, ◌≢◌, ◌≤◌, [], ◌∷◌, IfOk, IfErr, IsOk, length, take, drop, string_bytes};
ghost use Rattle.warg_crypto.specs.HashText.{hash_of, hash_text};
ghost use Rattle.warg_registry.specs.LogIds.{operator_log_message, package_log_message};
ghost use Rattle.warg_registry.specs.KebabNames.{IsPackageText};
ghost use Rattle.std.specs.Str.{IsUtf8};
ghost use Rattle.warg_c.specs.AnyLogs.{kind_numbered};
ghost use Rattle.warg_c.specs.ArgumentErrors.{argument_error_text};
ghost use Rattle.warg_c.specs.ProofAnswers.{AreTwoHashes};
ghost use Rattle.warg_c.specs.LogNames.{IsLeafOf, IsNoLeaf, id_text_of, log_id_bad, log_id_error, log_id_tells};
ghost use Rattle.warg_c.specs.Statuses.{WARG_OK, WARG_OUT_OF_MEMORY, WARG_TOO_SMALL, WARG_BAD_ARGUMENT};
ghost use Rattle.warg_c.specs.Statuses.{IsOneOf, Unless};
ghost use Rattle.warg_c.specs.Texts.{Always, ErrorsAs, IsGiven, NeedsRoom};

use crate::any_log::LogKind;
use crate::argument_error::ArgumentError;
use crate::call_error::CallError;
use crate::given::{finish, finish_text};
use crate::proof_text::leaf_in;
use std::alloc::Global;
use warg_crypto::VisitBytes;
use warg_crypto::hash::Sha256;
use warg_registry::{LogId, PackageName, PackageNameError};

// The id of the log of the package of a name.
fn package_log_id(alloc: Global, name: &[u8]) -> Result<LogId, CallError>
    ensures ok { IfOk result (λ id. IsPackageText name.now ×
        (hash_text id.hash ≡ id_text_of (package_log_message name.now))) }
    ensures err { IfErr result (ErrorsAs Always ⊥ (IsUtf8 name.now → IsPackageText name.now → ⊥)) }
{
    let Ok(name) = str::from_utf8(name) else {
        return Err(CallError::BadArgument);
    };
    match PackageName::parse(alloc, name) {
        Ok(name) => Ok(LogId::package_log::<Sha256>(&name)),
        Err(PackageNameError::OutOfMemory) => Err(CallError::OutOfMemory),
        Err(_) => Err(CallError::BadArgument),
    }
}

// The id of the operators' log.
fn operator_log_id(name: &[u8]) -> Result<LogId, CallError>
    ensures ok { IfOk result (λ id. (name.now ≡ []) ×
        (hash_text id.hash ≡ id_text_of operator_log_message)) }
    ensures err { IfErr result (ErrorsAs ⊥ ⊥ (name.now ≢ [])) }
{
    if !name.is_empty() {
        return Err(CallError::BadArgument);
    }
    Ok(LogId::operator_log::<Sha256>())
}

// The id of a log of the kind that the number names.
fn log_id_of(alloc: Global, kind: u32, name: &[u8]) -> Result<LogId, CallError>
    ensures ok { IfOk result (λ id. log_id_tells kind name.now (hash_text id.hash)) }
    ensures err { IfErr result (ErrorsAs (IsOk (kind_numbered kind)) ⊥
        (log_id_bad kind name.now)) }
{
    match LogKind::numbered(kind) {
        Ok(LogKind::Package) => package_log_id(alloc, name),
        Ok(LogKind::Operator) => operator_log_id(name),
        Err(call_error) => Err(call_error),
    }
}

// The text of that id.
fn log_id_text(alloc: Global, kind: u32, name: &[u8]) -> Result<Vec<u8>, CallError>
    ensures ok { IfOk result (λ v. log_id_tells kind name.now v.items) }
    ensures err { IfErr result (ErrorsAs (IsOk (kind_numbered kind)) ⊥
        (log_id_bad kind name.now)) }
{
    let id = log_id_of(alloc, kind, name)?;
    match id.to_string(alloc) {
        Ok(text) => Ok(text.into_bytes()),
        Err(_) => Err(CallError::OutOfMemory),
    }
}

// What is wrong where no log of the kind has a name.
fn log_id_error(kind: u32) -> ArgumentError
    ensures { result ≡ log_id_error kind }
{
    match LogKind::numbered(kind) {
        Ok(_) => ArgumentError::BadName,
        Err(_) => ArgumentError::NoKind,
    }
}

/// The text of the id of a log, of one of `enum warg_kind`: of the package's of this name, or of the operators', which has no name (`name` is
/// empty then). No log is needed.
///   WARG_BAD_ARGUMENT: no such kind (NoKind); or no log of the kind has such a name (BadName).
#[unsafe(no_mangle)]
pub extern "C" fn warg_log_id(
    alloc: Global,
    kind: u32,
    name: &[u8],
    text: &mut [u8],
    used: &mut usize,
) -> u32
    ensures statuses { IsOneOf (WARG_OK ∷ WARG_OUT_OF_MEMORY ∷ WARG_TOO_SMALL ∷
        WARG_BAD_ARGUMENT ∷ []) result }
    ensures ok { result ≡ WARG_OK → log_id_tells kind name.now (take used.new text.new) }
    ensures out_of_memory { result ≡ WARG_OUT_OF_MEMORY → IsOk (kind_numbered kind) }
    ensures too_small { result ≡ WARG_TOO_SMALL →
        NeedsRoom (log_id_tells kind name.now) used.new text.old }
    ensures bad_argument { result ≡ WARG_BAD_ARGUMENT → log_id_bad kind name.now ×
        IsGiven (argument_error_text (log_id_error kind)) used.new text.new }
    ensures buffer { Unless (WARG_OK ∷ WARG_BAD_ARGUMENT ∷ []) result (text.new ≡ text.old) }
    ensures used { Unless (WARG_OK ∷ WARG_TOO_SMALL ∷ WARG_BAD_ARGUMENT ∷ []) result
        (used.new ≡ 0) }
    ensures behind { drop used.new text.new ≡ drop used.new text.old }
    ensures within { result ≢ WARG_TOO_SMALL → used.new ≤ length text.new }
{
    let outcome = log_id_text(alloc, kind, name);
    finish_text(outcome, log_id_error(kind), text, used)
}

// The bytes of the leaf of a record of a log.
fn leaf_bytes(alloc: Global, log_id: &[u8], record_id: &[u8]) -> Result<Vec<u8>, CallError>
    ensures ok { IfOk result (λ v. IsLeafOf log_id.now record_id.now v.items) }
    ensures err { IfErr result (ErrorsAs (AreTwoHashes log_id.now record_id.now) ⊥
        (IsNoLeaf log_id.now record_id.now)) }
{
    let leaf = leaf_in(log_id, record_id)?;
    let mut bytes = Vec::new(alloc);
    match leaf.visit(&mut bytes) {
        Ok(()) => Ok(bytes),
        Err(_) => Err(CallError::OutOfMemory),
    }
}

/// The leaf that a record of a log has in a registry's log, by the texts of the ids of both: the bytes that are hashed.
///   WARG_BAD_ARGUMENT: a text is none of an id; nothing is told of it.
#[unsafe(no_mangle)]
pub extern "C" fn warg_leaf(
    alloc: Global,
    log_id: &[u8],
    record_id: &[u8],
    bytes: &mut [u8],
    used: &mut usize,
) -> u32
    ensures statuses { IsOneOf (WARG_OK ∷ WARG_OUT_OF_MEMORY ∷ WARG_TOO_SMALL ∷
        WARG_BAD_ARGUMENT ∷ []) result }
    ensures ok { result ≡ WARG_OK →
        IsLeafOf log_id.now record_id.now (take used.new bytes.new) }
    ensures out_of_memory { result ≡ WARG_OUT_OF_MEMORY →
        AreTwoHashes log_id.now record_id.now }
    ensures too_small { result ≡ WARG_TOO_SMALL →
        NeedsRoom (IsLeafOf log_id.now record_id.now) used.new bytes.old }
    ensures bad_argument { result ≡ WARG_BAD_ARGUMENT → IsNoLeaf log_id.now record_id.now }
    ensures buffer { result ≢ WARG_OK → bytes.new ≡ bytes.old }
    ensures used { Unless (WARG_OK ∷ WARG_TOO_SMALL ∷ []) result (used.new ≡ 0) }
    ensures behind { drop used.new bytes.new ≡ drop used.new bytes.old }
    ensures within { result ≢ WARG_TOO_SMALL → used.new ≤ length bytes.new }
{
    let outcome = leaf_bytes(alloc, log_id, record_id);
    finish(outcome, bytes, used)
}
