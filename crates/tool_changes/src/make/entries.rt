//! The words that entries of both kinds have.

ghost use Rattle.std.specs.Prelude.{◌≡◌, ◌⊎◌, false, true, Ok, Err, IfErr, IfOk, MatchResult};
ghost use Rattle.warg_crypto.specs.NamedBytes.{NamedBytes};
ghost use Rattle.tool_changes.specs.Make.KeyWords.{IsIdOf, IsKeyOf, toy_key};
ghost use Rattle.tool_changes.specs.Make.Words.{AreNamed, behind_word, first_word, has_no_space, HasUnknown};
ghost use Rattle.tool_changes.specs.declared.make.error.EntryFault.TheVariants as fault;

use crate::make::error::EntryFault;
use std::alloc::{AllocError, Global};
use std::str::FromStr;
use warg_protocol::signing::{KeyID, KeyParseError, PublicKey, Signer, is_algorithm_name};
use warg_protocol::toy::ToySigner;

/// The first word of a text, and what follows the space behind it.
pub(crate) fn first_word(text: &str) -> Result<(&str, &str), EntryFault>
    ensures { MatchResult result (λ it. (has_no_space text.now ≡ false) ×
        (it.0.now ≡ first_word text.now) × (it.1.now ≡ behind_word text.now))
        (λ it. (has_no_space text.now ≡ true) × (it ≡ fault.MissingWord)) }
{
    match text.split_once(' ') {
        Some((word, rest)) => Ok((word, rest)),
        None => Err(EntryFault::MissingWord),
    }
}

/// The first word of a text, and what follows it, if anything does.
pub(crate) fn word_and_rest(text: &str) -> (&str, &str)
    ensures word { result.0.now ≡ first_word text.now }
    ensures rest { result.1.now ≡ behind_word text.now }
{
    match text.split_once(' ') {
        Some(parts) => parts,
        None => (text, ""),
    }
}

/// The toy scheme's key of a name.
fn toy_key(alloc: Global, name: &str) -> Result<PublicKey, AllocError>
    ensures { IfOk result (λ key. key ≡ toy_key name.now) }
{
    ToySigner::new(alloc, name.as_bytes())?
        .public_key()
        .try_clone()
}

/// The key that a word says: of a name without a colon the toy key, else the key's text. That of an id is none.
pub(crate) fn key(alloc: Global, word: &str) -> Result<PublicKey, EntryFault>
    ensures ok { IfOk result (IsKeyOf word.now) }
    ensures err { IfErr result (λ it. (it ≡ fault.OutOfMemory) ⊎
        ((it ≡ fault.BadKey) × ((key : NamedBytes) → IsKeyOf word.now key → ⊥))) }
{
    if is_algorithm_name(word) {
        return Ok(toy_key(alloc, word)?);
    }
    match PublicKey::parse(alloc, word) {
        Ok(key) if key.algorithm() == "sha256" => Err(EntryFault::BadKey),
        Ok(key) => Ok(key),
        Err(KeyParseError::OutOfMemory) => Err(EntryFault::OutOfMemory),
        Err(_) => Err(EntryFault::BadKey),
    }
}

/// The key id that a word says: of a name without a colon that of the toy key, else the id itself.
pub(crate) fn key_id(alloc: Global, word: &str) -> Result<KeyID, AllocError>
    ensures { IfOk result (IsIdOf word.now) }
{
    if is_algorithm_name(word) {
        return toy_key(alloc, word)?.fingerprint(alloc);
    }
    Ok(KeyID::from(String::from_str(alloc, word)?))
}

/// The permissions of these names.
pub(crate) fn permissions<P: FromStr + Drop>(
    alloc: Global,
    names: &str,
) -> Result<Vec<P>, EntryFault>
where
    P::Err: Drop,
    ensures ok { IfOk result (λ permissions.
        AreNamed (λ word it. P.from_str_gives word (Ok it)) names.now permissions.items) }
    ensures err { IfErr result (λ it. (it ≡ fault.OutOfMemory) ⊎ ((it ≡ fault.BadPermission) ×
        HasUnknown (λ word. (error : P.Err) × P.from_str_gives word (Err error)) names.now)) }
{
    let mut permissions = Vec::new(alloc);
    for name in names.split_whitespace() {
        match name.parse::<P>() {
            Ok(permission) => permissions.push(permission)?,
            Err(_) => return Err(EntryFault::BadPermission),
        }
    }
    Ok(permissions)
}
