//! The persons of the scripts. Each signs by the toy scheme, with the name as the bytes of the key; the ids
//! of their keys were computed elsewhere.
use conformance_rows::RowError;
use std::alloc::{AllocError, Global};
use warg_protocol::signing::{KeyID, PublicKey, Signer};
use warg_protocol::toy::ToySigner;
use warg_protocol::{ProtoEnvelope, Signable};

const PEOPLE: &[(&str, &str)] = &[
    (
        "alice",
        "sha256:6f03ae61d0fd3df261d400afe99bdcd613f266104552b6ad5281c7666633c6e2",
    ),
    (
        "bob",
        "sha256:41217e6dcb8c0694d904eb6ff3e4098d479db7c8f90cd8db737d85701d464db0",
    ),
    (
        "carol",
        "sha256:102431f302cc7d62095d21ddf678cc964811b91a2df257426429f355d753b84a",
    ),
    (
        "mallory",
        "sha256:861ec5605cbac4fccec7d0d36922e9534c8ac8855f1704a78d3ee9f48936c89e",
    ),
];

/// Who signs by the key of this name.
pub fn signer(alloc: Global, name: &str) -> Result<ToySigner, AllocError> {
    ToySigner::new(alloc, name.as_bytes())
}

/// The record in an envelope that the person signed.
pub fn signed<C: Signable + Drop>(
    alloc: Global,
    name: &str,
    record: C,
) -> Result<ProtoEnvelope<C>, RowError> {
    let signer = signer(alloc, name)?;
    Ok(ProtoEnvelope::signed_contents(alloc, &signer, record)?)
}

/// The person's key.
pub fn key(alloc: Global, name: &str) -> Result<PublicKey, AllocError> {
    signer(alloc, name)?.public_key().try_clone()
}

fn id_text<'a>(name: &'a str) -> &'a str {
    for (person, id) in PEOPLE {
        if *person == name {
            return *id;
        }
    }
    name
}

/// The id of the person's key. A name of no person is an id that no key has.
pub fn id(alloc: Global, name: &str) -> Result<KeyID, AllocError> {
    Ok(KeyID::from(String::from_str(alloc, id_text(name))?))
}

/// Whose key the id names, or the id's own text.
pub fn owner<'a>(id: &'a KeyID) -> &'a str {
    for (person, text) in PEOPLE {
        if *text == id.as_str() {
            return *person;
        }
    }
    id.as_str()
}
