//! Values, and what is checked of them.

use std::alloc::Global;
use std::fmt::Debug;
use std::process::Abort;
use warg_crypto::signing::{KeyID, PublicKey, Signature};

pub(crate) fn text(rt: &impl Abort, alloc: Global, text: &str) -> String {
    String::from_str(alloc, text).expect(rt, "memory")
}

pub(crate) fn bytes(rt: &impl Abort, alloc: Global, bytes: &[u8]) -> Vec<u8> {
    Vec::from_slice(alloc, bytes).expect(rt, "memory")
}

pub(crate) fn id(rt: &impl Abort, alloc: Global, name: &str) -> KeyID {
    KeyID::from(text(rt, alloc, name))
}

pub(crate) fn key(rt: &impl Abort, alloc: Global, text: &str) -> PublicKey {
    PublicKey::parse(alloc, text).expect(rt, text)
}

pub(crate) fn signature(rt: &impl Abort, alloc: Global, text: &str) -> Signature {
    Signature::parse(alloc, text).expect(rt, text)
}

/// The value is this one.
pub(crate) fn is<T: PartialEq + Debug + Drop>(rt: &impl Abort, value: T, want: T) {
    assert_eq!(rt; value, want);
}

/// Both values are the same.
pub(crate) fn same<T: PartialEq>(rt: &impl Abort, value: &T, other: &T) {
    assert!(rt; *value == *other);
}
