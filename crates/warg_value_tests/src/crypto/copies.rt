//! Copies of keys, signatures and key ids, which may share their text.

use crate::crypto::values::{id, is, key, same, signature};
use std::alloc::Global;
use std::process::Abort;

#[test]
fn copies(rt: HostRuntime) {
    let alloc = rt.alloc();
    let alice = key(&rt, alloc, "toy:YWxpY2U=");
    same(&rt, &alice.try_clone().expect(&rt, "memory"), &alice);
    let read = signature(&rt, alloc, "toy:AAEC");
    same(&rt, &read.try_clone().expect(&rt, "memory"), &read);
    let any = id(&rt, alloc, "any text: at all");
    same(&rt, &any.try_clone().expect(&rt, "memory"), &any);
}

// An id that shares its text is the same id, with the same text; so are its copies.
fn is_shared(rt: &impl Abort, alloc: Global, name: &str) {
    let shared = id(rt, alloc, name).share().expect(rt, "memory");
    is(rt, shared.as_str(), name);
    same(rt, &shared, &id(rt, alloc, name));
    let copy = shared.try_clone().expect(rt, "memory");
    same(rt, &copy, &shared);
    same(rt, &copy.share().expect(rt, "memory"), &shared);
}

#[test]
fn shared_ids(rt: HostRuntime) {
    let alloc = rt.alloc();
    is_shared(&rt, alloc, "any text: at all");
    is_shared(&rt, alloc, "");
}
