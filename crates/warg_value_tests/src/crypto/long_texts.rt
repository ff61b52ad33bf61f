//! Keys and signatures whose texts are written in several pieces.

ghost use Rattle.std.specs.Prelude.{◌≡◌, codes, string_bytes};

use crate::crypto::values::{bytes, is};
use std::alloc::{AllocError, Global};
use std::fmt::Display;
use std::process::Abort;
use warg_crypto::signing::{PublicKey, Signature};

fn is_text(rt: &impl Abort, printed: Result<String, AllocError>, want: &str) {
    let text = printed.expect(rt, want);
    is(rt, text.as_str(), want);
}

// The value's text is this one, whatever options it is printed under.
fn keeps_text<T: Display>(rt: &impl Abort, alloc: Global, value: &T, want: &str) {
    is_text(rt, format!(in alloc; "{value}"), want);
    is_text(rt, format!(in alloc; "{value:>200}"), want);
    is_text(rt, format!(in alloc; "{value:*^200}"), want);
    is_text(rt, format!(in alloc; "{value:#}"), want);
    is_text(rt, format!(in alloc; "{value:.1}"), want);
    is_text(rt, format!(in alloc; "{value:+0200.1}"), want);
}

// The name of the toy scheme.
fn toy(rt: &impl Abort, alloc: Global) -> String
    ensures { string_bytes result ≡ codes "toy" }
{
    String::from_str(alloc, "toy").expect(rt, "memory")
}

// The text of a key is what it prints, and reads back.
fn key_reads_back(rt: &impl Abort, alloc: Global, content: &[u8]) {
    let key = PublicKey::new(toy(rt, alloc), bytes(rt, alloc, content));
    let text = key.to_text(alloc).expect(rt, "memory");
    keeps_text(rt, alloc, &key, text.as_str());
    is(rt, PublicKey::parse(alloc, text.as_str()), Ok(key));
}

// So is that of a signature.
fn signature_reads_back(rt: &impl Abort, alloc: Global, content: &[u8]) {
    let signature = Signature::new(toy(rt, alloc), bytes(rt, alloc, content));
    let text = signature.to_text(alloc).expect(rt, "memory");
    keeps_text(rt, alloc, &signature, text.as_str());
    is(rt, Signature::parse(alloc, text.as_str()), Ok(signature));
}

#[test]
fn long_texts(rt: HostRuntime) {
    let alloc = rt.alloc();
    let content = [0xfb; 2000];
    for len in [0, 1, 2, 3, 766, 767, 768, 769, 770, 1535, 1536, 1537, 2000] {
        key_reads_back(&rt, alloc, &content[..len]);
        signature_reads_back(&rt, alloc, &content[..len]);
    }
}
