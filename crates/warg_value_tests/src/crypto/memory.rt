//! Out of memory stays that in whichever error it is passed on.

use crate::crypto::values::is;
use std::alloc::AllocError;
use std::process::Abort;
use warg_crypto::json::JsonError;
use warg_crypto::signing::{KeyParseError, SignatureError, SignatureParseError};
use warg_crypto::{DecodeError, WireFault};

fn wire_becomes(rt: &impl Abort, fault: WireFault, want: DecodeError) {
    is(rt, DecodeError::from(fault), want);
}

fn key_becomes(rt: &impl Abort, fault: KeyParseError, want: DecodeError) {
    is(rt, DecodeError::from(fault), want);
}

#[test]
fn passed_on(rt: HostRuntime) {
    is(
        &rt,
        KeyParseError::from(AllocError),
        KeyParseError::OutOfMemory,
    );
    let signature = SignatureParseError::from(AllocError);
    is(&rt, signature, SignatureParseError::OutOfMemory);
    is(
        &rt,
        SignatureError::from(AllocError),
        SignatureError::OutOfMemory,
    );
    is(&rt, WireFault::from(AllocError), WireFault::OutOfMemory);
    is(&rt, DecodeError::from(AllocError), DecodeError::OutOfMemory);
    is(&rt, JsonError::from(AllocError), JsonError::OutOfMemory);
    wire_becomes(&rt, WireFault::OutOfMemory, DecodeError::OutOfMemory);
    wire_becomes(&rt, WireFault::Group, DecodeError::Wire(WireFault::Group));
    key_becomes(&rt, KeyParseError::OutOfMemory, DecodeError::OutOfMemory);
    let key = DecodeError::Key(KeyParseError::BadBase64);
    key_becomes(&rt, KeyParseError::BadBase64, key);
}
