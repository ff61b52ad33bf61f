//! Values that are signed under a prefix of their kind.

ghost use Rattle.std.specs.Prelude.{⊤};
ghost use Rattle.warg_crypto.specs.Signed.{toy_belongs};

use crate::crypto::values::{bytes, is};
use std::alloc::{AllocError, Global};
use std::cell::Cell;
use std::process::Abort;
use warg_crypto::hash::HashAlgorithm;
use warg_crypto::signing::{PublicKey, Signature, SignatureError, Signer, Verifier};
use warg_crypto::toy::{ToySigner, ToyVerifier};
use warg_crypto::{Encode, Signable};

// A note, as an example of what is signed.
#[derive(Drop)]
struct Note {
    text: Vec<u8>,
}

impl Encode for Note {
    ghost encoding = { λ n. n.text.items };

    fn encode(&self, alloc: Global) -> Result<Vec<u8>, AllocError> {
        Vec::from_slice(alloc, self.text.as_slice())
    }
}

impl Signable for Note {
    ghost use Rattle.std.specs.Prelude.{codes};

    const PREFIX: &'static str = "NOTE-SIGNATURE-V0";

    ghost signed_prefix = { codes "NOTE-SIGNATURE-V0" };

    fn signing_prefix() -> &'static str {
        Self::PREFIX
    }
}

fn short_note(rt: &impl Abort, alloc: Global) -> Note {
    Note {
        text: bytes(rt, alloc, b"x"),
    }
}

fn signer(rt: &impl Abort, alloc: Global) -> ToySigner {
    ToySigner::new(alloc, b"alice").expect(rt, "memory")
}

fn signed(rt: &impl Abort, alloc: Global, note: &Note) -> Signature {
    note.sign(alloc, &signer(rt, alloc))
        .expect(rt, "a signature")
}

// A signer that counts its messages, each of which has to be this one.
#[derive(Drop)]
struct CountingSigner<'a> {
    signer: ToySigner,
    message: &'a [u8],
    calls: Cell<u32>,
    others: Cell<u32>,
}

fn count(calls: &Cell<u32>) {
    calls.set(calls.get().wrapping_add(1));
}

impl Signer for CountingSigner<'_> {
    ghost key_of = { λ s. s.signer };

    ghost gives = { λ _ _ _. ⊤ };

    ghost refuses = { λ _ _. ⊤ };

    fn public_key(&self) -> &PublicKey {
        self.signer.public_key()
    }

    fn sign(&self, alloc: Global, message: &[u8]) -> Result<Signature, SignatureError> {
        count(&self.calls);
        if message != self.message {
            count(&self.others);
        }
        self.signer.sign(alloc, message)
    }
}

// A verifier that does the same.
#[derive(Drop)]
struct CountingVerifier<'a> {
    message: &'a [u8],
    calls: Cell<u32>,
    others: Cell<u32>,
}

impl Verifier for CountingVerifier<'_> {
    ghost belongs = { λ _ key message signature. toy_belongs key message signature };

    fn verify(
        &self,
        alloc: Global,
        key: &PublicKey,
        message: &[u8],
        signature: &Signature,
    ) -> Result<(), SignatureError> {
        count(&self.calls);
        if message != self.message {
            count(&self.others);
        }
        ToyVerifier.verify(alloc, key, message, signature)
    }
}

#[test]
fn signed_once(rt: HostRuntime) {
    let alloc = rt.alloc();
    let note = short_note(&rt, alloc);
    let encoded = note.encode(alloc).expect(&rt, "memory");
    is(&rt, encoded.as_slice(), b"x".as_slice());
    let counting = CountingSigner {
        signer: signer(&rt, alloc),
        message: b"NOTE-SIGNATURE-V0:x",
        calls: Cell::new(0),
        others: Cell::new(0),
    };
    let signature = note.sign(alloc, &counting).expect(&rt, "a signature");
    is(&rt, (counting.calls.get(), counting.others.get()), (1, 0));
    let want = HashAlgorithm::Sha256.digest(b"aliceNOTE-SIGNATURE-V0:x");
    is(&rt, signature.bytes(), want.bytes());
    is(&rt, signature.algorithm(), "toy");
}

fn verifies_once(
    rt: &impl Abort,
    alloc: Global,
    content: &[u8],
    message: &[u8],
    want: Result<(), SignatureError>,
) {
    let counting = CountingVerifier {
        message,
        calls: Cell::new(0),
        others: Cell::new(0),
    };
    let signature = signed(rt, alloc, &short_note(rt, alloc));
    let signer = signer(rt, alloc);
    let judged = Note::verify(alloc, &counting, signer.public_key(), content, &signature);
    is(rt, judged, want);
    is(rt, (counting.calls.get(), counting.others.get()), (1, 0));
}

#[test]
fn verified_once(rt: HostRuntime) {
    let alloc = rt.alloc();
    verifies_once(&rt, alloc, b"x", b"NOTE-SIGNATURE-V0:x", Ok(()));
    let refused = Err(SignatureError::Refused);
    verifies_once(&rt, alloc, b"", b"NOTE-SIGNATURE-V0:", refused);
}
