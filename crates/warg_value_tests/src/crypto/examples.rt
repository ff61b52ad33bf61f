//! The examples of the traits' documentation, and how another crate names the traits in its clauses.

ghost use Rattle.std.specs.Prelude.{◌≡◌, ◌↔◌, ◌++◌, ℕ, List, length, true, IfOk, IsSome, OnOk, string_bytes};
ghost use Rattle.std.specs.Str.{bytes_eq};
ghost use Rattle.warg_crypto.specs.NamedBytes.{IsName};

use crate::crypto::values::{bytes, is, key, text};
use std::alloc::{AllocError, Global};
use warg_crypto::signing::{
    PublicKey, Signature, SignatureError, Signer, Verifier, is_algorithm_name,
};
use warg_crypto::{ByteVisitor, VisitBytes};

struct EchoVerifier;

impl Verifier for EchoVerifier {
    ghost belongs = { λ _ key message signature. bytes_eq signature.bytes message };

    fn verify(
        &self,
        _alloc: Global,
        _key: &PublicKey,
        message: &[u8],
        signature: &Signature,
    ) -> Result<(), SignatureError> {
        if signature.bytes() == message {
            Ok(())
        } else {
            Err(SignatureError::Refused)
        }
    }
}

#[derive(Drop)]
struct EchoSigner {
    key: PublicKey,
}

impl Signer for EchoSigner {
    ghost key_of = { λ signer. signer.key };

    ghost gives = { λ _ message signature. signature.bytes ≡ message };

    ghost refuses = { λ _ _. ⊥ };

    fn public_key(&self) -> &PublicKey {
        &self.key
    }

    fn sign(&self, alloc: Global, message: &[u8]) -> Result<Signature, SignatureError> {
        let name = String::from_str(alloc, "echo")?;
        Ok(Signature::new(name, Vec::from_slice(alloc, message)?))
    }
}

#[derive(Drop)]
struct Counter {
    count: usize,
}

impl ByteVisitor for Counter {
    ghost has_seen = { λ counter m. counter.count ≡ length m };

    fn visit_bytes(&mut self, bytes: &[u8]) -> Result<(), AllocError> {
        match self.count.checked_add(bytes.len()) {
            Some(count) => {
                self.count = count;
                Ok(())
            }
            None => Err(AllocError),
        }
    }
}

fn check<V: Verifier>(
    alloc: Global,
    verifier: &V,
    key: &PublicKey,
    message: &[u8],
    signature: &Signature,
) -> Result<(), SignatureError>
    ensures { IfOk result (λ _. V.belongs verifier.now key.now message.now signature.now ≡ true) }
{
    verifier.verify(alloc, key, message, signature)
}

fn sign_by<S: Signer>(
    alloc: Global,
    signer: &S,
    message: &[u8],
) -> Result<Signature, SignatureError>
    ensures { IfOk result (λ signature. S.gives signer.now message.now signature) }
{
    signer.sign(alloc, message)
}

fn visit_by<V: ByteVisitor, T: VisitBytes>(visitor: &mut V, value: &T) -> Result<(), AllocError>
    ensures { (m : List ℕ) → V.has_seen visitor.old m →
        OnOk result (V.has_seen visitor.new (m ++ T.bytes_of value.now)) }
{
    value.visit(visitor)
}

// The key of that name, where it may name one.
fn named_key(name: String, bytes: Vec<u8>) -> Option<PublicKey>
    ensures { IsSome result ↔ IsName (string_bytes name) }
{
    if is_algorithm_name(name.as_str()) {
        Some(PublicKey::new(name, bytes))
    } else {
        None
    }
}

#[test]
fn echoes(rt: HostRuntime) {
    let alloc = rt.alloc();
    let signer = EchoSigner {
        key: key(&rt, alloc, "echo:"),
    };
    let signature = sign_by(alloc, &signer, b"abc").expect(&rt, "memory");
    let key = signer.public_key();
    is(
        &rt,
        check(alloc, &EchoVerifier, key, b"abc", &signature),
        Ok(()),
    );
    let refused = Err(SignatureError::Refused);
    is(
        &rt,
        check(alloc, &EchoVerifier, key, b"ab", &signature),
        refused,
    );
}

#[test]
fn counted(rt: HostRuntime) {
    let mut counter = Counter { count: 2 };
    is(&rt, visit_by(&mut counter, &b"abc".as_slice()), Ok(()));
    is(&rt, counter.count, 5);
    let mut full = Counter { count: usize::MAX };
    is(&rt, visit_by(&mut full, &b"a".as_slice()), Err(AllocError));
}

#[test]
fn names(rt: HostRuntime) {
    let alloc = rt.alloc();
    for (name, named) in [
        ("toy", true),
        ("", false),
        (":", false),
        ("a:b", false),
        (" ", true),
    ] {
        let key = named_key(text(&rt, alloc, name), bytes(&rt, alloc, &[]));
        is(&rt, key.is_some(), named);
        is(&rt, is_algorithm_name(name), named);
    }
}
