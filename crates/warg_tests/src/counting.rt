//! How often signers and verifiers are asked: once for each signature. What they answer is right, so that they were asked of
//! the right message.
ghost use Rattle.std.specs.Prelude.{⊤};
ghost use Rattle.warg_protocol.specs.Records.{toy_belongs};

use crate::samples::{envelope, inputs};
use conformance_logs::scripts::{ScriptLog, signer};
use std::alloc::Global;
use std::cell::Cell;
use std::fmt::Debug;
use std::process::Abort;
use std::test::Fail;
use warg_protocol::signing::{PublicKey, Signature, SignatureError, Signer, Verifier};
use warg_protocol::toy::{ToySigner, ToyVerifier};
use warg_protocol::{
    AuditedLog, Encode, ProtoEnvelope, SerdeEnvelope, Signable, Timestamp, operator, package, run,
};

fn count(calls: &Cell<u32>) {
    calls.set(calls.get().wrapping_add(1));
}

// Judges as the toy scheme does.
#[derive(Drop)]
struct CountingVerifier<'a> {
    calls: &'a Cell<u32>,
}

impl Verifier for CountingVerifier<'_> {
    ghost belongs = { λ _ key message signature. toy_belongs key message signature };

    fn verify(
        &self,
        alloc: Global,
        key: &PublicKey,
        message: &[u8],
        signature: &Signature,
    ) -> Result<(), SignatureError> {
        count(self.calls);
        ToyVerifier.verify(alloc, key, message, signature)
    }
}

// Three records of either kind.
const LOG: &str = "
    alice 1.0: init alice
    alice 2.0: grant bob
    bob 3.0:
";

// `run` asks once for each record.
fn runs<L: ScriptLog>(rt: &impl Abort, alloc: Global, inputs: &[Vec<u8>]) {
    let calls = Cell::new(0);
    let verifier = CountingVerifier { calls: &calls };
    let answer = run::<L, CountingVerifier>(alloc, &verifier, inputs);
    assert!(rt; answer.is_ok() && calls.get() == 3);
}

// So does a log that is kept.
fn keeps<L: ScriptLog>(rt: &impl Abort, alloc: Global, inputs: &[Vec<u8>])
where
    L::Error: Debug,
{
    let calls = Cell::new(0);
    let verifier = CountingVerifier { calls: &calls };
    let mut log = AuditedLog::<L, CountingVerifier>::new(alloc, verifier).expect(rt, "memory");
    let answer = log.append_all(inputs);
    assert!(rt; answer.is_ok() && calls.get() == 3);
}

// So does a state that takes a record in place.
fn takes<L: ScriptLog>(rt: &impl Abort, alloc: Global, envelope: &ProtoEnvelope<L::Record>) -> L {
    let calls = Cell::new(0);
    let verifier = CountingVerifier { calls: &calls };
    let mut state = L::new(alloc).expect(rt, "memory");
    let answer = state.append(envelope, &verifier);
    assert!(rt; answer.is_ok() && calls.get() == 1);
    state
}

// So does one that gives another, which is the same.
fn gives<L: ScriptLog>(
    rt: &impl Abort,
    alloc: Global,
    envelope: &ProtoEnvelope<L::Record>,
    same: &L,
) {
    let calls = Cell::new(0);
    let verifier = CountingVerifier { calls: &calls };
    let state = L::new(alloc).expect(rt, "memory");
    let answer = state.validate(envelope, &verifier);
    assert!(rt; answer.is_ok_and(|given| given == *same));
    assert!(rt; calls.get() == 1);
}

fn asks_once<L: ScriptLog>(rt: &impl Abort, alloc: Global) -> Result<(), Fail>
where
    L::Error: Debug,
{
    let inputs = inputs::<L>(alloc, LOG)?;
    runs::<L>(rt, alloc, inputs.as_slice());
    keeps::<L>(rt, alloc, inputs.as_slice());
    let envelope = envelope::<L>(alloc, "alice 1.0: init alice")?;
    let state = takes::<L>(rt, alloc, &envelope);
    gives::<L>(rt, alloc, &envelope, &state);
    Ok(())
}

#[test]
fn a_verifier_is_asked_once(rt: HostRuntime) -> Result<(), Fail> {
    asks_once::<package::LogState>(&rt, rt.alloc())?;
    asks_once::<operator::LogState>(&rt, rt.alloc())
}

// Signs by the toy scheme.
#[derive(Drop)]
struct CountingSigner {
    signer: ToySigner,
    calls: Cell<u32>,
}

impl Signer for CountingSigner {
    ghost key_of = { λ s. s.signer };

    ghost gives = { λ _ _ _. ⊤ };

    ghost refuses = { λ _ _. ⊤ };

    fn public_key(&self) -> &PublicKey {
        self.signer.public_key()
    }

    fn sign(&self, alloc: Global, message: &[u8]) -> Result<Signature, SignatureError> {
        count(&self.calls);
        self.signer.sign(alloc, message)
    }
}

fn record(alloc: Global) -> package::PackageRecord {
    package::PackageRecord {
        prev: None,
        version: 0,
        timestamp: Timestamp::new(1, 0),
        entries: Vec::new(alloc),
    }
}

// Whether the content's signature by alice's key is this one.
fn is_of<C: Signable>(alloc: Global, content: &[u8], signature: &Signature) -> Result<bool, Fail> {
    let alice = signer(alloc, "alice")?;
    Ok(C::verify(alloc, &ToyVerifier, alice.public_key(), content, signature).is_ok())
}

fn alice(alloc: Global) -> Result<CountingSigner, Fail> {
    Ok(CountingSigner {
        signer: signer(alloc, "alice")?,
        calls: Cell::new(0),
    })
}

// She was asked once, and this is her signature of the content.
fn is_asked_once(
    rt: &impl Abort,
    alloc: Global,
    alice: &CountingSigner,
    content: &[u8],
    signature: &Signature,
) -> Result<(), Fail> {
    assert_eq!(rt; alice.calls.get(), 1);
    assert!(rt; is_of::<package::PackageRecord>(alloc, content, signature)?);
    Ok(())
}

fn signed(
    alloc: Global,
    alice: &CountingSigner,
) -> Result<ProtoEnvelope<package::PackageRecord>, Fail> {
    Ok(ProtoEnvelope::signed_contents(alloc, alice, record(alloc))?)
}

fn signs(rt: &impl Abort, alloc: Global) -> Result<(), Fail> {
    let alice = alice(alloc)?;
    let envelope = signed(alloc, &alice)?;
    is_asked_once(
        rt,
        alloc,
        &alice,
        envelope.content_bytes(),
        envelope.signature(),
    )
}

fn signed_without_bytes(
    alloc: Global,
    alice: &CountingSigner,
) -> Result<SerdeEnvelope<package::PackageRecord>, Fail> {
    Ok(SerdeEnvelope::signed_contents(alloc, alice, record(alloc))?)
}

fn signs_without_bytes(rt: &impl Abort, alloc: Global) -> Result<(), Fail> {
    let alice = alice(alloc)?;
    let content = record(alloc).encode(alloc)?;
    let envelope = signed_without_bytes(alloc, &alice)?;
    is_asked_once(rt, alloc, &alice, content.as_slice(), envelope.signature())
}

#[test]
fn a_signer_is_asked_once(rt: HostRuntime) -> Result<(), Fail> {
    signs(&rt, rt.alloc())?;
    signs_without_bytes(&rt, rt.alloc())
}
