//! Verifiers and signers that refuse, or that find no memory.
ghost use Rattle.std.specs.Prelude.{false, ⊤};
ghost use Rattle.warg_protocol.specs.Records.{toy_belongs};

use crate::samples::{envelope, told};
use conformance_logs::scripts::{ScriptLog, cause_words, signer};
use std::alloc::Global;
use std::cell::Cell;
use std::process::Abort;
use std::test::Fail;
use warg_protocol::hash::HashAlgorithm;
use warg_protocol::registry::{Checkpoint, TimestampedCheckpoint};
use warg_protocol::signing::{PublicKey, Signature, SignatureError, Signer, Verifier};
use warg_protocol::toy::{ToySigner, ToyVerifier};
use warg_protocol::{
    AuditedLog, ProtoEnvelope, RunCause, RunError, SerdeEnvelope, Signable, Timestamp, operator,
    package, run,
};

// Takes no signature.
#[derive(Drop)]
struct Never;

impl Verifier for Never {
    ghost belongs = { λ _ _ _ _. false };

    fn verify(
        &self,
        _alloc: Global,
        _key: &PublicKey,
        _message: &[u8],
        _signature: &Signature,
    ) -> Result<(), SignatureError> {
        Err(SignatureError::Refused)
    }
}

// Finds no memory once, and then judges as the toy scheme does.
#[derive(Drop)]
struct Poor {
    has_memory: Cell<bool>,
}

impl Verifier for Poor {
    ghost belongs = { λ _ key message signature. toy_belongs key message signature };

    fn verify(
        &self,
        alloc: Global,
        key: &PublicKey,
        message: &[u8],
        signature: &Signature,
    ) -> Result<(), SignatureError> {
        if !self.has_memory.get() {
            self.has_memory.set(true);
            return Err(SignatureError::OutOfMemory);
        }
        ToyVerifier.verify(alloc, key, message, signature)
    }
}

fn without_memory() -> Poor {
    Poor {
        has_memory: Cell::new(false),
    }
}

// The envelope that begins a log.
fn first<L: ScriptLog>(alloc: Global) -> Result<Vec<u8>, Fail> {
    Ok(envelope::<L>(alloc, "alice 1.0: init alice")?.to_protobuf(alloc)?)
}

// The first record is refused under this verifier, for this cause.
fn refuses<L: ScriptLog, V: Verifier>(
    rt: &impl Abort,
    alloc: Global,
    verifier: &V,
    words: &str,
) -> Result<(), Fail> {
    let inputs = vec![in alloc; first::<L>(alloc)?]?;
    match run::<L, V>(alloc, verifier, inputs.as_slice()) {
        Ok(_) => Err(Fail::new("the record is taken")),
        Err(error) => is_first::<L>(rt, alloc, &error, words),
    }
}

// The first record is refused, for this cause.
fn is_first<L: ScriptLog>(
    rt: &impl Abort,
    alloc: Global,
    error: &RunError<L::Error>,
    words: &str,
) -> Result<(), Fail> {
    assert!(rt; error.index == 0);
    is_cause::<L>(rt, alloc, &error.cause, words)
}

fn is_cause<L: ScriptLog>(
    rt: &impl Abort,
    alloc: Global,
    cause: &RunCause<L::Error>,
    words: &str,
) -> Result<(), Fail> {
    assert_eq!(rt; told(cause_words::<L>(alloc, cause))?.as_str(), words);
    Ok(())
}

// The log has no record, and is as it began.
fn is_empty<L: ScriptLog, V: Verifier + Drop>(
    rt: &impl Abort,
    alloc: Global,
    log: &AuditedLog<L, V>,
) {
    let state = L::new(alloc).expect(rt, "memory");
    assert!(rt; log.records().is_empty() && *log.state() == state);
}

// The log, which is empty, refuses the input, and stays as it is.
fn refuses_input<L: ScriptLog>(
    rt: &impl Abort,
    alloc: Global,
    log: &mut AuditedLog<L, Never>,
    input: &[u8],
) -> Result<(), Fail> {
    match log.append(input) {
        Ok(()) => Err(Fail::new("the record is taken")),
        Err(cause) => {
            is_empty(rt, alloc, log);
            is_cause::<L>(rt, alloc, &cause, "SignatureError")
        }
    }
}

// A log whose verifier takes no signature refuses its first record.
fn takes_nothing<L: ScriptLog>(rt: &impl Abort, alloc: Global) -> Result<(), Fail> {
    let input = first::<L>(alloc)?;
    let mut log = AuditedLog::<L, Never>::new(alloc, Never)?;
    refuses_input(rt, alloc, &mut log, input.as_slice())
}

#[test]
fn a_verifier_may_refuse(rt: HostRuntime) -> Result<(), Fail> {
    refuses::<package::LogState, Never>(&rt, rt.alloc(), &Never, "SignatureError")?;
    refuses::<operator::LogState, Never>(&rt, rt.alloc(), &Never, "SignatureError")?;
    takes_nothing::<package::LogState>(&rt, rt.alloc())?;
    takes_nothing::<operator::LogState>(&rt, rt.alloc())?;
    refuses::<package::LogState, Poor>(&rt, rt.alloc(), &without_memory(), "OutOfMemory")?;
    refuses::<operator::LogState, Poor>(&rt, rt.alloc(), &without_memory(), "OutOfMemory")
}

// Whether the cause stands for out of memory, and for nothing else.
fn is_out_of_memory<L: ScriptLog>(cause: &RunCause<L::Error>) -> bool {
    match cause {
        RunCause::Parse(_) => false,
        RunCause::Validation(error) => L::is_out_of_memory(error),
    }
}

// The log, which is empty, finds no memory for the input, and stays as it is.
fn lacks_memory<L: ScriptLog>(
    rt: &impl Abort,
    alloc: Global,
    log: &mut AuditedLog<L, Poor>,
    input: &[u8],
) {
    let refused = log.append(input);
    assert!(rt; refused.is_err_and(|cause| is_out_of_memory::<L>(&cause)));
    is_empty(rt, alloc, log);
}

// The log, which is empty, takes the input.
fn takes<L: ScriptLog>(rt: &impl Abort, log: &mut AuditedLog<L, Poor>, input: &[u8]) {
    let answer = log.append(input);
    assert!(rt; answer.is_ok());
    assert!(rt; log.records().len() == 1);
}

// A log whose verifier finds no memory once takes the same bytes then.
fn takes_later<L: ScriptLog>(rt: &impl Abort, alloc: Global) -> Result<(), Fail> {
    let input = first::<L>(alloc)?;
    let mut log = AuditedLog::<L, Poor>::new(alloc, without_memory())?;
    lacks_memory(rt, alloc, &mut log, input.as_slice());
    takes(rt, &mut log, input.as_slice());
    Ok(())
}

#[test]
fn a_log_goes_on_after_refused_memory(rt: HostRuntime) -> Result<(), Fail> {
    takes_later::<package::LogState>(&rt, rt.alloc())?;
    takes_later::<operator::LogState>(&rt, rt.alloc())
}

// Signs nothing.
#[derive(Drop)]
struct Unwilling {
    signer: ToySigner,
    error: SignatureError,
}

impl Signer for Unwilling {
    ghost key_of = { λ s. s.signer };

    ghost gives = { λ _ _ _. ⊤ };

    ghost refuses = { λ _ _. ⊤ };

    fn public_key(&self) -> &PublicKey {
        self.signer.public_key()
    }

    fn sign(&self, _alloc: Global, _message: &[u8]) -> Result<Signature, SignatureError> {
        Err(self.error)
    }
}

// Alice, where she answers this error.
fn unwilling_alice(alloc: Global, error: SignatureError) -> Result<Unwilling, Fail> {
    Ok(Unwilling {
        signer: signer(alloc, "alice")?,
        error,
    })
}

// Whether nothing comes of the contents where their signer answers this error.
fn is_unsigned<C: Signable + Drop>(
    alloc: Global,
    contents: C,
    error: SignatureError,
) -> Result<bool, Fail> {
    let signed = ProtoEnvelope::signed_contents(alloc, &unwilling_alice(alloc, error)?, contents);
    Ok(signed.is_err_and(|found| found == error))
}

fn checkpoint() -> TimestampedCheckpoint {
    TimestampedCheckpoint {
        checkpoint: Checkpoint {
            log_root: HashAlgorithm::Sha256.digest(b""),
            log_length: 0,
            map_root: HashAlgorithm::Sha256.digest(b""),
        },
        timestamp: 1,
    }
}

// Whether no signature comes of a checkpoint.
fn is_checkpoint_unsigned(alloc: Global, error: SignatureError) -> Result<bool, Fail> {
    let signature = checkpoint().sign(alloc, &unwilling_alice(alloc, error)?);
    Ok(signature.is_err_and(|found| found == error))
}

// Whether no envelope does.
fn is_checkpoint_without_envelope(alloc: Global, error: SignatureError) -> Result<bool, Fail> {
    let unwilling = unwilling_alice(alloc, error)?;
    let signed = SerdeEnvelope::signed_contents(alloc, &unwilling, checkpoint());
    Ok(signed.is_err_and(|found| found == error))
}

fn package_record(alloc: Global) -> package::PackageRecord {
    package::PackageRecord {
        prev: None,
        version: 0,
        timestamp: Timestamp::new(1, 0),
        entries: Vec::new(alloc),
    }
}

fn operator_record(alloc: Global) -> operator::OperatorRecord {
    operator::OperatorRecord {
        prev: None,
        version: 0,
        timestamp: Timestamp::new(1, 0),
        entries: Vec::new(alloc),
    }
}

#[test]
fn a_signer_may_refuse(rt: HostRuntime) -> Result<(), Fail> {
    let alloc = rt.alloc();
    for error in [SignatureError::Refused, SignatureError::OutOfMemory] {
        assert!(rt; is_unsigned(alloc, package_record(alloc), error)?);
        assert!(rt; is_unsigned(alloc, operator_record(alloc), error)?);
        assert!(rt; is_checkpoint_unsigned(alloc, error)?);
        assert!(rt; is_checkpoint_without_envelope(alloc, error)?);
    }
    Ok(())
}
