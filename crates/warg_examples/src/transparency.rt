//! A client of a registry with a transparency log: `transparency FILE..`, where the files hold the envelopes of an operator
//! log in order, audits the log, tests who signed the registry's checkpoint, whether the log's head stands under it, and
//! whether the next checkpoint goes on from it.

use crate::words::read_log;
use std::alloc::Global;
use warg_protocol::hash::{HashAlgorithm, Sha256};
use warg_protocol::operator::LogState;
use warg_protocol::registry::{
    Checkpoint, LogId, LogLeaf, MapLeaf, RecordId, TimestampedCheckpoint,
};
use warg_protocol::signing::{KeyID, Signature, SignatureError, Signer};
use warg_protocol::toy::{ToySigner, ToyVerifier};
use warg_protocol::transparency::{
    LogProof, LogTree, MapProof, MapTree, OfTrees, verify_consistency, verify_head,
};
use warg_protocol::{AuditedLog, Encode, Signable, Timestamp};

type OperatorLog = AuditedLog<LogState, ToyVerifier>;

// A checkpoint as it is published.
#[derive(Drop)]
struct Published {
    checkpoint: TimestampedCheckpoint,
    key_id: KeyID,
    signature: Signature,
}

// A registry: its log, its map, and the key of an operator.
#[derive(Drop)]
struct Registry {
    log: LogTree,
    map: MapTree,
    signer: ToySigner,
}

impl Registry {
    fn new(alloc: Global, operator: &[u8]) -> anyhow::Result<Registry> {
        Ok(Registry {
            log: LogTree::new(alloc),
            map: MapTree::new(alloc)?,
            signer: ToySigner::new(alloc, operator)?,
        })
    }

    // Takes a record in: it is the head of its log then.
    fn publish(&mut self, log_id: LogId, record_id: RecordId) -> anyhow::Result<()> {
        self.log.push(&LogLeaf { log_id, record_id })?;
        let _ = self.map.insert(&log_id, &MapLeaf { record_id })?;
        Ok(())
    }

    // The checkpoint that it stands at, signed.
    fn checkpoint(&self, alloc: Global) -> anyhow::Result<Published> {
        let checkpoint = Checkpoint::of(&self.log, &self.map);
        let checkpoint = TimestampedCheckpoint::new(checkpoint, Timestamp::new(2, 0))?;
        Ok(Published {
            checkpoint,
            key_id: self.signer.public_key().fingerprint(alloc)?,
            signature: checkpoint.sign(alloc, &self.signer)?,
        })
    }

    // The text of the proof that the log goes on from its first leaves.
    fn consistency(&self, alloc: Global, first: usize) -> anyhow::Result<String> {
        match self.log.consistency(first as u64)? {
            Some(proof) => Ok(proof.to_text(alloc)?),
            None => anyhow::bail!("the log has fewer leaves"),
        }
    }
}

// Whether a key that may sign checkpoints by the operator log has signed this one.
fn is_signed(alloc: Global, operator: &LogState, published: &Published) -> anyhow::Result<bool> {
    let Some(key) = operator.public_key(&published.key_id) else {
        return Ok(false);
    };
    if !operator.key_has_permission_to_sign_checkpoints(&published.key_id) {
        return Ok(false);
    }
    let content = published.checkpoint.encode(alloc)?;
    let signature = &published.signature;
    match TimestampedCheckpoint::verify(alloc, &ToyVerifier, key, content.as_slice(), signature) {
        Ok(()) => Ok(true),
        Err(SignatureError::Refused) => Ok(false),
        Err(SignatureError::OutOfMemory) => anyhow::bail!("out of memory"),
    }
}

// Whether the text proves that the record is the head of the log under the checkpoint.
fn has_head(
    alloc: Global,
    checkpoint: &Checkpoint,
    log_id: &LogId,
    head: &RecordId,
    text: &str,
) -> anyhow::Result<bool> {
    let proof = MapProof::parse(alloc, text)?;
    Ok(verify_head(checkpoint, log_id, head, &proof))
}

// Whether the text proves that the log of the new checkpoint begins with that of the old one.
fn goes_on(alloc: Global, old: &Checkpoint, new: &Checkpoint, text: &str) -> anyhow::Result<bool> {
    let proof = LogProof::parse(alloc, text)?;
    Ok(verify_consistency(old, new, proof.hashes()))
}

fn append_all(log: &mut OperatorLog, envelopes: &[Vec<u8>]) -> anyhow::Result<()> {
    match log.append_all(envelopes) {
        Ok(()) => Ok(()),
        Err(error) => anyhow::bail!("record {} is refused", error.index),
    }
}

// The operator log that the envelopes are.
fn audited(alloc: Global, envelopes: &[Vec<u8>]) -> anyhow::Result<OperatorLog> {
    let mut log = OperatorLog::new(alloc, ToyVerifier)?;
    append_all(&mut log, envelopes)?;
    Ok(log)
}

fn told(is_so: bool) -> &'static str {
    if is_so { "shown" } else { "refused" }
}

// The heads of two logs of a registry: of the one that is audited, and of another.
#[derive(Clone, Copy)]
struct Heads {
    log_id: LogId,
    head: RecordId,
    other_log: LogId,
    other: RecordId,
}

impl Heads {
    fn new(head: RecordId) -> Heads {
        Heads {
            log_id: LogId::operator_log::<Sha256>(),
            head,
            other_log: LogId::from(HashAlgorithm::Sha256.digest(b"another log")),
            other: RecordId::from(HashAlgorithm::Sha256.digest(b"a record of another log")),
        }
    }
}

// A checkpoint with the text of a proof: that the head stands under it, or that its log goes on from the first leaf.
#[derive(Drop)]
struct Proved {
    published: Published,
    text: String,
}

// The first checkpoint that the registry publishes, with the head's proof.
fn begun(alloc: Global, registry: &mut Registry, heads: &Heads) -> anyhow::Result<Proved> {
    registry.publish(heads.log_id, heads.head)?;
    let text = registry.map.proof(&heads.log_id)?.to_text(alloc)?;
    Ok(Proved {
        published: registry.checkpoint(alloc)?,
        text,
    })
}

// The checkpoint after one more leaf, with the proof that its log goes on from the first one.
fn gone_on(
    alloc: Global,
    registry: &mut Registry,
    log_id: LogId,
    head: RecordId,
) -> anyhow::Result<Proved> {
    registry.publish(log_id, head)?;
    let text = registry.consistency(alloc, 1)?;
    Ok(Proved {
        published: registry.checkpoint(alloc)?,
        text,
    })
}

// Another history of the same length, by a stranger.
fn forked(alloc: Global, heads: &Heads) -> anyhow::Result<Proved> {
    let mut fork = Registry::new(alloc, b"mallory")?;
    fork.publish(heads.other_log, heads.other)?;
    gone_on(alloc, &mut fork, heads.log_id, heads.head)
}

// What comes next by the registry, and by the stranger.
fn later(
    alloc: Global,
    registry: &mut Registry,
    heads: &Heads,
) -> anyhow::Result<(Proved, Proved)> {
    let second = gone_on(alloc, registry, heads.other_log, heads.other)?;
    Ok((second, forked(alloc, heads)?))
}

// Whether an operator signed the checkpoint.
fn tell_signature(
    rt: &(impl Alloc<A = Global> + Print),
    operator: &LogState,
    proved: &Proved,
) -> anyhow::Result<()> {
    let is_signed = is_signed(rt.alloc(), operator, &proved.published)?;
    println!(rt; "the signature of an operator: {}", told(is_signed))?;
    Ok(())
}

// Whether each of two records is the head of the log under the checkpoint.
fn tell_heads(
    rt: &(impl Alloc<A = Global> + Print),
    first: &Proved,
    heads: &Heads,
) -> anyhow::Result<()> {
    let checkpoint = &first.published.checkpoint.checkpoint;
    for record in [heads.head, heads.other] {
        let text = first.text.as_str();
        let is_head = has_head(rt.alloc(), checkpoint, &heads.log_id, &record, text)?;
        println!(rt; "the head {record}: {}", told(is_head))?;
    }
    Ok(())
}

// Whether the log of the new checkpoint goes on from that of the first one.
fn tell_next(
    rt: &(impl Alloc<A = Global> + Print),
    first: &Proved,
    new: &Proved,
) -> anyhow::Result<()> {
    let old = &first.published.checkpoint.checkpoint;
    let checkpoint = &new.published.checkpoint.checkpoint;
    let is_later = goes_on(rt.alloc(), old, checkpoint, new.text.as_str())?;
    println!(rt; "the next checkpoint: {}", told(is_later))?;
    Ok(())
}

// What the client tests.
fn tell_tests(
    rt: &(impl Alloc<A = Global> + Print),
    operator: &LogState,
    heads: &Heads,
    first: &Proved,
    second: &Proved,
    fork: &Proved,
) -> anyhow::Result<()> {
    for proved in [first, second, fork] {
        tell_signature(rt, operator, proved)?;
    }
    tell_heads(rt, first, heads)?;
    tell_next(rt, first, second)?;
    tell_next(rt, first, fork)
}

// What the client tests under the first checkpoint.
fn tell_under(
    rt: &(impl Alloc<A = Global> + Print),
    operator: &LogState,
    heads: &Heads,
    registry: &mut Registry,
    first: &Proved,
) -> anyhow::Result<()> {
    let (second, fork) = later(rt.alloc(), registry, heads)?;
    tell_tests(rt, operator, heads, first, &second, &fork)
}

// What the client tests of a registry, whose operators' log has this state.
fn tell(
    rt: &(impl Alloc<A = Global> + Print),
    operator: &LogState,
    heads: &Heads,
) -> anyhow::Result<()> {
    let mut registry = Registry::new(rt.alloc(), b"alice")?;
    let first = begun(rt.alloc(), &mut registry, heads)?;
    tell_under(rt, operator, heads, &mut registry, &first)
}

/// Prints what the client tests of a registry that publishes the head of the operators' log.
pub(crate) fn main(rt: &HostRuntime) -> anyhow::Result<()> {
    let log = audited(rt.alloc(), read_log(rt)?.as_slice())?;
    match log.head() {
        Some(head) => tell(rt, log.state(), &Heads::new(*head)),
        None => anyhow::bail!("the log is empty"),
    }
}
