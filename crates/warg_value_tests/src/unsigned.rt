//! Envelopes of parts that nobody signed.

use crate::samples::{alice, empty_hash};
use std::alloc::Global;
use std::test::Fail;
use warg_crypto::json::{JsonError, JsonValue};
use warg_crypto::signing::{KeyID, Signature};
use warg_crypto::time::Timestamp;
use warg_envelope::SerdeEnvelope;
use warg_registry::{Checkpoint, TimestampedCheckpoint};

fn timestamped() -> TimestampedCheckpoint {
    TimestampedCheckpoint {
        checkpoint: Checkpoint {
            log_root: empty_hash(),
            log_length: 0,
            map_root: empty_hash(),
        },
        timestamp: 1,
    }
}

// The contents by a key of this id, with an empty signature.
fn unsigned<C: Drop>(alloc: Global, contents: C, key_id: &str) -> Result<SerdeEnvelope<C>, Fail> {
    let signature = Signature::parse(alloc, "toy:")?;
    let key_id = KeyID::from(String::from_str(alloc, key_id)?);
    Ok(SerdeEnvelope::from_parts_unchecked(contents, key_id, signature))
}

fn signed(alloc: Global) -> Result<SerdeEnvelope<TimestampedCheckpoint>, Fail> {
    Ok(SerdeEnvelope::signed_contents(alloc, &alice(alloc)?, timestamped())?)
}

// An envelope is neither one that is signed nor one by another key.
#[test]
fn unsigned_checkpoints(rt: HostRuntime) -> Result<(), Fail> {
    let signed = signed(rt.alloc())?;
    let envelope = unsigned(rt.alloc(), timestamped(), signed.key_id().as_str())?;
    assert!(rt; envelope != signed);
    assert!(rt; envelope != unsigned(rt.alloc(), timestamped(), "k")?);
    Ok(())
}

#[test]
fn copies(rt: HostRuntime) -> Result<(), Fail> {
    let envelope = unsigned(rt.alloc(), timestamped(), "k")?;
    assert!(rt; envelope.try_clone()? == envelope);
    Ok(())
}

// No JSON says a time before the epoch.
#[test]
fn times_before_the_epoch(rt: HostRuntime) -> Result<(), Fail> {
    let envelope = unsigned(rt.alloc(), Timestamp::new(-1, 999_999_999), "k")?;
    let fault = envelope.to_value(rt.alloc()).err();
    assert_eq!(rt; fault, Some(JsonError::TimeBeforeEpoch));
    Ok(())
}
