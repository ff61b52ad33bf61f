//! Checkpoints: the roots of a registry's log and map, and their time.
ghost use Rattle.std.specs.Prelude.{◌≡◌, ◌++◌, ℕ, List, OnOk, OnErr, IfOk, Result, ⊤};

use crate::RegistryLen;
use crate::visits::visit_hash;
use std::alloc::{AllocError, Global};
use warg_crypto::hash::AnyHash;
use warg_crypto::prefix::{PrefixEncodeVisitor, VisitPrefixEncode};
use warg_crypto::time::{Clock, TimeError, Timestamp};
use warg_crypto::{ByteVisitor, Encode, Signable, VisitBytes};

/// What a registry's log and map stand at: the root of the log, its length in leaves, the root of
/// the map.
#[derive(Copy, Debug, PartialEq, Eq, Hash)]
pub struct Checkpoint {
    /// The root of the log's tree.
    pub log_root: AnyHash,
    /// The log's length, in leaves.
    pub log_length: RegistryLen,
    /// The root of the map's tree.
    pub map_root: AnyHash,
}

impl Clone for Checkpoint {
    ghost is_clone = { λ a b. b ≡ a };

    ghost is_infallible = { λ _. ⊤ };

    fn clone(&self) -> Result<Checkpoint, AllocError> {
        Ok(*self)
    }
}

/// A checkpoint at a time.
#[derive(Copy, Debug, PartialEq, Eq, Hash)]
pub struct TimestampedCheckpoint {
    /// The checkpoint.
    pub checkpoint: Checkpoint,
    /// Whole seconds since 1970-01-01 00:00 UTC.
    pub timestamp: u64,
}

impl Clone for TimestampedCheckpoint {
    ghost is_clone = { λ a b. b ≡ a };

    ghost is_infallible = { λ _. ⊤ };

    fn clone(&self) -> Result<TimestampedCheckpoint, AllocError> {
        Ok(*self)
    }
}

impl VisitPrefixEncode for Checkpoint {
    ghost use Rattle.warg_registry.specs.PrefixEncodings.{checkpoint_encoding_of};

    ghost prefix_encoding_of = { checkpoint_encoding_of };

    fn visit_pe<BV: ByteVisitor>(
        &self,
        visitor: &mut PrefixEncodeVisitor<'_, BV>,
    ) -> Result<(), AllocError> {
        visitor.visit_str_raw("WARG-CHECKPOINT-V0")?;
        visitor.visit_unsigned(self.log_length as u64)?;
        visit_hash(visitor, &self.log_root)?;
        visit_hash(visitor, &self.map_root)
    }
}

impl VisitBytes for Checkpoint {
    ghost use Rattle.warg_registry.specs.PrefixEncodings.{checkpoint_encoding_of};

    ghost bytes_of = { checkpoint_encoding_of };

    fn visit<BV: ByteVisitor>(&self, visitor: &mut BV) -> Result<(), AllocError> {
        self.visit_bv(visitor)
    }
}

impl TimestampedCheckpoint {
    ghost use Rattle.warg_crypto.specs.Time.Times.{Time};
    ghost use Rattle.warg_registry.specs.Checkpoints.{timestamped_checkpoint_of};

    /// The checkpoint at the time, in whole seconds: what is left of a second is dropped.
    /// `TimeBeforeEpoch` where the time lies before the epoch.
    pub fn new(checkpoint: Checkpoint, time: Timestamp) -> Result<TimestampedCheckpoint, TimeError>
        ensures { result ≡ timestamped_checkpoint_of checkpoint time }
    {
        match u64::try_from(time.seconds()) {
            Ok(timestamp) => Ok(TimestampedCheckpoint {
                checkpoint,
                timestamp,
            }),
            Err(_) => Err(TimeError::TimeBeforeEpoch),
        }
    }

    /// The checkpoint at the time that the clock tells now.
    pub fn now<C: Clock>(
        checkpoint: Checkpoint,
        clock: &mut C,
    ) -> Result<TimestampedCheckpoint, TimeError>
        ensures { (time : Time) × C.tells clock.old time clock.new ×
            (result ≡ timestamped_checkpoint_of checkpoint time) }
    {
        TimestampedCheckpoint::new(checkpoint, clock.now())
    }
}

impl VisitPrefixEncode for TimestampedCheckpoint {
    ghost use Rattle.warg_registry.specs.PrefixEncodings.{timestamped_checkpoint_encoding_of};

    ghost prefix_encoding_of = { timestamped_checkpoint_encoding_of };

    fn visit_pe<BV: ByteVisitor>(
        &self,
        visitor: &mut PrefixEncodeVisitor<'_, BV>,
    ) -> Result<(), AllocError> {
        visitor.visit_str_raw("WARG-TIMESTAMPED-CHECKPOINT-V0")?;
        visitor.visit_unsigned(self.checkpoint.log_length as u64)?;
        visit_hash(visitor, &self.checkpoint.log_root)?;
        visit_hash(visitor, &self.checkpoint.map_root)?;
        visitor.visit_unsigned(self.timestamp)
    }
}

impl VisitBytes for TimestampedCheckpoint {
    ghost use Rattle.warg_registry.specs.PrefixEncodings.{timestamped_checkpoint_encoding_of};

    ghost bytes_of = { timestamped_checkpoint_encoding_of };

    fn visit<BV: ByteVisitor>(&self, visitor: &mut BV) -> Result<(), AllocError> {
        self.visit_bv(visitor)
    }
}

impl Encode for TimestampedCheckpoint {
    ghost use Rattle.warg_registry.specs.PrefixEncodings.{timestamped_checkpoint_encoding_of};

    ghost encoding = { timestamped_checkpoint_encoding_of };

    fn encode(&self, alloc: Global) -> Result<Vec<u8>, AllocError> {
        let mut bytes = Vec::new(alloc);
        self.visit_bv(&mut bytes)?;
        Ok(bytes)
    }
}

impl Signable for TimestampedCheckpoint {
    ghost use Rattle.std.specs.Prelude.{codes};

    const PREFIX: &'static str = "WARG-CHECKPOINT-SIGNATURE-V0";

    ghost signed_prefix = { codes "WARG-CHECKPOINT-SIGNATURE-V0" };

    fn signing_prefix() -> &'static str {
        Self::PREFIX
    }
}
