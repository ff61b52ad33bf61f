//! A record's time.

ghost use Rattle.std.specs.Prelude.{◌≡◌};
ghost use Rattle.warg_protobuf.specs.MessageDrafts.{TimestampKept, timestamp_kept, no_time, timestamp_with, time_made};
ghost use Rattle.warg_protobuf.specs.Timestamp.{timestamp_table, TimestampValue, timestamp_view, timestamp_from, IsTimestampOf, timestamp_fields, IsSoundTimestamp};

use crate::error::WireError;
use crate::field::{RawField, RawPayload};
use crate::message::Codec;
use crate::message_draft::{MessageDraft, read_draft};
use crate::signed::low_signed;
use crate::writing::{as_number, push_number};
use std::alloc::{AllocError, Global};

/// A time: seconds since the epoch, and nanoseconds that are not yet carried into them.
#[derive(Debug, Drop, PartialEq, Eq)]
pub struct TimestampPair {
    /// Field 1: whole seconds since the epoch.
    pub seconds: i64,
    /// Field 2: nanoseconds, of any size and sign.
    pub nanos: i32,
}

/// The last numbers of a time that is being read, in however many pieces.
#[derive(Clone, Copy)]
pub(crate) struct TimestampDraft {
    seconds: u64,
    nanos: u64,
}

impl TimestampDraft {
    pub(crate) fn finish(&self) -> TimestampPair
        ensures { timestamp_view result ≡ time_made (timestamp_kept self.now) }
    {
        TimestampPair {
            seconds: self.seconds.cast_signed(),
            nanos: low_signed(self.nanos),
        }
    }
}

impl<'a> MessageDraft<'a> for TimestampDraft {
    ghost table = { timestamp_table };

    ghost KeptData = { TimestampKept };

    ghost kept_data = { timestamp_kept };

    ghost empty = { no_time };

    ghost with_field = { timestamp_with };

    ghost TakesMemory = { ⊥ };

    fn new(_alloc: Global) -> Self {
        TimestampDraft {
            seconds: 0,
            nanos: 0,
        }
    }

    fn takes(number: u32, wire_type: u32) -> bool {
        match number {
            1 | 2 => wire_type == 0,
            _ => true,
        }
    }

    #[tactic(auto, unfolding(crate::specs::Reading::payload_fault))]
    fn grow(&mut self, field: RawField<'a>) -> Result<(), WireError> {
        if let RawPayload::Number(value) = field.payload {
            match field.number {
                1 => self.seconds = value,
                2 => self.nanos = value,
                _ => {}
            }
        }
        Ok(())
    }
}

impl Codec for TimestampPair {
    ghost table = { timestamp_table };

    ghost View = { TimestampValue };

    ghost view = { timestamp_view };

    ghost Says = { IsTimestampOf };

    ghost value = { timestamp_from };

    ghost TakesMemory = { λ _. ⊥ };

    fn read(alloc: Global, bytes: &[u8]) -> Result<TimestampPair, WireError> {
        let draft = read_draft::<TimestampDraft>(alloc, bytes)?;
        Ok(draft.finish())
    }

    ghost written_fields = { timestamp_fields };

    ghost is_sound = { IsSoundTimestamp };

    fn write(&self, _alloc: Global, out: &mut Vec<u8>) -> Result<(), AllocError> {
        push_number(out, 1, as_number(self.seconds))?;
        push_number(out, 2, as_number(i64::from(self.nanos)))?;
        Ok(())
    }

    fn laws() {}
}
