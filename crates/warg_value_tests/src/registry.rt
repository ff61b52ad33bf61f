//! What a registry names things by, where no row says it: copies, a clock, and visitors that refuse.

ghost use Rattle.std.specs.Prelude.{◌≡◌};

use crate::samples::empty_hash;
use std::alloc::{AllocError, Global};
use std::process::Abort;
use warg_crypto::time::{Clock, TimeError, Timestamp};
use warg_crypto::{ByteVisitor, VisitBytes};
use warg_log_records::RecordId;
use warg_registry::{Checkpoint, LogId, LogLeaf, MapLeaf, PackageName, TimestampedCheckpoint};

fn checkpoint() -> Checkpoint {
    Checkpoint {
        log_root: empty_hash(),
        log_length: 300,
        map_root: empty_hash(),
    }
}

#[test]
fn copies(rt: HostRuntime) {
    let name = PackageName::new(rt.alloc(), "foo:bar").expect(&rt, "a name");
    let copy = name.try_clone().expect(&rt, "memory");
    assert!(&rt; copy == name);
    let again = name.clone().expect(&rt, "memory");
    assert!(&rt; again == name);
}

// Stands at one time.
#[derive(Drop)]
struct Stopped {
    time: Timestamp,
}

impl Clock for Stopped {
    ghost use Rattle.std.specs.Prelude.{◌≡◌};

    ghost tells = { λ before time after. time ≡ before.time };

    fn now(&mut self) -> Timestamp {
        self.time
    }
}

// The time of a checkpoint under a clock that stands at this one.
fn is_timed(rt: &impl Abort, time: Timestamp, want: Result<u64, TimeError>) {
    let mut clock = Stopped { time };
    let now = TimestampedCheckpoint::now(checkpoint(), &mut clock);
    let want = want.map(|timestamp: u64| -> TimestampedCheckpoint {
        TimestampedCheckpoint {
            checkpoint: checkpoint(),
            timestamp,
        }
    });
    assert_eq!(rt; now, want);
}

#[test]
fn times(rt: HostRuntime) {
    for (seconds, nanos, want) in [
        (-1, 999_999_999, Err(TimeError::TimeBeforeEpoch)),
        (0, 0, Ok(0)),
        (1, 999_999_999, Ok(1)),
        (5, 0, Ok(5)),
    ] {
        is_timed(&rt, Timestamp::new(seconds, nanos), want);
    }
}

// Takes so many pieces, and refuses the next one.
#[derive(Drop)]
struct Stopping {
    pieces: usize,
    bytes: Vec<u8>,
}

impl ByteVisitor for Stopping {
    ghost has_seen = { λ v m. v.bytes.items ≡ m };

    fn visit_bytes(&mut self, bytes: &[u8]) -> Result<(), AllocError> {
        if self.pieces == 0 {
            return Err(AllocError);
        }
        self.pieces -= 1;
        self.bytes.extend_from_slice(bytes)
    }
}

// Whether a visitor of so many pieces is left with a beginning of the bytes, or sees them all.
fn is_begun<T: VisitBytes>(alloc: Global, value: &T, whole: &[u8], pieces: usize) -> bool {
    let bytes = Vec::new(alloc);
    let mut stopping = Stopping { pieces, bytes };
    let is_whole = value.visit(&mut stopping).is_ok();
    let seen = stopping.bytes.as_slice();
    whole.starts_with(seen) && is_whole == (seen.len() == whole.len())
}

// A visitor that refuses a piece has seen a beginning of the value's bytes.
fn may_be_stopped<T: VisitBytes>(rt: &impl Abort, alloc: Global, value: &T) {
    let mut whole = Vec::new(alloc);
    value.visit(&mut whole).expect(rt, "memory");
    for pieces in 0..20 {
        assert!(rt;
            is_begun(alloc, value, whole.as_slice(), pieces),
            "{pieces}"
        );
    }
}

#[test]
fn refused_pieces(rt: HostRuntime) {
    let (log_id, record_id) = (LogId::from(empty_hash()), RecordId::from(empty_hash()));
    may_be_stopped(&rt, rt.alloc(), &log_id);
    may_be_stopped(&rt, rt.alloc(), &MapLeaf { record_id });
    may_be_stopped(&rt, rt.alloc(), &LogLeaf { log_id, record_id });
}

#[test]
fn refused_pieces_of_checkpoints(rt: HostRuntime) {
    may_be_stopped(&rt, rt.alloc(), &checkpoint());
    let timestamped = TimestampedCheckpoint {
        checkpoint: checkpoint(),
        timestamp: 1,
    };
    may_be_stopped(&rt, rt.alloc(), &timestamped);
}

#[test]
fn refused_pieces_of_names(rt: HostRuntime) {
    let name = PackageName::new(rt.alloc(), "foo:bar").expect(&rt, "a name");
    may_be_stopped(&rt, rt.alloc(), &name);
}
