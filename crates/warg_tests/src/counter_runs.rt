//! Inputs of the least kind of log, read as a whole.
use counting_log::counter::{CountError, Counter};
use std::alloc::{AllocError, Global};
use std::test::Fail;
use warg_crypto::DecodeError;
use warg_crypto::toy::ToyVerifier;
use warg_envelope::{ParseEnvelopeError, ProtoEnvelope};
use warg_replay::{RunCause, RunError, Validator, run, run_from};

/// An input whose record says the number; at 255 one whose content is no record.
fn line(alloc: Global, number: u8) -> Result<Vec<u8>, AllocError> {
    if number == 255 {
        return [0x0a, 0, 0x1a, 4, b't', b'o', b'y', b':'].to_vec(alloc);
    }
    [0x0a, 1, number, 0x1a, 4, b't', b'o', b'y', b':'].to_vec(alloc)
}

fn lines(alloc: Global, numbers: &[u8]) -> Result<Vec<Vec<u8>>, AllocError> {
    let mut lines = Vec::new(alloc);
    for number in numbers {
        lines.push(line(alloc, *number)?)?;
    }
    Ok(lines)
}

fn misplaced(index: usize, number: u8) -> Result<u64, RunError<CountError>> {
    Err(RunError {
        index,
        cause: RunCause::Validation(CountError::Misplaced(number)),
    })
}

fn no_record(index: usize) -> Result<u64, RunError<CountError>> {
    Err(RunError {
        index,
        cause: RunCause::Parse(ParseEnvelopeError::Contents(DecodeError::MissingTime)),
    })
}

#[test]
fn the_first_offence_is_told(rt: HostRuntime) -> Result<(), Fail> {
    let alloc = rt.alloc();
    for (numbers, want) in [
        ([0, 1, 2], Ok(3)),
        ([1, 1, 2], misplaced(0, 1)),
        ([0, 0, 2], misplaced(1, 0)),
        ([0, 1, 1], misplaced(2, 1)),
        ([255, 1, 2], no_record(0)),
        ([0, 255, 0], no_record(1)),
        ([0, 1, 255], no_record(2)),
        ([7, 255, 2], misplaced(0, 7)),
        ([255, 7, 2], no_record(0)),
        ([0, 7, 255], misplaced(1, 7)),
    ] {
        let inputs = lines(alloc, &numbers)?;
        let found = run::<Counter, ToyVerifier>(alloc, &ToyVerifier, inputs.as_slice());
        assert_eq!(rt; found.map(|state| state.count()), want);
    }
    Ok(())
}

#[test]
fn no_inputs_are_an_empty_log(rt: HostRuntime) -> Result<(), Fail> {
    let state = match run::<Counter, ToyVerifier>(rt.alloc(), &ToyVerifier, &[]) {
        Ok(state) => state,
        Err(_) => return Err(Fail::from("refused")),
    };
    assert_eq!(rt; state.count(), 0);
    assert!(rt; state.head_digest().is_none());
    Ok(())
}

#[test]
fn a_log_goes_on(rt: HostRuntime) -> Result<(), Fail> {
    let alloc = rt.alloc();
    for (numbers, want) in [
        ([2, 3], Ok(4)),
        ([2, 2], misplaced(1, 2)),
        ([0, 3], misplaced(0, 0)),
        ([2, 255], no_record(1)),
    ] {
        let first = lines(alloc, &[0, 1])?;
        let Ok(state) = run::<Counter, ToyVerifier>(alloc, &ToyVerifier, first.as_slice()) else {
            return Err(Fail::from("refused"));
        };
        let rest = lines(alloc, &numbers)?;
        let found = run_from(alloc, state, &ToyVerifier, rest.as_slice());
        assert_eq!(rt; found.map(|state| state.count()), want);
    }
    Ok(())
}

// The default body of `append`.
#[test]
fn a_record_is_taken_in_place(rt: HostRuntime) -> Result<(), Fail> {
    let alloc = rt.alloc();
    let mut state = Counter::new(alloc)?;
    for (number, want) in [
        (0, Ok(())),
        (0, Err(RunCause::Validation(CountError::Misplaced(0)))),
    ] {
        let envelope = ProtoEnvelope::from_protobuf(alloc, line(alloc, number)?.as_slice())?;
        assert!(rt; state.append(&envelope, &ToyVerifier) == want);
        assert_eq!(rt; state.count(), 1);
    }
    Ok(())
}
