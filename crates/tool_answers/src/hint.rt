//! The likely reason of an error that is no fault of the record's publisher, in words.

ghost use Rattle.std.specs.Prelude.{◌≡◌, Bool, not, ◌||◌, codes};
ghost use Rattle.std.specs.Str.{bytes_eq};

use crate::kind::ToolLog;
use crate::unread::unless_out_of_memory;
use std::alloc::{AllocError, Global};
use warg_protocol::p256::KnownKeys;
use warg_protocol::signing::{PublicKey, Signature, SignatureError, Verifier};
use warg_protocol::toy::ToyVerifier;
use warg_protocol::{ProtoEnvelope, RunError, operator, package, run_from};

/// What each file of text may begin with, and no log may.
const BYTE_ORDER_MARK: &[u8] = b"\xef\xbb\xbf";

/// How many bytes a record, and those before it, may have for a likely reason to be looked for.
const MOST_BYTES: usize = 65_536;

const MARKED: &str = "the file begins with a byte order mark: save it without one";

const BLANK: &str = "the line is blank: only the last line of a file may be";

const TOY: &str = "the key's scheme is \"toy\", which is taken with --toy alone";

const UNKNOWN: &str =
    "the key's scheme is none that is known here; weoldrin claims lists what to verify";

const PACKAGE: &str = "it is a record of a package log: is the kind right?";

const OPERATOR: &str = "it is a record of an operator log: is the kind right?";

/// Takes each signature.
#[derive(Clone, Copy, Debug)]
struct AnySignature;

impl Verifier for AnySignature {
    ghost use Rattle.tool_answers.specs.Explanations.{all_belong};

    ghost belongs = { λ _. all_belong };

    fn verify(
        &self,
        _alloc: Global,
        _key: &PublicKey,
        _message: &[u8],
        _signature: &Signature,
    ) -> Result<(), SignatureError> {
        Ok(())
    }
}

/// Takes each signature of a key whose scheme is none that is known here, and no other.
#[derive(Clone, Copy, Debug)]
struct UnknownScheme;

// Whether the name stands for a scheme that is known here.
fn is_known(algorithm: &str) -> bool
    ensures { result ≡ bytes_eq algorithm.now (codes "toy") ||
        bytes_eq algorithm.now (codes "ecdsa-p256") }
{
    algorithm == "toy" || algorithm == "ecdsa-p256"
}

impl Verifier for UnknownScheme {
    ghost use Rattle.tool_answers.specs.Hints.{of_no_known_scheme};

    ghost belongs = { λ _. of_no_known_scheme };

    fn verify(
        &self,
        _alloc: Global,
        key: &PublicKey,
        _message: &[u8],
        _signature: &Signature,
    ) -> Result<(), SignatureError> {
        if is_known(key.algorithm()) {
            Err(SignatureError::Refused)
        } else {
            Ok(())
        }
    }
}

// That a record is not taken, unless memory was refused.
fn not_taken<L: ToolLog>(error: &L::Error) -> Result<bool, AllocError> {
    if L::is_out_of_memory(error) {
        return Err(AllocError);
    }
    Ok(false)
}

// Whether the record may come after the state, by these signatures.
fn is_next<L: ToolLog, V: Verifier>(
    state: L,
    envelope: &ProtoEnvelope<L::Record>,
    verifier: &V,
) -> Result<bool, AllocError> {
    match state.validate(envelope, verifier) {
        Ok(_) => Ok(true),
        Err(error) => not_taken::<L>(&error),
    }
}

// Whether the input is such a record.
fn is_taken<L: ToolLog, V: Verifier>(
    alloc: Global,
    state: L,
    input: &[u8],
    verifier: &V,
) -> Result<bool, AllocError> {
    match ProtoEnvelope::<L::Record>::from_protobuf(alloc, input) {
        Ok(envelope) => is_next(state, &envelope, verifier),
        Err(error) => {
            unless_out_of_memory(&error)?;
            Ok(false)
        }
    }
}

// Whether the input is the first record of a log of a kind, by a scheme that is known here.
fn begins<L: ToolLog>(alloc: Global, input: &[u8]) -> Result<bool, AllocError> {
    if is_taken(alloc, L::new(alloc)?, input, &KnownKeys::new(alloc))? {
        return Ok(true);
    }
    is_taken(alloc, L::new(alloc)?, input, &ToyVerifier)
}

// Of which kind a log is that begins with the input, which is no lawful beginning of another.
fn other_kind(alloc: Global, input: &[u8]) -> Result<&'static str, AllocError> {
    if begins::<package::LogState>(alloc, input)? {
        Ok(PACKAGE)
    } else if begins::<operator::LogState>(alloc, input)? {
        Ok(OPERATOR)
    } else {
        Ok("")
    }
}

// Why an input, which stands at this place, is likely refused after a state; empty where none is known.
fn likely_hint<L: ToolLog>(
    alloc: Global,
    state: &L,
    place: usize,
    input: &[u8],
) -> Result<&'static str, AllocError> {
    if is_taken(alloc, state.try_clone()?, input, &ToyVerifier)? {
        return Ok(TOY);
    }
    if is_taken(alloc, state.try_clone()?, input, &UnknownScheme)? {
        return Ok(UNKNOWN);
    }
    if place > 0 || is_taken(alloc, state.try_clone()?, input, &KnownKeys::new(alloc))? {
        return Ok("");
    }
    other_kind(alloc, input)
}

// Whether all inputs together have at most so many bytes.
fn are_within(mut most: usize, inputs: &[Vec<u8>]) -> bool {
    for input in inputs {
        match most.checked_sub(input.len()) {
            Some(left) => most = left,
            None => return false,
        }
    }
    true
}

/// The same of an input among those of a log, by its error. None is looked for behind too many bytes: a record is read and
/// judged up to seven times for it.
pub(crate) fn hint_in<L: ToolLog>(
    alloc: Global,
    inputs: &[Vec<u8>],
    error: &RunError<L::Error>,
) -> Result<&'static str, AllocError> {
    let place = error.index;
    let Some(input) = inputs.get(place) else {
        return Ok("");
    };
    if input.is_empty() {
        return Ok(BLANK);
    }
    let before = &inputs[..place];
    if !are_within(MOST_BYTES, before) || input.len() > MOST_BYTES {
        return Ok("");
    }
    match run_from(alloc, L::new(alloc)?, &AnySignature, before) {
        Ok(state) => likely_hint(alloc, &state, place, input.as_slice()),
        Err(_) => Ok(""),
    }
}

/// Why a line of these bytes is likely no line of hex digits; empty where none is known.
pub(crate) fn line_hint(bytes: &[u8]) -> &'static str {
    if bytes.starts_with(BYTE_ORDER_MARK) {
        MARKED
    } else {
        ""
    }
}
