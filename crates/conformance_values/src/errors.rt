//! What errors print.

use crate::printed::text_of;
use conformance_rows::{Answer, RowError, Words};
use std::alloc::Global;
use std::fmt::{Debug, Display};
use warg_crypto::hash::{AnyHashError, UnknownAlgorithm};
use warg_crypto::json::{Incoherence, JsonError};
use warg_crypto::signing::{KeyParseError, SignatureError, SignatureParseError};
use warg_crypto::time::TimeError;
use warg_crypto::{DecodeError, WireFault};
use warg_permissions::{InvalidPermission, PermissionParseError};
use warg_registry::PackageNameError;

const HASH: &[AnyHashError] = &[
    AnyHashError::MissingAlgorithm,
    AnyHashError::UnknownAlgorithm,
    AnyHashError::BadHex,
    AnyHashError::BadLength,
];

const KEY: &[KeyParseError] = &[
    KeyParseError::MissingColon,
    KeyParseError::EmptyAlgorithm,
    KeyParseError::BadBase64,
    KeyParseError::OutOfMemory,
];

const SIGNATURE: &[SignatureParseError] = &[
    SignatureParseError::MissingColon,
    SignatureParseError::EmptyAlgorithm,
    SignatureParseError::BadBase64,
    SignatureParseError::OutOfMemory,
];

const SIGNING: &[SignatureError] = &[SignatureError::Refused, SignatureError::OutOfMemory];

const WIRE: &[WireFault] = &[
    WireFault::Truncated,
    WireFault::VarintTooLong,
    WireFault::BadKey,
    WireFault::Group,
    WireFault::WrongWireType,
    WireFault::NotUtf8,
    WireFault::OutOfMemory,
];

const DECODING: &[DecodeError] = &[
    DecodeError::Wire(WireFault::Group),
    DecodeError::Prev(AnyHashError::BadHex),
    DecodeError::MissingTime,
    DecodeError::TimeOutOfRange,
    DecodeError::EmptyEntry,
    DecodeError::Algorithm,
    DecodeError::Key(KeyParseError::MissingColon),
    DecodeError::Version,
    DecodeError::ContentHash(AnyHashError::BadLength),
    DecodeError::OutOfMemory,
];

const TIME: &[TimeError] = &[TimeError::TimeBeforeEpoch, TimeError::TimeOutOfRange];

const JSON: &[JsonError] = &[
    JsonError::WrongType,
    JsonError::Missing,
    JsonError::BadText,
    JsonError::TimeBeforeEpoch,
    JsonError::TimeOutOfRange,
    JsonError::Incoherent(Incoherence::StateWithoutInit),
    JsonError::OutOfMemory,
];

const INCOHERENCE: &[Incoherence] = &[
    Incoherence::AlgorithmWithoutHead,
    Incoherence::HeadWithoutAlgorithm,
    Incoherence::StateWithoutInit,
    Incoherence::ReleaseUnderOtherVersion,
    Incoherence::KeyUnderOtherFingerprint,
    Incoherence::InvalidNamespace,
    Incoherence::PermissionsWithoutKey,
    Incoherence::UnsupportedVersion,
];

/// `error-text TYPE FAULT`: what the error prints, whatever options it is printed under. None where the type is not of
/// this crate.
pub(crate) fn text(alloc: Global, mut words: Words<'_>) -> Result<Option<Answer>, RowError> {
    let of_type = words.next_written();
    match of_type {
        "UnknownAlgorithm" => Ok(Some(only(alloc, &UnknownAlgorithm, words)?)),
        "InvalidPermission" => Ok(Some(only(alloc, &InvalidPermission, words)?)),
        _ => of_fault(alloc, of_type, words.rest()),
    }
}

fn of_fault(alloc: Global, of_type: &str, fault: &str) -> Result<Option<Answer>, RowError> {
    let answer = match of_type {
        "AnyHashError" => named(alloc, HASH, fault),
        "KeyParseError" => named(alloc, KEY, fault),
        "SignatureParseError" => named(alloc, SIGNATURE, fault),
        "SignatureError" => named(alloc, SIGNING, fault),
        "WireFault" => named(alloc, WIRE, fault),
        "DecodeError" => decoding(alloc, fault),
        "TimeError" => named(alloc, TIME, fault),
        "JsonError" => named(alloc, JSON, fault),
        "Incoherence" => named(alloc, INCOHERENCE, fault),
        "PermissionParseError" => permission(alloc, fault),
        "PackageNameError" => package_name(alloc, fault),
        _ => return Ok(None),
    };
    Ok(Some(answer?))
}

fn printed<E: Display>(alloc: Global, error: &E) -> Result<Answer, RowError> {
    Answer::value(alloc, &text_of(alloc, error)?)
}

// What the only error of its type prints, where no fault is named.
fn only<E: Display>(alloc: Global, error: &E, words: Words<'_>) -> Result<Answer, RowError> {
    words.end()?;
    printed(alloc, error)
}

// What the one of these errors prints that has the name.
fn named<E: Display + Debug>(alloc: Global, errors: &[E], name: &str) -> Result<Answer, RowError> {
    for error in errors {
        let Answer::Fault(cases) = Answer::cases(alloc, error)? else {
            continue;
        };
        if cases.as_str() == name {
            return printed(alloc, error);
        }
    }
    Err(RowError::new("an unknown fault"))
}

// The number of a permission that there is not.
fn permission(alloc: Global, number: &str) -> Result<Answer, RowError> {
    let value = number.parse::<i32>()?;
    printed(alloc, &PermissionParseError { value })
}

// `Permission NUMBER`, or another fault.
fn decoding(alloc: Global, fault: &str) -> Result<Answer, RowError> {
    match fault.strip_prefix("Permission ") {
        Some(number) => {
            let value = number.parse::<i32>()?;
            printed(alloc, &DecodeError::Permission { value })
        }
        None => named(alloc, DECODING, fault),
    }
}

// `InvalidPackageName TEXT`, or `OutOfMemory`.
fn package_name(alloc: Global, fault: &str) -> Result<Answer, RowError> {
    let error = match fault.strip_prefix("InvalidPackageName ") {
        Some(words) => PackageNameError::InvalidPackageName {
            name: Words::new(words).next(alloc)?,
        },
        None if fault == "OutOfMemory" => PackageNameError::OutOfMemory,
        None => return Err(RowError::new("an unknown fault")),
    };
    printed(alloc, &error)
}
