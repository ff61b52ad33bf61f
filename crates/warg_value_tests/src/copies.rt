//! Copies of entries, records, envelopes and bodies, by `try_clone` and by `clone`.

use crate::samples::alice;
use std::alloc::{AllocError, Global};
use std::process::Abort;
use std::test::Fail;
use warg_crypto::{Decode, DecodeError};
use warg_envelope::{
    ProtoEnvelope, ProtoEnvelopeBody, PublishedProtoEnvelope, PublishedProtoEnvelopeBody, Record,
    SerdeEnvelope,
};
use warg_log_records::operator::OperatorRecord;
use warg_log_records::package::PackageRecord;

// Content bytes of records with a link, of version 7, before the epoch, and with an entry of each kind.
const PACKAGE_CONTENT: &[u8] =
    b"\x0aGsha256:e3b0c44298fc1c149afbf4c8996fb92427ae41e4649b934ca495991b7852b855\
    \x10\x07\x1a\x11\x08\xfe\xff\xff\xff\xff\xff\xff\xff\xff\x01\x10\xff\x93\xeb\xdc\x03\
    \x22\x18\x0a\x16\x0a\x0ctoy:YWxpY2U=\x12\x06sha256\
    \x22\x10\x12\x0e\x0a\x08toy:Ym9i\x12\x02\x01\x02\
    \x22N\x1aL\x0aGsha256:41217e6dcb8c0694d904eb6ff3e4098d479db7c8f90cd8db737d85701d464db0\x12\x01\x01\
    \x22R\x22P\x0a\x051.0.0\x12Gsha256:054edec1d0211f624fed0cbca9d4f9400b0e491c43742af2c5b0abebf0c990d8\
    \x22\x09*\x07\x0a\x051.0.0";

const OPERATOR_CONTENT: &[u8] =
    b"\x0aGsha256:e3b0c44298fc1c149afbf4c8996fb92427ae41e4649b934ca495991b7852b855\
    \x10\x07\x1a\x11\x08\xfe\xff\xff\xff\xff\xff\xff\xff\xff\x01\x10\xff\x93\xeb\xdc\x03\
    \x22\x18\x0a\x16\x0a\x0ctoy:YWxpY2U=\x12\x06sha256\
    \x22\x0f\x12\x0d\x0a\x08toy:Ym9i\x12\x01\x01\
    \x22N\x1aL\x0aGsha256:41217e6dcb8c0694d904eb6ff3e4098d479db7c8f90cd8db737d85701d464db0\x12\x01\x01\
    \x22\x10\x22\x0e\x0a\x0cmy-namespace\
    \x22,**\x0a\x12imported-namespace\x12\x14registry.example.com";

fn package_record(alloc: Global) -> Result<PackageRecord, DecodeError> {
    PackageRecord::decode(alloc, PACKAGE_CONTENT)
}

fn operator_record(alloc: Global) -> Result<OperatorRecord, DecodeError> {
    OperatorRecord::decode(alloc, OPERATOR_CONTENT)
}

// The copy is equal to the value.
fn is_copy<T: PartialEq + Drop>(rt: &impl Abort, copy: Result<T, AllocError>, value: &T) {
    let copy = copy.expect(rt, "memory");
    assert!(rt; copy == *value);
}

#[test]
fn package_records(rt: HostRuntime) -> Result<(), Fail> {
    let record = package_record(rt.alloc())?;
    is_copy(&rt, Record::try_clone(&record), &record);
    is_copy(&rt, record.clone(), &record);
    Ok(())
}

#[test]
fn operator_records(rt: HostRuntime) -> Result<(), Fail> {
    let record = operator_record(rt.alloc())?;
    is_copy(&rt, Record::try_clone(&record), &record);
    is_copy(&rt, record.clone(), &record);
    Ok(())
}

#[test]
fn package_entries(rt: HostRuntime) -> Result<(), Fail> {
    let entries = package_record(rt.alloc())?.entries;
    assert_eq!(rt; entries.len(), 5);
    for entry in &entries {
        is_copy(&rt, entry.try_clone(), entry);
    }
    Ok(())
}

#[test]
fn operator_entries(rt: HostRuntime) -> Result<(), Fail> {
    let entries = operator_record(rt.alloc())?.entries;
    assert_eq!(rt; entries.len(), 5);
    for entry in &entries {
        is_copy(&rt, entry.try_clone(), entry);
    }
    Ok(())
}

fn smallest(alloc: Global) -> Result<ProtoEnvelope<OperatorRecord>, Fail> {
    let bytes = b"\x0a\x02\x1a\x00\x12\x01k\x1a\x04toy:";
    Ok(ProtoEnvelope::from_protobuf(alloc, bytes)?)
}

#[test]
fn envelopes(rt: HostRuntime) -> Result<(), Fail> {
    let envelope = smallest(rt.alloc())?;
    is_copy(&rt, envelope.try_clone(), &envelope);
    is_copy(&rt, envelope.clone(), &envelope);
    Ok(())
}

fn body(alloc: Global) -> Result<ProtoEnvelopeBody, Fail> {
    Ok(ProtoEnvelopeBody::from(smallest(alloc)?))
}

#[test]
fn bodies(rt: HostRuntime) -> Result<(), Fail> {
    let body = body(rt.alloc())?;
    is_copy(&rt, body.clone(), &body);
    is_copy(&rt, body.try_clone(), &body);
    Ok(())
}

fn envelope_of(
    alloc: Global,
    body: ProtoEnvelopeBody,
) -> Result<ProtoEnvelope<OperatorRecord>, Fail> {
    Ok(ProtoEnvelope::from_body(alloc, body)?)
}

// An envelope of a body has that body again, and keeps it where a copy is taken of it.
#[test]
fn envelopes_of_bodies(rt: HostRuntime) -> Result<(), Fail> {
    let envelope = envelope_of(rt.alloc(), body(rt.alloc())?)?;
    let body = body(rt.alloc())?;
    is_copy(&rt, envelope.to_body(), &body);
    is_copy(&rt, Ok(ProtoEnvelopeBody::from(envelope)), &body);
    Ok(())
}

fn published(alloc: Global) -> Result<PublishedProtoEnvelope<OperatorRecord>, Fail> {
    Ok(PublishedProtoEnvelope {
        envelope: smallest(alloc)?,
        registry_index: 7,
    })
}

#[test]
fn published_envelopes(rt: HostRuntime) -> Result<(), Fail> {
    let published = published(rt.alloc())?;
    is_copy(&rt, published.try_clone(), &published);
    Ok(())
}

#[test]
fn published_bodies(rt: HostRuntime) -> Result<(), Fail> {
    let published = published(rt.alloc())?;
    let copy = published.to_body();
    let body = PublishedProtoEnvelopeBody::from(published);
    is_copy(&rt, copy, &body);
    is_copy(&rt, body.try_clone(), &body);
    assert_eq!(rt; body.registry_index, 7);
    Ok(())
}

fn signed(alloc: Global) -> Result<SerdeEnvelope<PackageRecord>, Fail> {
    Ok(SerdeEnvelope::signed_contents(alloc, &alice(alloc)?, package_record(alloc)?)?)
}

#[test]
fn envelopes_without_bytes(rt: HostRuntime) -> Result<(), Fail> {
    let envelope = signed(rt.alloc())?;
    is_copy(&rt, envelope.try_clone(), &envelope);
    let record = package_record(rt.alloc())?;
    is_copy(&rt, Ok(envelope.into_contents()), &record);
    Ok(())
}
