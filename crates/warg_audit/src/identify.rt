//! The id of the one record whose envelope is read.

ghost use Rattle.std.specs.Prelude.{◌≡◌, IfOk};
ghost use Rattle.warg_envelope.specs.FaultNames.{error_name};
ghost use Rattle.warg_envelope.specs.declared.proto_envelope.error.ParseEnvelopeError.TheVariants.{ProtobufEnvelope};
ghost use Rattle.warg_audit.specs.Answers.{record_id_of, IsEnvelopeAnswer, IsIdAnswer};
ghost use Rattle.warg_audit.specs.Printouts.{refused_line};
ghost use Rattle.warg_audit.specs.Files.Lines.{lines_of};
ghost use Rattle.warg_audit.specs.Replies.{printed_of};

use crate::files::lines::{cut_line, decode_line};
use crate::log_kind::LogKind;
use crate::reply::{Reply, bad_line_reply, refused_reply};
use std::alloc::{AllocError, Global};
use warg_crypto::hash::Sha256;
use warg_envelope::ParseEnvelopeError;
use warg_log_records::RecordId;
use warg_protobuf::{Envelope, WireError};

// The id of a record of a log of this type, from its content bytes.
fn record_id(log_kind: LogKind, content: &[u8]) -> RecordId
    ensures { result ≡ record_id_of log_kind content.now }
{
    match log_kind {
        LogKind::Package => RecordId::of_package_content::<Sha256>(content),
        LogKind::Operator => RecordId::of_operator_content::<Sha256>(content),
    }
}

// The reply to an envelope's first fault.
fn fault_reply(alloc: Global, fault: WireError) -> Result<Reply, AllocError>
    ensures { IfOk result (λ reply. printed_of reply ≡
        refused_line 0 (error_name (ProtobufEnvelope fault))) }
{
    refused_reply(alloc, 0, ParseEnvelopeError::ProtobufEnvelope(fault).name())
}

// The answer to an envelope's bytes.
fn envelope_reply(alloc: Global, log_kind: LogKind, bytes: &[u8]) -> Result<Reply, AllocError>
    ensures { IfOk result (λ reply. IsEnvelopeAnswer log_kind bytes.now (printed_of reply)) }
{
    match Envelope::view(bytes) {
        Ok(envelope) => {
            let id = record_id(log_kind, envelope.contents);
            Ok(Reply::owned(format!(in alloc; "{id}\n")?, 0))
        }
        Err(fault) => fault_reply(alloc, fault),
    }
}

/// The answer to the text of one line.
pub fn id_reply(alloc: Global, log_kind: LogKind, text: &[u8]) -> Result<Reply, AllocError>
    ensures { IfOk result (λ reply. IsIdAnswer log_kind (lines_of text.now) (printed_of reply)) }
{
    if text.is_empty() {
        return bad_line_reply(alloc, 0);
    }
    let (line, more) = cut_line(text);
    let mut bytes = Vec::new(alloc);
    if !decode_line(line, &mut bytes)? {
        return bad_line_reply(alloc, 0);
    }
    if !more.is_empty() {
        return bad_line_reply(alloc, 1);
    }
    envelope_reply(alloc, log_kind, bytes.as_slice())
}
