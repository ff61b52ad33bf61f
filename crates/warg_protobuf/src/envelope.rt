//! The outer message.

ghost use Rattle.std.specs.Prelude.{◌≡◌, ◌≢◌, Ok, Err, IfOk, IfErr, IsOk};
ghost use Rattle.warg_protobuf.specs.declared.error.WireError.{WireError};
ghost use Rattle.warg_protobuf.specs.declared.error.WireError.TheVariants.{OutOfMemory};
ghost use Rattle.warg_protobuf.specs.MessageDrafts.{no_parts, envelope_with};
ghost use Rattle.warg_protobuf.specs.Envelope.{envelope_table, EnvelopeValue, envelope_view, borrowed_envelope, envelope_from, IsEnvelope, IsEnvelopeOf, envelope_of, envelope_fields, IsSoundEnvelope};
ghost use Rattle.warg_protobuf.specs.Reading.{Returns};
ghost use Rattle.warg_protobuf.specs.Table.{takes, HasFault};

use crate::error::WireError;
use crate::field::{RawField, RawPayload};
use crate::message::Codec;
use crate::message_draft::{MessageDraft, read_into};
use crate::text::read_text;
use crate::writing::{push_bytes, push_text};
use std::alloc::{AllocError, Global};

/// Signed contents: a record's bytes, the id of the key that signed them, and the signature's text.
#[derive(Debug, Drop, PartialEq, Eq)]
pub struct Envelope {
    /// Field 1: the record's bytes, not looked into.
    pub contents: Vec<u8>,
    /// Field 2: the id of the key that signed them.
    pub key_id: String,
    /// Field 3: the text of the signature.
    pub signature: String,
}

/// An envelope whose parts are where they stand in its bytes.
#[derive(Clone, Copy, Debug, PartialEq, Eq)]
pub struct EnvelopeView<'a> {
    /// Field 1: the record's bytes, not looked into.
    pub contents: &'a [u8],
    /// Field 2: the id of the key that signed them.
    pub key_id: &'a str,
    /// Field 3: the text of the signature.
    pub signature: &'a str,
}

impl Envelope {
    /// The parts of an envelope, all of the bytes. It takes no memory.
    pub fn view(bytes: &[u8]) -> Result<EnvelopeView<'_>, WireError>
        // What is read is what the bytes say.
        ensures found { IfOk result (λ v. IsEnvelope bytes.now (borrowed_envelope v)) }
        ensures fault { IfErr result (λ e. HasFault envelope_table bytes.now e) }
        ensures no_memory { IfErr result (λ e. e ≢ OutOfMemory) }

        // What the bytes say is read.
        ensures only { (v : EnvelopeValue) → IsEnvelope bytes.now v →
            Returns borrowed_envelope result (Ok v) }
        ensures only_fault { (e : WireError) → HasFault envelope_table bytes.now e →
            Returns borrowed_envelope result (Err e) }
        ensures computed { Returns borrowed_envelope result (envelope_of bytes.now) }
    {
        let mut view = EnvelopeView {
            contents: &[],
            key_id: "",
            signature: "",
        };
        read_into(&mut view, bytes)?;
        Ok(view)
    }
}

impl<'a> MessageDraft<'a> for EnvelopeView<'a> {
    ghost table = { envelope_table };

    ghost KeptData = { EnvelopeValue };

    ghost kept_data = { borrowed_envelope };

    ghost empty = { no_parts };

    ghost with_field = { envelope_with };

    ghost TakesMemory = { ⊥ };

    fn new(_alloc: Global) -> Self {
        EnvelopeView {
            contents: &[],
            key_id: "",
            signature: "",
        }
    }

    fn takes(number: u32, wire_type: u32) -> bool
        ensures { result ≡ takes envelope_table number wire_type }
    {
        match number {
            1 | 2 | 3 => wire_type == 2,
            _ => true,
        }
    }

    #[tactic(auto, unfolding(crate::specs::Reading::payload_fault))]
    fn grow(&mut self, field: RawField<'a>) -> Result<(), WireError> {
        if let RawPayload::Bytes(bytes) = field.payload {
            match field.number {
                1 => self.contents = bytes,
                2 => self.key_id = read_text(bytes)?,
                3 => self.signature = read_text(bytes)?,
                _ => {}
            }
        }
        Ok(())
    }
}

impl Codec for Envelope {
    ghost table = { envelope_table };

    ghost View = { EnvelopeValue };

    ghost view = { envelope_view };

    ghost Says = { IsEnvelopeOf };

    ghost value = { envelope_from };

    ghost TakesMemory = { λ said. IsOk said };

    fn read(alloc: Global, bytes: &[u8]) -> Result<Envelope, WireError> {
        let view = Envelope::view(bytes)?;
        Ok(Envelope {
            contents: Vec::from_slice(alloc, view.contents)?,
            key_id: String::from_str(alloc, view.key_id)?,
            signature: String::from_str(alloc, view.signature)?,
        })
    }

    ghost written_fields = { envelope_fields };

    ghost is_sound = { IsSoundEnvelope };

    fn write(&self, _alloc: Global, out: &mut Vec<u8>) -> Result<(), AllocError> {
        push_bytes(out, 1, &self.contents)?;
        push_text(out, 2, &self.key_id)?;
        push_text(out, 3, &self.signature)
    }

    fn laws() {}
}
