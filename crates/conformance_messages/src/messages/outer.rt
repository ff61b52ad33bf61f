//! The outer message, whose parts are also found where they stand in its bytes.
use crate::fields::{Fields, put_braced, put_bytes, put_text};
use crate::text_codec::{TextCodec, ToText};
use conformance_rows::{RowError, bytes, hex};
use std::alloc::Global;
use warg_protobuf::{Envelope, EnvelopeView, Message, WireError};

impl Fields for EnvelopeView<'_> {
    fn put(&self, alloc: Global, out: &mut String) -> Result<(), RowError> {
        put_bytes(alloc, out, "contents", self.contents)?;
        put_text(alloc, out, "key_id", self.key_id)?;
        put_text(alloc, out, "signature", self.signature)
    }
}

/// The outer message. Its bytes are read into parts of its own and into borrowed ones, which have to be the same.
#[derive(Drop, PartialEq)]
pub(crate) struct Outer {
    message: Envelope,
}

fn view_of(message: &Envelope) -> EnvelopeView<'_> {
    EnvelopeView {
        contents: message.contents.as_slice(),
        key_id: message.key_id.as_str(),
        signature: message.signature.as_str(),
    }
}

fn is_viewed(
    message: &Result<Envelope, WireError>,
    view: Result<EnvelopeView<'_>, WireError>,
) -> bool {
    match (message, view) {
        (Ok(message), Ok(view)) => view_of(message) == view,
        (Err(fault), Err(other)) => *fault == other,
        _ => false,
    }
}

impl ToText for Outer {
    fn text(&self, alloc: Global) -> Result<String, RowError> {
        let mut text = String::new(alloc);
        put_braced(alloc, &mut text, &view_of(&self.message))?;
        Ok(text)
    }
}

impl TextCodec for Outer {
    fn read(alloc: Global, word: &str) -> Result<Result<Outer, String>, RowError> {
        let bytes = bytes(alloc, word)?;
        let message = Envelope::decode(alloc, bytes.as_slice());
        if !is_viewed(&message, Envelope::view(bytes.as_slice())) {
            return Err(RowError::new("the borrowed parts say otherwise"));
        }
        match message {
            Ok(message) => Ok(Ok(Outer { message })),
            Err(fault) => Ok(Err(fault.to_string(alloc)?)),
        }
    }

    fn write(&self, alloc: Global) -> Result<String, RowError> {
        hex(alloc, self.message.encode(alloc)?.as_slice())
    }
}
