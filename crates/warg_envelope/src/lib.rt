//! Envelopes: a record in its bytes as they came, who signed it, and the signature. They are read from bytes with the
//! first fault named, written, and signed.
#![tactic(auto)]

ghost use Rattle.std.specs.Prelude.{◌≡◌, ◌≢◌, ◌↔◌, ℕ, List, Result, Ok, Err, Option, None, IfOk};
ghost use Rattle.warg_crypto.specs.Coding.{IsDecoded};
ghost use Rattle.warg_crypto.specs.declared.coding.DecodeError.{DecodeError};
ghost use Rattle.warg_crypto.specs.declared.coding.DecodeError.TheVariants as error;
ghost use Rattle.warg_crypto.specs.declared.hash.AnyHash.{AnyHash};
ghost use Rattle.warg_envelope.specs.Faults.{IsReading};
ghost use Rattle.warg_envelope.specs.Mentions.{distinct};
ghost use Rattle.warg_envelope.specs.Readings.{Reading};

pub mod laws;
mod proto_envelope;
mod serde_envelope;

pub use proto_envelope::{
    ParseEnvelopeError, ProtoEnvelope, ProtoEnvelopeBody, PublishedProtoEnvelope,
    PublishedProtoEnvelopeBody,
};
pub use serde_envelope::SerdeEnvelope;
use std::alloc::{AllocError, Global};
use warg_crypto::hash::AnyHash;
use warg_crypto::{Decode, DecodeError};
use warg_maps::NameSet;

/// A place in a registry's log of all records, from 0.
pub type RegistryIndex = usize;

/// A record of one kind of log.
pub trait Record: Decode + Drop {
    // What a record says, as plain data.
    ghost Meaning: { Type 0 };

    ghost meaning: { Self → Meaning };

    // Why content bytes are no record.
    ghost Fault: { Type 0 };

    // The fault that an error names; out of memory alone names none.
    ghost fault_of: { DecodeError → Option Fault };

    // What content bytes say, or their first fault.
    ghost read: { List ℕ → Result Meaning Fault };

    // The three above, as one word for contracts.
    ghost reading: { Reading read meaning fault_of };

    // The hashes that a record mentions as its content, in order.
    ghost mentions: { Meaning → List AnyHash };

    /// The hashes that the record mentions as its content, each once, by first mention.
    fn contents(&self, alloc: Global) -> Result<NameSet<AnyHash>, AllocError>
        ensures { IfOk result (λ s. s.keys ≡
            distinct ⟦<AnyHash as PartialEq>⟧.eq (mentions (meaning self.now))) };

    /// A copy.
    fn try_clone(&self) -> Result<Self, AllocError>
        ensures { IfOk result (λ r. meaning r ≡ meaning self.now) };

    /// What is decoded is what the content bytes say, or an error that names their fault.
    ghost decodes_reading: { (b : List ℕ) (r : Result Self DecodeError) → IsDecoded Self.plain (Self.decodes b) r →
        IsReading meaning fault_of (read b) r };

    /// Out of memory names none.
    ghost memory_tells_none: { fault_of error.OutOfMemory ≡ None };

    /// It is the one error that names none.
    ghost memory_alone: { (e : DecodeError) → fault_of e ≡ None → e ≡ error.OutOfMemory };

    /// No two errors name one fault.
    ghost one_fault: { (d e : DecodeError) → fault_of d ≡ fault_of e → d ≡ e };

    /// No content bytes say that there was no memory.
    ghost no_fault_of_memory: { (b : List ℕ) → Self.decodes b ≢ Err error.OutOfMemory };

    /// Two records say the same exactly if they are the same plain data.
    ghost means_plain: { (a b : Self) → (meaning a ≡ meaning b) ↔ (Self.plain a ≡ Self.plain b) };
}
