//! Kinds of logs whose entries have words.

ghost use Rattle.std.specs.Prelude.{◌≡◌, ℕ, List, map, Option, IfErr, IfOk};
ghost use Rattle.warg_crypto.specs.Time.Times.{Time};
ghost use Rattle.warg_protocol.specs.Records.{RecordId};
ghost use Rattle.tool_changes.specs.Make.Sealed.{IsSigned};
ghost use Rattle.tool_changes.specs.declared.make.error.EntryFault.{EntryFault as OfEntryFault};

use crate::make::error::{EntryFault, MakeError};
use std::alloc::Global;
use warg_protocol::signing::Signer;
use warg_protocol::{ProtoEnvelope, Timestamp, Validator};

/// A kind of log whose entries have words.
pub trait EntryFromWords: Validator {
    /// An entry of a record.
    type Entry: Drop;

    // An entry as plain data.
    ghost EntryData: { Type 0 };

    ghost as_data: { Self.Entry → EntryData };

    // Whether words say an entry.
    ghost says: { List ℕ → EntryData → Type 0 };

    // What is wrong with words that say none.
    ghost lacks: { List ℕ → OfEntryFault → Type 0 };

    // The content bytes of a record, by the id of the record before, the time and the entries.
    ghost content: { Option RecordId → Time → List EntryData → List ℕ };

    // What the signed messages of records begin with.
    ghost prefix: { List ℕ };

    /// The entry that the words say.
    fn entry(alloc: Global, words: &str) -> Result<Self::Entry, EntryFault>
        ensures ok { IfOk result (λ entry. says words.now (as_data entry)) }
        ensures err { IfErr result (lacks words.now) };

    /// The record with these entries that comes next, in an envelope that the signer signs.
    fn next_envelope<S: Signer>(
        &self,
        alloc: Global,
        signer: &S,
        timestamp: Timestamp,
        entries: Vec<Self::Entry>,
    ) -> Result<ProtoEnvelope<Self::Record>, MakeError>
        ensures ok { IfOk result (λ it. IsSigned (S.gives signer.now) (S.key_of signer.now) prefix
            (content (Self.Validator.kind.head (Self.Validator.view self.now)) timestamp
            (map as_data entries.items)) it.envelope) }
        ensures err { IfErr result (λ error. error ≡ MakeError.OutOfMemory) };
}
