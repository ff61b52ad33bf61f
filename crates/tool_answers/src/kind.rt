//! What the commands ask of a kind of log.

ghost use Rattle.std.specs.Prelude.{◌≡◌, ℕ, Bool, Contains, List, Result, Ok, IfNone};
ghost use Rattle.std.specs.Prelude.{IfOk, IfSome, OnOk, string_bytes};
ghost use Rattle.warg_protocol.specs.Json.{JsonError as OfJsonError, JsonTextError as OfJsonTextError};
ghost use Rattle.warg_protocol.specs.Json.{ReturnsOrNoMemory};
ghost use Rattle.warg_protocol.specs.Logs.{EnvelopeData};
ghost use Rattle.warg_saved_states.specs.JsonText.{ReturnsOfText};
ghost use Rattle.tool_answers.specs.KeyIds.{AreIdsOf};
ghost use Rattle.tool_answers.specs.ShownWords.{IsGrownBy, IsRecordLine, IsTimeText, RecordWords};
ghost use Rattle.tool_answers.specs.Tools.{ToolOf};

use std::alloc::{AllocError, Global};
use warg_audit::Report;
use warg_protocol::signing::KeyID;
use warg_protocol::{JsonError, JsonTextError, ProtoEnvelope};

/// A state of a log that the commands speak of.
pub trait ToolLog: Report {
    // The permissions of the kind in their order, and their texts.
    ghost order: { List Self.Permission };

    ghost text_of: { Self.Permission → List ℕ };

    // Whether a record spoke of a key id.
    ghost knows: { Self → List ℕ → Bool };

    // Whether there is a key of an id.
    ghost has_key: { Self → List ℕ → Bool };

    // The text of a state's JSON, and the state of a text.
    ghost json_of: { Self → Result (List ℕ) OfJsonError };

    ghost state_of: { List ℕ → Result Self OfJsonTextError };

    // What is shown of a record, and whether content bytes say a record of which this is shown.
    ghost words_of: { Self.Record → RecordWords };

    ghost says_words: { List ℕ → RecordWords → Type 0 };

    // The sentence of an error.
    ghost sentence_of: { Self.Error → List ℕ };

    // Whether a text shows the state that records lead to.
    ghost shows: { List EnvelopeData → List ℕ → Type 0 };

    // All above, as one word for contracts: `Explains L.log L.Record.reading L.tool ..`.
    ghost tool: { ToolOf order text_of knows has_key json_of state_of words_of says_words
        sentence_of shows };

    /// The permissions of the kind, in their order.
    fn permissions(alloc: Global) -> Result<Vec<Self::Permission>, AllocError>
        ensures { IfOk result (λ permissions. permissions.items ≡ order) };

    /// The text of a permission.
    fn permission_text(permission: Self::Permission) -> &'static str
        ensures { result.now ≡ text_of permission };

    /// Whether a record spoke of the key.
    fn has_entry(&self, key_id: &KeyID) -> bool
        ensures { result ≡ knows self.now key_id.now };

    /// The ids of the keys, each once.
    fn key_ids(&self, alloc: Global) -> Result<Vec<KeyID>, AllocError>
        ensures { IfOk result (λ ids. AreIdsOf (has_key self.now) ids.items) };

    /// The state's JSON.
    fn json_text(&self, alloc: Global) -> Result<String, JsonError>
        ensures { ReturnsOrNoMemory string_bytes result (json_of self.now) };

    /// The state of a text of JSON.
    fn of_json_text(alloc: Global, text: &str) -> Result<Self, JsonTextError>
        ensures { ReturnsOfText (λ state. state) result (state_of text.now) };

    /// The error in words.
    fn error_sentence(alloc: Global, error: &Self::Error) -> Result<String, AllocError>
        ensures { IfOk result (λ text. string_bytes text ≡ sentence_of error.now) };

    /// The time of a record in words.
    fn time_text(alloc: Global, record: &Self::Record) -> Result<String, AllocError>
        ensures { IfOk result (λ text.
            IsTimeText (words_of record.now).time (string_bytes text)) };

    /// Appends what is said of a record: its time, its signer, and its entries in words.
    fn push_record(
        alloc: Global,
        envelope: &ProtoEnvelope<Self::Record>,
        text: &mut String,
    ) -> Result<(), AllocError>
        ensures { OnOk result (IsGrownBy
            (IsRecordLine envelope.now.envelope.key_id (words_of envelope.now.contents))
            (string_bytes text.old) (string_bytes text.new)) };

    /// Appends a line for each key, and for each release or namespace.
    fn push_state(&self, alloc: Global, text: &mut String) -> Result<(), AllocError>
        ensures { (records : List EnvelopeData) →
            Self.Validator.view self.now ≡ Self.Validator.kind.view_of records →
            OnOk result (IsGrownBy (shows records)
            (string_bytes text.old) (string_bytes text.new)) };

    // A record has the words that the content bytes say that say it.
    ghost says_its_words: { (r : Self.Record) (content : List ℕ) →
        Self.Record.read content ≡ Ok (Self.Record.meaning r) →
        says_words content (words_of r) };

    // Each permission of the kind is one of those in order.
    ghost in_order: { (permission : Self.Permission) → Contains order permission };
}

/// The permission that the text names, if it names one.
pub fn permission_of<L: ToolLog>(
    alloc: Global,
    text: &str,
) -> Result<Option<L::Permission>, AllocError>
    ensures named { IfOk result (λ found. IfSome found (λ permission.
        L.text_of permission ≡ text.now)) }
    ensures none { IfOk result (λ found. IfNone found ((permission : L.Permission) →
        L.text_of permission ≡ text.now → ⊥)) }
{
    let permissions = L::permissions(alloc)?;
    for permission in permissions.iter() {
        if L::permission_text(*permission) == text {
            return Ok(Some(*permission));
        }
    }
    Ok(None)
}
