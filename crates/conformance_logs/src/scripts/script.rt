//! What a kind of log adds to the script language, and the envelopes of scripted records.
use crate::scripts::script_draft::ScriptDraft;
use conformance_rows::{RowError, bytes};
use std::alloc::Global;
use std::fmt::Debug;
use std::str::FromStr;
use warg_protocol::package::Head;
use warg_protocol::registry::RecordId;
use warg_protocol::{JsonError, JsonTextError, ProtoEnvelope, Validator};

/// A kind of log that scripts speak of.
pub trait ScriptLog: Validator {
    /// An entry of a record.
    type Entry: Drop;

    /// The permission of this name.
    fn permission(name: &str) -> Result<Self::Permission, RowError>;

    /// The entry that words say: what it does, to whom or what, and the rest.
    fn entry(alloc: Global, verb: &str, subject: &str, rest: &str) -> Result<Self::Entry, RowError>;

    /// The draft's record with these entries, after `prev`, in an envelope that the draft's signer signs.
    fn signed(
        alloc: Global,
        prev: Option<RecordId>,
        draft: &ScriptDraft<'_>,
        entries: Vec<Self::Entry>,
    ) -> Result<ProtoEnvelope<Self::Record>, RowError>;

    /// The error that words say: its case, whom or what it is about, and a permission.
    fn error(
        alloc: Global,
        case: &str,
        subject: &str,
        permission: &str,
    ) -> Result<Self::Error, RowError>;

    /// The head, of the last record.
    fn last(&self) -> Option<&Head>;

    /// The error in words, as `error` reads them.
    fn words(alloc: Global, error: &Self::Error) -> Result<String, RowError>;

    /// The draft's record with these entries as the state makes its next one, in an envelope that the draft's signer
    /// signs.
    fn next(
        &self,
        alloc: Global,
        draft: &ScriptDraft<'_>,
        entries: Vec<Self::Entry>,
    ) -> Result<ProtoEnvelope<Self::Record>, RowError>;

    /// The state's JSON as text, written with no value of the whole.
    fn json(&self, alloc: Global) -> Result<String, JsonError>;

    /// The state of a text of JSON, read with no value of the whole.
    fn of_json(alloc: Global, json: &str) -> Result<Self, JsonTextError>;

    /// What the state answers: to which look-up, of whom or what.
    fn answer(&self, alloc: Global, look_up: &str, subject: &str) -> Result<String, RowError>;
}

/// The first word of a text, the second, and what follows; empty texts where they are missing.
pub fn words_of(text: &str) -> (&str, &str, &str) {
    let (first, rest) = text.split_once(' ').unwrap_or((text, ""));
    let (second, rest) = rest.split_once(' ').unwrap_or((rest, ""));
    (first, second, rest)
}

/// The permissions of these names.
pub fn permissions_of<P: FromStr + Drop>(alloc: Global, names: &str) -> Result<Vec<P>, RowError>
where
    P::Err: Debug + Drop,
{
    let mut permissions = Vec::new(alloc);
    for name in names.split_whitespace() {
        permissions.push(name.parse::<P>()?)?;
    }
    Ok(permissions)
}

// The entries, which stand between commas.
fn entries_of<L: ScriptLog>(alloc: Global, texts: &str) -> Result<Vec<L::Entry>, RowError> {
    let mut entries = Vec::new(alloc);
    for text in texts.split(',') {
        let (verb, subject, rest) = words_of(text.trim());
        if verb != "" {
            entries.push(L::entry(alloc, verb, subject, rest)?)?;
        }
    }
    Ok(entries)
}

// The draft's record in its envelope, in a log whose last record is `last`.
fn signed<L: ScriptLog>(
    alloc: Global,
    last: Option<RecordId>,
    draft: &ScriptDraft<'_>,
) -> Result<ProtoEnvelope<L::Record>, RowError> {
    let entries = entries_of::<L>(alloc, draft.entries)?;
    L::signed(alloc, draft.prev(last), draft, entries)
}

/// The envelope of the record that a line says, which begins a log.
pub fn envelope_of<L: ScriptLog>(
    alloc: Global,
    line: &str,
) -> Result<ProtoEnvelope<L::Record>, RowError> {
    match ScriptDraft::parse(line)? {
        Some(draft) => signed::<L>(alloc, None, &draft),
        None => Err(RowError::new("a line without a colon")),
    }
}

// The input of the draft's record in a log whose last one is `last`, which it then is itself.
fn signed_input<L: ScriptLog>(
    alloc: Global,
    last: &mut Option<RecordId>,
    draft: &ScriptDraft<'_>,
) -> Result<Vec<u8>, RowError> {
    let envelope = signed::<L>(alloc, *last, draft)?;
    *last = Some(L::record_id(&envelope));
    Ok(envelope.to_protobuf(alloc)?)
}

/// The input that a line says: hex digits, or a record in a log whose last one is `last`, which it then is itself.
pub fn input_of<L: ScriptLog>(
    alloc: Global,
    last: &mut Option<RecordId>,
    line: &str,
) -> Result<Vec<u8>, RowError> {
    match ScriptDraft::parse(line)? {
        Some(draft) => signed_input::<L>(alloc, last, &draft),
        None => bytes(alloc, line),
    }
}

// The input of the record that the state makes next.
fn made_input<L: ScriptLog>(
    alloc: Global,
    state: &L,
    draft: &ScriptDraft<'_>,
) -> Result<Vec<u8>, RowError> {
    let envelope = state.next(alloc, draft, entries_of::<L>(alloc, draft.entries)?)?;
    Ok(envelope.to_protobuf(alloc)?)
}

/// The input that a line says: hex digits, or a record that comes after the state.
pub fn next_input<L: ScriptLog>(alloc: Global, state: &L, line: &str) -> Result<Vec<u8>, RowError> {
    match ScriptDraft::parse(line)? {
        Some(draft) if draft.is_next => made_input(alloc, state, &draft),
        Some(draft) => signed_input::<L>(alloc, &mut state.head_digest().copied(), &draft),
        None => bytes(alloc, line),
    }
}

/// The inputs of these lines. A record names the one before it, be that lawful or not.
pub fn inputs_of<L: ScriptLog>(alloc: Global, lines: &str) -> Result<Vec<Vec<u8>>, RowError> {
    let mut inputs = Vec::new(alloc);
    let mut last = None;
    for line in lines.trim().lines() {
        inputs.push(input_of::<L>(alloc, &mut last, line.trim())?)?;
    }
    Ok(inputs)
}
