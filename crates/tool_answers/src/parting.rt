//! Where a log and an older copy of it part.

ghost use Rattle.std.specs.Prelude.{◌≡◌, ◌<◌, [], All, IfOk, length, slice_index_or, string_bytes};
ghost use Rattle.warg_protocol.specs.Logs.{ContentsMatchBytes, contents, envelopes};
ghost use Rattle.tool_answers.specs.Texts.{IsNamedLine, collision_line, fork_line};

use crate::kind::ToolLog;
use std::alloc::{AllocError, Global};
use warg_printable::printed_line;
use warg_protocol::ProtoEnvelope;
use warg_protocol::registry::RecordId;

// The id of the record at a place.
fn id_at<L: ToolLog>(records: &[ProtoEnvelope<L::Record>], place: usize) -> RecordId
    requires { place < length (contents (envelopes records.now)) }
    ensures { result ≡ L.kind.id (slice_index_or (contents (envelopes records.now)) place []) }
{
    L::record_id(&records[place])
}

/// Where two logs fork, on a line: the place, and the ids of both records there.
pub fn fork_text<L: ToolLog>(
    alloc: Global,
    place: usize,
    old: &[ProtoEnvelope<L::Record>],
    new: &[ProtoEnvelope<L::Record>],
) -> Result<String, AllocError>
    requires old { place < length (contents (envelopes old.now)) }
    requires new { place < length (contents (envelopes new.now)) }
    ensures { IfOk result (λ text. string_bytes text ≡ fork_line L.kind.id
        (contents (envelopes old.now)) (contents (envelopes new.now)) place) }
{
    let here = id_at::<L>(old, place);
    let there = id_at::<L>(new, place);
    format!(in alloc; "fork {place} {here} {there}\n")
}

/// Where two records that differ have one id, on a line: both places, and the id.
pub fn collision_text<L: ToolLog>(
    alloc: Global,
    here: usize,
    there: usize,
    old: &[ProtoEnvelope<L::Record>],
) -> Result<String, AllocError>
    requires { here < length (contents (envelopes old.now)) }
    ensures { IfOk result (λ text. string_bytes text ≡ collision_line L.kind.id
        (contents (envelopes old.now)) here there) }
{
    let id = id_at::<L>(old, here);
    format!(in alloc; "collision {here} {there} {id}\n")
}

/// The line of the record at a place of a log of this name: when and by whom it was signed, and its entries.
pub fn record_of_side<L: ToolLog>(
    alloc: Global,
    name: &str,
    records: &[ProtoEnvelope<L::Record>],
    place: usize,
) -> Result<String, AllocError>
    requires within { place < length (contents (envelopes records.now)) }
    requires honest { All (ContentsMatchBytes L.Record.read L.Record.meaning) records.now }
    ensures { IfOk result (λ text. IsNamedLine L.says_words name.now (envelopes records.now)
        place (string_bytes text)) }
{
    let mut said = format!(in alloc; "{name} ")?;
    L::push_record(alloc, &records[place], &mut said)?;
    printed_line(alloc, said.as_str())
}
