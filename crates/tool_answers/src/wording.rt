//! Words that both kinds of log are shown in.

ghost use Rattle.std.specs.Prelude.{◌≡◌, [], ◌∷◌, ◌++◌, codes, IfOk, OnOk, map, string_bytes, unwrap_or};
ghost use Rattle.std.specs.Option.{option_map};
ghost use Rattle.jiff.specs.Words.{iso_datetime_text};
ghost use Rattle.tool_answers.specs.ShownWords.{IsGrownBy, IsRecordLine, IsTimeText, after_commas};
ghost use Rattle.tool_answers.specs.ShownWords.{after_spaces, comma_list, key_line, key_lines};

use jiff::civil::DateTime;
use jiff::tz::Offset;
use std::alloc::{AllocError, Global};
use warg_permissions::LogPermission;
use warg_printable::push_printed_line;
use warg_protocol::package::{KeyEntry, Keys};
use warg_protocol::signing::KeyID;
use warg_protocol::{IndexSet, LogRecord, ProtoEnvelope, Timestamp};

/// An entry of a record that has words.
pub(crate) trait EntryWords {
    ghost use Rattle.std.specs.Prelude.{List, ℕ};

    // The words.
    ghost words_of: { Self → List ℕ };

    /// Appends the entry in words.
    fn push_words(&self, text: &mut String) -> Result<(), AllocError>
        ensures { OnOk result (string_bytes text.new ≡ string_bytes text.old ++
            words_of self.now) };
}

// A date and a time of day at UTC, as RFC 3339 says them.
fn utc_words(alloc: Global, shown: DateTime) -> Result<String, AllocError>
    ensures { IfOk result (λ text. string_bytes text ≡ iso_datetime_text shown ++ codes "Z") }
{
    format!(in alloc; "{shown}Z")
}

/// The time as RFC 3339 says it, in UTC; where the calendar does not reach, as seconds and nanoseconds since 1970.
pub fn time_words(alloc: Global, time: Timestamp) -> Result<String, AllocError>
    ensures { IfOk result (λ text. IsTimeText time (string_bytes text)) }
{
    match jiff::Timestamp::new(time.seconds(), time.nanos() as i32) {
        Ok(instant) => utc_words(alloc, Offset::UTC.to_datetime(instant)),
        Err(_) => time.to_string(alloc),
    }
}

// Appends the words behind a space.
fn push_behind_space(words: &str, text: &mut String) -> Result<(), AllocError>
    ensures { OnOk result (string_bytes text.new ≡ string_bytes text.old ++
        (codes " " ++ words.now)) }
{
    text.push_str(" ")?;
    text.push_str(words)
}

/// Appends the texts of permissions, a space before each.
pub(crate) fn push_permissions<P: LogPermission>(
    permissions: &[P],
    text: &mut String,
) -> Result<(), AllocError>
    ensures { OnOk result (string_bytes text.new ≡ string_bytes text.old ++
        after_spaces (map P.text_of permissions.now)) }
{
    for permission in permissions {
        push_behind_space(permission.as_text(), text)?;
    }
    Ok(())
}

// Appends the words of an entry behind a comma and a space.
fn push_behind_comma<E: EntryWords>(entry: &E, text: &mut String) -> Result<(), AllocError>
    ensures { OnOk result (string_bytes text.new ≡ string_bytes text.old ++
        (codes ", " ++ E.words_of entry.now)) }
{
    text.push_str(", ")?;
    entry.push_words(text)
}

// Appends the words of entries, a comma and a space before each.
fn push_later<E: EntryWords>(entries: &[E], text: &mut String) -> Result<(), AllocError>
    ensures { OnOk result (string_bytes text.new ≡ string_bytes text.old ++
        after_commas (map E.words_of entries.now)) }
{
    for entry in entries {
        push_behind_comma(entry, text)?;
    }
    Ok(())
}

// Appends the words of an entry and of those after it in a list, behind a space.
fn push_listed<E: EntryWords>(first: &E, later: &[E], text: &mut String) -> Result<(), AllocError>
    ensures { OnOk result (string_bytes text.new ≡ string_bytes text.old ++
        comma_list (map E.words_of (first.now ∷ later.now))) }
{
    text.push_str(" ")?;
    first.push_words(text)?;
    push_later(later, text)
}

// Appends the words of entries in a list, behind a space.
fn push_entries<E: EntryWords>(entries: &[E], text: &mut String) -> Result<(), AllocError>
    ensures { OnOk result (string_bytes text.new ≡ string_bytes text.old ++
        comma_list (map E.words_of entries.now)) }
{
    match entries.split_first() {
        Some((first, later)) => push_listed(first, later, text),
        None => Ok(()),
    }
}

// Appends the time of a record and its signer.
fn push_signer(time: &str, key_id: &KeyID, text: &mut String) -> Result<(), AllocError>
    ensures { OnOk result (string_bytes text.new ≡ string_bytes text.old ++
        (time.now ++ (codes " " ++ key_id.now))) }
{
    write!(text, "{time} {key_id}")
}

/// Appends what is said of a record: its time, its signer, and its entries.
pub(crate) fn push_record<E: EntryWords>(
    alloc: Global,
    envelope: &ProtoEnvelope<LogRecord<E>>,
    text: &mut String,
) -> Result<(), AllocError>
    ensures { OnOk result (IsGrownBy (IsRecordLine envelope.now.envelope.key_id (record {
      time = envelope.now.contents.timestamp;
      entries = map E.words_of envelope.now.contents.entries.items;
    })) (string_bytes text.old) (string_bytes text.new)) }
{
    let record = envelope.contents();
    let time = time_words(alloc, record.timestamp)?;
    push_signer(time.as_str(), envelope.key_id(), text)?;
    push_entries(record.entries.as_slice(), text)
}

// Appends the texts of the permissions of a set, a space before each; of no set there are none.
fn push_held<P: LogPermission>(
    held: Option<&IndexSet<P>>,
    text: &mut String,
) -> Result<(), AllocError>
    ensures { OnOk result (string_bytes text.new ≡ string_bytes text.old ++
        after_spaces (map P.text_of (unwrap_or (option_map (λ set. set.now.keys) held.entry) []))) }
{
    match held {
        Some(permissions) => push_permissions(permissions.as_slice(), text),
        None => Ok(()),
    }
}

// Appends the line of a key: its id, the key, and what it holds.
fn push_key_line<P: LogPermission>(
    alloc: Global,
    key: KeyEntry<'_, P>,
    text: &mut String,
) -> Result<(), AllocError>
    ensures { OnOk result (string_bytes text.new ≡ string_bytes text.old ++
        key_line P.text_of (record {
          id = key.entry.id.now;
          key = key.entry.key.now;
          permissions = option_map (λ set. set.now.keys) key.entry.permissions;
        })) }
{
    let (id, public_key) = (key.id, key.key);
    let mut said = format!(in alloc; "key {id} {public_key}")?;
    push_held(key.permissions, &mut said)?;
    push_printed_line(said.as_str(), text)
}

/// Appends a line for each key.
pub(crate) fn push_key_lines<P: LogPermission>(
    alloc: Global,
    keys: Keys<'_, P>,
    text: &mut String,
) -> Result<(), AllocError>
    ensures { OnOk result (string_bytes text.new ≡ string_bytes text.old ++
        key_lines P.text_of keys.entry) }
{
    for key in keys {
        push_key_line(alloc, key, text)?;
    }
    Ok(())
}
