//! Objects written as text member by member, with no value of the whole.
ghost use Rattle.std.specs.Prelude.{IfErr, IfOk, OnErr, OnOk, ◌≡◌, ◌≤◌, ◌++◌, ◌∷◌, [], ℕ, List, Some, false, true, codes, string_bytes};
ghost use Rattle.std.specs.Option.{option_map};
ghost use Rattle.serde_json.specs.Data.{Data, Members, object, put, string};
ghost use Rattle.serde_json.specs.View.{view};
ghost use Rattle.serde_json.specs.Written.{compact_text, has_float};
ghost use Rattle.warg_crypto.specs.declared.json.error.JsonError.TheVariants as fault;
ghost use Rattle.warg_crypto.specs.Json.Json.{AreReadBack, ReturnsOrNoMemory, IsReadBack, json_result};
ghost use Rattle.warg_crypto.specs.Json.JsonTexts.{key_in, key_json};
ghost use Rattle.warg_crypto.specs.Json.Members.{put_option};
ghost use Rattle.warg_crypto.specs.Json.Pairs.{plain_pairs};
ghost use Rattle.warg_saved_states.specs.Backs.{AreBack, AreVersionsBack};
ghost use Rattle.warg_saved_states.specs.Maps.{put_pairs};
ghost use Rattle.warg_saved_states.specs.MapNames.{text_name, text_named};
ghost use Rattle.warg_saved_states.specs.Canonical.{HasNoFloat};
ghost use Rattle.warg_saved_states.specs.Texts.{PutsText, object_rest, room_of, texts_of};

use crate::name::SavedName;
use crate::value::SavedValue;
use crate::write_map::map_text;
use serde_json::Value;
use std::alloc::Global;
use std::collections::BTreeMap;
use std::marker::Model;
use warg_crypto::json::members::text_value;
use warg_crypto::json::{JsonError, JsonValue};
use warg_crypto::signing::{KeyID, PublicKey};
use warg_maps::NameMap;

/// The members of an object, each as its text: the object's text is joined of them, and no value of the whole object is
/// ever held.
#[derive(Drop)]
pub struct MemberTexts {
    alloc: Global,
    texts: BTreeMap<String, String>,
}

impl Model for MemberTexts {
    ghost use Rattle.std.specs.Prelude.{ℕ, List};
    ghost use Rattle.warg_saved_states.specs.Texts.{texts_view};

    ghost Value = { List (List ℕ × List ℕ) };

    ghost view = { λ m. texts_view m.texts.entries };
}

/// A text as JSON writes it.
fn quoted(alloc: Global, text: &str) -> Result<String, JsonError>
    ensures { ReturnsOrNoMemory string_bytes result (json_result (compact_text (string text.now))) }
{
    let value = text_value(alloc, text)?;
    Ok(value.to_string(alloc)?)
}

/// Puts a member behind what was written of an object, with a comma where another stands before it. The error is
/// `OutOfMemory`.
fn push_member(
    alloc: Global,
    text: &mut String,
    later: bool,
    name: &str,
    value: &str,
) -> Result<(), JsonError>
    ensures ok { OnOk result ((rest : List (List ℕ × List ℕ)) →
        string_bytes text.new ++ object_rest true rest
        ≡ string_bytes text.old ++ object_rest later ((name.now, value.now) ∷ rest)) }
    ensures err { IfErr result (λ e. e ≡ fault.OutOfMemory) }
{
    if later {
        text.push(',')?;
    }
    let name = quoted(alloc, name)?;
    text.push_str(name.as_str())?;
    text.push(':')?;
    text.push_str(value)?;
    Ok(())
}

impl MemberTexts {
    /// No members.
    pub fn new(alloc: Global) -> MemberTexts
        ensures { result ≡ [] }
    {
        MemberTexts {
            alloc,
            texts: BTreeMap::new(alloc),
        }
    }

    /// Puts a member whose value has this text. The error is `OutOfMemory`, and then the texts are as they were.
    fn put(&mut self, name: String, value: String) -> Result<(), JsonError>
        ensures ok { OnOk result ((d : Data) (ms : Members) → string_bytes value ≡ compact_text d →
            self.old ≡ texts_of ms
            → self.new ≡ texts_of (put (string_bytes name) d ms)) }
        ensures err { IfErr result (λ e. e ≡ fault.OutOfMemory) }
        ensures kept { OnErr result (self.new ≡ self.old) }
    {
        drop(self.texts.insert(name, value)?);
        Ok(())
    }

    /// Puts a member with this value. The error is `OutOfMemory`, and then the texts are as they were.
    fn put_value(&mut self, name: String, value: &Value) -> Result<(), JsonError>
        requires { has_float (view value.now) ≡ false }
        ensures ok { OnOk result ((ms : Members) → self.old ≡ texts_of ms
            → self.new ≡ texts_of (put (string_bytes name) (view value.now) ms)) }
        ensures err { IfErr result (λ e. e ≡ fault.OutOfMemory) }
        ensures kept { OnErr result (self.new ≡ self.old) }
    {
        let text = value.to_string(self.alloc)?;
        self.put(name, text)
    }

    /// Puts the JSON of a value as a member, and nothing where there is none. Where that fails, the texts are as they were.
    pub fn put_optional<T: JsonValue>(
        &mut self,
        name: &str,
        value: &Option<T>,
    ) -> Result<(), JsonError>
        requires { (x : T.Plain) → HasNoFloat (T.writes x) }
        ensures written { PutsText (put_option T.writes name.now (option_map T.plain value.now))
            result self.old self.new }
        ensures back { OnOk result ((x : T.Plain) → option_map T.plain value.now ≡ Some x →
            AreReadBack (T.versions x)
            → IsReadBack T.writes T.reads T.equivalent x) }
        ensures kept { OnErr result (self.new ≡ self.old) }
    {
        let Some(value) = value else {
            return Ok(());
        };
        let json = value.to_value(self.alloc)?;
        self.put_value(String::from_str(self.alloc, name)?, &json)
    }

    /// Puts the map as a member, unless it is empty. Where that fails, the texts are as they were.
    pub fn put_map<K: SavedName, V: SavedValue>(
        &mut self,
        name: &str,
        map: &NameMap<K, V>,
    ) -> Result<(), JsonError>
        ensures written { PutsText (put_pairs K.name_of V.writes name.now
            (plain_pairs K.plain V.plain map.now.entries)) result self.old self.new }
        ensures back { OnOk result (AreVersionsBack K.versions V.versions
            (plain_pairs K.plain V.plain map.now.entries)
            → AreBack K.name_of K.key_named V.writes V.reads
            (plain_pairs K.plain V.plain map.now.entries)) }
        ensures kept { OnErr result (self.new ≡ self.old) }
    {
        if map.is_empty() {
            return Ok(());
        }
        let text = map_text(self.alloc, map)?;
        self.put(String::from_str(self.alloc, name)?, text)
    }

    /// Puts the keys, unless there are none. Where that fails, the texts are as they were.
    pub fn put_keys(&mut self, keys: &NameMap<KeyID, PublicKey>) -> Result<(), JsonError>
        ensures written { PutsText (put_pairs text_name key_json (codes "keys") keys.now.entries)
            result self.old self.new }
        ensures back { OnOk result (AreBack text_name text_named key_json key_in keys.now.entries) }
        ensures kept { OnErr result (self.new ≡ self.old) }
    {
        self.put_map("keys", keys)
    }

    /// How many bytes the text of the object has, or a few more, where no name has to be escaped.
    fn room(&self) -> usize
        ensures { result ≤ room_of self.now }
    {
        let mut room = 2_usize;
        'members: for (name, text) in self.texts.iter() {
            room = room.saturating_add(name.len()).saturating_add(text.len());
            room = room.saturating_add(4);
        }
        room
    }

    /// The text of the object, with no space. The error is `OutOfMemory`.
    pub fn text(&self) -> Result<String, JsonError>
        ensures ok { IfOk result (λ s. (ms : Members) → self.now ≡ texts_of ms →
            string_bytes s ≡ compact_text
            (object ms)) }
        ensures err { IfErr result (λ e. e ≡ fault.OutOfMemory) }
    {
        let mut text = String::with_capacity(self.alloc, self.room())?;
        text.push('{')?;
        let mut later = false;
        'members: for (name, value) in self.texts.iter() {
            push_member(self.alloc, &mut text, later, name.as_str(), value.as_str())?;
            later = true;
        }
        text.push('}')?;
        Ok(text)
    }
}
