//! The parts of JSON values: texts, items of arrays, and members of objects, which are looked up and put.

ghost use Rattle.std.specs.Prelude.{◌≡◌, OnOk, OnErr, IfErr, Option, string_bytes};
ghost use Rattle.std.specs.Option.{option_map};
ghost use Rattle.serde_json.specs.Data.{Data, object, put, string};
ghost use Rattle.serde_json.specs.View.{items_view, members_view, view};
ghost use Rattle.warg_crypto.specs.declared.json.error.JsonError.TheVariants as fault;
ghost use Rattle.warg_crypto.specs.Json.Json.{Returns, AreReadBack, ReturnsOrNoMemory, ReadsBack, items_in, members_in, member_in, text_in, json_result};
ghost use Rattle.warg_crypto.specs.Json.Members.{optional, optional_member, put_json, put_option};

use crate::json::{JsonError, JsonValue};
use serde_json::{Map, Value};
use std::alloc::Global;

/// The text of a value that is one, else `WrongType`.
pub fn text_in(value: &Value) -> Result<&str, JsonError>
    ensures { Returns (λ s. s.now) result (text_in (view value.now)) }
{
    value.as_str().ok_or(JsonError::WrongType)
}

/// The items of a value that is an array, else `WrongType`.
pub fn items_in(value: &Value) -> Result<&Vec<Value>, JsonError>
    ensures { Returns (λ items. items_view items.now.items) result (items_in (view value.now)) }
{
    value.as_array().ok_or(JsonError::WrongType)
}

/// The members of a value that is an object, else `WrongType`.
pub fn members_in(value: &Value) -> Result<&Map<String, Value>, JsonError>
    ensures { Returns (λ m. members_view m.now.entries) result (members_in (view value.now)) }
{
    value.as_object().ok_or(JsonError::WrongType)
}

/// The member of that name. `WrongType`: the value is no object; `Missing`: it has no such member.
pub fn member_in<'v>(value: &'v Value, name: &str) -> Result<&'v Value, JsonError>
    ensures { Returns (λ v. view v.now) result (member_in name.now (view value.now)) }
{
    if !value.is_object() {
        return Err(JsonError::WrongType);
    }
    value.get(name).ok_or(JsonError::Missing)
}

/// The value that stands there, where none and null are none.
pub fn optional<T: JsonValue + Drop>(
    alloc: Global,
    value: Option<&Value>,
) -> Result<Option<T>, JsonError>
    ensures { ReturnsOrNoMemory (option_map T.plain) result
        (optional T.reads (option_map (λ v. view v.now) value.entry)) }
{
    let Some(value) = value else {
        return Ok(None);
    };
    if value.is_null() {
        return Ok(None);
    }
    Ok(Some(T::from_value(alloc, value)?))
}

/// The value of the member of that name, where a missing member and null are none. `WrongType`:
/// the value is no object.
pub fn optional_member<T: JsonValue + Drop>(
    alloc: Global,
    value: &Value,
    name: &str,
) -> Result<Option<T>, JsonError>
    ensures { ReturnsOrNoMemory (option_map T.plain) result
        (optional_member T.reads name.now (view value.now)) }
{
    let _members = members_in(value)?;
    optional::<T>(alloc, value.get(name))
}

/// Puts a member into an object that is being written. The error is `OutOfMemory`, and then the
/// object is as it was.
pub fn put_member(
    map: &mut Map<String, Value>,
    alloc: Global,
    name: &str,
    value: Value,
) -> Result<(), JsonError>
    ensures ok { OnOk result (members_view map.new.entries ≡ put name.now (view value)
        (members_view map.old.entries)) }
    ensures err { IfErr result (λ e. e ≡ fault.OutOfMemory) }
    ensures kept { OnErr result (members_view map.new.entries ≡ members_view map.old.entries) }
{
    let name = String::from_str(alloc, name)?;
    drop(map.insert(name, value)?);
    Ok(())
}

/// Puts the JSON of a value as a member. Where that fails, the object is as it was.
pub fn put_value<T: JsonValue>(
    map: &mut Map<String, Value>,
    alloc: Global,
    name: &str,
    value: &T,
) -> Result<(), JsonError>
    ensures written { ReturnsOrNoMemory (λ _. members_view map.new.entries) result
        (put_json T.writes name.now (T.plain value.now) (members_view map.old.entries)) }
    ensures back { AreReadBack (T.versions (T.plain value.now)) → OnOk result
        ((d : Data) × ReadsBack T.reads T.equivalent (T.plain value.now) d ×
        (members_view map.new.entries ≡ put name.now d (members_view map.old.entries))) }
    ensures kept { OnErr result (members_view map.new.entries ≡ members_view map.old.entries) }
{
    let json = value.to_value(alloc)?;
    put_member(map, alloc, name, json)
}

/// Puts the JSON of a value as a member, and nothing where there is none. Where that fails, the
/// object is as it was.
pub fn put_optional<T: JsonValue>(
    map: &mut Map<String, Value>,
    alloc: Global,
    name: &str,
    value: &Option<T>,
) -> Result<(), JsonError>
    ensures written { ReturnsOrNoMemory (λ _. members_view map.new.entries) result
        (put_option T.writes name.now (option_map T.plain value.now)
        (members_view map.old.entries)) }
    ensures kept { OnErr result (members_view map.new.entries ≡ members_view map.old.entries) }
{
    let Some(value) = value else {
        return Ok(());
    };
    put_value(map, alloc, name, value)
}

/// A string as JSON.
pub fn string_value(text: String) -> Value
    ensures { view result ≡ string (string_bytes text) }
{
    Value::String(text)
}

/// Members as JSON.
pub fn object_value(members: Map<String, Value>) -> Value
    ensures { view result ≡ object (members_view members.entries) }
{
    Value::Object(members)
}

/// A text as JSON. The error is `OutOfMemory`.
pub fn text_value(alloc: Global, text: &str) -> Result<Value, JsonError>
    ensures { ReturnsOrNoMemory view result (json_result (string text.now)) }
{
    Ok(string_value(String::from_str(alloc, text)?))
}
