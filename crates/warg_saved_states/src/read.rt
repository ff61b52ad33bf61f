//! What is asked of a text of JSON. What is not asked for is passed over: its grammar is checked, and nothing is made
//! of it.
ghost use Rattle.std.specs.Prelude.{Err, IfErr, IfOk, None, OnOk, Some, ◌<◌, ◌≡◌, ◌≤◌, ◌⊎◌, length};
ghost use Rattle.json.specs.Json.{members, value};
ghost use Rattle.serde_json.specs.Data.{Data, Members, no_members, null, put};
ghost use Rattle.serde_json.specs.Read.{converted, of_json, of_members, read};
ghost use Rattle.serde_json.specs.View.{members_view, view};
ghost use Rattle.warg_crypto.specs.Json.Pairs.{names_of};
ghost use Rattle.warg_saved_states.specs.Asked.{AreAskedOf, IsAskedOf, IsAskedOfText, IsTaken, is_asked, texts};

use crate::error::{JsonTextError, ReadFault};
use crate::number::number_of;
use crate::pass::{pass_items, pass_members, pass_value};
use json::{Reader, Scratch, Token};
use serde_json::{Map, Value};
use std::alloc::Global;

/// How deep the arrays and objects of a text nest at most.
pub(crate) const MAX_DEPTH: usize = 127;

/// Whether the name is asked for.
pub(crate) fn is_asked(asked: &[&str], name: &str) -> bool
    ensures { result ≡ is_asked (texts asked.now) name.now }
{
    asked.contains(&name)
}

/// Puts the value under a copy of the name.
fn put_copy(
    alloc: Global,
    name: &str,
    value: Value,
    found: &mut Map<String, Value>,
) -> Result<(), ReadFault>
    ensures ok { OnOk result (members_view found.new.entries ≡
        put name.now (view value) (members_view found.old.entries)) }
    ensures err { IfErr result (λ e. e ≡ ReadFault.OutOfMemory) }
{
    let name = String::from_str(alloc, name)?;
    drop(found.insert(name, value)?);
    Ok(())
}

/// Puts null under the name, where fewer than two members stand.
pub(crate) fn count_name(
    alloc: Global,
    name: &str,
    found: &mut Map<String, Value>,
) -> Result<(), ReadFault>
    ensures few { OnOk result (length (names_of (members_view found.old.entries)) < 2
        → members_view found.new.entries ≡ put name.now null (members_view found.old.entries)) }
    ensures many { OnOk result (2 ≤ length (names_of (members_view found.old.entries))
        → members_view found.new.entries ≡ members_view found.old.entries) }
    ensures err { IfErr result (λ e. e ≡ ReadFault.OutOfMemory) }
{
    if found.len() >= 2 {
        return Ok(());
    }
    put_copy(alloc, name, Value::Null, found)?;
    Ok(())
}

/// What is asked of the value that comes next, whose arrays and objects may nest that deep: of an object the members of
/// those names, as far as that many objects inside one another.
#[cycle(read)]
pub fn read_value(
    alloc: Global,
    reader: &mut Reader<'_>,
    depth: usize,
    asked: &[&str],
    levels: usize,
) -> Result<Value, ReadFault>
    ensures ok { IfOk result (λ v. (d : Data)
        × (converted of_json (value depth reader.old) ≡ Some (d, reader.new))
        × IsAskedOf (texts asked.now) levels d (view v)) }
    ensures shorter { OnOk result (length reader.new < length reader.old) }
    ensures err { result ≡ Err ReadFault.NotJson →
        converted of_json (value depth reader.old) ≡ None }
{
    let token = reader.next().ok_or(ReadFault::NotJson)?;
    match token {
        Token::String(text) => Ok(Value::String(String::from_str(alloc, text)?)),
        Token::Number(text) => match number_of(text) {
            Some(number) => Ok(Value::Number(number)),
            None => Err(ReadFault::NotJson),
        },
        Token::Bool(truth) => Ok(Value::Bool(truth)),
        Token::Null => Ok(Value::Null),
        Token::EndObject | Token::EndArray | Token::Key(_) | Token::Bad => Err(ReadFault::NotJson),
        Token::BeginArray => {
            if depth == 0 {
                return Err(ReadFault::NotJson);
            }
            pass_items(reader, depth - 1)?;
            let none = Vec::new(alloc);
            Ok(Value::Array(none))
        }
        Token::BeginObject => {
            if depth == 0 {
                return Err(ReadFault::NotJson);
            }
            let found = read_members(alloc, reader, depth - 1, asked, levels)?;
            Ok(Value::Object(found))
        }
    }
}

/// What is asked of the members that come next, up to the end of their object.
#[cycle(read)]
fn read_members(
    alloc: Global,
    reader: &mut Reader<'_>,
    depth: usize,
    asked: &[&str],
    levels: usize,
) -> Result<Map<String, Value>, ReadFault>
    ensures ok { IfOk result (λ m. (ms : Members)
        × (converted (λ js. of_members js no_members)
        (members (value depth) (length reader.old) reader.old) ≡ Some (ms, reader.new))
        × AreAskedOf (texts asked.now) levels ms (members_view m.entries)) }
    ensures shorter { OnOk result (length reader.new < length reader.old) }
    ensures err { result ≡ Err ReadFault.NotJson → converted (λ js. of_members js no_members)
        (members (value depth) (length reader.old) reader.old) ≡ None }
{
    let mut found = Map::new(alloc);
    if levels == 0 {
        pass_members(reader, depth)?;
        return Ok(found);
    }
    'members: while let Some(name) = reader.next_key()? {
        take_next(alloc, reader, depth, asked, levels - 1, name, &mut found)?;
    }
    Ok(found)
}

/// Takes the value that comes next, if its name is asked for. Any other is passed over, and of the first two the names
/// are kept, so that an object with one member can be told.
#[cycle(read)]
pub(crate) fn take_next(
    alloc: Global,
    reader: &mut Reader<'_>,
    depth: usize,
    asked: &[&str],
    levels: usize,
    name: &str,
    found: &mut Map<String, Value>,
) -> Result<(), ReadFault>
    ensures ok { OnOk result ((d : Data)
        × (converted of_json (value depth reader.old) ≡ Some (d, reader.new))
        × IsTaken (texts asked.now) levels name.now d
        (members_view found.old.entries) (members_view found.new.entries)) }
    ensures shorter { OnOk result (length reader.new < length reader.old) }
    ensures err { result ≡ Err ReadFault.NotJson →
        converted of_json (value depth reader.old) ≡ None }
{
    if !is_asked(asked, name) {
        pass_value(reader, depth)?;
        count_name(alloc, name, found)?;
        return Ok(());
    }
    let value = read_value(alloc, reader, depth, asked, levels)?;
    put_copy(alloc, name, value, found)?;
    Ok(())
}

/// What is asked of the text's JSON: of an object the members of those names, as far as that many objects inside one
/// another. The fault is as of the whole text, also where it lies in what is passed over.
pub fn read_asked(
    alloc: Global,
    text: &str,
    asked: &[&str],
    levels: usize,
) -> Result<Value, JsonTextError>
    ensures ok { IfOk result (λ v. IsAskedOfText (texts asked.now) levels text.now (view v)) }
    ensures err { IfErr result (λ e. (e ≡ JsonTextError.OutOfMemory)
        ⊎ ((e ≡ JsonTextError.NotJson) × (read text.now ≡ None))) }
{
    let mut scratch = Scratch::new(alloc);
    let Ok(mut reader) = Reader::new(text, &mut scratch) else {
        return Err(JsonTextError::OutOfMemory);
    };
    let value = read_value(alloc, &mut reader, MAX_DEPTH, asked, levels)?;
    if reader.next().is_some() {
        return Err(JsonTextError::NotJson);
    }
    Ok(value)
}
