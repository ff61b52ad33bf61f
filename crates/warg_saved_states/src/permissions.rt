//! Sets of permissions as lists of their names.
ghost use Rattle.std.specs.Prelude.{IfErr, IfOk, List, [], MatchResult, None, Some, ◌<◌, ◌≡◌, length};
ghost use Rattle.json.specs.Json.{items, value};
ghost use Rattle.serde_json.specs.Data.{Data, Items, item};
ghost use Rattle.serde_json.specs.Read.{converted, of_items};
ghost use Rattle.serde_json.specs.View.{items_view, view};
ghost use Rattle.warg_crypto.specs.Json.Json.{Returns, ReturnsOrNoMemory};
ghost use Rattle.warg_saved_states.specs.CanonicalLaws.{texts_canonical};
ghost use Rattle.warg_saved_states.specs.Next.{ReadsNext};
ghost use Rattle.warg_saved_states.specs.SavedPermissions.{permission_in, permissions_after, permissions_from, permissions_in, permissions_json};
ghost use Rattle.warg_saved_states.specs.Writes.{WritesText};

use crate::error::ReadFault;
use crate::pass::pass_from;
use crate::value::SavedValue;
use indexmap::IndexSet;
use json::{Reader, Token, Writer};
use serde_json::Value;
use std::alloc::Global;
use warg_crypto::json::JsonError;
use warg_crypto::json::members::{items_in, string_value, text_in};
use warg_permissions::LogPermission;

/// The permission of a value.
fn permission_in<P: LogPermission>(value: &Value) -> Result<P, JsonError>
    ensures { Returns (λ p. p) result (permission_in P.eq P.permission_named (view value.now)) }
{
    let text = text_in(value)?;
    P::from_text(text).ok_or(JsonError::BadText)
}

/// The permissions of the items.
fn permissions_of<P: LogPermission>(
    alloc: Global,
    items: &Vec<Value>,
) -> Result<IndexSet<P>, JsonError>
    ensures { ReturnsOrNoMemory (λ s. s.keys) result
        (permissions_from P.eq P.permission_named [] (items_view items.now.items)) }
{
    let mut set = IndexSet::new(alloc);
    'items: for value in items.iter() {
        let permission = permission_in::<P>(value)?;
        set.insert(permission)?;
    }
    Ok(set)
}

/// The list of the permissions' names.
fn permissions_value<P: LogPermission>(alloc: Global, set: &IndexSet<P>) -> Result<Value, JsonError>
    ensures { ReturnsOrNoMemory view result (permissions_json P.text_of set.now.keys) }
{
    let mut items = Vec::new(alloc);
    'permissions: for permission in set.iter() {
        let name = String::from_str(alloc, permission.as_text())?;
        items.push(string_value(name))?;
    }
    Ok(Value::Array(items))
}

/// Writes the list of the permissions' names.
fn write_permissions<P: LogPermission>(set: &IndexSet<P>, out: &mut Writer) -> Result<(), JsonError>
    ensures { WritesText result out.old out.new (permissions_json P.text_of set.now.keys) }
{
    out.begin_array()?;
    'permissions: for permission in set.iter() {
        out.string(permission.as_text())?;
    }
    out.end_array()?;
    Ok(())
}

/// The permission of the value that comes next.
fn next_permission<P: LogPermission>(
    reader: &mut Reader<'_>,
    depth: usize,
) -> Result<Result<P, JsonError>, ReadFault>
    ensures { ReadsNext (λ p. p) (permission_in P.eq P.permission_named) depth result
        reader.old reader.new }
{
    let Some(token) = reader.next() else {
        return Err(ReadFault::NotJson);
    };
    if let Token::String(text) = token {
        return Ok(P::from_text(text).ok_or(JsonError::BadText));
    }
    match pass_from(token, reader, depth) {
        Ok(()) => Ok(Err(JsonError::WrongType)),
        Err(_) => Err(ReadFault::NotJson),
    }
}

/// Puts a permission that was read into the set, unless there was a fault before. What is returned is the first fault.
fn take_permission<P: LogPermission>(
    set: &mut IndexSet<P>,
    found: Result<P, JsonError>,
    fault: Option<JsonError>,
) -> Result<Option<JsonError>, ReadFault>
    ensures ok { IfOk result (λ next. (d : Data) →
        Returns (λ p. p) found (permission_in P.eq P.permission_named d) → (ds : Items) →
        permissions_after P.eq P.permission_named fault set.old.keys (item d ds)
        ≡ permissions_after P.eq P.permission_named next set.new.keys ds) }
    ensures err { IfErr result (λ e. e ≡ ReadFault.OutOfMemory) }
{
    if fault.is_some() {
        return Ok(fault);
    }
    match found {
        Ok(permission) => {
            drop(set.insert(permission)?);
            Ok(None)
        }
        Err(fault) => Ok(Some(fault)),
    }
}

/// The permissions of the items that come next, up to the end of their array, or the first fault among them.
fn next_permissions<P: LogPermission>(
    alloc: Global,
    reader: &mut Reader<'_>,
    depth: usize,
) -> Result<Result<IndexSet<P>, JsonError>, ReadFault>
    ensures { MatchResult result (λ r. (ds : Items) × (length reader.new < length reader.old)
        × (converted of_items (items (value depth) (length reader.old) reader.old)
        ≡ Some (ds, reader.new))
        × Returns (λ s. s.keys) r (permissions_from P.eq P.permission_named [] ds))
        (λ e. e ≡ ReadFault.NotJson →
        converted of_items (items (value depth) (length reader.old) reader.old) ≡ None) }
{
    let mut set = IndexSet::new(alloc);
    let mut fault = None;
    'items: while !reader.take_end_array() {
        let found = next_permission::<P>(reader, depth)?;
        fault = take_permission(&mut set, found, fault)?;
    }
    match fault {
        None => Ok(Ok(set)),
        Some(fault) => Ok(Err(fault)),
    }
}

/// The permissions of the list that comes next.
fn next_set<P: LogPermission>(
    alloc: Global,
    reader: &mut Reader<'_>,
    depth: usize,
) -> Result<Result<IndexSet<P>, JsonError>, ReadFault>
    ensures { ReadsNext (λ s. s.keys) (permissions_in P.eq P.permission_named) depth result
        reader.old reader.new }
{
    let Some(token) = reader.next() else {
        return Err(ReadFault::NotJson);
    };
    if let Token::BeginArray = token {
        if depth == 0 {
            return Err(ReadFault::NotJson);
        }
        return next_permissions(alloc, reader, depth - 1);
    }
    match pass_from(token, reader, depth) {
        Ok(()) => Ok(Err(JsonError::WrongType)),
        Err(_) => Err(ReadFault::NotJson),
    }
}

impl<P: LogPermission> SavedValue for IndexSet<P> {
    ghost Plain = { List P };

    ghost plain = { λ s. s.keys };

    ghost writes = { permissions_json P.text_of };

    ghost reads = { permissions_in P.eq P.permission_named };

    ghost versions = { λ _. [] };

    ghost canonical = { λ ps. texts_canonical 124 P.text_of ps };

    fn can_save(&self) -> Result<(), JsonError> {
        let _permissions = self.iter();
        Ok(())
    }

    fn save(&self, alloc: Global) -> Result<Value, JsonError> {
        let _permissions = self.iter();
        permissions_value(alloc, self)
    }

    fn write(&self, _alloc: Global, out: &mut Writer) -> Result<(), JsonError> {
        write_permissions(self, out)
    }

    fn load(alloc: Global, value: &Value) -> Result<IndexSet<P>, JsonError> {
        permissions_of::<P>(alloc, items_in(value)?)
    }

    fn read_next(
        alloc: Global,
        reader: &mut Reader<'_>,
        depth: usize,
    ) -> Result<Result<IndexSet<P>, JsonError>, ReadFault> {
        next_set(alloc, reader, depth)
    }
}
