//! JSON of what a namespace is.
ghost use Rattle.std.specs.Prelude.{◌≡◌, ◌==◌, [], length, string_bytes};
ghost use Rattle.serde_json.specs.View.{members_view, view};
ghost use Rattle.warg_crypto.specs.Json.Json.{Returns, ReturnsOrNoMemory};
ghost use Rattle.warg_crypto.specs.Json.Pairs.{names_of};
ghost use Rattle.warg_operator_log.specs.CanonicalNamespaces.{namespace_canonical};
ghost use Rattle.warg_operator_log.specs.NamespaceJson.{defined_in, imported_in, namespace_in, namespace_json, only_imported, saved_namespace_in, saved_namespace_json};
ghost use Rattle.warg_operator_log.specs.NamespaceMap.{namespace_view};
ghost use Rattle.warg_operator_log.specs.Namespaces.{Namespace};
ghost use Rattle.warg_operator_log.specs.SameNamespaceLaws.{namespace_decides};
ghost use Rattle.warg_saved_states.specs.Next.{ReadsNext};
ghost use Rattle.warg_saved_states.specs.Writes.{WritesText};

use crate::namespace::NamespaceState;
use serde_json::{Map, Value};
use std::alloc::Global;
use warg_crypto::json::members::{
    member_in, object_value, put_member, put_value, text_in, text_value,
};
use warg_crypto::json::{JsonError, JsonValue};
use warg_saved_states::{ReadFault, Reader, SavedValue, Writer, read_value, unless_no_memory};

/// The JSON of an imported namespace.
fn imported_value(alloc: Global, registry: &str) -> Result<Value, JsonError>
    ensures { ReturnsOrNoMemory view result (namespace_json (Namespace.Imported registry.now)) }
{
    let mut inner = Map::new(alloc);
    let registry = text_value(alloc, registry)?;
    put_member(&mut inner, alloc, "registry", registry)?;
    let mut members = Map::new(alloc);
    put_member(&mut members, alloc, "imported", object_value(inner))?;
    Ok(object_value(members))
}

/// The JSON of what the namespace is.
fn namespace_value(alloc: Global, state: &NamespaceState) -> Result<Value, JsonError>
    ensures { ReturnsOrNoMemory view result (namespace_json (namespace_view state.now)) }
{
    match state {
        NamespaceState::Defined => text_value(alloc, "defined"),
        NamespaceState::Imported { registry } => imported_value(alloc, registry.as_str()),
    }
}

/// What the text of a namespace says.
fn defined_in(text: &str) -> Result<NamespaceState, JsonError>
    ensures { Returns namespace_view result (defined_in text.now) }
{
    if text == "defined" {
        return Ok(NamespaceState::Defined);
    }
    Err(JsonError::BadText)
}

/// Whether there is one member.
fn is_one(members: &Map<String, Value>) -> bool
    ensures { result ≡ (length (names_of (members_view members.now.entries)) == 1) }
{
    members.len() == 1
}

/// The value of the member `imported`, where it is the only one, else `BadText`.
fn only_imported<'v>(value: &'v Value, members: &Map<String, Value>) -> Result<&'v Value, JsonError>
    ensures { Returns (λ v. view v.now) result
        (only_imported (view value.now) (members_view members.now.entries)) }
{
    if !is_one(members) {
        return Err(JsonError::BadText);
    }
    member_in(value, "imported").map_err(|_| JsonError::BadText)
}

/// What the object of a namespace says.
fn imported_in(
    alloc: Global,
    value: &Value,
    members: &Map<String, Value>,
) -> Result<NamespaceState, JsonError>
    ensures { ReturnsOrNoMemory namespace_view result
        (imported_in (view value.now) (members_view members.now.entries)) }
{
    let imported = only_imported(value, members)?;
    let registry = text_in(member_in(imported, "registry")?)?;
    Ok(NamespaceState::Imported {
        registry: String::from_str(alloc, registry)?,
    })
}

/// What the namespace is, by a text or an object.
fn namespace_of(alloc: Global, value: &Value) -> Result<NamespaceState, JsonError>
    ensures { ReturnsOrNoMemory namespace_view result (namespace_in (view value.now)) }
{
    if let Some(text) = value.as_str() {
        return defined_in(text);
    }
    let Some(members) = value.as_object() else {
        return Err(JsonError::WrongType);
    };
    imported_in(alloc, value, members)
}

impl JsonValue for NamespaceState {
    ghost Plain = { Namespace };

    ghost plain = { namespace_view };

    ghost writes = { namespace_json };

    ghost reads = { namespace_in };

    ghost versions = { λ _. [] };

    ghost equivalent = { λ x y. x ≡ y };

    ghost equivalent_equal = { λ _ x y h. (namespace_decides (namespace_view x) (namespace_view y)).1 h };

    ghost versions_written = { λ x d h. tt };

    ghost versions_read = { λ x d h. tt };

    fn to_value(&self, alloc: Global) -> Result<Value, JsonError> {
        namespace_value(alloc, self)
    }

    fn from_value(alloc: Global, value: &Value) -> Result<NamespaceState, JsonError> {
        namespace_of(alloc, value)
    }
}

/// The JSON of a namespace in a state.
fn saved_value(alloc: Global, state: &NamespaceState) -> Result<Value, JsonError>
    ensures { ReturnsOrNoMemory view result (saved_namespace_json (namespace_view state.now)) }
{
    let mut members = Map::new(alloc);
    put_value(&mut members, alloc, "state", state)?;
    Ok(object_value(members))
}

/// Writes the JSON of an imported namespace.
fn write_imported(registry: &str, out: &mut Writer) -> Result<(), JsonError>
    ensures { WritesText result out.old out.new (namespace_json (Namespace.Imported registry.now)) }
{
    out.begin_object()?;
    out.key("imported")?;
    out.begin_object()?;
    out.key("registry")?;
    out.string(registry)?;
    out.end_object()?;
    out.end_object()?;
    Ok(())
}

/// Writes the JSON of what the namespace is.
fn write_namespace(state: &NamespaceState, out: &mut Writer) -> Result<(), JsonError>
    ensures { WritesText result out.old out.new (namespace_json (namespace_view state.now)) }
{
    match state {
        NamespaceState::Defined => {
            out.string("defined")?;
            Ok(())
        }
        NamespaceState::Imported { registry } => write_imported(registry.as_str(), out),
    }
}

/// Writes the JSON of a namespace in a state.
fn write_saved(state: &NamespaceState, out: &mut Writer) -> Result<(), JsonError>
    ensures { WritesText result out.old out.new (saved_namespace_json (namespace_view state.now)) }
{
    out.begin_object()?;
    out.key("state")?;
    write_namespace(state, out)?;
    out.end_object()?;
    Ok(())
}

/// The namespace of a state's JSON.
fn saved_state(alloc: Global, value: &Value) -> Result<NamespaceState, JsonError>
    ensures { ReturnsOrNoMemory namespace_view result (saved_namespace_in (view value.now)) }
{
    NamespaceState::from_value(alloc, member_in(value, "state")?)
}

/// The namespace of the JSON that comes next, of which the members of these names are asked for.
fn next_state(
    alloc: Global,
    reader: &mut Reader<'_>,
    depth: usize,
) -> Result<Result<NamespaceState, JsonError>, ReadFault>
    ensures { ReadsNext namespace_view saved_namespace_in depth result reader.old reader.new }
{
    let asked = ["state", "imported", "registry"];
    match read_value(alloc, reader, depth, &asked, 3) {
        Ok(json) => unless_no_memory(saved_state(alloc, &json)),
        Err(fault) => Err(fault),
    }
}

impl SavedValue for NamespaceState {
    ghost Plain = { Namespace };

    ghost plain = { namespace_view };

    ghost writes = { saved_namespace_json };

    ghost reads = { saved_namespace_in };

    ghost versions = { λ _. [] };

    ghost canonical = { namespace_canonical };

    fn can_save(&self) -> Result<(), JsonError> {
        Ok(())
    }

    fn save(&self, alloc: Global) -> Result<Value, JsonError> {
        saved_value(alloc, self)
    }

    fn write(&self, _alloc: Global, out: &mut Writer) -> Result<(), JsonError> {
        write_saved(self, out)
    }

    fn load(alloc: Global, value: &Value) -> Result<NamespaceState, JsonError> {
        saved_state(alloc, value)
    }

    fn read_next(
        alloc: Global,
        reader: &mut Reader<'_>,
        depth: usize,
    ) -> Result<Result<NamespaceState, JsonError>, ReadFault> {
        next_state(alloc, reader, depth)
    }
}
