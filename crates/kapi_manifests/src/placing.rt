//! Objects that leave out what is known of them: their namespace, or the kind of a list's items.
ghost use Rattle.std.specs.Prelude.{◌≡◌, IfOk, Some, codes};
ghost use Rattle.serde_json.specs.Data.{object, string, no_members, put as put_member};
ghost use Rattle.serde_json.specs.Find.{get};
ghost use Rattle.serde_json.specs.View.{view, members_view};
ghost use Rattle.kapi_manifests.specs.Sorting as sorting;
ghost use Rattle.kapi_manifests.specs.Sorting.{members_of};
ghost use Rattle.kapi_manifests.specs.Made.{namespace_of};

use kapi_text::Memory;
use serde_json::{Map, Value, put};
use std::alloc::Global;

/// The object, in that namespace.
#[tactic(auto, unfolding(crate::specs::Sorting::placed))]
pub fn placed(alloc: Global, namespace: &str, tree: Value) -> Result<Value, Memory>
    ensures { IfOk result (λ v. view v ≡ sorting.placed namespace.now (view tree)) }
{
    let metadata = metadata_in(alloc, namespace, &tree)?;
    let members = into_members(alloc, tree);
    with_member(alloc, members, "metadata", metadata)
}

/// The metadata of an object, with that namespace.
fn metadata_in(alloc: Global, namespace: &str, tree: &Value) -> Result<Value, Memory>
    ensures { IfOk result (λ v. view v ≡ object (put_member (codes "namespace") (string namespace.now) (members_of (get (codes "metadata") (view tree.now))))) }
{
    let members = match tree.get("metadata") {
        Some(metadata) => into_members(alloc, metadata.clone()?),
        None => Map::new(alloc),
    };
    with_text(alloc, members, "namespace", namespace)
}

/// The object, of that kind and version.
#[tactic(auto, unfolding(crate::specs::Sorting::named))]
pub fn named(alloc: Global, kind: &str, version: &str, tree: Value) -> Result<Value, Memory>
    ensures { IfOk result (λ v. view v ≡ sorting.named kind.now version.now (view tree)) }
{
    let mut members = into_members(alloc, tree);
    let version = Value::String(String::from_str(alloc, version)?);
    put(&mut members, alloc, "apiVersion", version)?;
    with_text(alloc, members, "kind", kind)
}

/// The members of an object; none of anything else.
fn into_members(alloc: Global, value: Value) -> Map<String, Value>
    ensures { members_view result.entries ≡ members_of (Some (view value)) }
{
    match value {
        Value::Object(members) => members,
        _other => Map::new(alloc),
    }
}

/// The object of members and one more.
fn with_member(
    alloc: Global,
    members: Map<String, Value>,
    key: &str,
    value: Value,
) -> Result<Value, Memory>
    ensures { IfOk result (λ v. view v ≡ object (put_member key.now (view value) (members_view members.entries))) }
{
    let mut members = members;
    put(&mut members, alloc, key, value)?;
    Ok(Value::Object(members))
}

/// The object of members and a text.
fn with_text(
    alloc: Global,
    members: Map<String, Value>,
    key: &str,
    text: &str,
) -> Result<Value, Memory>
    ensures { IfOk result (λ v. view v ≡ object (put_member key.now (string text.now) (members_view members.entries))) }
{
    let text = Value::String(String::from_str(alloc, text)?);
    with_member(alloc, members, key, text)
}

/// The namespace of that name, as an object.
#[tactic(auto, unfolding(crate::specs::Made::namespace_of))]
pub fn namespace_object(alloc: Global, name: &str) -> Result<Value, Memory>
    ensures { IfOk result (λ v. view v ≡ namespace_of name.now) }
{
    let metadata = with_text(alloc, Map::new(alloc), "name", name)?;
    let mut members = Map::new(alloc);
    let version = Value::String(String::from_str(alloc, "v1")?);
    let kind = Value::String(String::from_str(alloc, "Namespace")?);
    put(&mut members, alloc, "apiVersion", version)?;
    put(&mut members, alloc, "kind", kind)?;
    with_member(alloc, members, "metadata", metadata)
}
