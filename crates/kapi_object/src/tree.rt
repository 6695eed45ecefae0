ghost use Rattle.kapi_object.specs.Order.{is_ordered, in_order};
ghost use Rattle.std.specs.Prelude.{◌≡◌, ◌↔◌, true, IfOk, IfSome, IsTrue, OnOk, Some, codes, option_map, string_bytes};
ghost use Rattle.serde_json.specs.Find.{get, get_member};
ghost use Rattle.serde_json.specs.Data.{object, string, put as put_member};
ghost use Rattle.serde_json.specs.View.{view, members_view};
ghost use Rattle.kapi_object.specs.Tree.{metadata_member, member_of, members_or_none, put_if};
ghost use Rattle.kapi_object.specs.Tree as trees;
ghost use Rattle.kapi_object.specs.Tree.{without};

use kapi_text::Memory;
use serde_json::{Map, Value, put};
use std::alloc::Global;

/// The member of a key; null is as if the member were absent.
pub fn member<'a>(tree: &'a Value, key: &str) -> Option<&'a Value>
    ensures { option_map (λ v. view v.now) result ≡ member_of key.now (view tree.now) }
{
    match tree.get(key) {
        Some(Value::Null) => None,
        other => other,
    }
}

/// The members of an object; none of anything else.
pub fn into_members(alloc: Global, value: Value) -> Map<String, Value>
    ensures { members_view result.entries ≡ members_or_none (Some (view value)) }
{
    match value {
        Value::Object(members) => members,
        _other => Map::new(alloc),
    }
}

/// Whether an object has no members.
#[tactic(auto, using(crate::proofs::Bodies::no_entries))]
pub fn has_no_members(members: &Map<String, Value>) -> bool
    ensures { result ≡ trees.is_empty_object (object (members_view members.now.entries)) }
{
    members.len() == 0
}

/// The value at a key of the tree's `metadata`, if that is an object and has one.
pub fn in_metadata<'a>(tree: &'a Value, key: &str) -> Option<&'a Value>
    ensures { option_map (λ v. view v.now) result ≡ trees.in_metadata key.now (view tree.now) }
{
    tree.get("metadata")?.get(key)
}

/// The member of a key of the tree's `metadata`; null is as if the member were absent.
pub fn member_of_metadata<'a>(tree: &'a Value, key: &str) -> Option<&'a Value>
    ensures { option_map (λ v. view v.now) result ≡ metadata_member key.now (view tree.now) }
{
    member(tree.get("metadata")?, key)
}

/// Whether this text stands at a key of the tree's metadata.
pub(crate) fn has_text(tree: &Value, key: &str, text: &str) -> bool
    ensures { IsTrue result ↔ (trees.in_metadata key.now (view tree.now) ≡ Some (string text.now)) }
{
    match in_metadata(tree, key) {
        Some(Value::String(found)) => found.as_str() == text,
        _other => false,
    }
}

/// Takes the member of a key out.
fn take(members: &mut Map<String, Value>, key: &str) -> Option<Value>
    requires { in_order (members_view members.old.entries) ≡ true }
    ensures left { members_view members.new.entries ≡ without key.now (members_view members.old.entries) }
    ensures taken { option_map view result ≡ get_member key.now (members_view members.old.entries) }
{
    members.remove(key)
}

/// Takes the member of a key out, with its key.
fn take_entry(members: &mut Map<String, Value>, key: &str) -> Option<(String, Value)>
    requires { in_order (members_view members.old.entries) ≡ true }
    ensures left { members_view members.new.entries ≡ without key.now (members_view members.old.entries) }
    ensures key { IfSome result (λ p. string_bytes p.0 ≡ key.now) }
    ensures taken { option_map (λ p. view p.1) result ≡ get_member key.now (members_view members.old.entries) }
{
    members.remove_entry(key)
}

/// Takes the metadata out of the members of an object, with their key; without members if there are none.
pub fn take_metadata(
    alloc: Global,
    members: &mut Map<String, Value>,
) -> Result<(String, Map<String, Value>), Memory>
    requires { in_order (members_view members.old.entries) ≡ true }
    ensures left { OnOk result (members_view members.new.entries ≡ without (codes "metadata") (members_view members.old.entries)) }
    ensures key { IfOk result (λ p. string_bytes p.0 ≡ codes "metadata") }
    ensures taken { IfOk result (λ p. members_view p.1.entries ≡ members_or_none (get_member (codes "metadata") (members_view members.old.entries))) }
{
    match take_entry(members, "metadata") {
        Some((name, metadata)) => Ok((name, into_members(alloc, metadata))),
        None => Ok((String::from_str(alloc, "metadata")?, Map::new(alloc))),
    }
}

/// Puts a member in, whose key is not copied.
pub fn put_entry(members: &mut Map<String, Value>, key: String, value: Value) -> Result<(), Memory>
    ensures { OnOk result (members_view members.new.entries ≡ put_member (string_bytes key) (view value) (members_view members.old.entries)) }
{
    drop(members.insert(key, value)?);
    Ok(())
}

/// Sets the member of a key in its place; the key is copied only if it is new.
fn set_member(
    alloc: Global,
    members: &mut Map<String, Value>,
    key: &str,
    value: Value,
) -> Result<(), Memory>
    requires { in_order (members_view members.old.entries) ≡ true }
    ensures { OnOk result (members_view members.new.entries ≡ put_member key.now (view value) (members_view members.old.entries)) }
{
    match members.get_mut(key) {
        Some(place) => {
            *place = value;
            Ok(())
        }
        None => put(members, alloc, key, value),
    }
}

/// Sets a text among the members of an object; anything else becomes an object that has no other.
fn set_text(alloc: Global, tree: &mut Value, key: &str, text: String) -> Result<(), Memory>
    requires { in_order (members_or_none (Some (view tree.old))) ≡ true }
    ensures { OnOk result (view tree.new
        ≡ object (put_member key.now (string (string_bytes text)) (members_or_none (Some (view tree.old))))) }
{
    if let Value::Object(members) = tree {
        return set_member(alloc, members, key, Value::String(text));
    }
    let mut members = Map::new(alloc);
    put(&mut members, alloc, key, Value::String(text))?;
    *tree = Value::Object(members);
    Ok(())
}

/// The tree with one text set in its metadata; nothing of it is copied.
pub fn with_text(alloc: Global, tree: Value, key: &str, text: String) -> Result<Value, Memory>
    requires { is_ordered (view tree) ≡ true }
    ensures { IfOk result (λ v. view v ≡ trees.with_text key.now (string_bytes text) (view tree)) }
{
    let mut members = into_members(alloc, tree);
    match members.get_mut("metadata") {
        Some(metadata) => set_text(alloc, metadata, key, text)?,
        None => {
            let mut metadata = Value::Null;
            set_text(alloc, &mut metadata, key, text)?;
            put(&mut members, alloc, "metadata", metadata)?;
        }
    }
    Ok(Value::Object(members))
}

/// Puts the member of a key of the tree among others, if the tree has it.
fn put_from(
    alloc: Global,
    members: &mut Map<String, Value>,
    tree: &Value,
    key: &str,
) -> Result<(), Memory>
    ensures { OnOk result (members_view members.new.entries
        ≡ put_if key.now (get key.now (view tree.now)) (members_view members.old.entries)) }
{
    match tree.get(key) {
        Some(value) => put(members, alloc, key, value.clone()?),
        None => Ok(()),
    }
}

/// The object of the same version, kind and metadata that has these members beside them, and no other.
#[tactic(auto, unfolding(crate::specs::Tree::with_content))]
pub fn with_content(
    alloc: Global,
    tree: &Value,
    content: Map<String, Value>,
) -> Result<Value, Memory>
    ensures { IfOk result (λ v. view v ≡ trees.with_content (members_view content.entries) (view tree.now)) }
{
    let mut members = content;
    put_from(alloc, &mut members, tree, "apiVersion")?;
    put_from(alloc, &mut members, tree, "kind")?;
    put_from(alloc, &mut members, tree, "metadata")?;
    Ok(Value::Object(members))
}

/// The tree without the member of a key.
pub fn without_member(tree: Value, key: &str) -> Value
    requires { is_ordered (view tree) ≡ true }
    ensures { view result ≡ trees.without_member key.now (view tree) }
{
    match tree {
        Value::Object(mut members) => {
            drop(take(&mut members, key));
            Value::Object(members)
        }
        other => other,
    }
}

/// The tree with another's value at a key, and without the key if the other has none.
pub fn with_member_of(alloc: Global, tree: Value, key: &str, other: &Value) -> Result<Value, Memory>
    requires { is_ordered (view tree) ≡ true }
    ensures { IfOk result (λ v. view v ≡ trees.with_member_of key.now (view other.now) (view tree)) }
{
    let mut members = members_without(alloc, tree, key);
    put_from(alloc, &mut members, other, key)?;
    Ok(Value::Object(members))
}

/// The members of an object without the one of a key; none of anything else.
fn members_without(alloc: Global, tree: Value, key: &str) -> Map<String, Value>
    requires { is_ordered (view tree) ≡ true }
    ensures { members_view result.entries ≡ without key.now (members_or_none (Some (view tree))) }
{
    match tree {
        Value::Object(mut members) => {
            drop(take(&mut members, key));
            members
        }
        _other => Map::new(alloc),
    }
}
